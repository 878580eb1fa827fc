//! The model of a text, for tests and measurements: small texts that are known to be models.
#![tactic(auto)]

mod model_text;

pub use model_text::model_of;
