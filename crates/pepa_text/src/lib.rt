//! The texts of rates, names, sets, components, systems and terms, in the text of a model and in that of transitions.
//!
//! Each function appends its text to bytes, and keeps the bytes before it where memory runs out:
//!
//! ```text
//! 3/2   2*infty                                    rates
//! (a, 3/2).(b, 2*infty).P + (c, 1).Q               components
//! ||   <a,b>   /{c}                                the signs of cooperations and hidings
//! P <a,b> (Q || R)/{c}                             systems and terms
//! ```
//!
//! Brackets are where the tree isn't that of the plain text: round a choice after `.` and `+`, round a cooperation after
//! the sign of another, and round what is hidden if it is neither a constant nor a hiding.
#![tactic(auto)]

mod components;
mod names;
mod rates;
mod sets;
mod systems;
mod terms;
mod text;

pub use components::push_expression;
pub use names::{push_action, push_constant};
pub use rates::push_rate;
pub use sets::{push_hiding, push_sign};
pub use systems::push_shape;
pub use terms::push_term;
pub use text::{push_bracket, push_text};
