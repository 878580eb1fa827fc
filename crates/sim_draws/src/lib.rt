//! Random draws as functions of numbers: numbered streams of ChaCha12, the exponential draw after von Neumann, and a
//! fair choice below a bound.
//!
//! What is drawn from is any [`Numbers`]: a [`Stream`], or numbers that are [`Listed`]. No call but `Listed::make` takes
//! memory.
#![tactic(auto)]

pub mod laws;
mod listed;
mod numbers;
mod rejection;
mod stream;
mod von_neumann;

pub use listed::Listed;
pub use numbers::{DrawLimit, Numbers};
pub use rejection::below;
pub use stream::Stream;
pub use von_neumann::exponential;
