//! A model of any size: users who ask and wait, and servers who reply.
//!
//! There is one server for every four users, rounded up, and a probe that hears how long a user
//! waits. The text for one user ends with
//!
//! ```text
//! probe Idle :: ask:start, reply:stop;
//! Idle <ask,reply> (Free)
//! ```
#![tactic(auto)]

mod making;

pub use making::{is_made_size, make_model};
