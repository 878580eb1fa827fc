//! Numbers for keys: each key gets one number, whichever pass asks for it and whenever, and no call waits for another.
#![tactic(auto)]

mod interning;
pub mod laws;
mod looking;

pub use interning::{Full, intern, intern_counted};
pub use looking::key_of;
