//! How a private function ends that answers no value: a fault, or want of memory.
#![tactic(auto)]

mod end;

pub use end::End;
