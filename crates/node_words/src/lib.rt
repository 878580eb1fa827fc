//! Nodes of terms as the keys of an interner, and transitions as the words of its lists: packing both ways.
#![tactic(auto)]

mod entries;
mod keys;
pub mod laws;
mod node;

pub use entries::{pack_entry, unpack_entry};
pub use keys::{pack_key, unpack_key};
pub use node::{CodeStep, Node};
