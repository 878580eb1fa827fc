//! Words of probe expressions, the positions of an expression, guards, and what a probe and its table are.
#![tactic(auto)]

mod bit_sets;
mod expression;
mod guard;
pub mod laws;
mod laying;
mod letter;
mod numbering;
mod position_list;
mod probe;
mod work;

pub use bit_sets::{has, with};
pub use expression::Expr;
pub use guard::{Guard, Guards, Relation, copy_guards};
pub use letter::{Letter, Letters};
pub use numbering::positions;
pub use position_list::{
    Position, PositionList, Positions, PositionsFault, Words16, Words32, Words64,
};
pub use probe::{Probe, ProbeTable};
