//! The table of an expression.
ghost use Rattle.probe_words.specs.Words.{IsProperPattern};
ghost use Rattle.probe_words.specs.Twins.{pattern_of};
ghost use Rattle.probe_numbers.specs.PatternTables.{IsTableAnswer};

use probe_automata::{BuildFault, build};
use probe_words::{Expr, PositionsFault, ProbeTable, positions};
use std::alloc::Global;
use thiserror::Error;

/// Why an expression has no table.
#[derive(Clone, Copy, Debug, PartialEq, Eq, Error)]
pub enum TableFault {
    /// It has more than 63 positions, else more than 4 distinct guards, else more than 1,024 states.
    #[error("probe too large")]
    TooLarge,
    /// Memory ran out.
    #[error("out of memory")]
    Memory,
}

/// The table of the expression's positions, or why there is none.
///
/// The caller sees to it that repeat counts are from 0 to 63, the first at most the second, and labels below 64.
pub fn table_of(alloc: Global, expr: &Expr) -> Result<ProbeTable, TableFault>
    requires { IsProperPattern (pattern_of expr.now) }
    ensures { IsTableAnswer (pattern_of expr.now) result }
{
    let positions = match positions(alloc, expr) {
        Ok(positions) => positions,
        Err(PositionsFault::TooManyPositions) => return Err(TableFault::TooLarge),
        Err(PositionsFault::Memory) => return Err(TableFault::Memory),
    };
    match build(alloc, &positions) {
        Ok(table) => Ok(table),
        Err(BuildFault::TooManyGuards | BuildFault::TooManyStates) => Err(TableFault::TooLarge),
        Err(BuildFault::Memory) => Err(TableFault::Memory),
    }
}
