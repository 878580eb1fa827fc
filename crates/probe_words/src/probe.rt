//! Probes and their tables.
ghost use Rattle.std.specs.Prelude.{length};
ghost use Rattle.probe_words.specs.TableShape.{HasTableShape};

use crate::expression::Expr;
use crate::guard::{Guards, copy_guards};
use crate::letter::Letters;
use crate::position_list::{Words16, Words32, Words64};
use std::alloc::{AllocError, Global};

/// The table of a probe: what each state does at each event.
///
/// `moves` has one target state for each state, letter and valuation of the guards, ordered by state, then by letter, then by
/// valuation, and 65,535 where the event is ignored. Bit j of a valuation says that guard j holds. `signals` has one set of labels
/// for each state, those that are sent when it is entered.
#[derive(Debug, Drop)]
pub struct ProbeTable {
    pub states: u32,
    pub letters: Letters,
    pub guards: Guards,
    pub moves: Words16,
    pub signals: Words64,
    pub ghost shape: { HasTableShape states (length letters) (length guards) moves signals },
}

/// A probe of a model: what it watches, its expression, and its table.
///
/// `target` is a constant's number, or None for the whole system. `counted` are the numbers of the leaves that its guards count.
#[derive(Debug, Drop)]
pub struct Probe {
    pub target: Option<u32>,
    pub copy: u32,
    pub expr: Expr,
    pub counted: Words32,
    pub table: ProbeTable,
}

impl ProbeTable {
    ghost use Rattle.std.specs.Prelude.{IfOk};
    ghost use Rattle.probe_words.specs.ProbeTables.{SameTable};

    /// An equal table.
    pub fn copy(&self, alloc: Global) -> Result<ProbeTable, AllocError>
        ensures { IfOk result (λ table. SameTable table self.now) }
    {
        let letters = Letters::from_slice(alloc, self.letters.as_slice())?;
        let guards = copy_guards(alloc, self.guards.as_slice())?;
        let moves = Words16::from_slice(alloc, self.moves.as_slice())?;
        let signals = Words64::from_slice(alloc, self.signals.as_slice())?;
        Ok(ProbeTable {
            states: self.states,
            letters,
            guards,
            moves,
            signals,
        })
    }
}

impl Probe {
    ghost use Rattle.std.specs.Prelude.{IfOk};
    ghost use Rattle.probe_words.specs.ProbeTables.{SameProbe};

    /// An equal probe.
    pub fn copy(&self, alloc: Global) -> Result<Probe, AllocError>
        ensures { IfOk result (λ probe. SameProbe probe self.now) }
    {
        let expr = self.expr.copy(alloc)?;
        let counted = Words32::from_slice(alloc, self.counted.as_slice())?;
        let table = self.table.copy(alloc)?;
        Ok(Probe {
            target: self.target,
            copy: self.copy,
            expr,
            counted,
            table,
        })
    }
}
