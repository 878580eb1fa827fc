//! The labels that are sent when a state is entered.
ghost use Rattle.std.specs.Prelude.{◌≤◌, length, IfOk};
ghost use Rattle.probe_automata.specs.Signals.{AreLabelsOf, AreSignals};

use indexmap::IndexSet;
use probe_words::{Position, Words64, has};
use std::alloc::{AllocError, Global};

/// The labels of the positions of a set.
fn labels_of(each: &[Position], set: u64) -> u64
    requires { length each.now ≤ 63 }
    ensures { AreLabelsOf each.now set result }
{
    let mut labels = 0u64;
    for (at, position) in each.iter().enumerate() {
        if has(set, at) {
            labels |= position.labels;
        }
    }
    labels
}

/// The labels of each of the sets in order.
pub(crate) fn signals_of(
    alloc: Global,
    each: &[Position],
    sets: &IndexSet<u64>,
) -> Result<Words64, AllocError>
    requires { length each.now ≤ 63 }
    ensures { IfOk result (λ signals. AreSignals each.now sets.now.keys signals) }
{
    let mut signals = Words64::new(alloc);
    let mut state = 0;
    while let Some(set) = sets.get_index(state) {
        signals.push(labels_of(each, *set))?;
        state += 1;
    }
    Ok(signals)
}
