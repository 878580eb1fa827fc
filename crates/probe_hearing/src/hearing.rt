//! One transition of the component, as a watch hears it.
ghost use Rattle.std.specs.Prelude.{◌≡◌, ◌<◌, ◌^◌, ℕ, List, length, map};
ghost use Rattle.probe_words.specs.Twins.{condition_of};
ghost use Rattle.probe_words.specs.Words.{Pattern};
ghost use Rattle.probe_words.specs.Hearing.{ProbeEvent};
ghost use Rattle.probe_automata.specs.TableMoves.{valuation_of};
ghost use Rattle.probe_hearing.specs.Watching.{IsWatched};
ghost use Rattle.probe_hearing.specs.TableHearing.{heard_letter, heard_by, IsTableOfExpression, TableLeadsTo};

use probe_automata::table_next;
use probe_words::{Letter, ProbeTable};

/// What a watch has after a transition: the state of its table, and the signals of its own transition.
///
/// Bit l of `signals` is label l.
#[derive(Clone, Copy, Debug, PartialEq, Eq)]
pub struct Heard {
    pub state: u32,
    pub signals: u64,
}

// The number of the action `tau`, which no probe hears.
const TAU: u32 = 0;

/// One letter more.
fn hear_letter(table: &ProbeTable, valuation: u32, before: Heard, letter: Letter) -> Heard
    requires state { before.state < table.now.states }
    requires valuation { valuation < 2 ^ length table.now.guards }
    ensures answer { result ≡ heard_letter table.now valuation before letter }
    ensures inside { result.state < table.now.states }
{
    let answer = table_next(table, before.state, &letter, valuation);
    Heard {
        state: answer.state,
        signals: before.signals | answer.signals,
    }
}

/// What the watch at this state of its table makes of a transition of the component with this action and these signals.
///
/// The events are the action, unless it is `tau`, and then the members of `signals` in the order of their numbers. Bit j of the valuation
/// says that guard j holds for the counts before the transition. The caller sees to it that the state is one of the table and the
/// valuation below 2 to the number of guards.
pub fn hear_transition(
    table: &ProbeTable,
    state: u32,
    valuation: u32,
    action: u32,
    signals: u64,
) -> Heard
    requires state { state < table.now.states }
    requires valuation { valuation < 2 ^ length table.now.guards }
    ensures numbers { result ≡ heard_by table.now state valuation action signals }
    ensures inside { result.state < table.now.states }
    ensures words { (p : Pattern) (h : List ProbeEvent) (counts : List ℕ) →
        IsTableOfExpression p table.now → TableLeadsTo p table.now h state →
        valuation ≡ valuation_of counts (map condition_of table.now.guards) →
        (next : List ProbeEvent) × IsWatched p h action signals counts next result.signals
        × TableLeadsTo p table.now next result.state }
{
    let mut heard = Heard { state, signals };
    if action != TAU {
        heard = hear_letter(table, valuation, heard, Letter::Action(action));
    }
    let mut left = signals;
    while left != 0 {
        let label = left.trailing_zeros();
        heard = hear_letter(table, valuation, heard, Letter::Signal(label));
        left &= !(1u64 << label);
    }
    heard
}
