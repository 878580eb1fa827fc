//! What the table answers to an event.
ghost use Rattle.std.specs.Prelude.{◌≡◌, ◌+◌, ◌*◌, ◌<◌, ◌^◌, IfSome, length};
ghost use Rattle.probe_automata.specs.TableMoves.{letter_place, table_move};

use crate::distinct::is_same_letter;
use crate::table_move::Move;
use probe_words::{Letter, ProbeTable};

// In place of a target: the event is ignored.
const IGNORED: u16 = 65535;

/// The place of the letter among these.
fn place_of_letter(letters: &[Letter], letter: Letter) -> Option<usize>
    ensures place { result ≡ letter_place letter 0 letters.now }
    ensures within { IfSome result (λ at. at < length letters.now) }
{
    for (at, other) in letters.iter().enumerate() {
        if is_same_letter(*other, letter) {
            return Some(at);
        }
    }
    None
}

/// The index of the move of a state, a letter and a valuation.
fn move_index(table: &ProbeTable, state: u32, at: usize, valuation: u32) -> usize
    requires state { state < table.now.states }
    requires letter { at < length table.now.letters }
    requires valuation { valuation < 2 ^ length table.now.guards }
    ensures index { result ≡ state * (length table.now.letters * 2 ^ length table.now.guards) + (at * 2 ^ length table.now.guards + valuation) }
    ensures within { result < length table.now.moves }
{
    // There are fewer than 2^64 moves, so nothing here overflows.
    let _moves = table.moves.len();
    let width = 1usize << table.guards.len();
    state as usize * (table.letters.len() * width) + (at * width + valuation as usize)
}

/// The table's answer to an event at a state; bit j of the valuation says that guard j holds.
///
/// The caller sees to it that the state is one of the table and the valuation below 2 to the number of guards.
pub fn table_next(table: &ProbeTable, state: u32, letter: &Letter, valuation: u32) -> Move
    requires state { state < table.now.states }
    requires valuation { valuation < 2 ^ length table.now.guards }
    ensures answer { result ≡ table_move table.now state letter.now valuation }
    ensures inside { result.state < table.now.states }
{
    let ignored = Move {
        state,
        signals: 0,
        heard: false,
    };
    let Some(at) = place_of_letter(table.letters.as_slice(), *letter) else {
        return ignored;
    };
    let index = move_index(table, state, at, valuation);
    let target = table.moves.as_slice()[index];
    if target == IGNORED {
        return ignored;
    }
    Move {
        state: target as u32,
        signals: table.signals.as_slice()[target as usize],
        heard: true,
    }
}
