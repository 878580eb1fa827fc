//! The first bad count of a probe line.
ghost use Rattle.std.specs.Prelude.{◌≡◌};
ghost use Rattle.probe_reader.specs.ProbeTrees.{guard_node_of, probe_node_of};
ghost use Rattle.probe_numbers.specs.BadCounts.{IsBadNumber, IsBadRange, IsBadInGuard, BadCountAt, IsFirstIndex};

use crate::earlier::earlier;
use crate::whole::{GUARD_LIMIT, REPEAT_LIMIT, count_at};
use pepa_lexer::Token;
use probe_reader::{GuardTree, ProbeTree};

/// The index, if no whole number up to the limit is at it.
fn bad_number(tokens: &[Token], at: usize, limit: u32) -> Option<usize>
    ensures { IsFirstIndex (IsBadNumber tokens.now limit at) result }
{
    match count_at(tokens, at, limit) {
        Some(_) => None,
        None => Some(at),
    }
}

/// The least index of a bad count of a repeat from one number to another.
fn bad_range(tokens: &[Token], least: usize, most: usize) -> Option<usize>
    ensures { IsFirstIndex (IsBadRange tokens.now least most) result }
{
    let Some(from) = count_at(tokens, least, REPEAT_LIMIT) else {
        return earlier(Some(least), bad_number(tokens, most, REPEAT_LIMIT));
    };
    let Some(to) = count_at(tokens, most, REPEAT_LIMIT) else {
        return Some(most);
    };
    if from > to { Some(most) } else { None }
}

/// The least index of a bad count of a guard.
fn bad_in_guard(tokens: &[Token], tree: &GuardTree) -> Option<usize>
    ensures { IsFirstIndex (IsBadInGuard tokens.now (guard_node_of tree.now)) result }
{
    match tree {
        GuardTree::Count { number, .. } => bad_number(tokens, *number, GUARD_LIMIT),
        GuardTree::Both(left, right) => {
            earlier(bad_in_guard(tokens, left), bad_in_guard(tokens, right))
        }
        GuardTree::Either(left, right) => {
            earlier(bad_in_guard(tokens, left), bad_in_guard(tokens, right))
        }
        GuardTree::Not(inner) => bad_in_guard(tokens, inner),
    }
}

/// The least index of a bad count: a number of a repeat that isn't whole or is above 63, the second number of a repeat whose first
/// one is above it, or a number of a guard that isn't whole or is above 65,535.
///
/// A number is whole by its value: `2.0` is.
pub fn bad_count(tokens: &[Token], tree: &ProbeTree) -> Option<usize>
    ensures { IsFirstIndex (BadCountAt tokens.now (probe_node_of tree.now)) result }
{
    match tree {
        ProbeTree::One(_) => None,
        ProbeTree::Then(left, right) => earlier(bad_count(tokens, left), bad_count(tokens, right)),
        ProbeTree::Or(left, right) => earlier(bad_count(tokens, left), bad_count(tokens, right)),
        ProbeTree::Label(inner, _) => bad_count(tokens, inner),
        ProbeTree::Star(inner) => bad_count(tokens, inner),
        ProbeTree::Plus(inner) => bad_count(tokens, inner),
        ProbeTree::Maybe(inner) => bad_count(tokens, inner),
        ProbeTree::Times(inner, number) => earlier(
            bad_count(tokens, inner),
            bad_number(tokens, *number, REPEAT_LIMIT),
        ),
        ProbeTree::Between(inner, least, most) => earlier(
            bad_count(tokens, inner),
            bad_range(tokens, *least, *most),
        ),
        ProbeTree::Reset(inner, _) => bad_count(tokens, inner),
        ProbeTree::Guarded(guard, inner) => {
            earlier(bad_in_guard(tokens, guard), bad_count(tokens, inner))
        }
    }
}
