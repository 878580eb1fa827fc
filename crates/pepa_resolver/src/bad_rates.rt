//! The refused rate that begins first.

ghost use Rattle.std.specs.Prelude.{◌≡◌, map, Some, slice_get};
ghost use Rattle.pepa_reader.specs.Trees.{rate_line_of};
ghost use Rattle.pepa_resolver.specs.Outcomes.{BadAt};
ghost use Rattle.pepa_resolver.specs.Values.{outcome_of};
ghost use Rattle.pepa_resolver.specs.FirstBad.{IsEarliest, earlier_of, refusal_from, BadLine};

use crate::values::{RateValue, Unvalued};
use pepa_reader::RateLine;

/// A refused rate: the index of the token at which its line or its activity begins, and that of the token at which it is
/// refused.
#[derive(Clone, Copy, Debug)]
pub(crate) struct BadRate {
    pub(crate) start: usize,
    pub(crate) at: usize,
}

/// The one that begins first.
pub(crate) fn earlier(first: Option<BadRate>, second: Option<BadRate>) -> Option<BadRate>
    ensures { result ≡ earlier_of first second }
{
    match (first, second) {
        (None, _) => second,
        (_, None) => first,
        (Some(one), Some(other)) => Some(if other.start < one.start { other } else { one }),
    }
}

/// The refusal of a rate that begins at this index, if it is refused.
pub(crate) fn refused(start: usize, value: RateValue) -> Option<BadRate>
    ensures { result ≡ refusal_from start (outcome_of value) }
{
    match value {
        Ok(_) => None,
        Err(Unvalued::NoValue) => None,
        Err(Unvalued::BadAt(at)) => Some(BadRate { start, at }),
    }
}

/// The refusal of the rate that has this value of the list and begins at this index, if it is refused.
fn refused_in(values: &[RateValue], i: usize, start: usize) -> Option<BadRate>
    ensures { IsEarliest (λ from at. (from ≡ start)
        × (slice_get (map outcome_of values.now) i ≡ Some (BadAt at))) result }
{
    match values.get(i) {
        Some(value) => refused(start, *value),
        None => None,
    }
}

/// The refused line that begins first.
pub(crate) fn bad_line(lines: &[RateLine], values: &[RateValue]) -> Option<BadRate>
    ensures { IsEarliest (BadLine (map rate_line_of lines.now) (map outcome_of values.now)) result }
{
    let mut bad = None;
    for (i, line) in lines.iter().enumerate() {
        bad = earlier(bad, refused_in(values, i, line.at));
    }
    bad
}
