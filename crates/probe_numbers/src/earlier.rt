//! The earlier of two indices.
ghost use Rattle.std.specs.Prelude.{◌≡◌};
ghost use Rattle.probe_numbers.specs.BadCounts.{earlier_index};

/// The lesser of two indices, as far as they are there.
pub(crate) fn earlier(left: Option<usize>, right: Option<usize>) -> Option<usize>
    ensures { result ≡ earlier_index left right }
{
    match (left, right) {
        (Some(i), Some(j)) => Some(i.min(j)),
        (left, right) => left.or(right),
    }
}
