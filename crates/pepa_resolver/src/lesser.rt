//! The lesser of two indices.
ghost use Rattle.std.specs.Prelude.{◌≡◌};
ghost use Rattle.pepa_resolver.specs.Finding.{lesser_index};

/// The lesser of two indices, as far as they are there.
pub fn least(left: Option<usize>, right: Option<usize>) -> Option<usize>
    ensures { result ≡ lesser_index left right }
{
    match (left, right) {
        (Some(i), Some(j)) => Some(i.min(j)),
        (left, right) => left.or(right),
    }
}
