//! Where an entry of a cooperation comes from.
ghost use Rattle.std.specs.Prelude.{◌≡◌};
ghost use Rattle.pepa_steps.specs.Sources.{origin_in, source_in, beside_source_in, joined_source_in};

use crate::buffers::{Buffers, Mark};
use crate::entries::Origin;

/// The mark of a side, and the entry's place in the side's list; or those of both sides. `Lost` where there is no such entry.
#[derive(Clone, Copy, Debug)]
pub(crate) enum Source {
    Lost,
    Left(usize, usize),
    Right(usize, usize),
    Both(usize, usize, usize, usize),
}

/// Where the entry at this index of the cooperation with this mark comes from.
pub(crate) fn find_source(buffers: &Buffers, at: usize, index: usize) -> Source
    ensures { result ≡ source_in buffers.now.marks.items buffers.now.origins.items at index }
{
    match buffers.marks.as_slice().get(at) {
        Some(Mark::Beside(left, right, count)) => beside_source(*left, *right, *count, index),
        Some(Mark::Joined(left, right, start)) => {
            joined_source(buffers.origins.as_slice(), *left, *right, *start, index)
        }
        None => Source::Lost,
    }
}

fn beside_source(left: usize, right: usize, count: usize, index: usize) -> Source
    ensures { result ≡ beside_source_in left right count index }
{
    if index < count {
        Source::Left(left, index)
    } else {
        Source::Right(right, index - count)
    }
}

fn joined_source(
    origins: &[Origin],
    left: usize,
    right: usize,
    start: usize,
    index: usize,
) -> Source
    ensures { result ≡ joined_source_in left right (origin_in origins.now start index) }
{
    match origins.get(start.saturating_add(index)) {
        Some(Origin::Left(place)) => Source::Left(left, *place as usize),
        Some(Origin::Right(place)) => Source::Right(right, *place as usize),
        Some(Origin::Both(place, other)) => {
            Source::Both(left, *place as usize, right, *other as usize)
        }
        None => Source::Lost,
    }
}
