//! Where the words of a table are, and which word a seat's next act works on.
ghost use Rattle.std.specs.Prelude.{◌≡◌, ◌<◌, ◌≤◌};
ghost use Rattle.intern_core.specs.Layout.{bucket_with, bucket_of, link_at, block_at};
ghost use Rattle.intern_core.specs.Layout as layout;
ghost use Rattle.intern_core.specs.Turns.{next_place};

use crate::history::Key;
use crate::seat::{Phase, Seat};
use crate::shape::Shape;

// 2^64 divided by the golden ratio.
const FACTOR: u64 = 11400714819323198485;

/// The bucket of a key, by Fibonacci hashing.
pub fn bucket(key: Key, bits: u32) -> u32
    requires { bits ≤ 20 }
    ensures { result ≡ bucket_with key bits }
{
    if bits == 0 {
        return 0;
    }
    ((key.one ^ key.two.wrapping_mul(FACTOR)).wrapping_mul(FACTOR) >> (64 - bits)) as u32
}

fn link_index(shape: &Shape, key: Key, from: u32) -> usize
    requires { shape.now.bucket_bits ≤ 20 }
    ensures { result ≡ link_at shape.now (bucket_of shape.now key) from }
{
    if from == 0 {
        4 * shape.nodes as usize + 4 + bucket(key, shape.bucket_bits) as usize
    } else {
        4 * from as usize + 2
    }
}

/// The word that the seat's next act works on.
pub fn place(shape: &Shape, seat: &Seat) -> usize
    requires { shape.now.bucket_bits ≤ 20 }
    ensures { result ≡ next_place shape.now seat.now }
{
    match seat.phase {
        Phase::Idle | Phase::Claiming(_) => 0,
        Phase::StoringOne(_) => 4 * seat.spare as usize,
        Phase::StoringTwo(_) => 4 * seat.spare as usize + 1,
        Phase::Linking { key, from, .. } => link_index(shape, key, from),
        Phase::Swapping { key, from, .. } => link_index(shape, key, from),
        Phase::AtOne { node, .. } => 4 * node as usize,
        Phase::AtTwo { node, .. } => 4 * node as usize + 1,
        Phase::LookingOne(node) => 4 * node as usize,
        Phase::LookingTwo(node, _) => 4 * node as usize + 1,
        Phase::MeasuringList(number) => list_index(number),
        Phase::FindingEntry { number, .. } => list_index(number),
        Phase::Offering { number, .. } => list_index(number),
        Phase::SwappingList { number, .. } => list_index(number),
        Phase::ReadingOne { index, .. } => block_index(shape, index),
        Phase::ReadingTwo { index, .. } => block_index(shape, index) + 1,
        Phase::ReadingThree { index, .. } => block_index(shape, index) + 2,
        Phase::ClaimingBlock { .. } => 1,
        Phase::StoringWord { start, stored, .. } => block_index(shape, start) + stored as usize,
    }
}

fn list_index(number: u32) -> usize
    ensures { result ≡ layout.list_at number }
{
    4 * number as usize + 3
}

// The first word of an entry.
fn block_index(shape: &Shape, index: u32) -> usize
    requires { shape.now.bucket_bits ≤ 20 }
    ensures { (result ≡ block_at shape.now index) × (result < 1000000000000) }
{
    4 * shape.nodes as usize + 4 + (1usize << shape.bucket_bits) + 3 * index as usize
}

/// How many words a table has.
pub fn word_count(shape: &Shape) -> usize
    requires { shape.now.bucket_bits ≤ 20 }
    ensures { result ≡ layout.word_count shape.now }
{
    4 * shape.nodes as usize + 4 + (1usize << shape.bucket_bits) + 3 * shape.entries as usize
}
