//! Numbers from a stream of ChaCha12.

ghost use Rattle.std.specs.Prelude.{◌≡◌, ◌+◌, ◌*◌, ◌%◌, ◌/◌, ◌^◌, ◌≤◌, ◌↔◌, IsTrue};
ghost use Rattle.sim_draws.specs.Streams.{StreamPlace, seed_key, stream_number};

use crate::numbers::Numbers;
use rand_chacha::ChaCha12Rng;
use rand_core::SeedableRng;
use rand_core::utils::next_u64_via_u32;
use std::marker::Model;

// The most numbers that may be taken.
const ROOM: u128 = 1 << 63;

/// A numbered stream of ChaCha12 under the key of a seed, with the place of its next number.
#[derive(Debug, Drop)]
pub struct Stream {
    words: ChaCha12Rng,
}

impl Model for Stream {
    ghost use Rattle.std.specs.Prelude.{◌≡◌, ◌%◌, ◌/◌};
    ghost use Rattle.sim_draws.specs.Streams.{StreamPlace};

    ghost Value = { StreamPlace };

    ghost view = { λ s. record {
      key = s.words.key;
      stream = s.words.stream;
      place = s.words.word_pos / 2;
    } };

    ghost invariant = { λ s. s.words.word_pos % 2 ≡ 0 };
}

impl Stream {
    /// Stream `number` under the key of `seed`, at its start. The key is the 8 bytes of the seed, the least one first,
    /// and 24 zero bytes.
    pub fn begin(seed: u64, number: u64) -> Stream
        ensures { result ≡ record { key = seed_key seed; stream = number; place = 0 } }
    {
        let mut key = [0; 32];
        key[..8].copy_from_slice(&seed.to_le_bytes());
        let mut words = ChaCha12Rng::from_seed(key);
        words.set_stream(number);
        Stream { words }
    }

    /// Whether so many numbers may still be taken.
    pub fn has_room(&self, count: u64) -> bool
        ensures { IsTrue result ↔ (self.now.place + count ≤ 2 ^ 63) }
    {
        let place = self.words.get_word_pos() / 2;
        place + u128::from(count) <= ROOM
    }
}

impl Numbers for Stream {
    ghost at = { λ s. stream_number s.key s.stream };

    ghost place = { λ s. s.place };

    fn number(&mut self) -> u64 {
        next_u64_via_u32(&mut self.words)
    }
}
