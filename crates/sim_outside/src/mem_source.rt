//! A source in memory.
ghost use Rattle.std.specs.Prelude.{◌≡◌, ◌≤◌, length, take, IfOk, OnOk, OnErr, Some};
ghost use Rattle.sim_outside.specs.Faults.{Rose};
ghost use Rattle.sim_outside.specs.Source.{Reads};
ghost use Rattle.sim_outside.specs.MemSource.{SourceState, read_answer, after_read, IsMemRead};
ghost use Rattle.sim_outside.specs.Readings.{bytes_given};

use crate::source::{Failed, Source};
use std::alloc::{AllocError, Global};
use std::marker::Model;

/// A source whose bytes lie in memory. It can be told to fail.
#[derive(Debug, Drop)]
pub struct MemSource {
    bytes: Vec<u8>,
    position: usize,
    chunk: usize,
    failing: Vec<u64>,
    calls: u64,
    faults: u64,
}

impl Model for MemSource {
    ghost use Rattle.std.specs.Prelude.{◌≤◌, vec_len, drop};
    ghost use Rattle.sim_outside.specs.MemSource.{SourceState};

    ghost Value = { SourceState };

    ghost view = { λ s. record {
      left = drop s.position s.bytes.items;
      chunk = s.chunk;
      failing = s.failing.items;
      calls = s.calls;
      faults = s.faults;
    } };

    ghost invariant = { λ s. (s.position ≤ vec_len s.bytes) × (1 ≤ s.chunk) };
}

impl MemSource {
    /// A source of these bytes. A read gives at most `chunk` of them, and the calls whose numbers,
    /// from 1, are in `failing` fail.
    pub fn make(
        alloc: Global,
        bytes: &[u8],
        chunk: usize,
        failing: &[u64],
    ) -> Result<MemSource, AllocError>
        requires { 1 ≤ chunk }
        ensures { IfOk result (λ source. source ≡ record {
          left = bytes.now;
          chunk = chunk;
          failing = failing.now;
          calls = 0;
          faults = 0;
        }) }
    {
        Ok(MemSource {
            bytes: Vec::from_slice(alloc, bytes)?,
            position: 0,
            chunk,
            failing: Vec::from_slice(alloc, failing)?,
            calls: 0,
            faults: 0,
        })
    }

    /// How many calls were made, up to 2^64 - 1.
    pub fn calls(&self) -> u64
        ensures { result ≡ self.now.calls }
    {
        self.calls
    }

    /// How many calls failed, up to 2^64 - 1.
    pub fn faults(&self) -> u64
        ensures { result ≡ self.now.faults }
    {
        self.faults
    }

    /// The bytes that are left.
    pub fn left(&self) -> &[u8]
        ensures { result.now ≡ self.now.left }
    {
        &self.bytes[self.position..]
    }
}

impl Source for MemSource {
    ghost left = { λ s. Some s.left };

    ghost faults = { λ s. s.faults };

    ghost one_read = { IsMemRead };

    fn read(&mut self, buf: &mut [u8]) -> Result<usize, Failed>
        ensures answer { result ≡ read_answer self.old (length buf.old) }
        ensures state { self.new ≡ after_read self.old (length buf.old) }
        ensures given { IfOk result (λ count. take count buf.new ≡ take count self.old.left) }

        // What each source ensures.
        ensures count { IfOk result (λ count. count ≤ length buf.old) }
        ensures bytes { Reads (Some self.old.left) (Some self.new.left) result buf.new }
        ensures called { IsMemRead self.old (length buf.old) (bytes_given result buf.new) self.new }
        ensures counted { OnOk result (self.new.faults ≡ self.old.faults) }
        ensures failed { OnErr result (Rose self.old.faults self.new.faults) }
        ensures never_falls { self.old.faults ≤ self.new.faults }
    {
        self.calls = self.calls.saturating_add(1);
        if self.failing.contains(&self.calls) {
            self.faults = self.faults.saturating_add(1);
            return Err(Failed);
        }
        let left = &self.bytes[self.position..];
        let count = self.chunk.min(buf.len()).min(left.len());
        buf[..count].copy_from_slice(&left[..count]);
        self.position += count;
        Ok(count)
    }
}
