//! A sink in memory.
ghost use Rattle.std.specs.Prelude.{◌≡◌, ◌≤◌, [], length, IfOk, OnOk, OnErr, Some};
ghost use Rattle.sim_outside.specs.Faults.{Rose};
ghost use Rattle.sim_outside.specs.Sink.{IsTaken, Writes};
ghost use Rattle.sim_outside.specs.MemSink.{SinkState, write_answer, after_write, IsMemWrite};

use crate::sink::Sink;
use crate::source::Failed;
use std::alloc::{AllocError, Global};
use std::marker::Model;

/// A sink that keeps its bytes in memory, in the room that it is made with. It can be told to fail.
#[derive(Debug, Drop)]
pub struct MemSink {
    bytes: Vec<u8>,
    room: usize,
    chunk: usize,
    failing: Vec<u64>,
    calls: u64,
    faults: u64,
}

impl Model for MemSink {
    ghost use Rattle.std.specs.Prelude.{◌≡◌, ◌≤◌, ◌+◌, vec_len, vec_capacity};
    ghost use Rattle.sim_outside.specs.MemSink.{SinkState};

    ghost Value = { SinkState };

    ghost view = { λ s. record {
      written = s.bytes.items;
      room = s.room;
      chunk = s.chunk;
      failing = s.failing.items;
      calls = s.calls;
      faults = s.faults;
    } };

    ghost invariant = { λ s. (vec_len s.bytes + s.room ≤ vec_capacity s.bytes) × (1 ≤ s.chunk) };
}

impl MemSink {
    /// An empty sink with room for `room` bytes. A write takes at most `chunk` bytes, and the calls
    /// whose numbers, from 1, are in `failing` fail.
    pub fn make(
        alloc: Global,
        room: usize,
        chunk: usize,
        failing: &[u64],
    ) -> Result<MemSink, AllocError>
        requires { 1 ≤ chunk }
        ensures { IfOk result (λ sink. sink ≡ record {
          written = [];
          room = room;
          chunk = chunk;
          failing = failing.now;
          calls = 0;
          faults = 0;
        }) }
    {
        Ok(MemSink {
            bytes: Vec::with_capacity(alloc, room)?,
            room,
            chunk,
            failing: Vec::from_slice(alloc, failing)?,
            calls: 0,
            faults: 0,
        })
    }

    /// The bytes written so far.
    pub fn written(&self) -> &[u8]
        ensures { result.now ≡ self.now.written }
    {
        self.bytes.as_slice()
    }

    /// How many calls were made, up to 2^64 - 1.
    pub fn calls(&self) -> u64
        ensures { result ≡ self.now.calls }
    {
        self.calls
    }

    /// How many calls failed, up to 2^64 - 1.
    pub fn faults(&self) -> u64
        ensures { result ≡ self.now.faults }
    {
        self.faults
    }
}

impl Sink for MemSink {
    ghost written = { λ s. Some s.written };

    ghost faults = { λ s. s.faults };

    ghost one_write = { IsMemWrite };

    fn write(&mut self, piece: &[u8]) -> Result<usize, Failed>
        ensures answer { result ≡ write_answer self.old (length piece.now) }
        ensures state { self.new ≡ after_write self.old piece.now }

        // What each sink ensures.
        ensures count { IfOk result (IsTaken (length piece.now)) }
        ensures bytes { Writes (Some self.old.written) (Some self.new.written) result piece.now }
        ensures called { IsMemWrite self.old piece.now result self.new }
        ensures counted { OnOk result (self.new.faults ≡ self.old.faults) }
        ensures failed { OnErr result (Rose self.old.faults self.new.faults) }
        ensures never_falls { self.old.faults ≤ self.new.faults }
    {
        self.calls = self.calls.saturating_add(1);
        if self.failing.contains(&self.calls) || (piece.len() > 0 && self.room == 0) {
            self.faults = self.faults.saturating_add(1);
            return Err(Failed);
        }
        let count = self.chunk.min(piece.len()).min(self.room);
        match self.bytes.extend_from_slice(&piece[..count]) {
            Ok(()) => {}
            Err(_) => unreachable!(),
        }
        self.room -= count;
        Ok(count)
    }
}
