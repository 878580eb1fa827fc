//! A whole call over devices in memory.

use sim_command::pepaprobe;
use sim_outside::{MemSink, MemSource};
use std::alloc::{AllocError, Global};

/// The devices of a call: the numbers of the reads and writes that fail, from 1, and the room of the output.
#[derive(Clone, Copy)]
pub(crate) struct Devices<'a> {
    pub failing_reads: &'a [u64],
    pub room: usize,
    pub failing_writes: &'a [u64],
    pub failing_lines: &'a [u64],
}

pub(crate) const SOUND: Devices = Devices {
    failing_reads: &[],
    room: 1000,
    failing_writes: &[],
    failing_lines: &[],
};

/// Its status, the output and what was written to the error output.
pub(crate) fn call(
    alloc: Global,
    words: &[&str],
    input: &[u8],
    devices: &Devices,
) -> Result<(u8, MemSink, MemSink), AllocError> {
    let mut owned = Vec::new(alloc);
    for word in words {
        owned.push(String::from_str(alloc, word)?)?;
    }
    let mut source = MemSource::make(alloc, input, 9, devices.failing_reads)?;
    let mut out = MemSink::make(alloc, devices.room, 10, devices.failing_writes)?;
    let mut err = MemSink::make(alloc, 100, 10, devices.failing_lines)?;
    let status = pepaprobe(alloc, owned.as_slice(), &mut source, &mut out, &mut err);
    Ok((status, out, err))
}
