//! Reading a source to its end.
ghost use Rattle.std.specs.Prelude.{◌≡◌, ◌+◌, ◌-◌, ◌^◌, ◌<◌, ◌≤◌, length, take, drop, IfOk, OnOk, OnErr, IsErrOf};
ghost use Rattle.sim_outside.specs.Faults.{Rose};
ghost use Rattle.sim_outside.specs.ReadAll.{ReadsToEnd};
ghost use Rattle.sim_outside.specs.Readings.{ReadsOnly, bytes_given};
ghost use Rattle.sim_outside.specs.Source.{Reads};

use crate::bytes::Bytes;
use crate::source::{Failed, Source};
use std::alloc::Global;
use thiserror::Error;

/// Why a source was not read to its end.
#[derive(Clone, Copy, Debug, PartialEq, Eq, Error)]
pub enum ReadEnd {
    /// A read failed.
    #[error("a read failed")]
    ReadFault,
    /// More bytes came than the limit allows.
    #[error("the input is too long")]
    TooLong,
    /// There was no memory for the bytes; nothing was read.
    #[error("out of memory")]
    Memory,
}

/// Reads `source` to its end, which comes within `limit` bytes, or is `TooLong`.
///
/// The memory for `limit + 1` bytes is taken before the first read. Each read is given room for all the bytes that
/// may still come. No read comes after the end, after one that fails, or once there is one byte too many.
pub fn read_all<S: Source>(alloc: Global, source: &mut S, limit: usize) -> Result<Bytes, ReadEnd>
    requires { limit < 2 ^ 32 }
    ensures told { ReadsToEnd (S.left source.old) (S.left source.new) limit result }
    ensures len { IfOk result (λ bytes. length bytes ≤ limit) }
    ensures reads { ReadsOnly S.one_read source.old limit result source.new }
    ensures none_failed { OnOk result (S.faults source.new ≡ S.faults source.old) }
    ensures none_failed_too_long { IsErrOf result ReadEnd.TooLong
        → S.faults source.new ≡ S.faults source.old }
    ensures fault { IsErrOf result ReadEnd.ReadFault
        → Rose (S.faults source.old) (S.faults source.new) }
    ensures memory { IsErrOf result ReadEnd.Memory → source.new ≡ source.old }
    ensures never_falls { S.faults source.old ≤ S.faults source.new }
{
    let Ok(mut buffer) = vec![in alloc; 0u8; limit + 1] else {
        return Err(ReadEnd::Memory);
    };
    let mut filled = 0;
    while filled <= limit {
        let Ok(count) = read_behind(source, &mut buffer, filled) else {
            return Err(ReadEnd::ReadFault);
        };
        if count == 0 {
            buffer.truncate(filled);
            return Ok(Bytes::from_vec(buffer));
        }
        filled += count;
    }
    Err(ReadEnd::TooLong)
}

/// Reads once, into the part of `buffer` behind its first `filled` bytes, which stay.
fn read_behind<S: Source>(source: &mut S, buffer: &mut [u8], filled: usize) -> Result<usize, Failed>
    requires { filled ≤ length buffer.old }
    ensures count { IfOk result (λ count. filled + count ≤ length buffer.old) }
    ensures front { take filled buffer.new ≡ take filled buffer.old }
    ensures bytes { Reads (S.left source.old) (S.left source.new) result (drop filled buffer.new) }
    ensures called { S.one_read source.old (length buffer.old - filled)
        (bytes_given result (drop filled buffer.new)) source.new }
    ensures counted { OnOk result (S.faults source.new ≡ S.faults source.old) }
    ensures failed { OnErr result (Rose (S.faults source.old) (S.faults source.new)) }
    ensures never_falls { S.faults source.old ≤ S.faults source.new }
{
    source.read(&mut buffer[filled..])
}
