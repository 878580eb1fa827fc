//! Sources and sinks: reading to the end, writing all, and where they fail.
ghost use Rattle.std.specs.Prelude.{◌≡◌, ◌^◌, ◌<◌, ◌++◌, Some, length, IfSome, IfOk, OnOk, OnErr, IsErrOf};
ghost use Rattle.sim_outside.specs.Faults.{Rose};

use sim_outside::{
    Failed, MemSink, MemSource, ReadEnd, Sink, Source, StdSink, StdSource, push_decimal,
    push_ticks, read_all, write_all,
};
use std::alloc::{AllocError, Global};
use std::io::{self, Read, Write};
use std::test::Fail;

const TEXT: &[u8] = b"abcdefghijklmnopqrstuvwxyz\n";

// What a caller of both learns of devices that tell their bytes.
fn copy_all<S: Source, K: Sink>(
    alloc: Global,
    source: &mut S,
    sink: &mut K,
    limit: usize,
) -> Result<Result<(), Failed>, ReadEnd>
    requires { limit < 2 ^ 32 }
    ensures copied { IfOk result (λ written. OnOk written (IfSome (S.left source.old)
        (λ input. IfSome (K.written sink.old)
        (λ before. K.written sink.new ≡ Some (before ++ input))))) }
    ensures too_long { IsErrOf result ReadEnd.TooLong
        → IfSome (S.left source.old) (λ input. limit < length input) }
    ensures read_fault { IsErrOf result ReadEnd.ReadFault
        → Rose (S.faults source.old) (S.faults source.new) }
    ensures write_fault { IfOk result (λ written.
        OnErr written (Rose (K.faults sink.old) (K.faults sink.new))) }
{
    let bytes = read_all(alloc, source, limit)?;
    Ok(write_all(sink, bytes.as_slice()))
}

#[test]
fn reads_to_the_end(rt: HostRuntime) -> Result<(), Fail> {
    for chunk in [1, 9, 27, 100] {
        let mut source = MemSource::make(rt.alloc(), TEXT, chunk, &[])?;
        let bytes = read_all(rt.alloc(), &mut source, 27)?;
        assert_eq!(rt; bytes.as_slice(), TEXT, "in pieces of {chunk}");
        assert_eq!(rt; bytes.len(), 27);
        assert!(rt; source.left().is_empty());
    }
    Ok(())
}

#[test]
fn stops_at_a_fault_and_at_the_limit(rt: HostRuntime) -> Result<(), Fail> {
    let mut source = MemSource::make(rt.alloc(), TEXT, 9, &[2])?;
    let end = read_all(rt.alloc(), &mut source, 27).err();
    assert_eq!(rt; end, Some(ReadEnd::ReadFault));
    assert_eq!(rt; (source.faults(), source.calls()), (1, 2));
    assert_eq!(rt; source.left(), b"jklmnopqrstuvwxyz\n".as_slice());

    let mut source = MemSource::make(rt.alloc(), TEXT, 9, &[])?;
    let end = read_all(rt.alloc(), &mut source, 26).err();
    assert_eq!(rt; end, Some(ReadEnd::TooLong));
    assert_eq!(rt; source.faults(), 0);
    Ok(())
}

#[test]
fn writes_what_there_is_room_for(rt: HostRuntime) -> Result<(), Fail> {
    // the room, the call that fails, and how many bytes are written
    for (room, failing, written) in [(100, 2, 10), (12, 9, 12), (27, 9, 27)] {
        let mut sink = MemSink::make(rt.alloc(), room, 10, &[failing])?;
        let all = write_all(&mut sink, TEXT);
        assert_eq!(rt; all.is_ok(), written == 27, "in a room of {room}");
        assert_eq!(rt; Some(sink.written()), TEXT.get(..written));
        assert_eq!(rt;
            (sink.faults(), sink.calls()),
            (u64::from(all.is_err()), if written == 10 { 2 } else { 3 })
        );
    }
    Ok(())
}

#[test]
fn copies(rt: HostRuntime) -> Result<(), Fail> {
    let mut source = MemSource::make(rt.alloc(), TEXT, 4, &[])?;
    let mut sink = MemSink::make(rt.alloc(), 27, 5, &[])?;
    copy_all(rt.alloc(), &mut source, &mut sink, 27)?.map_err(|_| "a fault")?;
    assert_eq!(rt; sink.written(), TEXT);

    Ok(())
}

#[test]
fn adapts_readers_and_writers(rt: HostRuntime) -> Result<(), Fail> {
    let mut source = StdSource::make(TEXT);
    let mut written = Vec::new(rt.alloc());
    let mut sink = StdSink::make(&mut written);
    let copied = copy_all(rt.alloc(), &mut source, &mut sink, 27)?;
    assert_eq!(rt; (copied, source.faults(), sink.faults()), (Ok(()), 0, 0));
    assert_eq!(rt; written.as_slice(), TEXT);

    let mut source = StdSource::make(Interrupted);
    let end = read_all(rt.alloc(), &mut source, 27).err();
    assert_eq!(rt; (end, source.faults()), (Some(ReadEnd::ReadFault), 1));

    let mut sink = StdSink::make(Interrupted);
    assert_eq!(rt;
        (write_all(&mut sink, TEXT), sink.faults()),
        (Err(Failed), 1)
    );
    Ok(())
}

#[test]
fn a_full_writer_fails(rt: HostRuntime) {
    let mut room = [0u8; 5];
    let mut sink = StdSink::make(room.as_mut_slice());
    assert_eq!(rt;
        (write_all(&mut sink, TEXT), sink.faults()),
        (Err(Failed), 1)
    );
}

#[test]
fn each_write_is_flushed(rt: HostRuntime) {
    let mut sink = StdSink::make(Unflushed);
    assert_eq!(rt;
        (write_all(&mut sink, TEXT), sink.faults()),
        (Err(Failed), 1)
    );
}

#[test]
fn appends_times(rt: HostRuntime) -> Result<(), Fail> {
    for (ticks, text) in [
        (0, "x0.000000"),
        (4294, "x0.000000"),
        (4295, "x0.000001"),
        (4294967295, "x0.999999"),
        (4294967296, "x1.000000"),
        (6442450944, "x1.500000"),
        (9223372036854775807, "x2147483647.999999"),
    ] {
        let mut to = Vec::from_slice(rt.alloc(), b"x")?;
        push_ticks(rt.alloc(), &mut to, ticks)?;
        assert_eq!(rt; to.as_slice(), text.as_bytes());
    }
    Ok(())
}

#[test]
fn appends_decimals(rt: HostRuntime) -> Result<(), Fail> {
    for (value, text) in [
        (0, "x0"),
        (7, "x7"),
        (10, "x10"),
        (18446744073709551615, "x18446744073709551615"),
        (u128::MAX, "x340282366920938463463374607431768211455"),
    ] {
        let mut to = Vec::from_slice(rt.alloc(), b"x")?;
        push_decimal(rt.alloc(), &mut to, value)?;
        assert_eq!(rt; to.as_slice(), text.as_bytes());
    }
    Ok(())
}

// Each call is interrupted.
#[derive(Drop)]
struct Interrupted;

impl Read for Interrupted {
    fn read(&mut self, _buf: &mut [u8]) -> io::Result<usize> {
        Err(io::ErrorKind::Interrupted.into())
    }
}

impl Write for Interrupted {
    fn write(&mut self, _buf: &[u8]) -> io::Result<usize> {
        Err(io::ErrorKind::Interrupted.into())
    }

    fn flush(&mut self) -> io::Result<()> {
        Ok(())
    }
}

// It takes each byte, and no flush succeeds.
#[derive(Drop)]
struct Unflushed;

impl Write for Unflushed {
    fn write(&mut self, buf: &[u8]) -> io::Result<usize> {
        Ok(buf.len())
    }

    fn flush(&mut self) -> io::Result<()> {
        Err(io::ErrorKind::Other.into())
    }
}
