//! The whole program, over any source and sinks.
ghost use Rattle.std.specs.Prelude.{◌≡◌, ℕ, true, ◌≤◌, ◌^◌, List, length, map};
ghost use Rattle.std.specs.String.{string_bytes};
ghost use Rattle.sim_report.specs.FaultLine.{fault_text};
ghost use Rattle.call_words.specs.CommandWords.{GivesCommand};
ghost use Rattle.sim_command.specs.Inputs.{reads_source, IsCommandInRange};
ghost use Rattle.sim_command.specs.TopCall.{IsEnding, IsInputEnding, IsDelivery, IsLineWritten, seen};
ghost use Rattle.sim_command.specs.DeviceCalls.{IsReadOnce, IsWrittenOnce, IsDeliveredBy};

use crate::answer::command_answer;
use crate::answered::Answered;
use call_words::{Command, WordsFault, read_words};
use sim_outside::{ReadEnd, Sink, Source, read_all, write_all};
use sim_report::{Fault, Line, fault_line};
use std::alloc::Global;

/// How many bytes an input has at most.
const MOST_BYTES: usize = 1 << 20;

/// How a call ends: its status, and the line of a fault, which is empty at status 0.
#[derive(Drop)]
pub(crate) struct Ending {
    pub status: u8,
    pub line: Line,
}

/// Reads the input where the command that the words give works on one, writes the answer to `out` and the fault's line to `err`, and
/// answers the status:
///
/// - 0: the answer is written on `out` in full;
/// - 1: the memory ran out;
/// - 2: the words give no command;
/// - 3: the input is too long, or the text that the command works on has no model;
/// - 4: a read failed;
/// - 5: a write of the answer failed;
/// - 6: for `steps` the verdict on the model names a stop; for `run` a replication stops.
///
/// A failing `err` changes no status. The source is read to its end, to the first read that fails, or until it is too long, and not
/// again; `gen` and `run --made` don't call it. The answer is written to the first write that fails, and not again.
pub fn pepaprobe<S: Source, K: Sink, E: Sink>(
    alloc: Global,
    words: &[String],
    source: &mut S,
    out: &mut K,
    err: &mut E,
) -> u8
    ensures ending { (line : List ℕ)
        × IsEnding (map string_bytes words.now)
        (seen (S.left source.old) (S.left source.new) (S.faults source.old) (S.faults source.new))
        (seen (K.written out.old) (K.written out.new) (K.faults out.old) (K.faults out.new))
        line result
        × IsLineWritten
        (seen (E.written err.old) (E.written err.new) (E.faults err.old) (E.faults err.new)) line }
    ensures source_calls { IsReadOnce S.one_read (map string_bytes words.now)
        source.old result source.new }
    ensures out_calls { IsWrittenOnce K.one_write out.old result out.new }
{
    let Ending { status, line } = run(alloc, words, source, out);
    let _ = write_all(err, line.as_slice());
    status
}

// All but the fault's line.
fn run<S: Source, K: Sink>(alloc: Global, words: &[String], source: &mut S, out: &mut K) -> Ending
    ensures ending { IsEnding (map string_bytes words.now)
        (seen (S.left source.old) (S.left source.new) (S.faults source.old) (S.faults source.new))
        (seen (K.written out.old) (K.written out.new) (K.faults out.old) (K.faults out.new))
        result.line result.status }
    ensures source_calls { IsReadOnce S.one_read (map string_bytes words.now)
        source.old result.status source.new }
    ensures out_calls { IsWrittenOnce K.one_write out.old result.status out.new }
{
    match read_words(alloc, words) {
        Ok(command) => run_command(alloc, &command, source, out),
        Err(WordsFault::Usage) => refused(2, &Fault::Usage),
        Err(WordsFault::Memory) => refused(1, &Fault::Memory),
    }
}

// Answers the command, and reads its input first where it works on one.
fn run_command<S: Source, K: Sink>(
    alloc: Global,
    command: &Command,
    source: &mut S,
    out: &mut K,
) -> Ending
    requires { IsCommandInRange command.now }
    ensures ending { (words : List (List ℕ)) → GivesCommand words command.now
        → IsEnding words
        (seen (S.left source.old) (S.left source.new) (S.faults source.old) (S.faults source.new))
        (seen (K.written out.old) (K.written out.new) (K.faults out.old) (K.faults out.new))
        result.line result.status }
    ensures source_calls { (words : List (List ℕ)) → GivesCommand words command.now
        → IsReadOnce S.one_read words source.old result.status source.new }
    ensures out_calls { IsWrittenOnce K.one_write out.old result.status out.new }
{
    if reads_source(command) {
        run_over_source(alloc, command, source, out)
    } else {
        answer_input(alloc, command, b"", out)
    }
}

// Whether a command works on the bytes of the source.
fn reads_source(command: &Command) -> bool
    ensures { result ≡ reads_source command.now }
{
    match command {
        Command::Run { made, .. } => match made {
            Some(_) => false,
            None => true,
        },
        Command::Gen(_) => false,
        Command::Steps | Command::Check | Command::Print | Command::Probe(_) => true,
    }
}

// Reads the input and answers it.
fn run_over_source<S: Source, K: Sink>(
    alloc: Global,
    command: &Command,
    source: &mut S,
    out: &mut K,
) -> Ending
    requires range { IsCommandInRange command.now }
    requires reads { reads_source command.now ≡ true }
    ensures ending { (words : List (List ℕ)) → GivesCommand words command.now
        → IsEnding words
        (seen (S.left source.old) (S.left source.new) (S.faults source.old) (S.faults source.new))
        (seen (K.written out.old) (K.written out.new) (K.faults out.old) (K.faults out.new))
        result.line result.status }
    ensures source_calls { (words : List (List ℕ)) → GivesCommand words command.now
        → IsReadOnce S.one_read words source.old result.status source.new }
    ensures out_calls { IsWrittenOnce K.one_write out.old result.status out.new }
{
    match read_all(alloc, source, MOST_BYTES) {
        Ok(input) => answer_input(alloc, command, input.as_slice(), out),
        Err(ReadEnd::ReadFault) => refused(4, &Fault::ReadFault),
        Err(ReadEnd::TooLong) => refused(3, &Fault::TooLong),
        Err(ReadEnd::Memory) => refused(1, &Fault::Memory),
    }
}

// Answers the command, where these are the bytes of the source.
fn answer_input<K: Sink>(alloc: Global, command: &Command, input: &[u8], out: &mut K) -> Ending
    requires bytes { length input.now ≤ 2 ^ 20 }
    requires range { IsCommandInRange command.now }
    ensures ending { IsInputEnding command.now input.now
        (seen (K.written out.old) (K.written out.new) (K.faults out.old) (K.faults out.new))
        result.line result.status }
    ensures out_calls { IsWrittenOnce K.one_write out.old result.status out.new }
    ensures no_read_fault { ¬ (result.status ≡ 4) }
{
    match command_answer(alloc, command, input) {
        Ok(answered) => deliver(answered, out),
        Err(_error) => refused(1, &Fault::Memory),
    }
}

// Writes the bytes of an answer.
fn deliver<K: Sink>(answered: Answered, out: &mut K) -> Ending
    ensures ending { IsDelivery answered
        (seen (K.written out.old) (K.written out.new) (K.faults out.old) (K.faults out.new))
        result.line result.status }
    ensures out_calls { IsDeliveredBy K.one_write out.old answered.out answered.status
        result.status out.new }
{
    let Answered {
        status,
        out: bytes,
        line,
    } = answered;
    match write_all(out, bytes.as_slice()) {
        Ok(()) => Ending { status, line },
        Err(_failed) => refused(5, &Fault::WriteFault),
    }
}

// Ends with a fault.
fn refused(status: u8, fault: &Fault) -> Ending
    ensures status { result.status ≡ status }
    ensures line { result.line ≡ fault_text fault.now }
{
    Ending {
        status,
        line: fault_line(fault),
    }
}
