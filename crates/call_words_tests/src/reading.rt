//! A command as one line, to compare with the line that is wanted.

use call_words::{Command, WordsFault, read_words};
use sim_replication::Order;
use sim_report::ProbeAsk;
use std::alloc::{AllocError, Global};
use std::str;

fn write_ask(out: &mut String, ask: &ProbeAsk) -> Result<(), AllocError> {
    match ask {
        ProbeAsk::All => write!(out, "probe"),
        ProbeAsk::Events { number, names } => {
            write!(out, "probe {number}")?;
            let mut mark = " ";
            for name in names.as_slice() {
                let name = str::from_utf8(name.as_bytes()).unwrap_or("");
                write!(out, "{mark}{name}")?;
                mark = ",";
            }
            Ok(())
        }
    }
}

fn write_order(out: &mut String, order: &Order) -> Result<(), AllocError> {
    write!(out, "run {} {} {}", order.seed, order.runs, order.passages)?;
    write!(out, " {} {} {}", order.jumps, order.workers, order.table)?;
    write!(out, " {} {} {}", order.entries, order.bin, order.bins)
}

fn write_command(out: &mut String, command: &Command) -> Result<(), AllocError> {
    match command {
        Command::Steps => write!(out, "steps"),
        Command::Check => write!(out, "check"),
        Command::Print => write!(out, "print"),
        Command::Probe(ask) => write_ask(out, ask),
        Command::Run { order, made } => {
            write_order(out, order)?;
            match made {
                Some(size) => write!(out, " made {size}"),
                None => Ok(()),
            }
        }
        Command::Gen(size) => write!(out, "gen {size}"),
    }
}

/// Whether words, with a blank between each two, give the command that is wanted.
pub fn is_read(alloc: Global, row: (&str, &str)) -> Result<bool, AllocError> {
    let (line, want) = row;
    let mut words = Vec::new(alloc);
    if !line.is_empty() {
        for word in line.split(" ") {
            words.push(String::from_str(alloc, word)?)?;
        }
    }
    let mut out = String::new(alloc);
    match read_words(alloc, words.as_slice()) {
        Ok(command) => write_command(&mut out, &command)?,
        Err(WordsFault::Usage) => write!(out, "usage")?,
        Err(WordsFault::Memory) => write!(out, "memory")?,
    }
    Ok(out.as_str() == want)
}

/// The first line `WORDS => COMMAND` of a table whose words don't give the command.
pub fn first_wrong(alloc: Global, table: &str) -> Result<Option<&str>, AllocError> {
    for line in table.lines() {
        if line.is_empty() {
            continue;
        }
        let Some(row) = line.split_once(" => ") else {
            return Ok(Some(line));
        };
        if !is_read(alloc, row)? {
            return Ok(Some(line));
        }
    }
    Ok(None)
}
