//! The report of a run.
ghost use Rattle.std.specs.Prelude.{◌≡◌, ◌∷◌, [], ◌++◌, codes, IfOk, OnOk};
ghost use Rattle.sim_histograms.specs.Summaries.{HasTimes};
ghost use Rattle.sim_report.specs.Report.{bin_line, bins_text, count_line, endings_text, report_text_of, time_line, times_text};
ghost use Rattle.sim_outside.specs.TicksText.{ticks_text};

use crate::counts::push_count;
use pepa_text::push_text;
use sim_histograms::Summary;
use sim_outside::{Bytes, push_ticks};
use std::alloc::{AllocError, Global};

/// The report of a run: a line for each number of its summary. Its only error is want of memory.
pub fn report(alloc: Global, summary: &Summary) -> Result<Bytes, AllocError>
    requires { HasTimes summary.now }
    ensures { IfOk result (λ text. text ≡ report_text_of summary.now) }
{
    let mut text = Vec::new(alloc);
    push_endings(alloc, &mut text, summary)?;
    push_line(alloc, &mut text, b"passages", summary.passages)?;
    push_times(alloc, &mut text, summary)?;
    push_bins(alloc, &mut text, summary.bins.as_slice())?;
    push_line(alloc, &mut text, b"tail", summary.tail)?;
    Ok(Bytes::from_vec(text))
}

/// Appends how replications ended.
fn push_endings(alloc: Global, to: &mut Vec<u8>, summary: &Summary) -> Result<(), AllocError>
    ensures { OnOk result (to.new.items ≡ to.old.items ++ endings_text summary.now) }
{
    push_line(alloc, to, b"runs", summary.runs)?;
    push_line(alloc, to, b"done", summary.done)?;
    push_line(alloc, to, b"deadlocked", summary.deadlocked)?;
    push_line(alloc, to, b"unfinished", summary.unfinished)
}

/// Appends how long the passages are.
fn push_times(alloc: Global, to: &mut Vec<u8>, summary: &Summary) -> Result<(), AllocError>
    ensures { OnOk result (to.new.items ≡ to.old.items ++ times_text summary.now) }
{
    push_time(alloc, to, b"mean", summary.mean)?;
    push_time(alloc, to, b"least", summary.least)?;
    push_time(alloc, to, b"median", summary.median)?;
    push_time(alloc, to, b"p90", summary.p90)?;
    push_time(alloc, to, b"p99", summary.p99)?;
    push_time(alloc, to, b"greatest", summary.greatest)
}

/// Appends the counts of the bins.
fn push_bins(alloc: Global, to: &mut Vec<u8>, bins: &[u64]) -> Result<(), AllocError>
    ensures { OnOk result (to.new.items ≡ to.old.items ++ bins_text bins.now) }
{
    for number in 0..bins.len() {
        push_bin(alloc, to, number as u64, bins[number])?;
    }
    Ok(())
}

/// Appends the number of a bin and its count.
fn push_bin(alloc: Global, to: &mut Vec<u8>, number: u64, count: u64) -> Result<(), AllocError>
    ensures { OnOk result (to.new.items ≡ to.old.items ++ bin_line number count) }
{
    push_count(alloc, to, b"bin ", number)?;
    push_count(alloc, to, b" ", count)?;
    push_text(to, b"\n")
}

/// Appends a word and a count.
#[tactic(auto, unfolding(crate::specs::Report::count_line))]
fn push_line(alloc: Global, to: &mut Vec<u8>, word: &[u8], count: u64) -> Result<(), AllocError>
    ensures { OnOk result (to.new.items ≡ to.old.items ++ count_line word.now count) }
{
    push_text(to, word)?;
    push_count(alloc, to, b" ", count)?;
    push_text(to, b"\n")
}

/// Appends a word and a time.
#[tactic(auto, unfolding(crate::specs::Report::time_line))]
fn push_time(
    alloc: Global,
    to: &mut Vec<u8>,
    word: &[u8],
    time: Option<u64>,
) -> Result<(), AllocError>
    ensures { OnOk result (to.new.items ≡ to.old.items ++ time_line word.now time) }
{
    push_text(to, word)?;
    match time {
        None => push_text(to, b" -\n"),
        Some(ticks) => push_ticks_line(alloc, to, ticks),
    }
}

/// Appends a space, a time and a line feed.
fn push_ticks_line(alloc: Global, to: &mut Vec<u8>, ticks: u64) -> Result<(), AllocError>
    ensures { OnOk result
        (to.new.items ≡ to.old.items ++ codes " " ++ ticks_text ticks ++ 10 ∷ []) }
{
    push_text(to, b" ")?;
    push_ticks(alloc, to, ticks)?;
    push_text(to, b"\n")
}
