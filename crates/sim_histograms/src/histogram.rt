//! Histograms of passages by their lengths.
ghost use Rattle.std.specs.Prelude.{◌≡◌, ◌+◌, ◌<◌, ◌≤◌, ◌^◌, ◌-◌, [], sum, IfOk};
ghost use Rattle.sim_histograms.specs.Histograms.{histogram_of, with_passage};

use pepa_rates::Words64;
use std::alloc::{AllocError, Global};
use std::marker::Model;

/// The ticks of a time unit.
const TICKS: u64 = 1 << 32;

/// How many passages lie in each bin, and how many are as long as all bins together, or longer.
///
/// Bin `j`, from 0, has the lengths of at least `j` times the width of a bin, and less than `j + 1`
/// times this width.
#[derive(Debug, Drop)]
pub struct Histogram {
    bin: u32,
    each: Vec<u64>,
    tail: u64,
}

impl Model for Histogram {
    ghost use Rattle.std.specs.Prelude.{◌≤◌};
    ghost use Rattle.sim_histograms.specs.Histograms.{HistogramCounts};

    ghost Value = { HistogramCounts };

    ghost view = { λ h. record { bin = h.bin; each = h.each.items; tail = h.tail } };

    ghost invariant = { λ h. 1 ≤ h.bin };
}

impl Histogram {
    /// The histogram of no passages, with `bins` bins of `bin` whole time units each.
    pub fn make(alloc: Global, bin: u32, bins: u32) -> Result<Histogram, AllocError>
        requires { 1 ≤ bin }
        ensures { IfOk result (λ h. h ≡ histogram_of bin bins []) }
    {
        Ok(Histogram {
            bin,
            each: vec![in alloc; 0u64; bins as usize]?,
            tail: 0,
        })
    }

    /// Counts one passage more, of this length in ticks.
    pub fn add(&mut self, ticks: u64)
        requires { sum self.old.each + self.old.tail < 2 ^ 64 - 1 }
        ensures { self.new ≡ with_passage self.old ticks }
    {
        let index = ticks / (u64::from(self.bin) * TICKS);
        if index < self.each.len() as u64 {
            self.each[index as usize] += 1;
        } else {
            self.tail += 1;
        }
    }

    /// How many passages lie in each bin.
    pub fn counts(&self) -> &[u64]
        ensures { result.now ≡ self.now.each }
    {
        &self.each
    }

    /// How many passages are as long as all bins together, or longer.
    pub fn tail(&self) -> u64
        ensures { result ≡ self.now.tail }
    {
        self.tail
    }

    /// How many passages lie in each bin, as a list of its own.
    pub(crate) fn into_counts(self) -> Words64
        ensures { result ≡ self.each }
    {
        let Histogram { each, .. } = self;
        Words64::from_vec(each)
    }
}
