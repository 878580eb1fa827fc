//! Transitions as the words of a list.
ghost use Rattle.std.specs.Prelude.{◌≡◌, ◌<◌, ◌≤◌, ◌%◌, ◌*◌, ◌+◌, ◌^◌, Some, MatchOption};
ghost use Rattle.pepa_rates.specs.Fraction.{IsProper};
ghost use Rattle.pepa_rates.specs.Sum.{fraction_of};
ghost use Rattle.node_words.specs.Entries.{FitsEntry, IsUnpackedEntry, packed_entry, passive_bit};

use crate::keys::number;
use crate::node::CodeStep;
use intern_core::EntryWords;
use pepa_rates::{Frac, Rate};

/// The words of a transition in range.
pub fn pack_entry(step: &CodeStep) -> EntryWords
    requires { FitsEntry step.now }
    ensures { result ≡ packed_entry step.now }
{
    step.rate.valid();
    let (passive, fraction) = parts(&step.rate);
    let first = u64::from(step.target)
        + (u64::from(step.action) << 32)
        + (passive << 43)
        + (fraction.den / (1 << 22) << 44);
    let last = fraction.num + (fraction.den % (1 << 22) << 42);
    EntryWords([first, step.signals, last])
}

fn parts(rate: &Rate) -> (u64, Frac)
    ensures { (result.0 ≡ passive_bit rate.now) × (result.1 ≡ fraction_of rate.now) }
{
    match rate {
        Rate::Active(fraction) => (0, *fraction),
        Rate::Passive(fraction) => (1, *fraction),
    }
}

/// The transition in range that has these words; none exactly where no transition in range has them.
pub fn unpack_entry(words: &EntryWords) -> Option<CodeStep>
    ensures { IsUnpackedEntry words.now result }
{
    let [first, signals, last] = words.0;
    let target = number(first % (1 << 32))?;
    let action = first / (1 << 32) % (1 << 11);
    if action > 1024 {
        return None;
    }
    let den = (first >> 44 << 22) + (last >> 42);
    let fraction = lowest(last % (1 << 42), den)?;
    let rate = if first / (1 << 43) % 2 == 0 {
        Rate::Active(fraction)
    } else {
        Rate::Passive(fraction)
    };
    Some(CodeStep {
        action: action as u32,
        signals,
        rate,
        target,
    })
}

// The fraction with these parts, if they are in lowest terms.
fn lowest(num: u64, den: u64) -> Option<Frac>
    ensures { MatchOption result (¬ IsProper (record { num = num; den = den })) (λ q. (q ≡ record { num = num; den = den }) × IsProper q) }
{
    if num == 0 || den == 0 {
        return None;
    }
    let Ok(fraction) = Frac::make(u128::from(num), u128::from(den)) else {
        return None;
    };
    if fraction.num != num || fraction.den != den {
        return None;
    }
    fraction.valid();
    Some(fraction)
}
