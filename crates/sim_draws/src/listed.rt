//! Numbers from memory.

ghost use Rattle.std.specs.Prelude.{◌≡◌, IfOk, slice_index};
ghost use Rattle.sim_draws.specs.Listed.{NumberList};

use crate::numbers::Numbers;
use std::alloc::{AllocError, Global};
use std::marker::Model;

/// Numbers that are listed. After their end each number is 0.
#[derive(Debug, Drop)]
pub struct Listed {
    numbers: Vec<u64>,
    place: u64,
}

impl Model for Listed {
    ghost use Rattle.sim_draws.specs.Listed.{NumberList};

    ghost Value = { NumberList };

    ghost view = { λ s. record { numbers = s.numbers.items; place = s.place } };
}

impl Listed {
    /// These numbers, at the first of them.
    pub fn make(alloc: Global, numbers: &[u64]) -> Result<Listed, AllocError>
        ensures { IfOk result (λ listed. listed ≡ record { numbers = numbers.now; place = 0 }) }
    {
        Ok(Listed {
            numbers: Vec::from_slice(alloc, numbers)?,
            place: 0,
        })
    }

    /// The place of the next number, which is how many were taken.
    pub fn place(&self) -> u64
        ensures { result ≡ self.now.place }
    {
        self.place
    }
}

impl Numbers for Listed {
    ghost at = { λ s. slice_index s.numbers };

    ghost place = { λ s. s.place };

    fn number(&mut self) -> u64 {
        let number = self.numbers.get(self.place as usize).copied().unwrap_or(0);
        self.place += 1;
        number
    }
}
