//! Weights to choose by, and the stops that name why there are none.

use pepa_rates::{Frac, Rate};
use pepa_steps::StepFault;
use sim_space::{ChoiceEnd, Stop, choice_weights};
use sqlite_items::Items;
use std::alloc::Global;

/// Rates, active or passive, as fractions; and the sum of their weights and its denominator, or the stop.
type Row = (&'static [(bool, u128, u128)], Result<(u64, u64), Stop>);

// 2^42 - 1 is the greatest part of a rate. A passive rate goes before the weights.
const ROWS: &[Row] = &[
    (&[], Ok((0, 1))),
    (&[(true, 1, 2), (true, 1, 3)], Ok((5, 6))),
    (&[(true, 1, 3), (true, 1, 3), (true, 1, 3)], Ok((3, 3))),
    (
        &[(true, 1, 4_398_046_511_103), (true, 1, 4_398_046_511_101)],
        Err(Stop::WeightOverflow),
    ),
    (&[(true, 1, 2), (false, 1, 1)], Err(Stop::PassiveLeft)),
    (
        &[
            (true, 1, 4_398_046_511_103),
            (true, 1, 4_398_046_511_101),
            (false, 1, 1),
        ],
        Err(Stop::PassiveLeft),
    ),
];

#[test]
fn weighs_active_rates_alone(rt: HostRuntime) {
    for row in ROWS {
        assert!(rt; row_holds(rt.alloc(), row));
    }
}

fn row_holds(alloc: Global, row: &Row) -> bool {
    match rates_of(alloc, row.0) {
        Some(rates) => is_weighed(alloc, rates.as_slice(), &row.1),
        None => false,
    }
}

fn rates_of(alloc: Global, parts: &[(bool, u128, u128)]) -> Option<Items<Rate>> {
    let mut rates = Items::new(alloc);
    for (is_active, num, den) in parts {
        if *num == 0 || *den == 0 {
            return None;
        }
        let Ok(value) = Frac::make(*num, *den) else {
            return None;
        };
        let rate = if *is_active {
            Rate::Active(value)
        } else {
            Rate::Passive(value)
        };
        let Ok(()) = rates.push(rate) else {
            return None;
        };
    }
    Some(rates)
}

fn is_weighed(alloc: Global, rates: &[Rate], want: &Result<(u64, u64), Stop>) -> bool {
    match choice_weights(alloc, rates) {
        Ok(weights) => *want == Ok((weights.whole, weights.den)),
        Err(ChoiceEnd::Stop(stop)) => *want == Err(stop),
        Err(ChoiceEnd::Memory) => false,
    }
}

#[test]
fn a_stop_names_a_fault(rt: HostRuntime) {
    assert_eq!(rt; Stop::from(StepFault::Mixed), Stop::Mixed);
    assert_eq!(rt; Stop::from(StepFault::Overflow), Stop::Overflow);
    assert_eq!(rt; Stop::from(StepFault::ListTooLong), Stop::ListTooLong);
}
