//! The apparent rates of first states, and which terms are a model's.

use pepa_model::Term;
use pepa_rates::{Frac, Rate, RateFault};
use pepa_steps::{apparent, is_term_of};
use probe_attach::attach;
use sim_command::read_model;
use std::test::Fail;

#[test]
fn apparent_rates(rt: HostRuntime) -> Result<(), Fail> {
    let table = [
        ("P = (a, 2).P + (b, 1).P + (a, 3).P; P", 1, Ok(Some(5))),
        ("P = (a, 2).P + (b, 1).P + (a, 3).P; P", 2, Ok(Some(1))),
        (
            "P = (a, 2).P + (b, 1).P + (a, 3).P; Q = (c,1).Q; P",
            3,
            Ok(None),
        ),
        (
            "P = (a,4398046511102).P + (a,1).P; P",
            1,
            Ok(Some(4398046511103)),
        ),
        (
            "P = (a,4398046511103).P + (a,1).P; P",
            1,
            Err(RateFault::Overflow),
        ),
        ("P = (a,infty).P + (a,2*infty).P; P", 1, Ok(Some(3))),
        // The lesser of both sides' rates, by the kinds first.
        (
            "P = (a,2).P; Q = (a,3).Q + (a,1).Q; P <a> Q",
            1,
            Ok(Some(2)),
        ),
        ("P = (a,6).P; Q = (a,infty).Q; P <a> Q", 1, Ok(Some(6))),
        ("P = (a,6).P; Q = (b,1).Q; P <a> Q", 1, Ok(None)),
        // The sum outside the set, and none of a hidden type.
        ("P = (a,2).P; P || P || P", 1, Ok(Some(6))),
        ("P = (a,2).P; (P || P)/{a}", 1, Ok(None)),
        (
            "P = (a,1).P; Q = (a,T).Q; (P || Q)/{a}",
            1,
            Err(RateFault::Mixed),
        ),
    ];
    for (input, action, want) in table {
        let model = read_model(rt.alloc(), input.as_bytes())?;
        let term = attach(rt.alloc(), &model)?;
        assert!(rt; action > 0);
        let found = apparent(&model, &term, action);
        let whole = found.map(|rate| rate.map(whole_rate));
        assert_eq!(rt; whole, want, "{input}");
    }
    Ok(())
}

// A rate or a weight over 1, or 0.
fn whole_rate(rate: Rate) -> u64 {
    match rate {
        Rate::Active(Frac { num, den: 1 }) => num,
        Rate::Passive(Frac { num, den: 1 }) => num,
        _ => 0,
    }
}

#[test]
fn terms_of_a_model(rt: HostRuntime) -> Result<(), Fail> {
    // The leaves 0 and 1, and the sets 0 and 1.
    let model = read_model(rt.alloc(), b"P = (a,1).P; Q = (b,1).Q; (P <a> Q)/{b}")?;
    let first = attach(rt.alloc(), &model)?;
    assert!(rt; is_term_of(&model, &first));
    for (leaf, set, want) in [(0, 0, true), (1, 1, true), (2, 0, false), (0, 2, false)] {
        let hidden = Term::Hide(Box::new(rt.alloc(), Term::Leaf(leaf))?, set);
        assert_eq!(rt; is_term_of(&model, &hidden), want);
    }
    Ok(())
}
