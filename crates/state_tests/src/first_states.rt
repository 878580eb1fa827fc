//! First states, and the texts that need no transition.

use pepa_model::{Model, Term};
use probe_attach::{attach, system_leaves};
use sim_command::read_model;
use sim_report::{check_text, steps_text};
use std::alloc::{AllocError, Global};
use std::test::Fail;

// The numbers of the leaves of a first state, from left to right.
fn first_leaves(alloc: Global, model: &Model) -> Result<Vec<u32>, AllocError> {
    let first = attach(alloc, model)?;
    let mut leaves = Vec::new(alloc);
    push_leaves(&mut leaves, &first)?;
    Ok(leaves)
}

fn push_leaves(to: &mut Vec<u32>, term: &Term) -> Result<(), AllocError> {
    match term {
        Term::Leaf(leaf) => Ok(to.push(*leaf)?),
        Term::Coop(left, right, _) => {
            push_leaves(to, left)?;
            push_leaves(to, right)
        }
        Term::Hide(inner, _) => push_leaves(to, inner),
    }
}

#[test]
fn compound_constants_are_expanded(rt: HostRuntime) -> Result<(), Fail> {
    for (input, leaves, count) in [
        ("P = (a,1).P; P", [0].as_slice(), 1),
        (
            "P = (a,1).P; A = P || P; A <a> A || P",
            [0, 0, 0, 0, 0].as_slice(),
            5,
        ),
        (
            "P = (a,1).P; Q = (b,1).Q; A = P || Q; B = A <a> A || A; P <b> B/{a}",
            [0, 0, 1, 0, 1, 0, 1].as_slice(),
            7,
        ),
    ] {
        let model = read_model(rt.alloc(), input.as_bytes())?;
        assert_eq!(rt; first_leaves(rt.alloc(), &model)?.as_slice(), leaves);
        assert_eq!(rt; system_leaves(rt.alloc(), &model)?, count);
    }
    Ok(())
}

#[test]
fn texts_of_a_model(rt: HostRuntime) -> Result<(), Fail> {
    let model = read_model(rt.alloc(), b"P = (a,1).(b,1).P; A = P || P; A || A")?;
    let counts = check_text(rt.alloc(), &model)?;
    let want = b"ok constants 2 actions 2 probes 0 leaves 4\n";
    assert_eq!(rt; counts.as_slice(), want.as_slice());
    assert!(rt; steps_text(rt.alloc(), &model, &[])?.as_slice().is_empty());
    Ok(())
}
