//! What the plain space loads of the first states of models, and the state after a transition.
//!
//! The functions take models and spaces by reference and answer a truth: one that owns a model is long to prove.

use pepa_model::{Model, Term};
use plain_space::PlainSpace;
use sim_space::{Halt, Jump, Loaded, Space, Stop};
use small_models::model_of;
use std::alloc::Global;
use std::test::Fail;

/// The length, the sum of the weights and their denominator of the list of a first state, or its stop.
type Row = (&'static str, Result<(u32, u64, u64), Stop>);

const ROWS: &[Row] = &[
    ("P = (a,1/2).P + (b,1/3).P; P", Ok((2, 5, 6))),
    ("P = (a,2).P; P || P || P", Ok((3, 6, 1))),
    ("S = (z,1).S; Q = (y,1).Q; S <z,y> Q", Ok((0, 0, 1))),
    ("P = (a,infty).P; P", Err(Stop::PassiveLeft)),
    ("P = (a,1).P; Q = (a,infty).Q; P || Q", Err(Stop::Mixed)),
    ("P = (a,4398046511103).P; P || P", Err(Stop::Overflow)),
    // Two ways for each of sixteen: 65,536 in all.
    (
        "P = (a,1).P + (a,1).P; B = P <a> P; C = B <a> B; D = C <a> C; D <a> D",
        Err(Stop::ListTooLong),
    ),
    (
        "P = (a,1/4398046511103).P + (b,1/4398046511102).P; P",
        Err(Stop::WeightOverflow),
    ),
];

#[test]
fn lists_of_first_states(rt: HostRuntime) -> Result<(), Fail> {
    for (text, want) in ROWS {
        assert!(rt; row_holds(rt.alloc(), text.as_bytes(), want));
    }
    Ok(())
}

fn row_holds(alloc: Global, text: &[u8], want: &Result<(u32, u64, u64), Stop>) -> bool {
    match model_of(alloc, text) {
        Some(model) => loads(alloc, &model, want),
        None => false,
    }
}

fn loads(alloc: Global, model: &Model, want: &Result<(u32, u64, u64), Stop>) -> bool {
    let mut space = PlainSpace::make(model);
    match first_list(alloc, &mut space) {
        Ok(loaded) => *want == Ok((loaded.len, loaded.whole, loaded.den)),
        Err(Halt::Stop(stop)) => *want == Err(stop),
        Err(Halt::Memory | Halt::Full) => false,
    }
}

fn first_list(alloc: Global, space: &mut PlainSpace) -> Result<Loaded, Halt> {
    let first = space.first(alloc)?;
    space.load(alloc, &first)
}

/// P goes on by a, at rate 3, to Q.
const TWO: &str = "P = (a,3).Q; Q = (b,1).P; P";

#[test]
fn a_step_and_the_state_after_it(rt: HostRuntime) -> Result<(), Fail> {
    assert!(rt; two_holds(rt.alloc(), TWO.as_bytes()));
    Ok(())
}

fn two_holds(alloc: Global, text: &[u8]) -> bool {
    match model_of(alloc, text) {
        Some(model) => goes_on(alloc, &model),
        None => false,
    }
}

fn goes_on(alloc: Global, model: &Model) -> bool {
    let mut space = PlainSpace::make(model);
    match one_step(alloc, &mut space) {
        Ok((jump, after)) => is_first_jump(&jump) && matches!(after, Term::Leaf(1)),
        Err(_) => false,
    }
}

fn one_step(alloc: Global, space: &mut PlainSpace) -> Result<(Jump, Term), Halt> {
    let first = space.first(alloc)?;
    let loaded = space.load(alloc, &first)?;
    if loaded.whole == 0 {
        return Err(Halt::Full);
    }
    let index = space.choose(loaded.whole - 1);
    let jump = space.step(index);
    let after = space.go(alloc, &first, index)?;
    Ok((jump, after))
}

fn is_first_jump(jump: &Jump) -> bool {
    jump.action == 1 && jump.signals == 0 && jump.rate.num == 3 && jump.weight == 3
}
