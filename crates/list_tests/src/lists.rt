//! The lists of two states of a system, one after the other in the same buffers, and where their entries lead.
//!
//! The functions take models, terms and buffers by reference and answer a truth: one that owns a model is long to prove.
ghost use Rattle.pepa_model.specs.Terms.{IsTermOf};
ghost use Rattle.pepa_steps.specs.Traces.{AreFor, HasList};

use pepa_model::{Model, Term};
use pepa_rates::{Frac, Rate};
use pepa_steps::{Buffers, Entry, is_term_of, load, target};
use small_models::model_of;
use std::alloc::{AllocError, Global};
use std::test::Fail;

/// The leaves 0 to 3 are P, Q, R and S, the action types 1 to 3 are a, b and c, and the sets 0 and 1 are {a} and {c}.
const TEXT: &str = "P = (a,2).Q; Q = (b,1).P; R = (a,1).S + (a,1).R; S = (c,3).R; (P <a> R)/{c}";

/// A component on each side, by their leaves: over set 0, with set 1 hidden.
type Sides = (u32, u32);

/// A state, and its two transitions: the action type, the rate and the state that follows.
#[derive(Clone, Copy)]
struct Row {
    state: Sides,
    first: (u32, u64, Sides),
    second: (u32, u64, Sides),
}

/// Each of R's activities by a has half of R's rate, and P's rate and R's are both 2.
const FIRST: Row = Row {
    state: (0, 2),
    first: (1, 1, (1, 3)),
    second: (1, 1, (1, 2)),
};

/// Each side goes on alone, and c is hidden.
const SECOND: Row = Row {
    state: (1, 3),
    first: (2, 1, (0, 3)),
    second: (0, 3, (1, 2)),
};

#[test]
fn lists_and_targets(rt: HostRuntime) -> Result<(), Fail> {
    assert!(rt; rows_hold(rt.alloc(), TEXT.as_bytes()));
    Ok(())
}

fn rows_hold(alloc: Global, text: &[u8]) -> bool {
    match model_of(alloc, text) {
        Some(model) => all_hold(alloc, &model),
        None => false,
    }
}

/// Whether the rows hold, one after the other in the same buffers.
fn all_hold(alloc: Global, model: &Model) -> bool {
    let mut buffers = Buffers::new(alloc);
    row_holds(alloc, model, &FIRST, &mut buffers)
        && row_holds(alloc, model, &SECOND, &mut buffers)
        && row_holds(alloc, model, &FIRST, &mut buffers)
}

fn row_holds(alloc: Global, model: &Model, row: &Row, buffers: &mut Buffers) -> bool
    requires { AreFor model.now buffers.old }
    ensures { AreFor model.now buffers.new }
{
    match state(alloc, row.state) {
        Ok(term) => is_term_of(model, &term) && is_listed(alloc, model, &term, row, buffers),
        Err(_) => false,
    }
}

fn state(alloc: Global, sides: Sides) -> Result<Term, AllocError> {
    let left = Box::new(alloc, Term::Leaf(sides.0))?;
    let right = Box::new(alloc, Term::Leaf(sides.1))?;
    let both = Box::new(alloc, Term::Coop(left, right, 0))?;
    Ok(Term::Hide(both, 1))
}

fn is_listed(alloc: Global, model: &Model, term: &Term, row: &Row, buffers: &mut Buffers) -> bool
    requires of_model { IsTermOf model.now term.now }
    requires of_buffers { AreFor model.now buffers.old }
    ensures { AreFor model.now buffers.new }
{
    match load(alloc, model, term, buffers) {
        Ok(()) => has_row(alloc, model, term, row, buffers),
        Err(_) => false,
    }
}

fn has_row(alloc: Global, model: &Model, term: &Term, row: &Row, buffers: &Buffers) -> bool
    requires { HasList model.now term.now buffers.now }
{
    are_entries(buffers.entries(), row)
        && leads(alloc, model, term, buffers, 0, row.first.2)
        && leads(alloc, model, term, buffers, 1, row.second.2)
}

fn are_entries(entries: &[Entry], row: &Row) -> bool {
    match entries {
        [first, second] => {
            is_entry(first, row.first.0, row.first.1)
                && is_entry(second, row.second.0, row.second.1)
        }
        _ => false,
    }
}

/// An entry without signals, with a whole number as its rate.
fn is_entry(entry: &Entry, action: u32, number: u64) -> bool {
    entry.action == action && entry.signals == 0 && is_whole(&entry.rate, number)
}

fn is_whole(rate: &Rate, number: u64) -> bool {
    match rate {
        Rate::Active(Frac { num, den: 1 }) => *num == number,
        _ => false,
    }
}

/// Whether the entry of this index leads to the state of these leaves.
fn leads(
    alloc: Global,
    model: &Model,
    term: &Term,
    buffers: &Buffers,
    index: usize,
    sides: Sides,
) -> bool
    requires { HasList model.now term.now buffers.now }
{
    if index >= buffers.entries().len() {
        return false;
    }
    match target(alloc, model, term, buffers, index) {
        Ok(made) => is_state(&made, sides),
        Err(_) => false,
    }
}

fn is_state(term: &Term, sides: Sides) -> bool {
    match term {
        Term::Hide(inner, 1) => has_sides(inner, sides),
        _ => false,
    }
}

fn has_sides(term: &Term, sides: Sides) -> bool {
    match term {
        Term::Coop(left, right, 0) => is_leaf(left, sides.0) && is_leaf(right, sides.1),
        _ => false,
    }
}

fn is_leaf(term: &Term, leaf: u32) -> bool {
    match term {
        Term::Leaf(number) => *number == leaf,
        _ => false,
    }
}
