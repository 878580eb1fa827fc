//! Transitions one after another, worked out by hand from the rule.

use crate::expressions::{Form, START, STOP, table_for};
use probe_automata::BuildFault;
use probe_hearing::{all_ask_below, hear_transition, valuation};
use probe_words::{Letter, ProbeTable};
use std::alloc::Global;
use std::process::Abort;

// Actions.
const TAU: u32 = 0;

const A: u32 = 1;

const B: u32 = 2;

const C: u32 = 3;

// Labels of the probe inside.
const READY: u32 = 2;

const X: u32 = 3;

const Y: u32 = 4;

const LAST: u32 = 63;

// Sets of one label each.
const SENT_START: u64 = 1 << START;

const SENT_STOP: u64 = 1 << STOP;

const SENT_READY: u64 = 1 << READY;

const SENT_X: u64 = 1 << X;

const SENT_Y: u64 = 1 << Y;

const SENT_LAST: u64 = 1 << LAST;

/// A transition of the component: the count before it, its action and its signals; then the state of the watch after it and the signals
/// of the watch's own transition.
type Case = (u32, u32, u64, u32, u64);

/// What the watch makes of one transition at a state.
fn hear(rt: &impl Abort, table: &ProbeTable, state: u32, case: &Case) -> (u32, u64) {
    let (count, action, signals, _, _) = *case;
    let guards = table.guards.as_slice();
    assert!(rt; state < table.states);
    assert!(rt; guards.len() <= 4 && all_ask_below(guards, 1));
    let valuation = valuation(guards, &[count]);
    let heard = hear_transition(table, state, valuation, action, signals);
    (heard.state, heard.signals)
}

/// Compares the cases, one after another from the start.
fn compare(rt: &impl Abort, table: &ProbeTable, cases: &[Case]) {
    let mut state = 0;
    for case in cases {
        let found = hear(rt, table, state, case);
        assert_eq!(rt; found, (case.3, case.4), "{case:?}");
        state = found.0;
    }
}

/// Compares the cases at the table of an expression.
fn are_heard(rt: &impl Abort, alloc: Global, form: Form, cases: &[Case]) {
    let table = table_for(rt, alloc, form);
    match &table {
        Ok(table) => compare(rt, table, cases),
        Err(fault) => assert!(rt; matches!(fault, BuildFault::Memory)),
    }
}

// `a:start, b:stop`: what isn't heard changes nothing and sends nothing, `tau` among it; after b it begins anew; the component's signals
// go on, also where nothing is heard.
#[test]
fn two_actions(rt: HostRuntime) {
    are_heard(
        &rt,
        rt.alloc(),
        Form::Pair(Letter::Action(A), Letter::Action(B)),
        &[
            (0, TAU, 0, 0, 0),
            (0, B, 0, 0, 0),
            (0, A, 0, 1, SENT_START),
            (0, A, 0, 1, 0),
            (0, C, SENT_READY, 1, SENT_READY),
            (0, TAU, 0, 1, 0),
            (0, B, SENT_READY, 2, SENT_STOP | SENT_READY),
            (0, B, 0, 2, 0),
            (0, A, SENT_START, 1, SENT_START),
        ],
    );
}

// `tau:start`, which no text can ask for: `tau` is no event.
#[test]
fn tau_is_no_event(rt: HostRuntime) {
    are_heard(
        &rt,
        rt.alloc(),
        Form::One(Letter::Action(TAU)),
        &[(0, TAU, 0, 0, 0), (0, TAU, SENT_X, 0, SENT_X)],
    );
}

// `ready:start`, where `ready` comes from the probe inside, with an action or with `tau`; an action of the label's number isn't the label.
#[test]
fn a_signal_of_the_probe_inside(rt: HostRuntime) {
    are_heard(
        &rt,
        rt.alloc(),
        Form::One(Letter::Signal(READY)),
        &[
            (0, READY, 0, 0, 0),
            (0, C, SENT_READY, 1, SENT_READY | SENT_START),
            (
                0,
                TAU,
                SENT_READY | SENT_X,
                1,
                SENT_READY | SENT_X | SENT_START,
            ),
        ],
    );
}

// The highest label there can be.
#[test]
fn the_last_label(rt: HostRuntime) {
    are_heard(
        &rt,
        rt.alloc(),
        Form::One(Letter::Signal(LAST)),
        &[(0, TAU, SENT_LAST, 1, SENT_LAST | SENT_START)],
    );
}

// `{n > 1} a:start`.
#[test]
fn a_guard(rt: HostRuntime) {
    are_heard(
        &rt,
        rt.alloc(),
        Form::Guarded(Letter::Action(A)),
        &[
            (1, A, 0, 0, 0),
            (2, A, 0, 1, SENT_START),
            (1, A, 0, 1, 0),
            (2, B, 0, 1, 0),
            (3, A, SENT_X, 1, SENT_START | SENT_X),
        ],
    );
}

// x has a lower number than y. So `x:start, y:stop` is heard whole in one transition with both signals. Of `y:start, x:stop` the first
// such transition gives y alone, since x comes before it and isn't heard; the second gives x and then y, which begins anew.
#[test]
fn signals_in_the_order_of_labels(rt: HostRuntime) {
    let both = SENT_X | SENT_Y;
    are_heard(
        &rt,
        rt.alloc(),
        Form::Pair(Letter::Signal(X), Letter::Signal(Y)),
        &[(0, TAU, both, 2, both | SENT_START | SENT_STOP)],
    );
    are_heard(
        &rt,
        rt.alloc(),
        Form::Pair(Letter::Signal(Y), Letter::Signal(X)),
        &[
            (0, TAU, both, 1, both | SENT_START),
            (0, TAU, both, 1, both | SENT_START | SENT_STOP),
        ],
    );
}

// `a:start, ready:stop` is heard whole in one transition by a with `ready`, and both labels are sent. Of `ready:start, a:stop` it gives
// `ready` alone, since the action comes before it.
#[test]
fn an_action_and_its_signals(rt: HostRuntime) {
    let all = SENT_START | SENT_STOP | SENT_READY | SENT_X;
    are_heard(
        &rt,
        rt.alloc(),
        Form::Pair(Letter::Action(A), Letter::Signal(READY)),
        &[(0, A, SENT_READY | SENT_X, 2, all)],
    );
    are_heard(
        &rt,
        rt.alloc(),
        Form::Pair(Letter::Signal(READY), Letter::Action(A)),
        &[
            (0, A, SENT_READY, 1, SENT_READY | SENT_START),
            (0, A, 0, 2, SENT_STOP),
        ],
    );
}
