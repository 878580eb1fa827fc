//! Long random lists of enabled events, which a naive interner follows.

use crate::histories::has_entries;
use crate::moves::{Move, event_of};
use crate::naive::{Endings, Naive};
use intern_core::{Core, CoreFault, Key, Outcome2, Shape, core_step};
use std::alloc::Global;
use std::process::Abort;
use std::test::Fail;

// Numbers by a linear congruence; a draw takes the high bits.
#[derive(Drop)]
struct Chance {
    state: u64,
}

impl Chance {
    fn below(&mut self, bound: u32) -> u32 {
        self.state = self
            .state
            .wrapping_mul(6364136223846793005)
            .wrapping_add(1442695040888963407);
        let drawn = (self.state >> 33) as u32;
        if bound == 0 { 0 } else { drawn % bound }
    }
}

const STEPS: [Move; 12] = [
    Move::Claim,
    Move::StoreOne,
    Move::StoreTwo,
    Move::LoadLink,
    Move::LoadOne,
    Move::LoadTwo,
    Move::SwapLink,
    Move::ClaimBlock,
    Move::StoreWord,
    Move::LoadList,
    Move::LoadWord,
    Move::SwapList,
];

// How large a table is, and which calls come.
#[derive(Clone, Copy, Debug)]
struct Plan {
    nodes: u32,
    bits: u32,
    entries: u32,
    keys: u32,
    lists: bool,
}

// A key of a few, some of which share a word.
fn some_key(chance: &mut Chance, keys: u32) -> Key {
    let n = chance.below(keys);
    Key {
        one: u64::from(n / 2),
        two: u64::from(n % 2),
    }
}

// A call that an idle seat may try to begin.
fn some_call(chance: &mut Chance, plan: &Plan) -> Move {
    let number = chance.below(plan.nodes.saturating_add(2));
    let at = chance.below(3);
    let first = u64::from(chance.below(1000));
    let which = chance.below(8);
    if plan.lists && which == 0 {
        Move::FetchLen(number)
    } else if plan.lists && which == 1 {
        Move::FetchEntry(number, at)
    } else if plan.lists && which < 5 {
        Move::Offer(number, at, first)
    } else if which == 5 {
        Move::Look(number)
    } else {
        Move::Ask(some_key(chance, plan.keys))
    }
}

// An idle seat's call happens exactly where the naive interner says that it may.
fn begin(
    rt: &impl Abort,
    alloc: Global,
    core: &mut Core,
    naive: &mut Naive,
    seat: u32,
    step: Move,
) -> Result<(), Fail> {
    let event = event_of(alloc, seat, step)?;
    let may = naive.may_begin(step);
    match core_step(alloc, core, &event) {
        Ok(outcome) => {
            assert!(rt; may && outcome == Outcome2::Going, "{step:?}");
            naive.begin(seat, step);
        }
        Err(CoreFault::NotEnabled) => assert!(rt; !may, "{step:?}"),
        Err(fault) => return Err(fault.into()),
    }
    Ok(())
}

// The step of a busy seat that happens, with its outcome.
fn next_step(alloc: Global, core: &mut Core, seat: u32) -> Result<Option<(Move, Outcome2)>, Fail> {
    for step in STEPS {
        let event = event_of(alloc, seat, step)?;
        match core_step(alloc, core, &event) {
            Ok(outcome) => return Ok(Some((step, outcome))),
            Err(CoreFault::NotEnabled) => {}
            Err(fault) => return Err(fault.into()),
        }
    }
    Ok(None)
}

// One event of a seat.
fn one_event(
    rt: &impl Abort,
    alloc: Global,
    core: &mut Core,
    naive: &mut Naive,
    chance: &mut Chance,
    plan: &Plan,
) -> Result<(), Fail> {
    let seat = chance.below(3);
    if naive.is_idle(seat) {
        let step = some_call(chance, plan);
        return begin(rt, alloc, core, naive, seat, step);
    }
    match next_step(alloc, core, seat)? {
        Some((step, outcome)) => assert!(rt;
            naive.agrees(seat, step, outcome)?,
            "{step:?} {outcome:?}"
        ),
        None => assert!(rt; false, "no act of seat {seat} is enabled"),
    }
    Ok(())
}

// A walk of so many events of three seats; how often each ending came.
fn walk(rt: &impl Abort, alloc: Global, plan: &Plan, events: u32) -> Result<Endings, Fail> {
    let shape = Shape {
        nodes: plan.nodes,
        bucket_bits: plan.bits,
        entries: plan.entries,
        passes: 3,
    };
    assert!(rt; plan.nodes >= 1 && plan.nodes <= 100 && plan.bits <= 3 && plan.entries <= 1000);
    let mut core = Core::make(alloc, shape)?;
    let mut naive = Naive::make(alloc, &shape)?;
    let mut chance = Chance {
        state: u64::from(plan.keys),
    };
    for _ in 0..events {
        one_event(rt, alloc, &mut core, &mut naive, &mut chance, plan)?;
    }
    has_entries(rt, core.history(), naive.noted());
    Ok(naive.endings())
}

#[test]
fn calls_for_keys(rt: HostRuntime) -> Result<(), Fail> {
    let table = [
        (1, 0, 2, true),
        (1, 0, 5, true),
        (2, 1, 3, true),
        (3, 0, 12, true),
        (4, 2, 12, true),
        (7, 1, 20, true),
        (12, 0, 8, false),
        (40, 3, 30, false),
    ];
    for (nodes, bits, keys, is_full) in table {
        let plan = Plan {
            nodes,
            bits,
            entries: 0,
            keys,
            lists: false,
        };
        let endings = walk(&rt, rt.alloc(), &plan, 3000)?;
        assert_eq!(rt; endings.full > 0, is_full, "{plan:?}");
    }
    Ok(())
}

#[test]
fn calls_on_lists(rt: HostRuntime) -> Result<(), Fail> {
    let table = [
        (1, 0, 0, 2),
        (2, 1, 1, 3),
        (4, 0, 3, 8),
        (8, 2, 6, 12),
        (30, 0, 20, 60),
        (30, 3, 1000, 60),
        (60, 2, 1000, 100),
    ];
    let mut sum = Endings {
        full: 0,
        published: 0,
        lost: 0,
        no_room: 0,
        got: 0,
    };
    for (nodes, bits, entries, keys) in table {
        let plan = Plan {
            nodes,
            bits,
            entries,
            keys,
            lists: true,
        };
        let endings = walk(&rt, rt.alloc(), &plan, 6000)?;
        sum = Endings {
            full: sum.full.saturating_add(endings.full),
            published: sum.published.saturating_add(endings.published),
            lost: sum.lost.saturating_add(endings.lost),
            no_room: sum.no_room.saturating_add(endings.no_room),
            got: sum.got.saturating_add(endings.got),
        };
    }
    assert!(rt; sum.full > 0 && sum.published > 20, "{sum:?}");
    assert!(rt; sum.lost > 0 && sum.no_room > 3 && sum.got > 100, "{sum:?}");
    Ok(())
}
