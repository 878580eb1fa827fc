//! Lists of events with their outcomes and histories, worked out by hand.

use crate::histories::has_entries;
use crate::moves::{Move, Noted, entry_at, event_of};
use intern_core::{
    Core, Event, Key, Outcome2, Published, Reply, RunCoreFault, Shape, core_step, run_core,
};
use std::alloc::{AllocError, Global};
use std::process::Abort;
use std::test::Fail;

const GOING: Outcome2 = Outcome2::Going;

// Each move of a seat has its outcome.
fn has_outcomes(
    rt: &impl Abort,
    alloc: Global,
    core: &mut Core,
    rows: &[(u32, Move, Outcome2)],
) -> Result<(), Fail> {
    for (seat, step, want) in rows {
        let event = event_of(alloc, *seat, *step)?;
        let found = core_step(alloc, core, &event)?;
        assert_eq!(rt; found, *want, "{step:?}");
    }
    Ok(())
}

// The events of these moves.
fn events_of(alloc: Global, moves: &[(u32, Move)]) -> Result<Vec<Event>, AllocError> {
    let mut events = Vec::new(alloc);
    for (seat, step) in moves {
        events.push(event_of(alloc, *seat, *step)?)?;
    }
    Ok(events)
}

// Where a list of moves is refused, on a table of two nodes with room for four entries.
fn refused_at(alloc: Global, moves: &[(u32, Move)]) -> Result<Option<RunCoreFault>, Fail> {
    let shape = Shape {
        nodes: 2,
        bucket_bits: 0,
        entries: 4,
        passes: 2,
    };
    let events = events_of(alloc, moves)?;
    Ok(run_core(alloc, shape, &events).err())
}

const K: Key = Key { one: 4, two: 0 };

const L: Key = Key { one: 8, two: 0 };

// Two seats ask for one key; the second loses its exchange and finds the node of the first.
#[test]
fn two_seats_get_one_number(rt: HostRuntime) -> Result<(), Fail> {
    let shape = Shape {
        nodes: 2,
        bucket_bits: 0,
        entries: 0,
        passes: 2,
    };
    let rows = [
        (0, Move::Ask(K), GOING),
        (1, Move::Ask(K), GOING),
        (0, Move::Claim, GOING),
        (1, Move::Claim, GOING),
        (0, Move::StoreOne, GOING),
        (0, Move::StoreTwo, GOING),
        (1, Move::StoreOne, GOING),
        (1, Move::StoreTwo, GOING),
        (0, Move::LoadLink, GOING),
        (1, Move::LoadLink, GOING),
        (0, Move::SwapLink, Outcome2::Answered(Reply::Num(1))),
        (1, Move::SwapLink, GOING),
        (1, Move::LoadOne, GOING),
        (1, Move::LoadTwo, Outcome2::Answered(Reply::Num(1))),
    ];
    let mut core = Core::make(rt.alloc(), shape)?;
    has_outcomes(&rt, rt.alloc(), &mut core, &rows)?;
    let want = [
        Noted::Call(0, K, Reply::Num(1)),
        Noted::Call(1, K, Reply::Num(1)),
    ];
    has_entries(&rt, core.history(), &want);
    Ok(())
}

const TWO_ASKERS: [(u32, Move); 15] = [
    (0, Move::Ask(K)),
    (1, Move::Ask(K)),
    (0, Move::Claim),
    (1, Move::Claim),
    (0, Move::StoreOne),
    (0, Move::StoreTwo),
    (1, Move::StoreOne),
    (1, Move::StoreTwo),
    (0, Move::LoadLink),
    (1, Move::LoadLink),
    (0, Move::SwapLink),
    (1, Move::SwapLink),
    (1, Move::LoadOne),
    (1, Move::LoadTwo),
    (1, Move::Claim),
];

// The same events as a list; one more that is not its seat's next one is refused, and so is a seat that is not there.
#[test]
fn a_list_of_events(rt: HostRuntime) -> Result<(), Fail> {
    let shape = Shape {
        nodes: 2,
        bucket_bits: 0,
        entries: 0,
        passes: 2,
    };
    let events = events_of(rt.alloc(), &TWO_ASKERS[..14])?;
    let core = run_core(rt.alloc(), shape, &events);
    assert!(rt; core.is_ok());
    if let Ok(core) = core {
        let want = [
            Noted::Call(0, K, Reply::Num(1)),
            Noted::Call(1, K, Reply::Num(1)),
        ];
        has_entries(&rt, core.history(), &want);
        assert_eq!(rt;
            core.words(),
            [2, 0, 0, 0, 4, 0, 0, 0, 4, 0, 0, 0, 1].as_slice()
        );
    }
    Ok(())
}

#[test]
fn refused_events(rt: HostRuntime) -> Result<(), Fail> {
    let refused = refused_at(rt.alloc(), &TWO_ASKERS)?;
    assert_eq!(rt; refused, Some(RunCoreFault::NotEnabled(14)));
    let table = [
        (2, Move::Ask(K)),
        (0, Move::Claim),
        (0, Move::Look(1)),
        (1, Move::FetchLen(1)),
        (1, Move::FetchEntry(1, 0)),
        (0, Move::Offer(1, 1, 0)),
        (0, Move::LoadList),
    ];
    for row in table {
        let found = refused_at(rt.alloc(), &[row])?;
        assert_eq!(rt; found, Some(RunCoreFault::NotEnabled(0)), "{row:?}");
    }
    Ok(())
}

// One node: the second key finds the table full, and a look at the first number finds its key.
#[test]
fn a_full_table(rt: HostRuntime) -> Result<(), Fail> {
    let shape = Shape {
        nodes: 1,
        bucket_bits: 0,
        entries: 0,
        passes: 2,
    };
    let rows = [
        (0, Move::Ask(K), GOING),
        (0, Move::Claim, GOING),
        (0, Move::StoreOne, GOING),
        (0, Move::StoreTwo, GOING),
        (0, Move::LoadLink, GOING),
        (0, Move::SwapLink, Outcome2::Answered(Reply::Num(1))),
        (1, Move::Ask(L), GOING),
        (1, Move::Claim, GOING),
        (1, Move::LoadLink, GOING),
        (1, Move::LoadOne, GOING),
        (1, Move::LoadLink, Outcome2::Answered(Reply::Full)),
        (1, Move::Look(1), GOING),
        (1, Move::LoadOne, GOING),
        (1, Move::LoadTwo, Outcome2::Found(K)),
    ];
    let mut core = Core::make(rt.alloc(), shape)?;
    has_outcomes(&rt, rt.alloc(), &mut core, &rows)?;
    let want = [
        Noted::Call(0, K, Reply::Num(1)),
        Noted::Call(1, L, Reply::Full),
    ];
    has_entries(&rt, core.history(), &want);
    Ok(())
}

const KNOWN: [(u32, Move, Outcome2); 6] = [
    (0, Move::Ask(K), GOING),
    (0, Move::Claim, GOING),
    (0, Move::StoreOne, GOING),
    (0, Move::StoreTwo, GOING),
    (0, Move::LoadLink, GOING),
    (0, Move::SwapLink, Outcome2::Answered(Reply::Num(1))),
];

// Room for one entry: both seats offer one, the second finds no room, the first publishes, and the second finds that list.
#[test]
fn one_list_is_published(rt: HostRuntime) -> Result<(), Fail> {
    let shape = Shape {
        nodes: 1,
        bucket_bits: 0,
        entries: 1,
        passes: 2,
    };
    let rows = [
        (0, Move::Offer(1, 1, 100), GOING),
        (0, Move::LoadList, GOING),
        (1, Move::Offer(1, 1, 200), GOING),
        (1, Move::LoadList, GOING),
        (0, Move::ClaimBlock, GOING),
        (0, Move::StoreWord, GOING),
        (0, Move::StoreWord, GOING),
        (0, Move::StoreWord, GOING),
        (1, Move::ClaimBlock, Outcome2::Offered(Published::NoRoom)),
        (0, Move::SwapList, Outcome2::Offered(Published::First)),
        (1, Move::Offer(1, 1, 300), GOING),
        (1, Move::LoadList, Outcome2::Offered(Published::Already)),
        (1, Move::FetchLen(1), GOING),
        (1, Move::LoadList, Outcome2::Length(Some(1))),
        (0, Move::FetchEntry(1, 0), GOING),
        (0, Move::LoadList, GOING),
        (0, Move::LoadWord, GOING),
        (0, Move::LoadWord, GOING),
        (0, Move::LoadWord, Outcome2::Got(entry_at(100, 0))),
    ];
    let mut core = Core::make(rt.alloc(), shape)?;
    has_outcomes(&rt, rt.alloc(), &mut core, &KNOWN)?;
    has_outcomes(&rt, rt.alloc(), &mut core, &rows)?;
    let want = [Noted::Call(0, K, Reply::Num(1)), Noted::List(0, 1, 1, 100)];
    has_entries(&rt, core.history(), &want);
    assert_eq!(rt;
        core.words(),
        [1, 2, 0, 0, 4, 0, 0, 1 + (1 << 32), 1, 100, 101, 102].as_slice()
    );
    Ok(())
}

// Room for two lists of one number: the later one is lost, and a list of no entries is a list.
#[test]
fn a_list_is_lost(rt: HostRuntime) -> Result<(), Fail> {
    let shape = Shape {
        nodes: 1,
        bucket_bits: 0,
        entries: 1,
        passes: 2,
    };
    let rows = [
        (1, Move::FetchLen(1), GOING),
        (1, Move::LoadList, Outcome2::Length(None)),
        (0, Move::Offer(1, 0, 0), GOING),
        (0, Move::LoadList, GOING),
        (1, Move::Offer(1, 1, 7), GOING),
        (1, Move::LoadList, GOING),
        (1, Move::ClaimBlock, GOING),
        (0, Move::ClaimBlock, GOING),
        (0, Move::SwapList, Outcome2::Offered(Published::First)),
        (1, Move::StoreWord, GOING),
        (1, Move::StoreWord, GOING),
        (1, Move::StoreWord, GOING),
        (1, Move::SwapList, Outcome2::Offered(Published::Already)),
        (1, Move::FetchLen(1), GOING),
        (1, Move::LoadList, Outcome2::Length(Some(0))),
    ];
    let mut core = Core::make(rt.alloc(), shape)?;
    has_outcomes(&rt, rt.alloc(), &mut core, &KNOWN)?;
    has_outcomes(&rt, rt.alloc(), &mut core, &rows)?;
    let want = [
        Noted::Call(0, K, Reply::Num(1)),
        Noted::List(0, 1, 0, 0),
        Noted::Lost(1, 1, 1),
    ];
    has_entries(&rt, core.history(), &want);
    Ok(())
}
