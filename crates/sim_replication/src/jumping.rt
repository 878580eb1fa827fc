//! One jump of a replication.
ghost use Rattle.std.specs.Prelude.{◌≡◌, ⊤, ◌+◌, ◌^◌, ◌<◌, ◌≤◌, [], IfErr};
ghost use Rattle.pepa_steps.specs.States.{State};
ghost use Rattle.sim_space.specs.LoadedLists.{IsChoiceList};
ghost use Rattle.sim_space.specs.SpaceAnswers.{IsFullBy};
ghost use Rattle.sim_replication.specs.Jumps.{Point, JumpsTo, StopsBy, AnswersJump};

use crate::clock::advance;
use sim_draws::{Numbers, below, exponential};
use sim_space::{Halt, Space, Stop};
use std::alloc::Global;

/// Where a jump leads, at what time in ticks, and with what signals.
#[derive(Drop)]
pub(crate) struct Reached<X> {
    pub(crate) state: X,
    pub(crate) time: u64,
    pub(crate) signals: u64,
}

/// One jump from a state at a time; none where it has no transition.
pub(crate) fn one_jump<S: Space, N: Numbers>(
    alloc: Global,
    space: &mut S,
    from: &mut N,
    at: &S::State,
    time: u64,
) -> Result<Option<Reached<S::State>>, Halt>
    requires wanted { (q : State) × S.stands space.old at.now q × S.wants space.old q }
    requires room { N.place from.old + 320 ≤ 2 ^ 63 }
    requires time { time < 2 ^ 63 }
    ensures jump { (q : State) → S.stands space.old at.now q
        → (let p : Point = record { state = q; time = time; place = N.place from.old } in
        AnswersJump
        (λ reached. (r : State)
        × JumpsTo (S.model space.old) (N.at from.old) p
        (record { from = q; signals = reached.signals; time = reached.time })
        (record { state = r; time = reached.time; place = N.place from.new })
        × S.stands space.new reached.state r × S.seen space.new r × S.kept space.new q)
        (IsChoiceList (S.model space.old) q [])
        (StopsBy (S.model space.old) (N.at from.old) p) result) }
    ensures in_time { AnswersJump (λ reached. reached.time < 2 ^ 63) ⊤ (λ _. ⊤) result }
    ensures forward { N.place from.old ≤ N.place from.new }
    ensures within { N.place from.new ≤ N.place from.old + 320 }
    ensures same { N.at from.new ≡ N.at from.old }
    ensures full { IfErr result (IsFullBy (S.fulls space.old) (S.fulls space.new)) }
    ensures later { S.later space.old space.new }
{
    let loaded = space.load(alloc, at)?;
    if loaded.len == 0 {
        return Ok(None);
    }
    let Ok(draw) = exponential(from) else {
        return Err(Halt::Stop(Stop::DrawLimit));
    };
    let Some(after) = advance(time, draw, loaded.den, loaded.whole) else {
        return Err(Halt::Stop(Stop::TimeOverflow));
    };
    let Ok(choice) = below(from, loaded.whole) else {
        return Err(Halt::Stop(Stop::DrawLimit));
    };
    let index = space.choose(choice);
    let signals = space.step(index).signals;
    let state = space.go(alloc, at, index)?;
    Ok(Some(Reached {
        state,
        time: after,
        signals,
    }))
}
