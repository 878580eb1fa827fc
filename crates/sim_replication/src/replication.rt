//! A replication, by its number or over any numbers.
ghost use Rattle.std.specs.Prelude.{◌≡◌, ◌+◌, ◌^◌, ◌<◌, ◌≤◌, IfErr};
ghost use Rattle.sim_space.specs.SpaceAnswers.{IsFullBy};
ghost use Rattle.sim_replication.specs.Orders.{numbers_of};
ghost use Rattle.sim_replication.specs.Runs.{AnswersRun, HasVisited, VisitsOnly};

use crate::jumping::one_jump;
use crate::order::Order;
use crate::passages::Passages;
use crate::ran::{Ending, Ran};
use sim_draws::{Numbers, Stream};
use sim_space::{Halt, Space};
use std::alloc::Global;

/// Replication `number` of an order: the passages that ended in it, and how it ended.
///
/// A stop is answered exactly where the replication stops, with its cause. `Full` comes only where the space was full in this call,
/// and `Memory` says only that memory ran out. The space has then seen each state that the replication visited and kept each from
/// which it took a jump, unless memory or the space ran out.
pub fn replicate<S: Space>(
    alloc: Global,
    space: &mut S,
    order: &Order,
    number: u64,
) -> Result<Ran, Halt>
    requires jumps { order.now.jumps ≤ 1000000000 }
    requires wanted { VisitsOnly (S.model space.old) order.now (numbers_of order.now number)
        (S.wants space.old) }
    ensures run { AnswersRun (S.model space.old) order.now (numbers_of order.now number)
        (HasVisited (S.seen space.new) (S.kept space.new)) result }
    ensures full { IfErr result (IsFullBy (S.fulls space.old) (S.fulls space.new)) }
    ensures later { S.later space.old space.new }
{
    let mut stream = Stream::begin(order.seed, number);
    replicate_over(alloc, space, &mut stream, order)
}

/// A replication that draws from these numbers, from their first one on. It takes fewer than 2^39 of them.
///
/// It answers as [`replicate`] does.
pub fn replicate_over<S: Space, N: Numbers>(
    alloc: Global,
    space: &mut S,
    from: &mut N,
    order: &Order,
) -> Result<Ran, Halt>
    requires start { N.place from.old ≡ 0 }
    requires jumps { order.now.jumps ≤ 1000000000 }
    requires wanted { VisitsOnly (S.model space.old) order.now (N.at from.old) (S.wants space.old) }
    ensures run { AnswersRun (S.model space.old) order.now (N.at from.old)
        (HasVisited (S.seen space.new) (S.kept space.new)) result }
    ensures few { N.place from.new < 2 ^ 39 }
    ensures same { N.at from.new ≡ N.at from.old }
    ensures full { IfErr result (IsFullBy (S.fulls space.old) (S.fulls space.new)) }
    ensures later { S.later space.old space.new }
{
    let mut at = space.first(alloc)?;
    let mut passages = Passages::new(alloc);
    let mut time: u64 = 0;
    for _jump in 0..order.jumps {
        if passages.ended.len() as u64 >= order.passages {
            return Ok(ended(passages, Ending::Done));
        }
        let Some(reached) = one_jump(alloc, space, from, &at, time)? else {
            return Ok(ended(passages, Ending::Deadlock));
        };
        time = reached.time;
        passages.hear(reached.signals, time)?;
        at = reached.state;
    }
    let ending = if passages.ended.len() as u64 >= order.passages {
        Ending::Done
    } else {
        Ending::JumpLimit
    };
    Ok(ended(passages, ending))
}

fn ended(passages: Passages, ending: Ending) -> Ran
    ensures { result ≡ record { passages = passages.ended; ending = ending } }
{
    Ran {
        passages: passages.ended,
        ending,
    }
}
