//! All replications of an order, one after another, over the plain space.
ghost use Rattle.std.specs.Prelude.{◌≡◌, ◌≤◌, IfOk};
ghost use Rattle.sim_replication.specs.Orders.{IsOrderInRange};
ghost use Rattle.sim_workers.specs.AllRuns.{AllRuns, AnswersNumbered};

use pepa_model::Model;
use plain_space::PlainSpace;
use sim_replication::{Order, Outcome, Ran, replicate};
use sim_space::{Halt, Stop};
use sqlite_items::Items;
use std::alloc::{AllocError, Global};

/// The replications 1 to `runs` of an order, one after another.
///
/// `Finished` has what each of them gives, in the order of their numbers, exactly where each ends. `Stopped` has the number of
/// the first that stops, and why it does, exactly where one does; no later one is begun. A model and an order have exactly one
/// outcome ([`crate::laws::one_outcome`], [`crate::laws::some_outcome`]). [`Order::is_in_range`] tests what it needs of the order.
///
/// The error says only that memory ran out.
pub fn run_alone(alloc: Global, model: &Model, order: &Order) -> Result<Outcome, AllocError>
    requires { IsOrderInRange order.now }
    ensures { IfOk result (AllRuns model.now order.now) }
{
    let mut space = PlainSpace::make(model);
    let mut ended = Items::new(alloc);
    for before in 0..order.runs {
        let number = before + 1;
        match numbered(alloc, &mut space, order, number)? {
            Ok(ran) => ended.push(ran)?,
            Err(stop) => return Ok(Outcome::Stopped { number, stop }),
        }
    }
    Ok(Outcome::Finished(ended))
}

/// What the replication of this number gives, or why it stops. The plain space is never full.
fn numbered(
    alloc: Global,
    space: &mut PlainSpace,
    order: &Order,
    number: u64,
) -> Result<Result<Ran, Stop>, AllocError>
    requires { order.now.jumps ≤ 1000000000 }
    ensures run { IfOk result (AnswersNumbered space.old.model order.now number) }
    ensures same { space.new.model ≡ space.old.model }
{
    match replicate(alloc, space, order, number) {
        Ok(ran) => Ok(Ok(ran)),
        Err(Halt::Stop(stop)) => Ok(Err(stop)),
        Err(Halt::Memory) => Err(AllocError),
        Err(Halt::Full) => unreachable!(),
    }
}
