//! What edges reach from some nodes.
ghost use Rattle.std.specs.Prelude.{◌≡◌, length, IfOk, OnOk};
ghost use Rattle.node_orders.specs.Graphs.{AreBelow, HasEdgesBelow, IsReached, IsTableOf};
ghost use Rattle.node_orders.specs.Marking.{IsMarking};

use sqlite_items::Items;
use std::alloc::{AllocError, Global};

/// Marks the targets, and puts those that were not marked behind the queue.
fn mark(seen: &mut Items<bool>, queue: &mut Items<u32>, targets: &[u32]) -> Result<(), AllocError>
    requires { AreBelow (length seen.old) targets.now }
    ensures { OnOk result (IsMarking targets.now seen.old queue.old seen.new queue.new) }
{
    for target in targets {
        let at = *target as usize;
        if !seen.as_slice()[at] {
            seen.set(at, true);
            queue.push(*target)?;
        }
    }
    Ok(())
}

/// The table of what is reached from these.
pub fn reached(alloc: Global, edges: &[Items<u32>], from: &[u32]) -> Result<Items<bool>, AllocError>
    requires edges_within { HasEdgesBelow (length edges.now) edges.now }
    requires from_within { AreBelow (length edges.now) from.now }
    ensures { IfOk result
        (λ table. (length table ≡ length edges.now) × IsTableOf (IsReached edges.now from.now) table) }
{
    let mut seen = Items::from_vec(vec![in alloc; false; edges.len()]?);
    let mut queue = Items::new(alloc);
    mark(&mut seen, &mut queue, from)?;
    let mut done = 0;
    while done < queue.len() {
        let next = queue.as_slice()[done] as usize;
        mark(&mut seen, &mut queue, edges[next].as_slice())?;
        done += 1;
    }
    Ok(seen)
}
