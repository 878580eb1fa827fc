//! The first node that reaches itself, or an order of the nodes along their edges.
ghost use Rattle.std.specs.Prelude.{◌≡◌, ℕ, ◌<◌, length, IfOk, OnOk, MatchOption, IsTrue, slice_index, count_by};
ghost use Rattle.std.specs.List.{Contains};
ghost use Rattle.node_orders.specs.Cycles.{ReachesItself};
ghost use Rattle.node_orders.specs.Graphs.{EdgeOf, AreBelow, HasEdgesBelow};
ghost use Rattle.node_orders.specs.Ranks.{AreRanks, HasReach, IsCycleOrOrder};

use crate::orders::by_rank;
use crate::reach::reached;
use sqlite_items::Items;
use std::alloc::{AllocError, Global};

/// What is found of the nodes of a graph.
#[derive(Drop)]
pub enum CycleOrOrder {
    /// The least one that reaches itself.
    Cycle(u32),
    /// None does: all of them, each behind those that its edges lead to.
    Order(Items<u32>),
}

/// How many nodes are marked.
fn count_marked(table: &[bool]) -> usize
    ensures { result ≡ count_by (λ marked. marked) table.now }
{
    table.iter().filter(|marked| **marked).count()
}

/// How many nodes edges lead to from this one, unless they lead back to it.
fn reach(alloc: Global, edges: &[Items<u32>], node: usize) -> Result<Option<usize>, AllocError>
    requires edges_within { HasEdgesBelow (length edges.now) edges.now }
    requires node_within { node < length edges.now }
    ensures { IfOk result
        (λ reach. MatchOption reach (ReachesItself (EdgeOf edges.now) node) (HasReach edges.now node)) }
{
    let table = reached(alloc, edges, edges[node].as_slice())?;
    if table.as_slice()[node] {
        return Ok(None);
    }
    Ok(Some(count_marked(table.as_slice())))
}

/// Counts each target once more.
fn count_targets(counts: &mut Items<usize>, targets: &[u32])
    requires { AreBelow (length counts.old) targets.now }
    ensures { length counts.new ≡ length counts.old }
{
    for target in targets {
        let at = *target as usize;
        let count = counts.as_slice()[at].saturating_add(1);
        counts.set(at, count);
    }
}

/// Counts each target once less, and puts those that come to none behind the queue.
fn release_targets(
    counts: &mut Items<usize>,
    queue: &mut Items<u32>,
    targets: &[u32],
) -> Result<(), AllocError>
    requires below { AreBelow (length counts.old) targets.now }
    requires queue_below { AreBelow (length counts.old) queue.old }
    ensures { OnOk result ((length counts.new ≡ length counts.old)
        × AreBelow (length counts.old) queue.new) }
{
    for target in targets {
        let at = *target as usize;
        let count = counts.as_slice()[at].saturating_sub(1);
        counts.set(at, count);
        if count == 0 {
            queue.push(*target)?;
        }
    }
    Ok(())
}

/// How many edges lead to each node.
fn incoming(alloc: Global, edges: &[Items<u32>]) -> Result<Items<usize>, AllocError>
    requires { HasEdgesBelow (length edges.now) edges.now }
    ensures { IfOk result (λ counts. length counts ≡ length edges.now) }
{
    let mut counts = Items::from_vec(vec![in alloc; 0; edges.len()]?);
    for at in 0..edges.len() {
        count_targets(&mut counts, edges[at].as_slice());
    }
    Ok(counts)
}

/// The nodes with no count.
fn uncounted(alloc: Global, counts: &[usize]) -> Result<Items<u32>, AllocError>
    requires { length counts.now < 4294967296 }
    ensures { IfOk result (λ free. AreBelow (length counts.now) free) }
{
    let mut free = Items::new(alloc);
    for at in 0..counts.len() {
        if counts[at] == 0 {
            free.push(at as u32)?;
        }
    }
    Ok(free)
}

/// Ranks of the nodes, each one's above those of its successors where that can be.
fn likely_ranks(alloc: Global, edges: &[Items<u32>]) -> Result<Items<usize>, AllocError>
    requires edges_within { HasEdgesBelow (length edges.now) edges.now }
    requires few { length edges.now < 4294967296 }
    ensures { IfOk result (λ ranks. length ranks ≡ length edges.now) }
{
    let mut counts = incoming(alloc, edges)?;
    let mut queue = uncounted(alloc, counts.as_slice())?;
    let mut ranks = Items::from_vec(vec![in alloc; 0; edges.len()]?);
    for place in 0..edges.len() {
        if place >= queue.len() {
            break;
        }
        let next = queue.as_slice()[place] as usize;
        ranks.set(next, edges.len() - place);
        release_targets(&mut counts, &mut queue, edges[next].as_slice())?;
    }
    Ok(ranks)
}

/// Whether each target has a rank below this one.
fn are_lower(ranks: &[usize], rank: usize, targets: &[u32]) -> bool
    requires { AreBelow (length ranks.now) targets.now }
    ensures { IsTrue result → (d : ℕ) → Contains targets.now d → slice_index ranks.now d < rank }
{
    for target in targets {
        if ranks[*target as usize] >= rank {
            return false;
        }
    }
    true
}

/// Whether the ranks fall along each edge.
fn do_fall(edges: &[Items<u32>], ranks: &[usize]) -> bool
    requires edges_within { HasEdgesBelow (length edges.now) edges.now }
    requires one_each { length ranks.now ≡ length edges.now }
    ensures { IsTrue result → AreRanks (EdgeOf edges.now) (length edges.now) ranks.now }
{
    for at in 0..edges.len() {
        if !are_lower(ranks, ranks[at], edges[at].as_slice()) {
            return false;
        }
    }
    true
}

/// What is found by all that each node leads on to: where none reaches itself, its number falls along each edge.
fn search_by_reach(alloc: Global, edges: &[Items<u32>]) -> Result<CycleOrOrder, AllocError>
    requires edges_within { HasEdgesBelow (length edges.now) edges.now }
    requires few { length edges.now < 4294967296 }
    ensures { IfOk result (IsCycleOrOrder (EdgeOf edges.now) (length edges.now)) }
{
    let mut ranks = Items::new(alloc);
    for node in 0..edges.len() {
        match reach(alloc, edges, node)? {
            Some(reach) => ranks.push(reach)?,
            None => return Ok(CycleOrOrder::Cycle(node as u32)),
        }
    }
    let order = by_rank(alloc, ranks.as_slice())?;
    Ok(CycleOrOrder::Order(order))
}

/// The least node that reaches itself, or an order of the nodes.
///
/// Where none reaches itself, it takes about as long as there are nodes and edges, and a sort of the nodes.
pub fn cycle_or_order(alloc: Global, edges: &[Items<u32>]) -> Result<CycleOrOrder, AllocError>
    requires edges_within { HasEdgesBelow (length edges.now) edges.now }
    requires few { length edges.now < 4294967296 }
    ensures { IfOk result (IsCycleOrOrder (EdgeOf edges.now) (length edges.now)) }
{
    let ranks = likely_ranks(alloc, edges)?;
    if do_fall(edges, ranks.as_slice()) {
        let order = by_rank(alloc, ranks.as_slice())?;
        return Ok(CycleOrOrder::Order(order));
    }
    search_by_reach(alloc, edges)
}
