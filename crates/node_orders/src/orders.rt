//! Orders of nodes by their ranks.
ghost use Rattle.std.specs.Prelude.{◌≡◌, ℕ, ◌<◌, length, map, IfOk};
ghost use Rattle.std.specs.List.Sorted.{IsNonDecreasingBy, IsPermutation};
ghost use Rattle.node_orders.specs.Graphs.{IsOrder};
ghost use Rattle.node_orders.specs.Ranks.{IsRankedAbove};
ghost use Rattle.node_orders.specs.RankLists.{AreRanked};

use sqlite_items::Items;
use std::alloc::{AllocError, Global};

/// A node with its rank.
#[derive(Clone, Copy)]
struct Ranked {
    rank: usize,
    node: u32,
}

/// The nodes with their ranks.
fn with_ranks(alloc: Global, ranks: &[usize]) -> Result<Vec<Ranked>, AllocError>
    requires { length ranks.now < 4294967296 }
    ensures { IfOk result (λ list. AreRanked ranks.now (length ranks.now) list.items) }
{
    let mut list = Vec::new(alloc);
    for at in 0..ranks.len() {
        let node = at as u32;
        list.push(Ranked {
            rank: ranks[at],
            node,
        })?;
    }
    Ok(list)
}

/// Puts the nodes into the order of their ranks, the least first.
fn sort(list: &mut Vec<Ranked>)
    ensures same { IsPermutation list.old.items list.new.items }
    ensures sorted { IsNonDecreasingBy (λ r. r.rank) list.new.items }
{
    list.sort_unstable_by_key(|ranked| ranked.rank);
}

/// The nodes without their ranks.
fn nodes(alloc: Global, list: &[Ranked]) -> Result<Items<u32>, AllocError>
    ensures { IfOk result (λ nodes. nodes ≡ map (λ r. r.node) list.now) }
{
    let mut nodes = Items::new(alloc);
    for ranked in list {
        nodes.push(ranked.node)?;
    }
    Ok(nodes)
}

/// The nodes, those of the least rank first.
pub(crate) fn by_rank(alloc: Global, ranks: &[usize]) -> Result<Items<u32>, AllocError>
    requires { length ranks.now < 4294967296 }
    ensures { IfOk result (IsOrder (IsRankedAbove ranks.now) (length ranks.now)) }
{
    let mut list = with_ranks(alloc, ranks)?;
    sort(&mut list);
    let order = nodes(alloc, list.as_slice())?;
    Ok(order)
}
