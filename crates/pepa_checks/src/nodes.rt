//! Expressions by number, each once.
ghost use Rattle.std.specs.Prelude.{◌≡◌, IfOk};
ghost use Rattle.pepa_model.specs.Expression.{Expression};
ghost use Rattle.pepa_checks.specs.NodeTables.{rate_by, Builds, IsNodeTable, expressions_by, Has};

use indexmap::IndexSet;
use pepa_rates::Rate;
use std::alloc::AllocError;

/// A rate's kind, numerator and denominator. A node has these in place of a `Rate`, since the prover can't follow a value of another
/// crate's type into a set.
#[derive(Clone, Copy, Debug, PartialEq, Eq, Hash)]
pub(crate) enum RateKey {
    Active(u64, u64),
    Passive(u64, u64),
}

/// An expression, by the numbers of its parts.
#[derive(Clone, Copy, Debug, PartialEq, Eq, Hash)]
pub(crate) enum Node {
    Constant(u32),
    Activity {
        action: u32,
        rate: RateKey,
        next: u32,
    },
    Choice(u32, u32),
}

impl RateKey {
    /// The key of a rate.
    pub(crate) fn of(rate: &Rate) -> RateKey
        ensures { rate_by result ≡ rate.now }
    {
        match rate {
            Rate::Active(p) => RateKey::Active(p.num, p.den),
            Rate::Passive(p) => RateKey::Passive(p.num, p.den),
        }
    }
}

/// A count as a `u32`. What a `u32` can't count is told as want of memory.
fn counted(count: usize) -> Result<u32, AllocError>
    ensures { IfOk result (λ number. number ≡ count) }
{
    u32::try_from(count).map_err(|_| AllocError)
}

/// The number of a node, which is put behind the others unless it is there.
pub(crate) fn add_node(nodes: &mut IndexSet<Node>, node: Node) -> Result<u32, AllocError>
    ensures { IfOk result
        (λ number. (e : Expression) → IsNodeTable nodes.old.keys
        → Builds (expressions_by nodes.old.keys) node e
        → Has nodes.old.keys nodes.new.keys number e) }
{
    let (place, _) = nodes.insert_full(node)?;
    let number = counted(place)?;
    Ok(number)
}
