//! Which constants are compound.
ghost use Rattle.std.specs.Prelude.{◌≡◌, ℕ, ◌<◌, ◌≤◌, ◌++◌, List, [], ◌∷◌, length, IfOk, OnOk, slice_set, slice_index_or, replicate};
ghost use Rattle.pepa_checks.specs.Structure.{has_system as has_system_named, IsCompoundConstant};
ghost use Rattle.node_orders.specs.Graphs.{IsTableOf};
ghost use Rattle.pepa_resolver.specs.NamedTypes.{named_of, bodies_of, HasConstantsBelow};
ghost use Rattle.pepa_checks.specs.Aliases.{lone_constant as alone_of, IsSystemList, IsUserTable};

use node_orders::reached;
use pepa_resolver::NamedProcess;
use sqlite_items::Items;
use std::alloc::{AllocError, Global};

/// Whether a cooperation or a hiding stands in the process.
fn has_system(process: &NamedProcess) -> bool
    ensures { result ≡ has_system_named (named_of process.now) }
{
    match process {
        NamedProcess::Constant { .. } => false,
        NamedProcess::Prefix { next, .. } => has_system(next),
        NamedProcess::Choice(left, right) => has_system(left) || has_system(right),
        NamedProcess::Coop { .. } => true,
        NamedProcess::Hide { .. } => true,
    }
}

/// The constant that the process is, if it is one alone.
fn alone(process: &NamedProcess) -> Option<u32>
    ensures { result ≡ alone_of (named_of process.now) }
{
    match process {
        NamedProcess::Constant { number, .. } => Some(*number),
        NamedProcess::Prefix { .. } => None,
        NamedProcess::Choice(..) => None,
        NamedProcess::Coop { .. } => None,
        NamedProcess::Hide { .. } => None,
    }
}

/// The constants in whose bodies a cooperation or a hiding stands.
fn systems(alloc: Global, bodies: &[NamedProcess]) -> Result<Items<u32>, AllocError>
    requires { length bodies.now ≤ 1024 }
    ensures { IfOk result (IsSystemList (bodies_of bodies.now)) }
{
    let mut systems = Items::new(alloc);
    for at in 0..bodies.len() {
        if has_system(&bodies[at]) {
            systems.push(at as u32)?;
        }
    }
    Ok(systems)
}

/// So many empty lists.
fn empty_lists(alloc: Global, count: usize) -> Result<Vec<Items<u32>>, AllocError>
    ensures { IfOk result (λ lists. lists.items ≡ replicate count []) }
{
    let mut lists = Vec::new(alloc);
    for _made in 0..count {
        lists.push(Items::new(alloc))?;
    }
    Ok(lists)
}

/// Puts a number behind one of the lists.
fn add(lists: &mut Vec<Items<u32>>, at: usize, number: u32) -> Result<(), AllocError>
    requires { at < length lists.old.items }
    ensures { OnOk result (lists.new.items
        ≡ slice_set lists.old.items at (slice_index_or lists.old.items at [] ++ number ∷ [])) }
{
    lists[at].push(number)
}

/// The lists of the constants that stand for each one alone.
fn users(alloc: Global, bodies: &[NamedProcess]) -> Result<Vec<Items<u32>>, AllocError>
    requires few { length bodies.now ≤ 1024 }
    requires below { HasConstantsBelow (length bodies.now) (bodies_of bodies.now) }
    ensures lists { IfOk result (λ users. length users.items ≡ length bodies.now) }
    ensures users { IfOk result (λ users. IsUserTable (bodies_of bodies.now) users.items) }
{
    let mut users = empty_lists(alloc, bodies.len())?;
    for user in 0..bodies.len() {
        if let Some(constant) = alone(&bodies[user]) {
            add(&mut users, constant as usize, user as u32)?;
        }
    }
    Ok(users)
}

/// Which constants are compound.
pub(crate) fn compound_table(
    alloc: Global,
    bodies: &[NamedProcess],
) -> Result<Items<bool>, AllocError>
    requires few { length bodies.now ≤ 1024 }
    requires below { HasConstantsBelow (length bodies.now) (bodies_of bodies.now) }
    ensures { IfOk result
        (λ table. (length table ≡ length bodies.now)
        × IsTableOf (IsCompoundConstant (bodies_of bodies.now)) table) }
{
    let systems = systems(alloc, bodies)?;
    let users = users(alloc, bodies)?;
    let table = reached(alloc, users.as_slice(), systems.as_slice())?;
    Ok(table)
}
