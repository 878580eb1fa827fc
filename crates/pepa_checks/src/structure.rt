//! The structure of processes: what has to be sequential, and constants that reach themselves.
ghost use Rattle.std.specs.Prelude.{◌≡◌, ℕ, ◌≤◌, ◌++◌, false, length, IfOk, OnOk, slice_get, unwrap_or};
ghost use Rattle.fault_ends.specs.Answers.{OkOrFault};
ghost use Rattle.pepa_resolver.specs.ResolvedFiles.{HasNumbersInRange};
ghost use Rattle.pepa_resolver.specs.Named.{Named, constants_named, unguarded as unguarded_named};
ghost use Rattle.pepa_checks.specs.Structure.{IsCompoundConstant, NotSequentialAt};
ghost use Rattle.node_orders.specs.Graphs.{AreBelow, IsTableOf, HasTheEdges};
ghost use Rattle.pepa_resolver.specs.NamedTypes.{named_of, bodies_of, HasConstantsBelow};
ghost use Rattle.pepa_resolver.specs.Finding.{FindsLeast, lesser_index};
ghost use Rattle.node_orders.specs.Ranks.{IsCycleOrOrder};
ghost use Rattle.pepa_checks.specs.StructureAnswers.{TellsParts, fault_of, ConstantEdge, successors_of, IsStructureOf, IsMisbuiltBy};

use crate::compounds::compound_table;
use fault_ends::End;
use node_orders::{CycleOrOrder, cycle_or_order};
use pepa_resolver::{NamedProcess, NumberedFile, least};
use sqlite_items::Items;
use std::alloc::{AllocError, Global};

/// Why processes have no structure that a model can have.
#[derive(Clone, Copy, Debug, PartialEq, Eq)]
pub(crate) enum Misbuilt {
    /// A process that has to be sequential isn't, by the index where it begins.
    NotSequential(usize),
    /// A compound constant reaches itself.
    ModelCycle(u32),
    /// A sequential constant reaches itself with no activity between.
    Unguarded(u32),
}

/// What is found of processes whose structure is one that a model can have.
#[derive(Drop)]
pub(crate) struct Structure {
    /// Which constants are compound.
    pub(crate) compounds: Items<bool>,
    /// The constants, each compound one after those in its body.
    pub(crate) compound_order: Items<u32>,
    /// The constants, each sequential one after those that its body reaches without an activity.
    pub(crate) sequential_order: Items<u32>,
}

/// Which edges lead from one constant to others.
#[derive(Clone, Copy, Debug)]
pub(crate) enum EdgeKind {
    /// From a compound constant to each constant in its body.
    Compound,
    /// From a sequential constant to each one that its body reaches without an activity.
    Unguarded,
}

/// What is known of one process.
#[derive(Clone, Copy)]
struct Parts {
    /// A cooperation or a hiding stands in it.
    has_system: bool,
    /// It isn't sequential.
    is_system: bool,
    /// The index where it begins.
    first: usize,
    /// The least index of a part that has to be sequential and isn't.
    least: Option<usize>,
}

impl Parts {
    /// The least index where it, or a part of it, has to be sequential and isn't.
    fn fault(&self) -> Option<usize>
        ensures { result ≡ fault_of self.now }
    {
        if self.is_system {
            least(self.least, Some(self.first))
        } else {
            self.least
        }
    }
}

/// What the table says of a number.
fn is_marked(table: &[bool], number: u32) -> bool
    ensures { result ≡ unwrap_or (slice_get table.now number) false }
{
    table.get(number as usize).copied().unwrap_or(false)
}

/// What is told of an operator's process.
fn operator(system: bool, at: usize, fault: Option<usize>) -> Parts
    ensures { result ≡ record { has_system = system; is_system = system; first = at; least = fault } }
{
    Parts {
        has_system: system,
        is_system: system,
        first: at,
        least: fault,
    }
}

/// What is told of the process, where the table says which constants are compound.
fn parts_of(table: &[bool], process: &NamedProcess) -> Parts
    ensures { (bodies : _) → IsTableOf (IsCompoundConstant bodies) table.now
        → TellsParts bodies (named_of process.now) result }
{
    match process {
        NamedProcess::Constant { at, number } => Parts {
            has_system: false,
            is_system: is_marked(table, *number),
            first: *at,
            least: None,
        },
        NamedProcess::Prefix { at, next, .. } => {
            let behind = parts_of(table, next);
            operator(behind.has_system, *at, behind.fault())
        }
        NamedProcess::Choice(left, right) => {
            let before = parts_of(table, left);
            let behind = parts_of(table, right);
            let fault = least(before.fault(), behind.fault());
            operator(before.has_system | behind.has_system, before.first, fault)
        }
        NamedProcess::Coop { left, right, .. } => {
            let before = parts_of(table, left);
            let behind = parts_of(table, right);
            operator(true, before.first, least(before.least, behind.least))
        }
        NamedProcess::Hide { inner, .. } => {
            let inside = parts_of(table, inner);
            operator(true, inside.first, inside.least)
        }
    }
}

/// The least index where a process has to be sequential and isn't.
fn first_not_sequential(
    table: &[bool],
    bodies: &[NamedProcess],
    system: &NamedProcess,
) -> Option<usize>
    requires { IsTableOf (IsCompoundConstant (bodies_of bodies.now)) table.now }
    ensures { FindsLeast (NotSequentialAt (bodies_of bodies.now) (named_of system.now)) result }
{
    let mut found = parts_of(table, system).least;
    for at in 0..bodies.len() {
        found = least(found, parts_of(table, &bodies[at]).least);
    }
    found
}

/// Puts the constants in the process behind the others.
fn add_constants(process: &NamedProcess, to: &mut Items<u32>) -> Result<(), AllocError>
    ensures { OnOk result (to.new ≡ to.old ++ constants_named (named_of process.now)) }
{
    match process {
        NamedProcess::Constant { number, .. } => to.push(*number)?,
        NamedProcess::Prefix { next, .. } => add_constants(next, to)?,
        NamedProcess::Choice(left, right) => {
            add_constants(left, to)?;
            add_constants(right, to)?;
        }
        NamedProcess::Coop { left, right, .. } => {
            add_constants(left, to)?;
            add_constants(right, to)?;
        }
        NamedProcess::Hide { inner, .. } => add_constants(inner, to)?,
    }
    Ok(())
}

/// Puts the constants that stand behind no activity of the process behind the others.
fn add_unguarded(process: &NamedProcess, to: &mut Items<u32>) -> Result<(), AllocError>
    ensures { OnOk result (to.new ≡ to.old ++ unguarded_named (named_of process.now)) }
{
    match process {
        NamedProcess::Constant { number, .. } => to.push(*number)?,
        NamedProcess::Prefix { .. } => {}
        NamedProcess::Choice(left, right) => {
            add_unguarded(left, to)?;
            add_unguarded(right, to)?;
        }
        NamedProcess::Coop { left, right, .. } => {
            add_unguarded(left, to)?;
            add_unguarded(right, to)?;
        }
        NamedProcess::Hide { inner, .. } => add_unguarded(inner, to)?,
    }
    Ok(())
}

/// The constants that the edges of a kind lead to from a constant with this body.
fn successors(
    alloc: Global,
    kind: EdgeKind,
    is_compound: bool,
    body: &NamedProcess,
) -> Result<Items<u32>, AllocError>
    ensures { IfOk result (λ list. list ≡ successors_of kind is_compound (named_of body.now)) }
{
    let mut list = Items::new(alloc);
    match kind {
        EdgeKind::Compound => {
            if is_compound {
                add_constants(body, &mut list)?;
            }
        }
        EdgeKind::Unguarded => {
            if !is_compound {
                add_unguarded(body, &mut list)?;
            }
        }
    }
    Ok(list)
}

/// The edges of a kind: for each constant those that it leads to.
fn edges_of(
    alloc: Global,
    kind: EdgeKind,
    table: &[bool],
    bodies: &[NamedProcess],
) -> Result<Items<Items<u32>>, AllocError>
    requires compounds { IsTableOf (IsCompoundConstant (bodies_of bodies.now)) table.now }
    requires sizes { length table.now ≡ length bodies.now }
    ensures lists { IfOk result (λ edges. length edges ≡ length bodies.now) }
    ensures edges { IfOk result (HasTheEdges (ConstantEdge kind (bodies_of bodies.now))) }
{
    let mut edges = Items::new(alloc);
    for at in 0..bodies.len() {
        let list = successors(alloc, kind, table[at], &bodies[at])?;
        edges.push(list)?;
    }
    Ok(edges)
}

/// What is found along the edges of a kind: the least constant that reaches itself, or an order.
fn search(
    alloc: Global,
    kind: EdgeKind,
    table: &[bool],
    bodies: &[NamedProcess],
) -> Result<CycleOrOrder, AllocError>
    requires few { length bodies.now ≤ 1024 }
    requires below { HasConstantsBelow (length bodies.now) (bodies_of bodies.now) }
    requires compounds { IsTableOf (IsCompoundConstant (bodies_of bodies.now)) table.now }
    requires sizes { length table.now ≡ length bodies.now }
    ensures { IfOk result (IsCycleOrOrder (ConstantEdge kind (bodies_of bodies.now)) (length bodies.now)) }
{
    let edges = edges_of(alloc, kind, table, bodies)?;
    let found = cycle_or_order(alloc, edges.as_slice())?;
    Ok(found)
}

/// Checks the structure of the constants' bodies and of the system.
fn check_structure(
    alloc: Global,
    bodies: &[NamedProcess],
    system: &NamedProcess,
) -> Result<Structure, End<Misbuilt>>
    requires few { length bodies.now ≤ 1024 }
    requires below { HasConstantsBelow (length bodies.now) (bodies_of bodies.now) }
    ensures { OkOrFault result
        (IsStructureOf (bodies_of bodies.now) (named_of system.now) (length bodies.now))
        (IsMisbuiltBy (bodies_of bodies.now) (named_of system.now)) }
{
    let compounds = compound_table(alloc, bodies)?;
    if let Some(at) = first_not_sequential(compounds.as_slice(), bodies, system) {
        return Err(End::Fault(Misbuilt::NotSequential(at)));
    }
    let compound_order = match search(alloc, EdgeKind::Compound, compounds.as_slice(), bodies)? {
        CycleOrOrder::Cycle(constant) => return Err(End::Fault(Misbuilt::ModelCycle(constant))),
        CycleOrOrder::Order(order) => order,
    };
    let sequential_order = match search(alloc, EdgeKind::Unguarded, compounds.as_slice(), bodies)? {
        CycleOrOrder::Cycle(constant) => return Err(End::Fault(Misbuilt::Unguarded(constant))),
        CycleOrOrder::Order(order) => order,
    };
    Ok(Structure {
        compounds,
        compound_order,
        sequential_order,
    })
}

/// The structure of a file's processes, or what is wrong with it first.
pub(crate) fn structure_of(alloc: Global, file: &NumberedFile) -> Result<Structure, End<Misbuilt>>
    requires { HasNumbersInRange file.now }
    ensures { OkOrFault result
        (IsStructureOf (bodies_of file.now.bodies) (named_of file.now.system) (length file.now.bodies))
        (IsMisbuiltBy (bodies_of file.now.bodies) (named_of file.now.system)) }
{
    check_structure(alloc, file.bodies.as_slice(), &file.system)
}
