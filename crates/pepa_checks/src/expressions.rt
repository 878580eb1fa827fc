//! The expressions of a file's processes, each walked once.
ghost use Rattle.std.specs.Prelude.{◌≡◌, List, ◌∷◌, ◌++◌, false, IfOk, OnOk};
ghost use Rattle.pepa_resolver.specs.Named.{Named};
ghost use Rattle.pepa_resolver.specs.NamedTypes.{named_of, bodies_of};
ghost use Rattle.pepa_checks.specs.Structure.{has_system};
ghost use Rattle.pepa_checks.specs.FileViews.{IsOrderedView};
ghost use Rattle.pepa_checks.specs.Outline.{is_compound as is_compound_by};
ghost use Rattle.pepa_checks.specs.Activities.{written_followers, written_components};
ghost use Rattle.pepa_checks.specs.Candidates.{Stands, Walked, Put, has_system_part, ConstantLine, AreHeads, LineWalked, IsFileWalk};

use crate::nodes::{Node, RateKey, add_node};
use crate::structured_file::FileView;
use crate::summand::Summand;
use indexmap::IndexSet;
use pepa_resolver::NamedProcess;
use sqlite_items::{Items, at as item};
use std::alloc::{AllocError, Global};

/// A process whose expression is a leaf.
#[derive(Drop)]
pub(crate) struct Candidate<'p> {
    pub(crate) process: &'p NamedProcess,
    /// The number of its expression's node.
    pub(crate) number: u32,
    /// The operands of its choice, the last one first. Until the leaves are numbered, the target of an activity is the number
    /// of a node.
    pub(crate) operands: Items<Summand>,
}

/// What was walked so far.
#[derive(Drop)]
pub(crate) struct Walk<'p> {
    /// The expressions, by number.
    pub(crate) nodes: IndexSet<Node>,
    /// The candidates, the last one of the text first.
    pub(crate) candidates: Items<Candidate<'p>>,
}

/// A sequential constant, which is a leaf.
#[derive(Drop)]
pub(crate) struct Head {
    pub(crate) constant: u32,
    /// The number of its node.
    pub(crate) number: u32,
    /// The operands of its body's choice, as those of a candidate.
    pub(crate) operands: Items<Summand>,
}

/// All that was walked of a file.
#[derive(Drop)]
pub(crate) struct FileWalk<'p> {
    pub(crate) walk: Walk<'p>,
    /// The sequential constants, the last one first.
    pub(crate) heads: Items<Head>,
}

/// Whether a constant is compound.
fn is_compound(compounds: &[bool], constant: u32) -> bool
    ensures { result ≡ is_compound_by compounds.now constant }
{
    match item(compounds, constant as usize) {
        Some(flag) => *flag,
        None => false,
    }
}

impl<'p> Walk<'p> {
    /// The number of a process's expression. Puts the operands of its choice behind the others, and the processes that follow its
    /// activities behind the candidates, both from the last one to the first.
    fn number_of(
        &mut self,
        alloc: Global,
        process: &'p NamedProcess,
        operands: &mut Items<Summand>,
    ) -> Result<u32, AllocError>
        requires { has_system (named_of process.now) ≡ false }
        ensures { IfOk result
            (λ number. (written : List Named) → Stands self.old written
            → Walked self.old self.new operands.old operands.new written
            (named_of process.now) number) }
    {
        match process {
            NamedProcess::Constant { number, .. } => {
                operands.push(Summand::Constant(*number))?;
                add_node(&mut self.nodes, Node::Constant(*number))
            }
            NamedProcess::Prefix {
                at,
                action,
                rate,
                next,
            } => {
                let mut behind = Items::new(alloc);
                let number = self.number_of(alloc, next, &mut behind)?;
                self.candidates.push(Candidate {
                    process: next,
                    number,
                    operands: behind,
                })?;
                operands.push(Summand::Activity {
                    at: *at,
                    action: *action,
                    rate: *rate,
                    target: number,
                })?;
                let node = Node::Activity {
                    action: *action,
                    rate: RateKey::of(rate),
                    next: number,
                };
                add_node(&mut self.nodes, node)
            }
            NamedProcess::Choice(left, right) => {
                let second = self.number_of(alloc, right, operands)?;
                let first = self.number_of(alloc, left, operands)?;
                add_node(&mut self.nodes, Node::Choice(first, second))
            }
            NamedProcess::Coop { .. } => unreachable!(),
            NamedProcess::Hide { .. } => unreachable!(),
        }
    }

    /// Puts a process behind the candidates, behind those that follow its activities.
    fn add_candidate(&mut self, alloc: Global, process: &'p NamedProcess) -> Result<(), AllocError>
        requires { has_system (named_of process.now) ≡ false }
        ensures { OnOk result
            ((written : List Named) → Stands self.old written
            → Put self.old self.new
            (named_of process.now ∷ (written_followers (named_of process.now) ++ written))) }
    {
        let mut operands = Items::new(alloc);
        let number = self.number_of(alloc, process, &mut operands)?;
        self.candidates.push(Candidate {
            process,
            number,
            operands,
        })?;
        Ok(())
    }

    /// Puts the sequential components of a process behind the candidates, from the last one to the first.
    fn add_components(
        &mut self,
        alloc: Global,
        compounds: &[bool],
        process: &'p NamedProcess,
    ) -> Result<(), AllocError>
        requires { has_system_part (named_of process.now) ≡ false }
        ensures { OnOk result
            ((written : List Named) → Stands self.old written
            → Put self.old self.new
            (written_components compounds.now (named_of process.now) ++ written)) }
    {
        match process {
            NamedProcess::Constant { number, .. } => {
                if is_compound(compounds, *number) {
                    Ok(())
                } else {
                    self.add_candidate(alloc, process)
                }
            }
            NamedProcess::Prefix { .. } => self.add_candidate(alloc, process),
            NamedProcess::Choice(..) => self.add_candidate(alloc, process),
            NamedProcess::Coop { left, right, .. } => {
                self.add_components(alloc, compounds, right)?;
                self.add_components(alloc, compounds, left)
            }
            NamedProcess::Hide { inner, .. } => self.add_components(alloc, compounds, inner),
        }
    }

    /// Puts a sequential constant behind the heads, and what follows the activities of its body behind the candidates.
    fn add_line(
        &mut self,
        alloc: Global,
        constant: u32,
        body: &'p NamedProcess,
        heads: &mut Items<Head>,
    ) -> Result<(), AllocError>
        requires { has_system (named_of body.now) ≡ false }
        ensures { OnOk result
            ((written : List Named) (lines : List ConstantLine) → Stands self.old written
            → AreHeads self.old lines heads.old
            → LineWalked self.new heads.new written lines
            (record { constant = constant; body = named_of body.now })) }
    {
        let mut operands = Items::new(alloc);
        let _body = self.number_of(alloc, body, &mut operands)?;
        let number = add_node(&mut self.nodes, Node::Constant(constant))?;
        heads.push(Head {
            constant,
            number,
            operands,
        })?;
        Ok(())
    }
}

/// Walks the processes of a file.
pub(crate) fn walk_file<'p>(alloc: Global, file: FileView<'p>) -> Result<FileWalk<'p>, AllocError>
    requires { IsOrderedView file }
    ensures { IfOk result (IsFileWalk file.entry.compounds.now (bodies_of file.entry.bodies.now)
        (named_of file.entry.system.now)) }
{
    let FileView {
        compounds,
        bodies,
        system,
        ..
    } = file;
    let mut walk = Walk {
        nodes: IndexSet::new(alloc),
        candidates: Items::new(alloc),
    };
    let mut heads = Items::new(alloc);
    walk.add_components(alloc, compounds, system)?;
    let mut left = bodies.len();
    while left > 0 {
        left -= 1;
        if compounds[left] {
            walk.add_components(alloc, compounds, &bodies[left])?;
        } else {
            walk.add_line(alloc, left as u32, &bodies[left], &mut heads)?;
        }
    }
    Ok(FileWalk { walk, heads })
}
