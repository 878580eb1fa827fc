//! A file whose structure is one that a model can have.

ghost use Rattle.std.specs.Prelude.{◌≡◌, ◌<◌, length, Some, slice_get, map};
ghost use Rattle.fault_ends.specs.Answers.{OkOrFault};
ghost use Rattle.pepa_lexer.specs.TokenLists.{IsTokens};
ghost use Rattle.token_grammar.specs.Terminals.{terminals};
ghost use Rattle.pepa_reader.specs.Trees.{file_node_of, process_line_of};
ghost use Rattle.pepa_reader.specs.FileAnswers.{IsFileTree};
ghost use Rattle.pepa_resolver.specs.Parts.{process_ats};
ghost use Rattle.pepa_checks.specs.StructuredFiles.{HasItsLine, IsToldAt, IsStructuredFile, IsStoppedFor};
ghost use Rattle.pepa_checks.specs.FileViews.{IsViewOf};

use crate::cause::{CheckCause, Refusal, told_cause};
use crate::structure::{Misbuilt, Structure, structure_of};
use fault_ends::End;
use pepa_lexer::Token;
use pepa_reader::{FileTree, ProcessLine};
use pepa_resolver::{NamedProcess, NumberedFile, ResolveEnd, resolve};
use std::alloc::Global;

/// A file with numbers in place of names, and its structure.
#[derive(Drop)]
pub(crate) struct StructuredFile {
    pub(crate) numbered: NumberedFile,
    pub(crate) structure: Structure,
}

/// The processes of a file with its structure, as the checks of its model go through them.
#[derive(Clone, Copy)]
pub(crate) struct FileView<'f> {
    /// Which constants are compound.
    pub(crate) compounds: &'f [bool],
    /// What the constants stand for, by number.
    pub(crate) bodies: &'f [NamedProcess],
    pub(crate) system: &'f NamedProcess,
    /// The constants, each compound one after those in its body.
    pub(crate) compound_order: &'f [u32],
    /// The constants, each sequential one after those that its body reaches without an activity.
    pub(crate) sequential_order: &'f [u32],
}

impl StructuredFile {
    /// Its processes and its structure.
    pub(crate) fn view(&self) -> FileView
        ensures { IsViewOf self.now result }
    {
        FileView {
            compounds: self.structure.compounds.as_slice(),
            bodies: self.numbered.bodies.as_slice(),
            system: &self.numbered.system,
            compound_order: self.structure.compound_order.as_slice(),
            sequential_order: self.structure.sequential_order.as_slice(),
        }
    }
}

/// The index of the name of a constant's line.
fn line_at(lines: &[ProcessLine], constant: u32) -> usize
    requires { constant < length lines.now }
    ensures { slice_get (process_ats (map process_line_of lines.now)) constant ≡ Some result }
{
    lines[constant as usize].at
}

/// The refusal of a file for a fault of its structure.
fn misbuilt(lines: &[ProcessLine], fault: Misbuilt) -> Refusal
    requires { HasItsLine (map process_line_of lines.now) fault }
    ensures { IsToldAt (map process_line_of lines.now) fault result.cause result.at }
{
    match fault {
        Misbuilt::NotSequential(at) => Refusal {
            cause: CheckCause::NotSequential,
            at,
        },
        Misbuilt::ModelCycle(constant) => Refusal {
            cause: CheckCause::ModelCycle,
            at: line_at(lines, constant),
        },
        Misbuilt::Unguarded(constant) => Refusal {
            cause: CheckCause::Unguarded,
            at: line_at(lines, constant),
        },
    }
}

/// A file with numbers in place of names and its structure, or its first fault up to there.
pub(crate) fn structured_file(
    alloc: Global,
    tree: &FileTree,
    tokens: &[Token],
    input: &[u8],
) -> Result<StructuredFile, End<Refusal>>
    requires tokens { IsTokens input.now tokens.now }
    requires tree { IsFileTree (terminals input.now tokens.now) tree.now }
    ensures { OkOrFault result
        (IsStructuredFile input.now tokens.now (file_node_of tree.now))
        (λ refusal. IsStoppedFor input.now tokens.now
        (file_node_of tree.now) refusal.cause refusal.at) }
{
    let numbered = match resolve(alloc, tree, tokens, input) {
        Ok(numbered) => numbered,
        Err(ResolveEnd::Refused { cause, at }) => {
            let cause = told_cause(cause);
            return Err(End::Fault(Refusal { cause, at }));
        }
        Err(ResolveEnd::Memory) => return Err(End::Memory),
    };
    match structure_of(alloc, &numbered) {
        Ok(structure) => Ok(StructuredFile {
            numbered,
            structure,
        }),
        Err(End::Fault(fault)) => Err(End::Fault(misbuilt(tree.processes.as_slice(), fault))),
        Err(End::Memory) => Err(End::Memory),
    }
}
