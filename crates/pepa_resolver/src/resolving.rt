//! The names, sets and rates of a file, one kind of fault after another.

ghost use Rattle.std.specs.Prelude.{◌≡◌};
ghost use Rattle.pepa_lexer.specs.TokenLists.{IsTokens};
ghost use Rattle.token_grammar.specs.Terminals.{terminals};
ghost use Rattle.pepa_reader.specs.Trees.{file_node_of};
ghost use Rattle.pepa_reader.specs.FileAnswers.{IsFileTree};
ghost use Rattle.pepa_resolver.specs.ResolvedFiles.{Resolves};

use crate::named::NumberedFile;
use crate::names::{Names, check_names};
use crate::naming::{NamedFile, name_processes};
use crate::refusal::{ResolveCause, ResolveEnd};
use crate::source::Source;
use fault_ends::End;
use pepa_lexer::Token;
use pepa_reader::FileTree;
use std::alloc::Global;

/// A file's names and its processes in one.
fn joined(names: Names, named: NamedFile) -> NumberedFile
    ensures { result ≡ record {
      constants = names.constants;
      actions = named.actions;
      bodies = named.bodies;
      system = named.system;
    } }
{
    NumberedFile {
        constants: names.constants,
        actions: named.actions,
        bodies: named.bodies,
        system: named.system,
    }
}

/// The file with numbers in place of its names, or its first fault of these kinds.
///
/// `tokens` are those of `input`, and `tree` is read from them. A file is refused for the first of these that it has, and of
/// one kind at the least index:
///
/// - `TooManyLines`: the 1,025th rate line, or the 1,025th process line, at its first token;
/// - `Twice`: a rate name or a constant that has an earlier line of its kind, at its name;
/// - `UnknownName`: a constant without a process line, a rate name in an activity without a rate line, or a rate name in a
///   rate line without a rate line above, at the name;
/// - `TauInSet`: `tau` in the set of a cooperation or a hiding, at the word;
/// - `BadRate`: a number, an operator's result or a weight that isn't a positive fraction with numerator and denominator
///   below 2^42, a weight that isn't whole, or a name of a passive rate beside an operator or in brackets. The rates are
///   evaluated in the order of the text, each from its parts to the whole, the left part first, and the first refusal is
///   told, at the number, the operator or the name.
///
/// `Memory` says only that memory ran out.
pub fn resolve(
    alloc: Global,
    tree: &FileTree,
    tokens: &[Token],
    input: &[u8],
) -> Result<NumberedFile, ResolveEnd>
    requires tokens { IsTokens input.now tokens.now }
    requires tree { IsFileTree (terminals input.now tokens.now) tree.now }
    ensures { Resolves input.now tokens.now (file_node_of tree.now) result }
{
    let source = Source { tokens, input };
    let names = check_names(alloc, tree, &source)?;
    match name_processes(alloc, tree, &source, &names) {
        Ok(named) => Ok(joined(names, named)),
        Err(End::Fault(at)) => Err(ResolveEnd::Refused {
            cause: ResolveCause::BadRate,
            at,
        }),
        Err(End::Memory) => Err(ResolveEnd::Memory),
    }
}
