//! The checks of a file, and its model.
ghost use Rattle.std.specs.Prelude.{◌≡◌, ◌<◌, [], length, map, MatchOption, Some, slice_get};
ghost use Rattle.fault_ends.specs.Answers.{OkOrFault};
ghost use Rattle.pepa_lexer.specs.TokenLists.{IsTokens};
ghost use Rattle.pepa_lexer.specs.declared.kinds.Token.{Token};
ghost use Rattle.token_grammar.specs.Terminals.{terminals};
ghost use Rattle.pepa_reader.specs.Trees.{probe_line_of, file_node_of};
ghost use Rattle.pepa_reader.specs.FileAnswers.{IsFileTree};
ghost use Rattle.pepa_resolver.specs.Named.{first_at};
ghost use Rattle.pepa_resolver.specs.NamedTypes.{named_of};
ghost use Rattle.pepa_checks.specs.FileViews.{IsOrderedFile};
ghost use Rattle.pepa_checks.specs.FileEnds.{IsUnmixedFile, IsLateRefusal};
ghost use Rattle.pepa_checks.specs.CheckedFiles.{IsFirstProbe, IsModelOf, IsAtFaultFor, Checks};

use crate::cause::{CheckCause, CheckEnd, Refusal};
use crate::counting::{Counted, count};
use crate::mixed::first_mixed;
use crate::model_making::model_of;
use crate::over_limit::OverLimit;
use crate::structured_file::{StructuredFile, structured_file};
use fault_ends::End;
use pepa_lexer::{Place, Token};
use pepa_model::Model;
use pepa_reader::{FileTree, ProbeLine};
use pepa_resolver::NamedProcess;
use std::alloc::Global;

/// The index of the first constant of a process, or of the `(` of its first activity, whichever stands first.
fn first_index(process: &NamedProcess) -> usize
    ensures { result ≡ first_at (named_of process.now) }
{
    match process {
        NamedProcess::Constant { at, .. } => *at,
        NamedProcess::Prefix { at, .. } => *at,
        NamedProcess::Choice(left, _) => first_index(left),
        NamedProcess::Coop { left, .. } => first_index(left),
        NamedProcess::Hide { inner, .. } => first_index(inner),
    }
}

/// Counts the parts of a file, and looks for a mixed activity.
fn judge(alloc: Global, file: &StructuredFile) -> Result<Counted, End<Refusal>>
    requires { IsOrderedFile file.now }
    ensures { OkOrFault result (IsUnmixedFile file.now)
        (λ refusal. IsLateRefusal file.now refusal.cause refusal.at) }
{
    let counted = match count(alloc, file) {
        Ok(counted) => counted,
        Err(End::Fault(OverLimit)) => {
            return Err(End::Fault(Refusal {
                cause: CheckCause::TooMany,
                at: first_index(&file.numbered.system),
            }));
        }
        Err(End::Memory) => return Err(End::Memory),
    };
    match first_mixed(alloc, counted.performed.as_slice())? {
        Some(at) => Err(End::Fault(Refusal {
            cause: CheckCause::MixedChoice,
            at,
        })),
        None => Ok(counted),
    }
}

/// The model of a file without probe lines, or its first fault, at the token of an index.
fn model_or_refusal(
    alloc: Global,
    tree: &FileTree,
    tokens: &[Token],
    input: &[u8],
) -> Result<Model, End<Refusal>>
    requires tokens { IsTokens input.now tokens.now }
    requires tree { IsFileTree (terminals input.now tokens.now) tree.now }
    requires probes { tree.now.probes ≡ [] }
    ensures { OkOrFault result
        (IsModelOf input.now tokens.now (file_node_of tree.now))
        (λ refusal. IsAtFaultFor input.now tokens.now
        (file_node_of tree.now) refusal.cause refusal.at) }
{
    let file = structured_file(alloc, tree, tokens, input)?;
    match judge(alloc, &file) {
        Ok(counted) => Ok(model_of(alloc, file, counted)?),
        Err(end) => Err(end),
    }
}

/// The index at which the first of these probe lines begins, if there is one.
fn first_probe(lines: &[ProbeLine]) -> Option<usize>
    ensures { MatchOption result (lines.now ≡ [])
        (λ at. IsFirstProbe (map probe_line_of lines.now) at) }
{
    match sqlite_items::at(lines, 0) {
        Some(line) => Some(line.at),
        None => None,
    }
}

/// Where the token at an index stands.
fn place_at(tokens: &[Token], at: usize) -> Place
    requires { at < length tokens.now }
    ensures { (token : Token) × (slice_get tokens.now at ≡ Some token) × (result ≡ token.place) }
{
    tokens[at].place
}

/// Checks a file, and gives its model.
///
/// `tokens` are those of `input`, and `tree` is read from them. A file is refused for the first of these that it has:
///
/// - `Unsupported`: a probe line, at its word `probe`; probes are not supported yet;
/// - `TooMany`: the 1,025th rate line, or the 1,025th process line, at its first token;
/// - `Twice`: a rate name or a constant that has an earlier line of its kind, at its name;
/// - `UnknownName`: a constant without a process line, a rate name in an activity without a rate line, or a rate name in a
///   rate line without a rate line above, at the name;
/// - `TauInSet`: `tau` in the set of a cooperation or a hiding, at the word;
/// - `BadRate`: a number, an operator's result or a weight out of range, a weight that isn't whole, or the name of a passive
///   rate where none may stand, at the number, the operator or the name;
/// - `NotSequential`: an operand of a choice, or what follows an activity, that has a cooperation or a hiding or is a compound
///   constant, at its first constant or the `(` of its first activity;
/// - `ModelCycle`: a compound constant that reaches itself, at the name of its line;
/// - `Unguarded`: a constant that isn't compound and reaches itself without passing an activity, at the name of its line;
/// - `TooMany`: more than 1,024 action types beside `tau`, 1,024 sets, 65,535 leaves, 65,535 activities of all leaves
///   together, or 255 leaves of the system with its compound constants expanded, at the system's first constant or the `(` of
///   its first activity;
/// - `MixedChoice`: a leaf with an active and a passive activity of one type; the first leaf by number, and its first activity
///   that has an earlier one of its type and the other kind, at the `(` where it is first written.
///
/// `Memory` says only that memory ran out.
pub fn check(
    alloc: Global,
    tree: &FileTree,
    tokens: &[Token],
    input: &[u8],
) -> Result<Model, CheckEnd>
    requires tokens { IsTokens input.now tokens.now }
    requires tree { IsFileTree (terminals input.now tokens.now) tree.now }
    ensures { Checks input.now tokens.now (file_node_of tree.now) result }
{
    if let Some(at) = first_probe(tree.probes.as_slice()) {
        return Err(CheckEnd::Refused {
            cause: CheckCause::Unsupported,
            place: place_at(tokens, at),
        });
    }
    match model_or_refusal(alloc, tree, tokens, input) {
        Ok(model) => Ok(model),
        Err(End::Fault(refusal)) => Err(CheckEnd::Refused {
            cause: refusal.cause,
            place: place_at(tokens, refusal.at),
        }),
        Err(End::Memory) => Err(CheckEnd::Memory),
    }
}
