//! Whole probe expressions.

ghost use Rattle.std.specs.Prelude.{◌≤◌, length};
ghost use Rattle.probe_reader.specs.ProbeAnswers.{ReadsProbe};

use crate::fault::ProbeTextFault;
use crate::parts::alternatives;
use crate::trees::ProbeRead;
use fault_ends::End;
use pepa_lexer::Token;
use std::alloc::Global;
use token_grammar::{PartEnd, Text};

/// Reads the tokens of a text, from the index `at` on, as a probe expression.
///
/// It looks at no token from `limit` on. The answer's `next` is the index of the first token with which the tokens from `at` can't
/// be continued to an expression, or `limit` where there is none before it. The tokens before `next` are the expression
/// whose tree is answered; if they are none, the answer is `Expected(next)`. `Memory` says only that memory ran out. The stack
/// that it takes grows with how deep brackets, guards and `!` nest.
pub fn read_probe(
    alloc: Global,
    tokens: &[Token],
    input: &[u8],
    at: usize,
    limit: usize,
) -> Result<ProbeRead, ProbeTextFault>
    requires { limit ≤ length tokens.now }
    ensures { ReadsProbe input.now tokens.now at limit result }
{
    let (tokens, _) = tokens.split_at(limit);
    let text = Text { tokens, input };
    match alternatives(alloc, &text, at) {
        Ok(read) => Ok(read),
        Err(End::Fault(next)) => Err(ProbeTextFault::Expected(next)),
        Err(End::Memory) => Err(ProbeTextFault::Memory),
    }
}
