//! Laws of the definitions: tokens have one answer.

ghost use Rattle.std.specs.Prelude.{◌≡◌, ℕ, List};
ghost use Rattle.token_grammar.specs.declared.terminal.Terminal.{Terminal};
ghost use Rattle.probe_reader.specs.declared.trees.ProbeRead.{ProbeRead};
ghost use Rattle.probe_reader.specs.ProbeGrammar.{Alternatives, alternatives_spelled};
ghost use Rattle.probe_reader.specs.ProbeAnswers.{IsProbeEnd, IsProbeRead, IsNoProbe};

/// A law: tokens are at most one expression, so they have at most one tree.
pub fn one_expression()
    ensures { (a b : Alternatives) → alternatives_spelled a ≡ alternatives_spelled b → a ≡ b }
{}

/// A law: tokens can be continued up to one index.
pub fn one_probe_end()
    ensures { (terminals : List Terminal) (at limit i j : ℕ) →
        IsProbeEnd terminals at limit i → IsProbeEnd terminals at limit j → i ≡ j }
{}

/// A law: where an expression is read, none is missing.
pub fn read_or_not()
    ensures { (terminals : List Terminal) (at limit next : ℕ) (read : ProbeRead) →
        IsProbeRead terminals at limit read → ¬ IsNoProbe terminals at limit next }
{}
