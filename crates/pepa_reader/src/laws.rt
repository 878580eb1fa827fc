//! Laws of the definitions: tokens have one answer.

ghost use Rattle.std.specs.Prelude.{◌≡◌, ℕ, List};
ghost use Rattle.pepa_lexer.specs.AtMost.{AtMostOne};
ghost use Rattle.pepa_lexer.specs.declared.kinds.Token.{Token};
ghost use Rattle.token_grammar.specs.declared.terminal.Terminal.{Terminal};
ghost use Rattle.pepa_reader.specs.Grammar.{File, file_spelled};
ghost use Rattle.pepa_reader.specs.FileAnswers.{HasShortItems, HasFileFault, IsFaultIndex, IsFileFault};

/// A law: tokens are at most one file, so they have at most one tree.
pub fn one_file()
    ensures { (f g : File) → file_spelled f ≡ file_spelled g → f ≡ g }
{}

/// A law: a file whose items are short enough has no fault.
pub fn no_fault()
    ensures { (file : File) → HasShortItems file → ¬ HasFileFault (file_spelled file) }
{}

/// A law: faults of the same tokens stand at one index.
pub fn one_index()
    ensures { (terminals : List Terminal) → AtMostOne (IsFaultIndex terminals) }
{}

/// A law: tokens have at most one fault.
pub fn one_fault()
    ensures { (input : List ℕ) (tokens : List Token) → AtMostOne (IsFileFault input tokens) }
{}
