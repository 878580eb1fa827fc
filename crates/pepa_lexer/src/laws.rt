//! Laws of the definitions: a text has one answer.

ghost use Rattle.std.specs.Prelude.{ℕ, List};
ghost use Rattle.pepa_lexer.specs.AtMost.{AtMostOne};
ghost use Rattle.pepa_lexer.specs.TokenLists.{IsTokens};
ghost use Rattle.pepa_lexer.specs.Faults.{IsLexFaultOf, HasLexFault};
ghost use Rattle.pepa_lexer.specs.TokenTexts.{AreInOrder};
ghost use Rattle.pepa_lexer.specs.declared.kinds.Token.{Token};

/// A law: a text has at most one list of tokens.
pub fn one_list()
    ensures { (input : List ℕ) → AtMostOne (IsTokens input) }
{}

/// A law: a text that has tokens has no fault.
pub fn no_fault()
    ensures { (input : List ℕ) (list : List Token) → IsTokens input list → ¬ HasLexFault input }
{}

/// A law: a text has at most one fault.
pub fn one_fault()
    ensures { (input : List ℕ) → AtMostOne (IsLexFaultOf input) }
{}

/// A law: the tokens of a text stand in it in order, each with its bytes and the place of the first of them.
pub fn texts_in_order()
    ensures { (input : List ℕ) (list : List Token) → IsTokens input list → AreInOrder input 0 list }
{}
