//! Laws of the definitions. Each function's contract is a law, and a call costs nothing.
ghost use Rattle.std.specs.Prelude.{◌≡◌, ℕ, List, Option};
ghost use Rattle.pepa_lexer.specs.declared.kinds.Token.{Token};
ghost use Rattle.probe_words.specs.declared.probe.ProbeTable.{ProbeTable};
ghost use Rattle.probe_words.specs.Words.{Pattern};
ghost use Rattle.probe_words.specs.ProbeTables.{SameTable};
ghost use Rattle.probe_words.specs.Twins.{pattern_of};
ghost use Rattle.probe_numbers.specs.PatternTables.{IsTableOfPattern, IsTooLarge};
ghost use Rattle.probe_reader.specs.ProbeTrees.{ProbeNode};
ghost use Rattle.probe_numbers.specs.WholeNumbers.{IsWholeAt, whole_at};
ghost use Rattle.probe_numbers.specs.BadCounts.{BadCountAt, IsFirstIndex};
ghost use Rattle.probe_numbers.specs.NumberedProbes.{NameMeanings, IsNumberedProbe};
ghost use Rattle.probe_numbers.specs.declared.numbered.NumberedProbe.{NumberedProbe};

/// A number has at most one whole value, and it is the one that numbered expressions have.
pub fn one_whole_value()
    ensures { (tokens : List Token) (at n : ℕ) → IsWholeAt tokens at n → whole_at tokens at ≡ n }
{}

/// A tree has one first bad count, or none.
pub fn one_first_bad_count()
    ensures { (tokens : List Token) (node : ProbeNode) (a b : Option ℕ) →
        IsFirstIndex (BadCountAt tokens node) a → IsFirstIndex (BadCountAt tokens node) b → a ≡ b }
{}

/// A tree has one expression with numbers, and one list of counted constants.
pub fn one_numbering()
    ensures expressions { (tokens : List Token) (names : NameMeanings) (node : ProbeNode)
        (a b : NumberedProbe) →
        IsNumberedProbe tokens names node a → IsNumberedProbe tokens names node b →
        pattern_of a.expr ≡ pattern_of b.expr }
    ensures counted { (tokens : List Token) (names : NameMeanings) (node : ProbeNode)
        (a b : NumberedProbe) →
        IsNumberedProbe tokens names node a → IsNumberedProbe tokens names node b →
        a.counted ≡ b.counted }
{}

/// An expression has one table.
pub fn one_table_of_pattern()
    ensures { (r : Pattern) (t u : ProbeTable) →
        IsTableOfPattern r t → IsTableOfPattern r u → SameTable t u }
{}

/// An expression that has a table isn't too large.
pub fn table_or_too_large()
    ensures { (r : Pattern) (t : ProbeTable) → IsTableOfPattern r t → ¬ IsTooLarge r }
{}
