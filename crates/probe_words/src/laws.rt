//! Laws of the words that contracts cite. Each function's contract is a law, and a call costs nothing.
ghost use Rattle.std.specs.Prelude.{◌≡◌, ◌↔◌, ℕ, List, true};
ghost use Rattle.probe_words.specs.Guards.{Condition, same_condition};
ghost use Rattle.probe_words.specs.MarkedLetters.{GuardedLetter};
ghost use Rattle.probe_words.specs.WordKinds.{WordKind, IsOfKind};
ghost use Rattle.probe_words.specs.Words.{Pattern, IsProperPattern, IsProbeWord};
ghost use Rattle.probe_words.specs.CoreForm.{core_of};
ghost use Rattle.probe_words.specs.Core.{size_of, heads_of};
ghost use Rattle.probe_words.specs.Sizes.{size_of_pattern, heads_of_pattern};
ghost use Rattle.probe_words.specs.PositionsOf.{ArePositions, SpellsIn};
ghost use Rattle.probe_words.specs.declared.position_list.Positions.{Positions};

/// Letters with guards are a word of the expression, a prefix of one, or a prefix with a label on its last letter, exactly where a path
/// through its positions spells them that is whole, that ends anywhere, or that ends at a position with the label.
pub fn paths_spell_words()
    ensures { (r : Pattern) (p : Positions) → IsProperPattern r → ArePositions (core_of r) p →
        (kind : WordKind) (w : List GuardedLetter) →
        IsOfKind (λ u. IsProbeWord r u) kind w ↔ SpellsIn p kind w }
{}

/// The numbers of positions and of first positions are those of the table.
pub fn sizes()
    ensures positions { (r : Pattern) → IsProperPattern r → size_of (core_of r) ≡ size_of_pattern r }
    ensures first { (r : Pattern) → IsProperPattern r → heads_of (core_of r) ≡ heads_of_pattern r }
{}

/// Two guards are the same to the program exactly where they are equal as trees.
pub fn same_guards_are_equal()
    ensures { (g h : Condition) → (same_condition g h ≡ true) ↔ (g ≡ h) }
{}
