//! What keys and lists mean.
ghost use Rattle.std.specs.Prelude.{List, ℕ, ◌++◌};
ghost use Rattle.intern_core.specs.declared.history.Entry.{Entry};
ghost use Rattle.intern_core.specs.declared.history.Key.{Key};
ghost use Rattle.intern_core.specs.declared.history.EntryWords.{EntryWords};

use intern_core::Shape;

/// Which keys may be interned after a history, and which words may be published for a number. It has no running methods.
pub trait Meaning {
    /// A key that may be interned after this history.
    ghost lawful: { Self → List Entry → Key → Type 0 };

    /// A key that may be interned at all.
    ghost allowed: { Self → Key → Type 0 };

    /// The words of a list that may be published for a number after this history.
    ghost stands: { Self → List Entry → ℕ → List EntryWords → Type 0 };

    /// A lawful key stays so as the history grows.
    ghost lawful_stays: { (m : Self) (h more : List Entry) (k : Key) → lawful m h k → lawful m (h ++ more) k };

    /// Words that may be published stay so as the history grows.
    ghost stands_stays: { (m : Self) (h more : List Entry) (n : ℕ) (ws : List EntryWords) → stands m h n ws → stands m (h ++ more) n ws };
}

/// What a table is told once, when it is made.
#[derive(Drop)]
pub struct Setting<M> {
    pub shape: Shape,
    pub meaning: M,
}
