//! What the names of a probe line denote.
ghost use Rattle.std.specs.Prelude.{◌≡◌};
ghost use Rattle.probe_numbers.specs.NumberedProbes.{NameMeanings};

/// The numbers of the names at the indices of tokens.
pub trait ProbeNames {
    // The action, the label and the constant that the name at an index denotes, as far as it denotes one.
    ghost meanings: { Self → NameMeanings };

    /// The number of the action that the name at the index denotes.
    fn action(&self, at: usize) -> Option<u32>
        ensures { result ≡ (meanings self.now).action at };

    /// The number of the label that the name at the index denotes.
    fn label(&self, at: usize) -> Option<u32>
        ensures { result ≡ (meanings self.now).label at };

    /// The number of the constant that the name at the index denotes.
    fn constant(&self, at: usize) -> Option<u32>
        ensures { result ≡ (meanings self.now).constant at };
}
