//! Laws of the words that contracts cite. Each function's contract is a law, and a call costs nothing.
ghost use Rattle.std.specs.Prelude.{◌≡◌};
ghost use Rattle.intern_core.specs.declared.history.EntryWords.{EntryWords};
ghost use Rattle.node_words.specs.declared.node.Node.{Node};
ghost use Rattle.node_words.specs.declared.node.CodeStep.{CodeStep};
ghost use Rattle.node_words.specs.Keys.{IsNode, packed_key};
ghost use Rattle.node_words.specs.Entries.{IsCodeStep, HasWordsOf};

/// Two nodes in range have different keys, so a packed node unpacks to itself.
pub fn one_node_per_key()
    ensures { (a b : Node) → IsNode a → IsNode b → packed_key a ≡ packed_key b → a ≡ b }
{}

/// Two transitions in range have different words, so a packed transition unpacks to itself.
pub fn one_step_per_entry()
    ensures { (words : EntryWords) (a b : CodeStep) → IsCodeStep a → IsCodeStep b → HasWordsOf words a → HasWordsOf words b → a ≡ b }
{}
