//! A law of the words that contracts cite. The function's contract is the law, and a call costs nothing.
ghost use Rattle.std.specs.Prelude.{List};
ghost use Rattle.intern_core.specs.declared.shape.Shape.{Shape};
ghost use Rattle.intern_core.specs.declared.history.Entry.{Entry};
ghost use Rattle.intern_core.specs.History.{IsLegal, HasOneNumberPerKey};

/// In a legal history two keys are equal exactly where their numbers are.
#[tactic(auto, using(crate::proofs::Legal::one_number_each))]
pub fn one_number_per_key()
    ensures { (shape : Shape) (history : List Entry) → IsLegal shape history → HasOneNumberPerKey history }
{}
