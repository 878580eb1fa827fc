//! Laws of replications. Each function's contract is a law, and a call costs nothing.
ghost use Rattle.std.specs.Prelude.{◌≡◌, ℕ, List};
ghost use Rattle.pepa_model.specs.PepaModel.{PepaModel, IsModel};
ghost use Rattle.sim_space.specs.declared.stop.Stop.{Stop};
ghost use Rattle.sim_replication.specs.declared.order.Order.{Order};
ghost use Rattle.sim_replication.specs.declared.ran.Ran.{Ran};
ghost use Rattle.sim_replication.specs.Signals.{TakenJump};
ghost use Rattle.sim_replication.specs.Jumps.{Point};
ghost use Rattle.sim_replication.specs.Runs.{HasRun, IsRun, IsStoppedRun};

/// A model, an order and numbers have at most one replication: it ends once, or it stops once, at one point and after the same jumps,
/// and not both.
pub fn one_run()
    ensures ends { (m : PepaModel) (order : Order) (at : ℕ → ℕ)
        (xs ys : List TakenJump) (q r : Point) (a b : Ran)
        → IsRun m order at xs q a → IsRun m order at ys r b → (xs ≡ ys) × (q ≡ r) × (a ≡ b) }
    ensures stops { (m : PepaModel) (order : Order) (at : ℕ → ℕ)
        (xs ys : List TakenJump) (q r : Point) (s t : Stop)
        → IsStoppedRun m order at xs q s → IsStoppedRun m order at ys r t
        → (xs ≡ ys) × (q ≡ r) × (s ≡ t) }
    ensures apart { (m : PepaModel) (order : Order) (at : ℕ → ℕ)
        (xs ys : List TakenJump) (q r : Point) (a : Ran) (s : Stop)
        → IsRun m order at xs q a → IsStoppedRun m order at ys r s → ⊥ }
{}

/// A model, an order and numbers have a replication: one that ends, or one that stops. By [`one_run`] there is exactly one.
pub fn some_run()
    ensures { (m : PepaModel) (order : Order) (at : ℕ → ℕ) → IsModel m → HasRun m order at }
{}
