//! Laws of outcomes. Each function's contract is a law, and a call costs nothing.
ghost use Rattle.std.specs.Prelude.{◌≡◌, ℕ, ◌<◌, ◌≤◌, All, List, length};
ghost use Rattle.pepa_model.specs.PepaModel.{PepaModel, IsModel};
ghost use Rattle.sim_space.specs.declared.stop.Stop.{Stop};
ghost use Rattle.sim_replication.specs.declared.order.Order.{Order};
ghost use Rattle.sim_replication.specs.declared.ran.Ran.{Ran};
ghost use Rattle.sim_replication.specs.declared.ran.Outcome.{Outcome};
ghost use Rattle.sim_replication.specs.declared.ran.Outcome.TheVariants.{Finished, Stopped};
ghost use Rattle.sim_workers.specs.AllRuns.{AllRuns, IsStopNumbered};

/// A model and an order have at most one outcome.
pub fn one_outcome()
    ensures { (m : PepaModel) (order : Order) (a b : Outcome)
        → AllRuns m order a → AllRuns m order b → a ≡ b }
{}

/// A model and an order have an outcome. By [`one_outcome`] there is exactly one.
pub fn some_outcome()
    ensures { (m : PepaModel) (order : Order) → IsModel m
        → (outcome : Outcome) × AllRuns m order outcome }
{}

/// No replication before the one that an outcome names stops.
pub fn stops_at_least()
    ensures { (m : PepaModel) (order : Order) (number : ℕ) (stop : Stop)
        → AllRuns m order (Stopped number stop)
        → (earlier : ℕ) (other : Stop) → 1 ≤ earlier → earlier < number
        → IsStopNumbered m order earlier other → ⊥ }
{}

/// What `sim_histograms::summary` needs of replications that all ended: there are at most as many as were ordered, and each has
/// at most as many passages.
pub fn can_be_summed_up()
    ensures runs { (m : PepaModel) (order : Order) (rans : List Ran)
        → AllRuns m order (Finished rans) → length rans ≤ order.runs }
    ensures passages { (m : PepaModel) (order : Order) (rans : List Ran)
        → AllRuns m order (Finished rans) → All (λ r. length r.passages ≤ order.passages) rans }
{}
