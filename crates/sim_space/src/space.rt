//! Spaces: states, and how to move from one to another.
ghost use Rattle.std.specs.Prelude.{◌≡◌, ℕ, ◌<◌, ◌≤◌, ◌↔◌, List, length, slice_get, IfErr, IfOk, OnErr, Some, []};
ghost use Rattle.pepa_model.specs.PepaModel.{PepaModel};
ghost use Rattle.pepa_steps.specs.States.{State, StateTransition};
ghost use Rattle.pepa_steps.specs.ListAnswers.{IsTransitionAt};
ghost use Rattle.pepa_steps.specs.declared.entries.Entry.{Entry};
ghost use Rattle.probe_attach.specs.FirstStates.{IsFirstState};
ghost use Rattle.sim_space.specs.LoadedLists.{jump_of, weights_in, IsLoaded, IsChosen, CanChooseBy};
ghost use Rattle.sim_space.specs.SpaceAnswers.{AnswersSpaceLoad, AnswersNoStop, IsFullBy};

use crate::stop::Stop;
use pepa_rates::Frac;
use pepa_steps::StepsEnd;
use std::alloc::{AllocError, Global};

/// Why a call of a space has no answer.
#[derive(Clone, Copy, Debug, PartialEq, Eq)]
pub enum Halt {
    /// Memory ran out.
    Memory,
    /// The space has no room for another term.
    Full,
    /// The verdict on the state names this stop.
    Stop(Stop),
}

impl From<AllocError> for Halt {
    ghost use Rattle.sim_space.specs.declared.space.Halt.TheVariants.{Memory};

    ghost from_gives = { λ _ halt. halt ≡ Memory };

    fn from(_error: AllocError) -> Halt {
        Halt::Memory
    }
}

/// A fault of a part is named by its stop.
impl From<StepsEnd> for Halt {
    ghost use Rattle.sim_space.specs.SpaceAnswers.{halt_of};

    ghost from_gives = { λ end halt. halt ≡ halt_of end };

    fn from(end: StepsEnd) -> Halt {
        match end {
            StepsEnd::Fault(fault) => Halt::Stop(Stop::from(fault)),
            StepsEnd::Memory => Halt::Memory,
        }
    }
}

/// What is told of the list that was loaded.
#[derive(Clone, Copy, Debug, PartialEq, Eq)]
pub struct Loaded {
    /// Its length, at most 65,535.
    pub len: u32,
    /// The sum of its weights, below 2^62.
    pub whole: u64,
    /// The denominator over which the rates are weights, below 2^62.
    pub den: u64,
}

/// A transition of the loaded list, without its target.
#[derive(Clone, Copy, Debug, PartialEq, Eq)]
pub struct Jump {
    /// The number of its action type.
    pub action: u32,
    /// The labels that it sends: bit l for label l.
    pub signals: u64,
    /// Its rate, per time unit.
    pub rate: Frac,
    /// Its rate over the denominator of the list.
    pub weight: u64,
}

/// States of a model's system, and how to move from one to another.
///
/// A space's own states denote states of the system. The space has at most one list loaded, the transitions of some state without
/// their targets. Each call leaves it later than it was, also one that is refused, and after a refusal no list is loaded.
pub trait Space {
    /// A state, as the space denotes it.
    type State: Drop;

    // The model with which the space was made.
    ghost model: { Self → PepaModel };

    // What the state denotes.
    ghost stands: { Self → Self.State → State → Type 0 };

    // The loaded list.
    ghost list: { Self → List Entry };

    // The list was loaded at this state.
    ghost loaded_at: { Self → Self.State → Type 0 };

    // The list of this state of the system may be loaded.
    ghost wants: { Self → State → Type 0 };

    // A state was answered that denotes this one.
    ghost seen: { Self → State → Type 0 };

    // The list of this state of the system is kept.
    ghost kept: { Self → State → Type 0 };

    // How often the space was full, up to 2^64 - 1.
    ghost fulls: { Self → ℕ };

    // The second value comes after the first, or is the same.
    ghost later: { Self → Self → Type 0 };

    /// The first state of the model.
    fn first(&mut self, alloc: Global) -> Result<Self::State, Halt>
        ensures stands { IfOk result (λ x. (q : State) × IsFirstState (model self.old) q × stands self.new x q × seen self.new q) }
        ensures no_stop { AnswersNoStop result }
        ensures full { IfErr result (IsFullBy (fulls self.old) (fulls self.new)) }
        ensures none { OnErr result (list self.new ≡ []) }
        ensures later { later self.old self.new };

    /// Loads the list of a state's transitions. The stop is exactly the one that the verdict on the state names.
    fn load(&mut self, alloc: Global, at: &Self::State) -> Result<Loaded, Halt>
        requires { (q : State) × stands self.old at.now q × wants self.old q }
        ensures list { (q : State) → stands self.old at.now q → AnswersSpaceLoad (model self.old) q (list self.new) result }
        ensures loaded { IfOk result (IsLoaded (list self.new)) }
        ensures at { IfOk result (λ _. loaded_at self.new at.now) }
        ensures kept { IfOk result (λ _. (q : State) → stands self.old at.now q → kept self.new q) }
        ensures full { IfErr result (IsFullBy (fulls self.old) (fulls self.new)) }
        ensures none { OnErr result (list self.new ≡ []) }
        ensures later { later self.old self.new };

    /// A transition of the loaded list, by its index from 0.
    fn step(&self, i: u32) -> Jump
        requires { i < length (list self.now) }
        ensures { (e : Entry) × (slice_get (list self.now) i ≡ Some e) × (result ≡ jump_of (list self.now) e) };

    /// The index of the first transition of the loaded list whose weight, added to those before it, is above the number.
    ///
    /// `load` answers the sum of the weights, which the number has to be below.
    fn choose(&self, number: u64) -> u32
        requires { CanChooseBy (list self.now) number }
        ensures { IsChosen (weights_in (list self.now)) number result }
    {
        let mut before: u64 = 0;
        for index in 0..65_535 {
            before += self.step(index).weight;
            if number < before {
                return index;
            }
        }
        unreachable!()
    }

    /// The state after a transition of the list that was loaded at this state.
    fn go(&mut self, alloc: Global, at: &Self::State, i: u32) -> Result<Self::State, Halt>
        requires index { i < length (list self.old) }
        requires at { loaded_at self.old at.now }
        ensures stands { IfOk result (λ x. (q : State) (t : StateTransition) → stands self.old at.now q
            → IsTransitionAt (model self.old).bodies q i t → stands self.new x t.target × seen self.new t.target) }
        ensures no_stop { AnswersNoStop result }
        ensures full { IfErr result (IsFullBy (fulls self.old) (fulls self.new)) }
        ensures none { OnErr result (list self.new ≡ []) }
        ensures later { later self.old self.new };

    ghost later_self: { (s : Self) → later s s };

    ghost later_than_later: { (a b c : Self) → later a b → later b c → later a c };

    ghost later_model: { (a b : Self) → later a b → model b ≡ model a };

    ghost later_stands: { (a b : Self) (x : Self.State) (q : State) → later a b → stands a x q → stands b x q };

    ghost later_same: { (a b : Self) (x : Self.State) (q r : State) → later a b → stands a x q → stands b x r → stands a x r };

    ghost later_wants: { (a b : Self) (q : State) → later a b → wants a q ↔ wants b q };

    ghost later_seen: { (a b : Self) (q : State) → later a b → seen a q → seen b q };

    ghost later_kept: { (a b : Self) (q : State) → later a b → kept a q → kept b q };

    ghost later_fulls: { (a b : Self) → later a b → fulls a ≤ fulls b };
}
