//! Laws of the definitions. Each function's contract is a law, and a call costs nothing.
ghost use Rattle.std.specs.Prelude.{◌≡◌, ℕ, ◌<◌, List, Ok, Err};
ghost use Rattle.pepa_model.specs.Expression.{Definition};
ghost use Rattle.pepa_model.specs.Apparent.{Apparent};
ghost use Rattle.pepa_model.specs.PepaModel.{PepaModel, IsModel};
ghost use Rattle.pepa_model.specs.Terms.{IsTermOf};
ghost use Rattle.pepa_model.specs.declared.term.Step.{Step};
ghost use Rattle.pepa_model.specs.declared.term.Term.{Term};
ghost use Rattle.pepa_steps.specs.States.{State, StateTransition, StandsFor};
ghost use Rattle.pepa_steps.specs.Rules.{IsTransitionList};
ghost use Rattle.pepa_steps.specs.StateVerdict.{PartFault, IsVerdict, IsWithoutFault, IsApparentRate};
ghost use Rattle.pepa_steps.specs.StepsAnswers.{IsStepsResult};
ghost use Rattle.pepa_steps.specs.SumLaw.{sum_of_rates};
ghost use Rattle.pepa_steps.specs.Existence.{StandsForSome, HasTransitionList, HasVerdictOrNoFault, HasApparentRateOrFault, HasStepsOrFault, HasStopOrChoice};
ghost use Rattle.pepa_steps.specs.declared.transitions.StepFault.{StepFault};
ghost use Rattle.pepa_steps.specs.declared.transitions.StepsEnd.TheVariants.{Fault};

/// A law: a state has at most one transition list.
pub fn one_list()
    ensures { (definitions : List Definition) (state : State) (ts us : List StateTransition)
        → IsTransitionList definitions state ts → IsTransitionList definitions state us → ts ≡ us }
{}

/// A law: a state has at most one verdict, and none if it has no fault.
pub fn one_verdict()
    ensures one { (definitions : List Definition) (state : State) (f g : PartFault)
        → IsVerdict definitions state f → IsVerdict definitions state g → f ≡ g }
    ensures or_none { (definitions : List Definition) (state : State) (f : PartFault)
        → IsVerdict definitions state f → ¬ IsWithoutFault definitions state }
{}

/// A law: where no part of a state of a model has a fault, the rates of its transitions of each action type but `tau` have the
/// exact sum that is its apparent rate of it, and it has none where it has no such transition.
pub fn sums_of_rates()
    ensures { (m : PepaModel) (state : State) (term : Term)
        (ts : List StateTransition) (action : ℕ) (rate : Apparent)
        → IsModel m
        → StandsFor m state term
        → IsWithoutFault m.bodies state
        → IsTransitionList m.bodies state ts
        → 0 < action
        → IsApparentRate m.bodies state action rate
        → sum_of_rates action ts ≡ rate }
{}

/// A law: each term of a model stands for some state, so what is said for each state that it stands for is never empty. What
/// stands for a state is a term of the model.
pub fn some_state()
    ensures some { (m : PepaModel) (term : Term) → IsTermOf m term → StandsForSome m term }
    ensures of_model { (m : PepaModel) (state : State) (term : Term)
        → StandsFor m state term → IsTermOf m term }
{}

/// A law: a state of a model has a transition list where none of its parts has a fault.
pub fn some_list()
    ensures { (m : PepaModel) (state : State) (term : Term)
        → IsModel m → StandsFor m state term
        → IsWithoutFault m.bodies state → HasTransitionList m.bodies state }
{}

/// A law: each state of a model has a verdict, or none of its parts has a fault.
pub fn some_verdict()
    ensures { (m : PepaModel) (state : State) (term : Term)
        → IsModel m → StandsFor m state term → HasVerdictOrNoFault m.bodies state }
{}

/// A law: each state of a model has a whole verdict, or one of its transitions can be chosen.
pub fn some_whole_verdict()
    ensures { (m : PepaModel) (state : State) (term : Term)
        → IsModel m → StandsFor m state term → HasStopOrChoice m.bodies state }
{}

/// A law: each state of a model has an apparent rate of each action type, or one of its parts has a fault for it.
pub fn some_apparent_rate()
    ensures { (m : PepaModel) (state : State) (term : Term) (action : ℕ)
        → IsModel m → StandsFor m state term → HasApparentRateOrFault m.bodies state action }
{}

/// A law: for each state of a model there is a list that is a result of `steps`, or a fault that is one. There are never both,
/// nor two faults.
pub fn some_steps()
    ensures some { (m : PepaModel) (state : State) (term : Term)
        → IsModel m → StandsFor m state term → HasStepsOrFault m state }
    ensures not_both { (m : PepaModel) (state : State) (list : List Step) (fault : StepFault)
        → IsStepsResult m state (Ok list) → ¬ IsStepsResult m state (Err (Fault fault)) }
    ensures one_fault { (m : PepaModel) (state : State) (f g : StepFault)
        → IsStepsResult m state (Err (Fault f)) → IsStepsResult m state (Err (Fault g)) → f ≡ g }
{}
