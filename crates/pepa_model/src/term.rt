//! Components, systems, terms, activities and transitions, with numbers in place of names.
ghost use Rattle.std.specs.Prelude.{◌≡◌, ◌<◌, ◌^◌, IfOk};
ghost use Rattle.pepa_model.specs.Expression.{Expression, Shape, Sequentially, Compoundly, expression_of, definition_of, shape_of};
ghost use Rattle.pepa_model.specs.Leaves.{same_expression};
ghost use Rattle.pepa_model.specs.Terms.{term_of, leaf_count_of};

use pepa_rates::Rate;
use sqlite_items::Items;
use std::alloc::{AllocError, Global};

/// The number of the action type `tau`.
pub const TAU: u32 = 0;

/// A sequential component: what one participant can do.
#[derive(Debug, Drop)]
pub enum Sequential {
    /// The constant of this number, which stands for its body.
    Constant(u32),
    /// An activity, by its action type's number and its rate, and what follows it.
    Prefix(u32, Rate, Box<Sequential>),
    /// A choice between two components.
    Choice(Box<Sequential>, Box<Sequential>),
}

/// A system, as it is written.
#[derive(Debug, Drop)]
pub enum Shape2 {
    /// A sequential component.
    Leaf(Sequential),
    /// The compound constant of this number, which stands for its system.
    Constant(u32),
    /// Two systems that cooperate over the set of this number.
    Coop(Box<Shape2>, Box<Shape2>, u32),
    /// A system that hides the set of this number.
    Hide(Box<Shape2>, u32),
}

/// The right side of a constant's line.
#[derive(Debug, Drop)]
pub enum Body {
    /// A sequential component.
    Plain(Sequential),
    /// A system.
    Compound(Shape2),
}

/// A state of a system: its sequential components are leaves, by their numbers.
#[derive(Debug, Drop)]
pub enum Term {
    /// The leaf of this number.
    Leaf(u32),
    /// Two terms that cooperate over the set of this number.
    Coop(Box<Term>, Box<Term>, u32),
    /// A term that hides the set of this number.
    Hide(Box<Term>, u32),
}

impl Sequential {
    /// Whether two components are equal.
    pub fn is_same(&self, other: &Sequential) -> bool
        ensures { result ≡ same_expression (expression_of self.now) (expression_of other.now) }
    {
        match (self, other) {
            (Sequential::Constant(constant), Sequential::Constant(its_constant)) => {
                constant == its_constant
            }
            (
                Sequential::Prefix(action, rate, next),
                Sequential::Prefix(its_action, its_rate, its_next),
            ) => action == its_action && rate == its_rate && next.is_same(its_next),
            (Sequential::Choice(left, right), Sequential::Choice(its_left, its_right)) => {
                left.is_same(its_left) && right.is_same(its_right)
            }
            _ => false,
        }
    }
}

impl Body {
    /// The system on the right side, which is one.
    pub fn system(&self) -> &Shape2
        requires { (shape : Shape) × (definition_of self.now ≡ Compoundly shape) }
        ensures { definition_of self.now ≡ Compoundly (shape_of result.now) }
    {
        match self {
            Body::Compound(system) => system,
            Body::Plain(_) => unreachable!(),
        }
    }

    /// The component on the right side, which isn't a system.
    pub fn component(&self) -> &Sequential
        requires { (e : Expression) × (definition_of self.now ≡ Sequentially e) }
        ensures { definition_of self.now ≡ Sequentially (expression_of result.now) }
    {
        match self {
            Body::Plain(component) => component,
            Body::Compound(_) => unreachable!(),
        }
    }
}

impl Term {
    /// An equal term.
    pub fn copy(&self, alloc: Global) -> Result<Term, AllocError>
        ensures { IfOk result (λ term. term_of term ≡ term_of self.now) }
    {
        match self {
            Term::Leaf(leaf) => Ok(Term::Leaf(*leaf)),
            Term::Coop(left, right, set) => {
                let left = Box::new(alloc, left.copy(alloc)?)?;
                let right = Box::new(alloc, right.copy(alloc)?)?;
                Ok(Term::Coop(left, right, *set))
            }
            Term::Hide(inner, set) => {
                let inner = Box::new(alloc, inner.copy(alloc)?)?;
                Ok(Term::Hide(inner, *set))
            }
        }
    }
}

/// How many leaves of the term are the leaf of this number.
pub fn leaf_count(term: &Term, leaf: u32) -> u32
    requires { leaf_count_of term.now leaf < 2 ^ 32 }
    ensures { result ≡ leaf_count_of term.now leaf }
{
    match term {
        Term::Leaf(number) => u32::from(*number == leaf),
        Term::Coop(left, right, _set) => leaf_count(left, leaf) + leaf_count(right, leaf),
        Term::Hide(inner, _set) => leaf_count(inner, leaf),
    }
}

/// An activity that a leaf can perform: its action type's number, its rate, and the leaf that follows.
#[derive(Clone, Copy, Debug)]
pub struct Activity {
    pub action: u32,
    pub rate: Rate,
    pub target: u32,
}

/// A transition of a term: its action type's number, its signals (bit l for label l), its rate, and the term after it.
#[derive(Debug, Drop)]
pub struct Step {
    pub action: u32,
    pub signals: u64,
    pub rate: Rate,
    pub target: Term,
}

/// The bodies of the constants, in the order of their numbers.
pub type Bodies = Items<Body>;

/// The leaves, in the order of their numbers.
pub type SequentialList = Items<Sequential>;

/// The activities of one leaf, in derivation order.
pub type ActivityList = Items<Activity>;

/// The activities of each leaf.
pub type ActivityLists = Items<ActivityList>;

/// Numbers of 32 bits.
pub type Words32 = Items<u32>;

/// Lists of numbers of 32 bits.
pub type Words32List = Items<Words32>;

/// The transitions of a term, in derivation order.
pub type StepList = Items<Step>;
