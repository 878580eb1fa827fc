//! A model that passed every check, and what its parts are.
ghost use Rattle.std.specs.Prelude.{◌≡◌, ℕ, ◌<◌, Some, length, slice_get};
ghost use Rattle.std.specs.List.{All};
ghost use Rattle.std.specs.List.Sorted.{IsStrictlyIncreasing};
ghost use Rattle.pepa_model.specs.Expression.{Expression, Shape, Defines, IsSequential, IsCompound, expression_of, shape_of};
ghost use Rattle.pepa_model.specs.PepaModel.{IsModel, AreTransitionsOf};

use crate::name::Name;
use crate::term::{
    Activity, ActivityLists, Bodies, Sequential, SequentialList, Shape2, Words32List,
};
use indexmap::IndexMap;

/// The greatest number of operators and constants that stand above one another in a leaf: each of at most 1,024 constants
/// once, with a body of at most 2,048 tokens each.
pub const MAX_HEIGHT: u32 = 2_097_152;

/// A PEPA model that passed every check.
///
/// Contracts see it as the record of its parts. Constants, action types and leaves are numbered by their places; action 0
/// is `tau`.
#[derive(Drop)]
pub struct Model {
    pub constants: IndexMap<Name, ()>,
    pub actions: IndexMap<Name, ()>,
    pub bodies: Bodies,
    pub leaves: SequentialList,
    pub activities: ActivityLists,
    pub sets: Words32List,
    pub system: Shape2,
}

impl std::marker::Model for Model {
    ghost use Rattle.pepa_model.specs.PepaModel.{PepaModel};
    ghost use Rattle.pepa_model.specs.ExpressionCode.{expression_code, shape_code, definition_code};
    ghost use Rattle.std.specs.Coded.{codes};

    ghost Value = { PepaModel };

    ghost coded = { Prim.hlevel (codes, expression_code, shape_code, definition_code) };

    ghost use Rattle.pepa_model.specs.ModelView.{model_view, IsModelInside};

    ghost view = { model_view };

    ghost invariant = { IsModelInside };
}

impl Model {
    /// Costs nothing: it hands the model's invariant to a proof.
    pub fn recall_invariant(&self)
        ensures { IsModel self.now }
    {
        let _sets = &self.sets;
    }

    /// The name of an action type.
    pub fn action_name(&self, action: u32) -> &Name
        requires { action < length self.now.actions }
        ensures { slice_get self.now.actions action ≡ Some result.now }
    {
        let actions = &self.actions;
        match actions.get_index(action as usize) {
            Some((name, _)) => name,
            None => unreachable!(),
        }
    }

    /// The name of a constant.
    pub fn constant_name(&self, constant: u32) -> &Name
        requires { constant < length self.now.constants }
        ensures { slice_get self.now.constants constant ≡ Some result.now }
    {
        let constants = &self.constants;
        match constants.get_index(constant as usize) {
            Some((name, _)) => name,
            None => unreachable!(),
        }
    }

    /// A leaf's expression.
    pub fn leaf(&self, leaf: u32) -> &Sequential
        requires { leaf < length self.now.leaves }
        ensures { slice_get self.now.leaves leaf ≡ Some (expression_of result.now) }
    {
        let leaves = &self.leaves;
        &leaves.as_slice()[leaf as usize]
    }

    /// The component that a sequential constant stands for.
    pub fn body(&self, constant: u32) -> &Sequential
        requires { IsSequential self.now.bodies constant }
        ensures { Defines self.now.bodies constant (expression_of result.now) }
    {
        let bodies = &self.bodies;
        bodies.as_slice()[constant as usize].component()
    }

    /// The activities of a leaf, in derivation order.
    pub fn activities(&self, leaf: u32) -> &[Activity]
        requires { leaf < length self.now.leaves }
        ensures stored { slice_get self.now.activities leaf ≡ Some result.now }
        ensures transitions { (e : Expression) → slice_get self.now.leaves leaf ≡ Some e → AreTransitionsOf self.now e result.now }
    {
        let lists = &self.activities;
        lists.as_slice()[leaf as usize].as_slice()
    }
    /// The action types of a set, in ascending order.
    pub fn set(&self, set: u32) -> &[u32]
        requires { set < length self.now.sets }
        ensures stored { slice_get self.now.sets set ≡ Some result.now }
        ensures ascends { IsStrictlyIncreasing result.now }
        ensures known { All (λ a. a < length self.now.actions) result.now }
    {
        let sets = &self.sets;
        sets.as_slice()[set as usize].as_slice()
    }

    /// The system.
    pub fn system(&self) -> &Shape2
        ensures { shape_of result.now ≡ self.now.system }
    {
        &self.system
    }

    /// The system that a compound constant stands for.
    pub fn compound_system(&self, constant: u32) -> &Shape2
        requires { (shape : Shape) × IsCompound self.now.bodies constant shape }
        ensures { IsCompound self.now.bodies constant (shape_of result.now) }
    {
        let bodies = &self.bodies;
        bodies.as_slice()[constant as usize].system()
    }

    /// The number of the leaf that the component is. It compares the component with the leaves before it.
    pub fn leaf_number(&self, component: &Sequential) -> u32
        requires { (leaf : ℕ) × (slice_get self.now.leaves leaf ≡ Some (expression_of component.now)) }
        ensures { slice_get self.now.leaves result ≡ Some (expression_of component.now) }
    {
        let leaves = &self.leaves;
        for number in 0..leaves.len() as u32 {
            if self.leaf(number).is_same(component) {
                return number;
            }
        }
        unreachable!()
    }
}
