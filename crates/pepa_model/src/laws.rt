//! Laws of the definitions. Each function's contract is a law, and a call costs nothing.
ghost use Rattle.std.specs.Prelude.{◌≡◌, ℕ, List, Some, slice_get};
ghost use Rattle.std.specs.Bool.{Decides};
ghost use Rattle.pepa_model.specs.Expression.{Expression, Shape, Definition, IsCompound};
ghost use Rattle.pepa_model.specs.Derivation.{Transition, IsComponentTransitionList};
ghost use Rattle.pepa_model.specs.Leaves.{same_expression};
ghost use Rattle.pepa_model.specs.PepaModel.{PepaModel, HasTree, IsModel};
ghost use Rattle.pepa_model.specs.ModelLaws.{HasActivities, OpensLow};

/// A sequential component has at most one transition list: its derivations and their order determine it.
pub fn one_transition_list()
    ensures { (definitions : List Definition) (e : Expression) (x y : List Transition) → IsComponentTransitionList definitions e x → IsComponentTransitionList definitions e y → x ≡ y }
{}

/// At each leaf's number there are its activities, and each of them leads to a leaf.
pub fn every_target_is_a_leaf()
    ensures { (m : PepaModel) → IsModel m → (number : ℕ) (e : Expression) → slice_get m.leaves number ≡ Some e → HasActivities m number e }
{}

/// The constants of each leaf open into a finite tree, which is at most 2^21 high: a recursion through them ends.
pub fn every_leaf_opens()
    ensures { (m : PepaModel) → IsModel m → (number : ℕ) (e : Expression) → slice_get m.leaves number ≡ Some e → OpensLow m e }
{}

/// The system expands into a finite tree, and so does what each compound constant stands for; each is at most 2^21 high.
pub fn every_system_expands()
    ensures system { (m : PepaModel) → IsModel m → HasTree m m.system }
    ensures compounds { (m : PepaModel) → IsModel m → (constant : ℕ) (shape : Shape) → IsCompound m.bodies constant shape → HasTree m shape }
{}

/// A leaf has one number only, and the test that numbers the leaves tells whether two expressions are equal.
pub fn one_leaf_number()
    ensures number { (m : PepaModel) → IsModel m → (i j : ℕ) (e : Expression) → slice_get m.leaves i ≡ Some e → slice_get m.leaves j ≡ Some e → i ≡ j }
    ensures test { (x y : Expression) → Decides (same_expression x y) (x ≡ y) }
{}
