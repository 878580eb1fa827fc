//! Sets of action types.
ghost use Rattle.std.specs.Prelude.{◌≡◌};
ghost use Rattle.std.specs.List.Sorted.{IsStrictlyIncreasing};
ghost use Rattle.pepa_steps.specs.States.{has};

/// Whether an action type is among these, which ascend.
pub(crate) fn is_in(types: &[u32], action: u32) -> bool
    requires { IsStrictlyIncreasing types.now }
    ensures { result ≡ has types.now action }
{
    types.binary_search(&action).is_ok()
}
