//! The list of a hiding, from that of what it hides. Nothing here knows of terms.
ghost use Rattle.std.specs.Prelude.{◌≡◌, if◌then◌else◌, map};
ghost use Rattle.std.specs.List.Sorted.{IsStrictlyIncreasing};
ghost use Rattle.pepa_steps.specs.Moves.{has};
ghost use Rattle.pepa_steps.specs.Hidings.{hidden_entry};

use crate::entries::Entry;
use crate::sets::is_in;
use pepa_model::TAU;

/// Turns the entries of what is hidden into those of a hiding of these types: a hidden type becomes `tau`. Each entry comes from
/// the one at its place.
pub fn hide(types: &[u32], entries: &mut [Entry])
    requires { IsStrictlyIncreasing types.now }
    ensures { entries.new ≡ map (hidden_entry types.now) entries.old }
{
    for entry in entries {
        entry.action = shown(types, entry.action);
    }
}

/// The action type that is seen where these are hidden.
fn shown(types: &[u32], action: u32) -> u32
    requires { IsStrictlyIncreasing types.now }
    ensures { result ≡ (if has types.now action then 0 else action) }
{
    if is_in(types, action) { TAU } else { action }
}
