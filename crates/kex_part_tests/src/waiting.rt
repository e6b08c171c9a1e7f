//! Whether places wait, which `covered` asks of those that it gets.
ghost use Rattle.std.specs.Prelude.{◌∷◌, [], IsTrue};
ghost use Rattle.kex_cover.specs.Searches.{AreWaiting};

use kex_machine::{MNode, Trimmed};

// Whether a byte is read at the place, or the parse ends there.
fn is_waiting(machine: &Trimmed, place: u32) -> bool
    ensures { IsTrue result → AreWaiting machine.now (place ∷ []) }
{
    matches!(
        machine.nodes().get(place as usize),
        Some(MNode::Accept | MNode::Read(..))
    )
}

/// Whether all of these places wait.
pub fn all_wait(machine: &Trimmed, places: &[u32]) -> bool
    ensures { IsTrue result → AreWaiting machine.now places.now }
{
    'places: for place in places {
        if !is_waiting(machine, *place) {
            return false;
        }
    }
    true
}
