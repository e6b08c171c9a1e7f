// Places by number.

ghost use Rattle.std.specs.Prelude.{◌≡◌, ℕ, ◌≤◌, ◌++◌, length, slice_get, Some, IfOk, OnOk, IfErr};
ghost use Rattle.kex_code.specs.Codes.{Begins};
ghost use Rattle.kex_model.specs.Programs.{Grammar};
ghost use Rattle.kex_model.specs.Places.{Place};
ghost use Rattle.kex_desugar.specs.Machines.{HasMore, IsTooMany};
ghost use Rattle.kex_desugar.specs.Plans.{frames};
ghost use Rattle.kex_desugar.specs.Spots.{IsOnPlace, IsReal, IsAt, Real};

use crate::plan::Way;
use crate::refusal::DesugarRefusal;
use indexmap::IndexSet;
use kex_model::frame::Frame;

/// What a number stands for: the empty place, or a frame on the place of another number.
#[derive(Clone, Copy, PartialEq, Eq, Hash)]
pub enum Spot {
    Empty,
    On(Frame, u32),
}

// The number of a spot, which gets the next one if it has none.
pub(crate) fn intern(
    max: u32,
    spots: &mut IndexSet<Spot>,
    spot: Spot,
) -> Result<u32, DesugarRefusal>
    requires { length spots.old.keys ≤ max }
    ensures number { IfOk result (λ i. slice_get spots.new.keys i ≡ Some spot) }
    ensures grown { OnOk result (Begins spots.new.keys spots.old.keys) }
    ensures within { OnOk result (length spots.new.keys ≤ max) }
    ensures real { OnOk result ((P : Grammar) (root : ℕ) → Real P root spots.old.keys
        → IsReal P root spots.old.keys spot → Real P root spots.new.keys) }
    ensures refused { IfErr result (λ e. IsTooMany e → (P : Grammar) (root : ℕ)
        → Real P root spots.old.keys → IsReal P root spots.old.keys spot → HasMore P root max) }
{
    if let Some(i) = spots.get_index_of(&spot) {
        return Ok(i as u32);
    }
    if spots.len() >= max as usize {
        return Err(DesugarRefusal::TooManyPlaces);
    }
    let (i, _) = spots.insert_full(spot)?;
    Ok(i as u32)
}

// The number of what is put on number `rest`.
pub(crate) fn reach(
    max: u32,
    spots: &mut IndexSet<Spot>,
    way: Way,
    rest: u32,
) -> Result<u32, DesugarRefusal>
    requires { length spots.old.keys ≤ max }
    ensures number { IfOk result (λ i. (q : Place) → IsAt spots.old.keys q rest
        → IsAt spots.new.keys (frames way ++ q) i) }
    ensures grown { OnOk result (Begins spots.new.keys spots.old.keys) }
    ensures within { OnOk result (length spots.new.keys ≤ max) }
    ensures real { OnOk result ((P : Grammar) (root : ℕ) → Real P root spots.old.keys
        → IsOnPlace P root spots.old.keys way rest → Real P root spots.new.keys) }
    ensures refused { IfErr result (λ e. IsTooMany e → (P : Grammar) (root : ℕ)
        → Real P root spots.old.keys → IsOnPlace P root spots.old.keys way rest
        → HasMore P root max) }
{
    match way {
        Way::Rest => Ok(rest),
        Way::Under(frame) => intern(max, spots, Spot::On(frame, rest)),
        Way::Both(upper, lower) => {
            let under = intern(max, spots, Spot::On(lower, rest))?;
            intern(max, spots, Spot::On(upper, under))
        }
    }
}
