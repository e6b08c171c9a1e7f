// The nodes of a machine.

ghost use Rattle.std.specs.Prelude.{ℕ, ◌≤◌, length, IfOk, OnOk, IfErr};
ghost use Rattle.kex_code.specs.Codes.{Begins};
ghost use Rattle.kex_desugar.specs.Machines.{HasMore, IsTooMany};
ghost use Rattle.kex_desugar.specs.Plans.{MapHasRoots};
ghost use Rattle.kex_desugar.specs.Spots.{IsReal, NodeOf, Real};

use crate::plan::{NodePlan, frame_plan};
use crate::refusal::DesugarRefusal;
use crate::spot::{Spot, reach};
use indexmap::{IndexMap, IndexSet};
use kex_machine::MNode;
use kex_model::program::Program;

// The node of a spot. What it leads to gets numbers.
pub(crate) fn node_of(
    program: &Program,
    roots: &IndexMap<u32, u32>,
    max: u32,
    spots: &mut IndexSet<Spot>,
    spot: Spot,
) -> Result<MNode, DesugarRefusal>
    requires roots { MapHasRoots program.now roots.now }
    requires within { length spots.old.keys ≤ max }
    ensures node { IfOk result (λ m. (root : ℕ) → IsReal program.now root spots.old.keys spot
        → NodeOf program.now spots.new.keys spot m) }
    ensures grown { OnOk result (Begins spots.new.keys spots.old.keys) }
    ensures within { OnOk result (length spots.new.keys ≤ max) }
    ensures real { OnOk result ((root : ℕ) → Real program.now root spots.old.keys
        → IsReal program.now root spots.old.keys spot → Real program.now root spots.new.keys) }
    ensures refused { IfErr result (λ e. IsTooMany e → (root : ℕ)
        → Real program.now root spots.old.keys → IsReal program.now root spots.old.keys spot
        → HasMore program.now root max) }
{
    let Spot::On(frame, rest) = spot else {
        return Ok(MNode::Accept);
    };
    let plan = frame_plan(program, roots, frame)?;
    match plan {
        NodePlan::Take(set) => Ok(MNode::Read(set, rest)),
        NodePlan::Act(effect, way) => {
            let next = reach(max, spots, way, rest)?;
            Ok(MNode::Do(effect, next))
        }
        NodePlan::Pass(way) => {
            let next = reach(max, spots, way, rest)?;
            Ok(MNode::Skip(next))
        }
        NodePlan::Fork(left, right) => {
            let left = reach(max, spots, left, rest)?;
            let right = reach(max, spots, right, rest)?;
            Ok(MNode::Choice(left, right))
        }
    }
}
