//! From a program to a machine: each place of a stage gets a number, and is a node of the machine.
//!
//! Uses the model's places and machines. The contract of `desugar` is the crate's: the nodes are
//! the stage's places, one to one, and it refuses exactly where the stage has more places than are
//! allowed.
#![tactic(auto)]

ghost use Rattle.std.specs.Prelude.{◌≡◌, IfOk, OnOk, IfErr};
ghost use Rattle.kex_desugar.specs.Machines.{HasMore, IsMachineOf, IsTooMany};

mod node;
mod plan;
pub mod refusal;
mod roots;
mod spot;

use crate::node::node_of;
use crate::plan::entered;
use crate::refusal::DesugarRefusal;
use crate::roots::roots_by_name;
use crate::spot::{Spot, intern};
use indexmap::IndexSet;
use kex_machine::Machine;
use kex_model::program::Program;
use std::alloc::Global;

/// The machine of the stage that begins at node `root`: its places, numbered as they are met.
///
/// A place is what is still to be done, as in the oracle machine of the Kleenex paper (POPL 2016),
/// with the turns of repetitions counted. The empty place and each place's rest count too, also
/// where no step leads to them. It answers `TooManyPlaces` once place number `max_places + 1` is
/// met. A name that has no definition goes to node 0.
pub fn desugar(
    alloc: Global,
    program: &Program,
    root: u32,
    stage: u32,
    max_places: u32,
) -> Result<Machine, DesugarRefusal>
    ensures machine { IfOk result (λ m. IsMachineOf program.now root m) }
    ensures stage { IfOk result (λ m. m.stage ≡ stage) }
    ensures fits { OnOk result (HasMore program.now root max_places → ⊥) }
    ensures refused { IfErr result (λ e. IsTooMany e → HasMore program.now root max_places) }
{
    let roots = roots_by_name(alloc, program)?;
    let mut spots = IndexSet::new(alloc);
    let bottom = intern(max_places, &mut spots, Spot::Empty)?;
    let first = Spot::On(entered(program, root), bottom);
    let start = intern(max_places, &mut spots, first)?;
    let mut nodes = Vec::new(alloc);
    'places: while nodes.len() < spots.len() {
        let spot = spots.as_slice()[nodes.len()];
        let node = node_of(program, &roots, max_places, &mut spots, spot)?;
        nodes.push(node)?;
    }
    Ok(Machine::new(start, nodes, stage, program.registers()))
}
