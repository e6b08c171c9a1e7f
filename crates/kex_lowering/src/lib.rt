//! From a stage of a program to its trimmed machine, which answers as the stage does.
//!
//! Uses the passes from places to nodes and from nodes to those that lead to the end. The contract
//! of `stage_machine` is the crate's: its refusals are said of the stage's places, and so is what
//! its machine answers.
#![tactic(auto)]

ghost use Rattle.std.specs.Prelude.{◌≡◌, IfOk, OnOk, IfErr};
ghost use Rattle.kex_desugar.specs.Machines.{HasMore};
ghost use Rattle.kex_lowering.specs.Stages.{Carries, HasPlaces, IsKeptOf, IsWhy};

pub mod laws;
pub mod refusal;

use crate::refusal::StageRefusal;
use kex_desugar::desugar;
use kex_machine::Trimmed;
use kex_model::program::Program;
use kex_trim::trim;
use std::alloc::Global;

/// A stage's machine, and how many places the stage has before it is trimmed.
#[derive(Drop)]
pub struct StageMachine {
    pub machine: Trimmed,
    pub places: u32,
}

/// The machine of a stage that begins at node `root`, without dead ends.
///
/// It is refused for its places before it is for want of a text. The time is linear in the count of
/// places.
pub fn stage_machine(
    alloc: Global,
    program: &Program,
    root: u32,
    stage: u32,
    max_places: u32,
) -> Result<StageMachine, StageRefusal>
    ensures carries { IfOk result (λ made. Carries program.now root made.machine) }
    ensures kept { IfOk result (λ made. IsKeptOf program.now root made.machine) }
    ensures places { IfOk result (λ made. HasPlaces program.now root made.places) }
    ensures fits { OnOk result (HasMore program.now root max_places → ⊥) }
    ensures stage { IfOk result (λ made. made.machine.stage ≡ stage) }
    ensures refused { IfErr result (λ e. IsWhy program.now root max_places e) }
{
    let machine = desugar(alloc, program, root, stage, max_places)?;
    let places = machine.nodes().len() as u32;
    let trimmed = trim(alloc, machine)?;
    Ok(StageMachine {
        machine: trimmed,
        places,
    })
}
