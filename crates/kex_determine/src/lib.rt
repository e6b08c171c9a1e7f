//! Determinisation: from a machine to the table whose states are the shapes of its texts' path
//! trees, after the Kleenex paper (POPL 2016).
//!
//! Uses path trees, which show how a shape goes on with a class of bytes, and tables. The contract
//! of `determine` is the crate's.
#![tactic(auto)]

pub mod ends;
pub mod refusal;
mod rows;
mod states;

ghost use Rattle.std.specs.Prelude.{◌<◌, ◌≤◌, IfOk, IfErr, length};
ghost use Rattle.kex_model.specs.States.{HasStates, HasMoreStates};
ghost use Rattle.kex_machine.specs.Nodes.{node_moves};
ghost use Rattle.kex_sst.specs.Machines.{IsTableOf};
ghost use Rattle.kex_determine.specs.Determined.{AreStateTrees, IsDetermined};
ghost use Rattle.kex_determine.specs.Numbering.{Refuses};

use crate::refusal::DetRefusal;
use crate::rows::rows_of;
use crate::states::States;
use kex_machine::Trimmed;
use kex_paths::tree::PathTree;
use kex_paths::workspace::Workspace;
use kex_sst::table::Table;
use std::alloc::Global;

/// The table of a machine: its states are the shapes of the texts' path trees, numbered as they are
/// met, breadth first and classes ascending. It answers `TooManyStates` once state number
/// `max_states + 1` is met.
pub fn determine(alloc: Global, machine: &Trimmed, max_states: u32) -> Result<Table, DetRefusal>
    requires { max_states < 4294967295 }
    ensures determined { IfOk result (λ t. IsDetermined machine.now t) }
    ensures table { IfOk result (λ t. IsTableOf machine.now t) }
    ensures states { IfOk result (λ t. HasStates (node_moves machine.now.nodes) machine.now.start
        (length t.states) × (length t.states ≤ max_states)) }
    ensures refused { IfErr result (Refuses max_states
        (HasMoreStates (node_moves machine.now.nodes) machine.now.start max_states)) }
{
    let (table, _trees) = determine_trees(alloc, machine, max_states)?;
    Ok(table)
}

/// The same, with the path tree of each state.
pub fn determine_trees<'m>(
    alloc: Global,
    machine: &'m Trimmed,
    max_states: u32,
) -> Result<(Table, Vec<PathTree<'m>>), DetRefusal>
    requires { max_states < 4294967295 }
    ensures determined { IfOk result (λ r. (d : IsDetermined machine.now r.0)
        × AreStateTrees machine.now d.shapes r.1.items) }
    ensures table { IfOk result (λ r. IsTableOf machine.now r.0) }
    ensures states { IfOk result (λ r. HasStates (node_moves machine.now.nodes) machine.now.start
        (length r.0.states) × (length r.0.states ≤ max_states)) }
    ensures refused { IfErr result (Refuses max_states
        (HasMoreStates (node_moves machine.now.nodes) machine.now.start max_states)) }
{
    // From each node the end is reached, so each tree has a leaf.
    let _nodes = machine.nodes();
    let partition = machine.partition();
    let mut workspace = Workspace::new(alloc, machine)?;
    let mut states = States::new(alloc, max_states);
    let (tree, update) = PathTree::start(alloc, machine)?;
    states.enter(alloc, tree)?;
    let rows = rows_of(alloc, machine, partition, &mut states, &mut workspace)?;
    let table = Table::new(partition.copy(), update, rows);
    Ok((table, states.into_trees()))
}
