//! Which survivors of a text matter for what may come: a place is covered by others where every
//! text that leads from it to the end leads there from one of those.
//!
//! Uses machines, rows of bits and determinisation. The search goes over pairs of sets of waiting
//! places: what a text leads to from the place, and what it leads to from the others. The sets have
//! numbers, and where one leads by a class of bytes is worked out once. A table whose states leave
//! covered leaves out passes on what is best. The contracts of `covered` and of `optimal` are the
//! crate's.
#![tactic(auto)]

pub mod fault;
mod kept;
mod met_sets;
mod numbers;
mod pairs;
mod questions;
pub mod refusal;
mod rows;
mod search;
mod sets;

ghost use Rattle.std.specs.Prelude.{ℕ, ◌<◌, ◌≤◌, ◌∷◌, [], IfOk, OnOk, IfErr, MatchBool};
ghost use Rattle.std.specs.Prelude.{length};
ghost use Rattle.kex_model.specs.States.{HasStates};
ghost use Rattle.kex_machine.specs.Nodes.{node_moves};
ghost use Rattle.kex_sst.specs.Machines.{IsBestTableOf};
ghost use Rattle.kex_cover.specs.Optimal.{EachAsksAtMost, IsOptimal, RefusesOptimal};
ghost use Rattle.kex_cover.specs.Pairs.{HasMorePairs, HasPairs, IsCoveredBy, IsUncoveredBy};
ghost use Rattle.kex_cover.specs.Searches.{AreWaiting, RefusesPairs};

use crate::fault::CoverFault;
use crate::kept::left_trees;
use crate::met_sets::MetSets;
use crate::pairs::Pairs;
use crate::refusal::CoverRefusal;
use crate::rows::{RowTools, first_update, rows_of};
use crate::search::search;
use kex_determine::determine_trees;
use kex_machine::Trimmed;
use kex_sst::table::Table;
use std::alloc::Global;

/// Whether every text that leads from a waiting place to the end leads there from one of those
/// before it. `TooManyPairs` exactly where the place and those have more pairs than `max_pairs`,
/// also where fewer would tell.
///
/// The cost is that of a step of a row for each set that is met and each class of bytes, and of a
/// look-up for each pair and class.
pub fn covered(
    alloc: Global,
    machine: &Trimmed,
    leaf: u32,
    before: &[u32],
    max_pairs: u32,
) -> Result<bool, CoverFault>
    requires few { max_pairs < 4294967295 }
    requires leaf { AreWaiting machine.now (leaf ∷ []) }
    requires before { AreWaiting machine.now before.now }
    ensures covered { IfOk result (λ yes. MatchBool yes (IsCoveredBy machine.now leaf before.now)
        (IsUncoveredBy machine.now leaf before.now)) }
    ensures count { OnOk result ((n : ℕ) × (n ≤ max_pairs)
        × HasPairs machine.now leaf before.now n) }
    ensures refused { IfErr result
        (RefusesPairs max_pairs (HasMorePairs machine.now leaf before.now max_pairs)) }
{
    let mut sets = MetSets::new(alloc, machine)?;
    let mut pairs = Pairs::new(alloc, max_pairs);
    search(machine, leaf, before, &mut sets, &mut pairs)
}

/// The table that passes on what is best: its states are those of `determine`'s table, in their
/// order, of whose trees the covered leaves are left out.
///
/// `TooManyStates` exactly as `determine`; else `TooManyPairs` exactly where in some state the test
/// of some leaf but the first, against all leaves before it, has more pairs than `max_pairs`.
///
/// A test is made once for the same leaf and the same leaves before it, and all share the sets that
/// they meet. Besides the trees and the table the memory goes by `max_pairs`: sets and questions
/// past that are forgotten.
pub fn optimal(
    alloc: Global,
    machine: &Trimmed,
    max_states: u32,
    max_pairs: u32,
) -> Result<Table, CoverRefusal>
    requires few_states { max_states < 4294967295 }
    requires few_pairs { max_pairs < 4294967295 }
    ensures best { IfOk result (λ t. IsBestTableOf machine.now t) }
    ensures optimal { IfOk result (λ t. IsOptimal machine.now t) }
    ensures states { IfOk result (λ t. HasStates (node_moves machine.now.nodes) machine.now.start
        (length t.states) × (length t.states ≤ max_states)) }
    ensures pairs { OnOk result (EachAsksAtMost machine.now max_pairs) }
    ensures refused { IfErr result (RefusesOptimal machine.now max_states max_pairs) }
{
    // Its numbers are in range, and from each node the end is reached.
    let _nodes = machine.nodes();
    let (table, trees) = determine_trees(alloc, machine, max_states)?;
    let lefts = left_trees(alloc, machine, &trees, max_pairs)?;
    let mut tools = RowTools::new(alloc, machine)?;
    let update = first_update(alloc, &table, &trees, &lefts, &mut tools)?;
    let rows = rows_of(alloc, machine, &table, &lefts, &mut tools)?;
    Ok(Table::new(table.partition().copy(), update, rows))
}
