// The rows of states: what each does on each class of bytes.

ghost use Rattle.std.specs.Prelude.{◌≡◌, ℕ, ◌<◌, ◌≤◌, List, [], Some, All, Contains, OnOk, IfOk};
ghost use Rattle.std.specs.Prelude.{IfErr, IfSome, IfNone, length, slice_get};
ghost use Rattle.kex_model.specs.Labelled.{Shape};
ghost use Rattle.kex_machine.specs.Nodes.{HasClasses};
ghost use Rattle.kex_paths.specs.Alikes.{GoesOnAlike};
ghost use Rattle.kex_determine.specs.Filling.{IsFilled};
ghost use Rattle.kex_determine.specs.Rows.{LeadsApart};
ghost use Rattle.kex_determine.specs.Numbering.{AreNumbered, AreTransitions, HasMoreFound};
ghost use Rattle.kex_determine.specs.Numbering.{IsStateWith, Refuses, WhereNumbered};

use crate::ends::way_to_end;
use crate::refusal::DetRefusal;
use crate::states::States;
use kex_byteset::Partition;
use kex_machine::Trimmed;
use kex_paths::tree::PathTree;
use kex_paths::workspace::Workspace;
use kex_sst::fan::Fan;
use kex_sst::table::State;
use std::alloc::Global;

// The first of these classes with which a tree goes on as it does with another, if there is one.
fn alike_among<'m>(
    tree: &PathTree<'m>,
    workspace: &Workspace<'m>,
    classes: &[u8],
    class: u8,
) -> Option<u8>
    requires { workspace.now ≡ tree.now.machine }
    ensures some { IfSome result (λ earlier. Contains classes.now earlier
        × GoesOnAlike tree.now earlier class) }
    ensures none { IfNone result (All (λ earlier. LeadsApart tree.now earlier class) classes.now) }
{
    for earlier in classes {
        if tree.goes_on_alike(workspace, *earlier, class) {
            return Some(*earlier);
        }
    }
    None
}

// The transitions of state `at`, by class, with the states that are met on the way. Classes that
// lead on alike have the same transition, which is walked once.
fn transitions_of<'m>(
    alloc: Global,
    at: usize,
    partition: &Partition,
    states: &mut States<'m>,
    workspace: &mut Workspace<'m>,
) -> Result<Fan, DetRefusal>
    requires classes { HasClasses workspace.old.nodes partition.now }
    requires few { states.old.most < 4294967295 }
    requires room { length states.old.trees.items ≤ states.old.most }
    requires known { (xs : List (Shape ℕ)) × (s : Shape ℕ)
        × AreNumbered workspace.old states.old.keys.keys states.old.trees.items xs
        × (slice_get xs at ≡ Some s) }
    ensures ok { IfOk result (λ go. WhereNumbered workspace.old states.old.keys.keys
        states.old.trees.items at (λ xs s. (ys : List (Shape ℕ)) × AreTransitions workspace.old
        partition.now states.new.keys.keys states.new.trees.items xs ys s go)) }
    ensures workspace { OnOk result (workspace.new ≡ workspace.old) }
    ensures most { OnOk result (states.new.most ≡ states.old.most) }
    ensures within { OnOk result (length states.new.trees.items ≤ states.old.most) }
    ensures err { IfErr result (Refuses states.old.most
        (WhereNumbered workspace.old states.old.keys.keys states.old.trees.items at (λ xs s.
        HasMoreFound workspace.old states.old.most))) }
{
    let mut go = Fan::with_capacity(alloc, partition.classes())?;
    // The classes that were walked.
    let mut walked = Vec::new(alloc);
    for class in 0..partition.classes() {
        let tree = &states.trees[at];
        match alike_among(tree, workspace, &walked, class as u8) {
            Some(earlier) => go.repeat(earlier)?,
            None => {
                walked.push(class as u8)?;
                let next = tree.advance_shared(workspace, class as u8)?;
                let transition = states.follow(alloc, next)?;
                go.push(transition)?;
            }
        }
    }
    Ok(go)
}

// State `at`, with the states that are met from it.
fn state_of<'m>(
    alloc: Global,
    at: usize,
    machine: &'m Trimmed,
    partition: &Partition,
    states: &mut States<'m>,
    workspace: &mut Workspace<'m>,
) -> Result<State, DetRefusal>
    requires machine { workspace.old ≡ machine.now }
    requires classes { HasClasses machine.now.nodes partition.now }
    requires few { states.old.most < 4294967295 }
    requires room { length states.old.trees.items ≤ states.old.most }
    requires known { (xs : List (Shape ℕ)) × (s : Shape ℕ)
        × AreNumbered machine.now states.old.keys.keys states.old.trees.items xs
        × (slice_get xs at ≡ Some s) }
    ensures ok { IfOk result (λ row. WhereNumbered machine.now states.old.keys.keys
        states.old.trees.items at (λ xs s. (ys : List (Shape ℕ)) × IsStateWith machine.now
        partition.now states.new.keys.keys states.new.trees.items xs ys s row)) }
    ensures workspace { OnOk result (workspace.new ≡ machine.now) }
    ensures most { OnOk result (states.new.most ≡ states.old.most) }
    ensures within { OnOk result (length states.new.trees.items ≤ states.old.most) }
    ensures err { IfErr result (Refuses states.old.most
        (WhereNumbered machine.now states.old.keys.keys states.old.trees.items at (λ xs s.
        HasMoreFound machine.now states.old.most))) }
{
    let go = transitions_of(alloc, at, partition, states, workspace)?;
    let tree = &states.trees[at];
    let shape = tree.shape();
    let accepting = way_to_end(alloc, machine.nodes(), shape, tree.leaves())?;
    let registers = shape.len() - 1;
    Ok(State::new(registers as u32, accepting, go))
}

/// The rows of all states, breadth first, with those that are met on the way.
pub(crate) fn rows_of<'m>(
    alloc: Global,
    machine: &'m Trimmed,
    partition: &Partition,
    states: &mut States<'m>,
    workspace: &mut Workspace<'m>,
) -> Result<Vec<State>, DetRefusal>
    requires machine { workspace.old ≡ machine.now }
    requires classes { HasClasses machine.now.nodes partition.now }
    requires few { states.old.most < 4294967295 }
    requires room { length states.old.trees.items ≤ states.old.most }
    requires begun { IsFilled machine.now partition.now states.old.keys.keys states.old.trees.items
        [] }
    ensures filled { IfOk result (λ rows.
        IsFilled machine.now partition.now states.new.keys.keys states.new.trees.items rows.items) }
    ensures all { IfOk result (λ rows. length states.new.trees.items ≤ length rows.items) }
    ensures within { OnOk result (length states.new.trees.items ≤ states.old.most) }
    ensures err { IfErr result
        (Refuses states.old.most (HasMoreFound machine.now states.old.most)) }
{
    let mut rows = Vec::new(alloc);
    'states: while rows.len() < states.trees.len() {
        let row = state_of(alloc, rows.len(), machine, partition, states, workspace)?;
        rows.push(row)?;
    }
    Ok(rows)
}
