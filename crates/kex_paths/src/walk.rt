// The walk over an old tree and, past the byte, over the places that are reached.

ghost use Rattle.std.specs.Prelude.{◌≡◌, ℕ, ◌<◌, ◌≤◌, ◌^◌, ◌↔◌, ◌++◌, ◌∷◌, [], List, Bool, Option};
ghost use Rattle.std.specs.Prelude.{Some, IsTrue, OnOk, IfOk, length, get_or, set, replicate, true};
ghost use Rattle.std.specs.Prelude.{false};
ghost use Rattle.kex_model.specs.Labelled.{Grown};
ghost use Rattle.kex_machine.specs.Nodes.{node_moves, StaysWithin};
ghost use Rattle.kex_sst.specs.declared.parts.Part.{Part};
ghost use Rattle.kex_paths.specs.Alikes.{LeadAlikeAt};
ghost use Rattle.kex_paths.specs.Forests.{HasTrees};
ghost use Rattle.kex_paths.specs.Tasks.{ShapedTask, task_of, tokens_left, RunsTasks, tasks_from};
ghost use Rattle.kex_paths.specs.Tasks.{leaf_at, IsTipBelow, token_tasks, token_dead, read_tasks};
ghost use Rattle.kex_paths.specs.Tasks.{read_dead, place_tasks, place_trees, EachTip, IsTaskBelow};

use crate::forest::Forest;
use kex_code::memory::Memory;
use kex_code::symbol::Symbol;
use kex_machine::marks::Marks;
use kex_machine::{MNode, node_at};
use kex_sst::parts::Part;
use std::alloc::Global;

/// A node of an old tree, in preorder.
#[derive(Clone, Copy, Debug, PartialEq, Eq)]
pub enum TreeToken {
    Fork,
    Tip(u32),
}

/// What is still to be done: the next old tree is walked, or that with the old edge to it; the last
/// two trees are merged, a part is put in front of the last tree, or a place is visited.
#[derive(Clone, Copy, Debug, PartialEq, Eq)]
pub enum Task {
    OldTree,
    OldEdge,
    Merge,
    Front(Part),
    Visit(u32),
}

/// What walks use again and again.
#[derive(Drop)]
pub struct Tools {
    pub marks: Marks,
    pub forest: Forest,
    pub tasks: Vec<Task>,
}

impl Tools {
    /// For this many places.
    pub fn new(alloc: Global, count: usize) -> Result<Tools, Memory>
        ensures { IfOk result (λ t. length t.marks ≡ count) }
    {
        let marks = Marks::new(alloc, count)?;
        Ok(Tools {
            marks,
            forest: Forest::new(alloc),
            tasks: Vec::new(alloc),
        })
    }
}

// A place that wasn't met: where it leads without a byte is to be visited, or it is a tree.
fn enter(nodes: &[MNode], n: u32, forest: &mut Forest, tasks: &mut Vec<Task>) -> Result<(), Memory>
    requires { n < length nodes.now }
    ensures tasks { OnOk result (tasks.new.items
        ≡ tasks.old.items ++ tasks_from (node_moves nodes.now n)) }
    ensures trees { OnOk result ((rs : List (Option (Grown Part ℕ))) → HasTrees forest.old rs
        → HasTrees forest.new (leaf_at (node_moves nodes.now n) n ++ rs)) }
{
    match node_at(nodes, n as usize) {
        MNode::Accept => forest.add_tip(n),
        MNode::Read(_, _) => forest.add_tip(n),
        MNode::Choice(l, r) => {
            tasks.push(Task::Merge)?;
            tasks.push(Task::Front(Part::Put(Symbol::R)))?;
            tasks.push(Task::Visit(*r))?;
            tasks.push(Task::Front(Part::Put(Symbol::L)))?;
            tasks.push(Task::Visit(*l))?;
            Ok(())
        }
        MNode::Forced(side, next) => {
            tasks.push(Task::Front(Part::Put(Symbol::from(*side))))?;
            tasks.push(Task::Visit(*next))?;
            Ok(())
        }
        MNode::Do(_, next) => {
            tasks.push(Task::Visit(*next))?;
            Ok(())
        }
        MNode::Skip(next) => {
            tasks.push(Task::Visit(*next))?;
            Ok(())
        }
    }
}

// A place that was met before has no tree of its own.
fn meet(
    nodes: &[MNode],
    n: u32,
    marks: &mut Marks,
    forest: &mut Forest,
    tasks: &mut Vec<Task>,
) -> Result<(), Memory>
    requires below { n < length nodes.now }
    requires long { length marks.old ≡ length nodes.now }
    ensures marks { marks.new ≡ set marks.old n true }
    ensures tasks { OnOk result (tasks.new.items
        ≡ tasks.old.items ++ place_tasks (get_or marks.old n false) (node_moves nodes.now n)) }
    ensures trees { OnOk result ((rs : List (Option (Grown Part ℕ))) → HasTrees forest.old rs
        → HasTrees forest.new
        (place_trees (get_or marks.old n false) (node_moves nodes.now n) n ++ rs)) }
{
    if marks.mark(n) {
        forest.add_none()
    } else {
        enter(nodes, n, forest, tasks)
    }
}

// An old place: where the byte leads from it is to be visited, or nothing is left of it.
fn read(
    nodes: &[MNode],
    place: u32,
    byte: u8,
    forest: &mut Forest,
    tasks: &mut Vec<Task>,
) -> Result<(), Memory>
    requires { place < length nodes.now }
    ensures tasks { OnOk result (tasks.new.items
        ≡ tasks.old.items ++ read_tasks (node_moves nodes.now place) byte) }
    ensures trees { OnOk result ((rs : List (Option (Grown Part ℕ))) → HasTrees forest.old rs
        → HasTrees forest.new (read_dead (node_moves nodes.now place) byte ++ rs)) }
{
    if let MNode::Read(set, next) = node_at(nodes, place as usize) {
        if set.has(byte) {
            tasks.push(Task::Front(Part::Input))?;
            tasks.push(Task::Visit(*next))?;
            return Ok(());
        }
    }
    forest.add_none()
}

/// Whether two bytes lead to the same places from a place.
pub fn leads_alike(nodes: &[MNode], place: u32, byte: u8, other: u8) -> bool
    requires { place < length nodes.now }
    ensures { IsTrue result ↔ LeadAlikeAt (node_moves nodes.now) byte other place }
{
    if let MNode::Read(set, _) = node_at(nodes, place as usize) {
        return set.has(byte) == set.has(other);
    }
    true
}

// A node of the old tree: the sides of a fork are to be walked, each with the edge to it.
fn take_token(
    nodes: &[MNode],
    token: TreeToken,
    byte: u8,
    forest: &mut Forest,
    tasks: &mut Vec<Task>,
) -> Result<(), Memory>
    requires { IsTipBelow (length nodes.now) token }
    ensures tasks { OnOk result (tasks.new.items
        ≡ tasks.old.items ++ token_tasks (node_moves nodes.now) byte token) }
    ensures trees { OnOk result ((rs : List (Option (Grown Part ℕ))) → HasTrees forest.old rs
        → HasTrees forest.new (token_dead (node_moves nodes.now) byte token ++ rs)) }
{
    match token {
        TreeToken::Fork => {
            tasks.push(Task::Merge)?;
            tasks.push(Task::OldEdge)?;
            tasks.push(Task::OldEdge)?;
            Ok(())
        }
        TreeToken::Tip(place) => read(nodes, place, byte, forest, tasks),
    }
}

/// Does a task and those that come of it, left first; past an old tree, node by node. What comes of
/// it is the last tree.
pub fn walk(
    nodes: &[MNode],
    tokens: &[TreeToken],
    byte: u8,
    first: Task,
    tools: &mut Tools,
) -> Result<(), Memory>
    requires range { StaysWithin nodes.now }
    requires tips { EachTip (length nodes.now) tokens.now }
    requires short { length tokens.now ≤ 2 ^ 32 }
    requires first { IsTaskBelow (length nodes.now) first }
    requires long { length tools.old.marks ≡ length nodes.now }
    ensures done { OnOk result ((j : ShapedTask) → task_of j ≡ first
        → tokens.now ≡ tokens_left (j ∷ []) → (rs : List (Option (Grown Part ℕ)))
        × HasTrees tools.new.forest rs × ((h : List Bool) × RunsTasks (node_moves nodes.now) byte
        (j ∷ []) 0 (replicate (length nodes.now) false) [] h rs)) }
    ensures long { length tools.new.marks ≡ length nodes.now }
{
    let Tools {
        marks,
        forest,
        tasks,
    } = tools;
    marks.clear();
    forest.clear();
    tasks.clear();
    tasks.push(first)?;
    let mut cursor: usize = 0;
    while let Some(task) = tasks.pop() {
        match task {
            Task::OldTree => {
                if cursor < tokens.len() {
                    take_token(nodes, tokens[cursor], byte, forest, tasks)?;
                    cursor += 1;
                }
            }
            Task::OldEdge => {
                if cursor < tokens.len() {
                    tasks.push(Task::Front(Part::Old(cursor.saturating_sub(1) as u32)))?;
                    take_token(nodes, tokens[cursor], byte, forest, tasks)?;
                    cursor += 1;
                }
            }
            Task::Merge => forest.merge()?,
            Task::Front(part) => forest.put_front(part)?,
            Task::Visit(n) => meet(nodes, n, marks, forest, tasks)?,
        }
    }
    Ok(())
}
