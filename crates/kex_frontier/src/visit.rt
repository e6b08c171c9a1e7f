// The places that are reached from a place without a byte, as a tree.

ghost use Rattle.std.specs.Prelude.{◌≡◌, ℕ, ◌<◌, ◌++◌, ◌∷◌, [], List, Option, Some, IfOk, OnOk};
ghost use Rattle.std.specs.Prelude.{replicate, reverse, length, get_or, set, false, true};
ghost use Rattle.kex_code.specs.declared.symbol.Symbol.{Symbol};
ghost use Rattle.kex_model.specs.Labelled.{Grown};
ghost use Rattle.kex_machine.specs.Nodes.{node_moves, StaysWithin};
ghost use Rattle.kex_frontier.specs.Edges.{HasCodeTrees};
ghost use Rattle.kex_frontier.specs.Going.{VisitsCodes};
ghost use Rattle.kex_frontier.specs.Tasks.{visits_from, code_leaf_at, tasks_at, trees_at};

use crate::forest::{CodeForest, Spare};
use kex_code::memory::Memory;
use kex_code::symbol::Symbol;
use kex_machine::marks::Marks;
use kex_machine::{MNode, node_at};
use std::alloc::Global;

/// What is still to be done: a place is to be visited, a symbol put in front of the last tree, the
/// last two trees merged.
#[derive(Clone, Copy, Debug, PartialEq, Eq)]
pub enum VisitTask {
    Visit(u32),
    Front(Symbol),
    Merge,
}

/// What walks use again and again. The labels in `fresh` are turned: what is put in front is at
/// their ends.
#[derive(Drop)]
pub struct VisitTools {
    pub marks: Marks,
    pub fresh: CodeForest,
    pub tasks: Vec<VisitTask>,
    pub spare: Spare,
}

impl VisitTools {
    /// For this many places, none of them met yet.
    pub fn new(alloc: Global, count: usize) -> Result<VisitTools, Memory>
        ensures { IfOk result (λ b. b.marks ≡ replicate count false) }
    {
        let marks = Marks::new(alloc, count)?;
        Ok(VisitTools {
            marks,
            fresh: CodeForest::new(alloc),
            tasks: Vec::new(alloc),
            spare: Spare::new(alloc),
        })
    }
}

// A place that wasn't met: where it leads without a byte is to be visited, or it is a tree.
fn enter(
    nodes: &[MNode],
    n: u32,
    fresh: &mut CodeForest,
    tasks: &mut Vec<VisitTask>,
    spare: &mut Spare,
) -> Result<(), Memory>
    requires { n < length nodes.now }
    ensures tasks { OnOk result (tasks.new.items
        ≡ tasks.old.items ++ visits_from (node_moves nodes.now n)) }
    ensures trees { OnOk result ((rs : List (Option (Grown Symbol ℕ)))
        → HasCodeTrees reverse fresh.old rs
        → HasCodeTrees reverse fresh.new (code_leaf_at (node_moves nodes.now n) n ++ rs)) }
{
    match node_at(nodes, n as usize) {
        MNode::Accept => fresh.add_tip(n, spare),
        MNode::Read(_, _) => fresh.add_tip(n, spare),
        MNode::Choice(l, r) => {
            tasks.push(VisitTask::Merge)?;
            tasks.push(VisitTask::Front(Symbol::R))?;
            tasks.push(VisitTask::Visit(*r))?;
            tasks.push(VisitTask::Front(Symbol::L))?;
            tasks.push(VisitTask::Visit(*l))?;
            Ok(())
        }
        MNode::Forced(side, next) => {
            tasks.push(VisitTask::Front(Symbol::from(*side)))?;
            tasks.push(VisitTask::Visit(*next))?;
            Ok(())
        }
        MNode::Do(_, next) => {
            tasks.push(VisitTask::Visit(*next))?;
            Ok(())
        }
        MNode::Skip(next) => {
            tasks.push(VisitTask::Visit(*next))?;
            Ok(())
        }
    }
}

// A place that was met before has no tree of its own.
fn meet(
    nodes: &[MNode],
    n: u32,
    marks: &mut Marks,
    fresh: &mut CodeForest,
    tasks: &mut Vec<VisitTask>,
    spare: &mut Spare,
) -> Result<(), Memory>
    requires below { n < length nodes.now }
    requires long { length marks.old ≡ length nodes.now }
    ensures marks { OnOk result (marks.new ≡ set marks.old n true) }
    ensures tasks { OnOk result (tasks.new.items
        ≡ tasks.old.items ++ tasks_at (get_or marks.old n false) (node_moves nodes.now n)) }
    ensures trees { OnOk result ((rs : List (Option (Grown Symbol ℕ)))
        → HasCodeTrees reverse fresh.old rs → HasCodeTrees reverse fresh.new
        (trees_at (get_or marks.old n false) (node_moves nodes.now n) n ++ rs)) }
{
    if marks.mark(n) {
        fresh.add_none()
    } else {
        enter(nodes, n, fresh, tasks, spare)
    }
}

/// The tree of the waiting places that are reached from a place without a byte and weren't met
/// before.
pub fn walk(nodes: &[MNode], first: u32, tools: &mut VisitTools) -> Result<(), Memory>
    requires range { StaysWithin nodes.now }
    requires first { first < length nodes.now }
    requires long { length tools.old.marks ≡ length nodes.now }
    ensures tree { OnOk result ((a : Option (Grown Symbol ℕ)) × HasCodeTrees reverse tools.new.fresh
        (a ∷ []) × VisitsCodes (node_moves nodes.now) tools.old.marks first a tools.new.marks) }
    ensures long { OnOk result (length tools.new.marks ≡ length nodes.now) }
{
    let VisitTools {
        marks,
        fresh,
        tasks,
        spare,
    } = tools;
    fresh.clear();
    tasks.clear();
    tasks.push(VisitTask::Visit(first))?;
    while let Some(task) = tasks.pop() {
        match task {
            VisitTask::Visit(n) => meet(nodes, n, marks, fresh, tasks, spare)?,
            VisitTask::Front(symbol) => fresh.put_symbol(symbol)?,
            VisitTask::Merge => fresh.merge(spare)?,
        }
    }
    Ok(())
}
