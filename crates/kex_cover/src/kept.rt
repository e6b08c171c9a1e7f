// What is left of path trees where the leaves that others cover are left out.

ghost use Rattle.std.specs.Prelude.{◌≡◌, ℕ, ◌<◌, List, OnOk, IfOk, IfErr};
ghost use Rattle.std.specs.Prelude.{length, false};
ghost use Rattle.kex_model.specs.Labelled.{Shape};
ghost use Rattle.kex_model.specs.States.{AllDifferent};
ghost use Rattle.kex_determine.specs.Determined.{AreStateTrees};
ghost use Rattle.kex_cover.specs.Keeping.{AreLeftTrees, AreQuestionsKept, AreStates, AreTold};
ghost use Rattle.kex_cover.specs.Keeping.{AskedAt, AsksMoreAt, EachAsksUpTo, IsLeftTree};
ghost use Rattle.kex_cover.specs.Keeping.{IsStateTree, OneAsksMore, ToldAt};
ghost use Rattle.kex_cover.specs.Optimal.{AsksAtMost, AsksMore};
ghost use Rattle.kex_cover.specs.Searches.{AreWaiting, RefusesPairs};

use crate::fault::CoverFault;
use crate::questions::Questions;
use kex_machine::Trimmed;
use kex_machine::marks::Marks;
use kex_paths::tree::PathTree;
use std::alloc::Global;

// Whether a leaf is covered by those before it. The first isn't, without a test.
fn is_covered(
    machine: &Trimmed,
    leaves: &[u32],
    at: usize,
    questions: &mut Questions,
) -> Result<bool, CoverFault>
    requires few { questions.old.pairs.most < 4294967295 }
    requires there { at < length leaves.now }
    requires waiting { AreWaiting machine.now leaves.now }
    requires kept { AreQuestionsKept machine.now questions.old }
    ensures told { IfOk result (λ yes. ToldAt machine.now leaves.now at yes) }
    ensures count { OnOk result (AskedAt machine.now questions.old.pairs.most leaves.now at) }
    ensures kept { OnOk result (AreQuestionsKept machine.now questions.new) }
    ensures most { OnOk result (questions.new.pairs.most ≡ questions.old.pairs.most) }
    ensures refused { IfErr result (RefusesPairs questions.old.pairs.most
        (AsksMoreAt machine.now questions.old.pairs.most leaves.now at)) }
{
    // From each node the end is reached.
    let _nodes = machine.nodes();
    if at == 0 {
        return Ok(false);
    }
    questions.ask(machine, leaves[at], &leaves[..at])
}

// Marks the leaves that those before them don't cover.
fn mark_uncovered(
    machine: &Trimmed,
    leaves: &[u32],
    questions: &mut Questions,
    marks: &mut Marks,
) -> Result<(), CoverFault>
    requires few { questions.old.pairs.most < 4294967295 }
    requires long { length marks.old ≡ length machine.now.nodes }
    requires waiting { AreWaiting machine.now leaves.now }
    requires different { AllDifferent leaves.now }
    requires kept { AreQuestionsKept machine.now questions.old }
    ensures told { OnOk result (AreTold machine.now leaves.now marks.new) }
    ensures count { OnOk result (AsksAtMost machine.now questions.old.pairs.most leaves.now) }
    ensures kept { OnOk result (AreQuestionsKept machine.now questions.new) }
    ensures most { OnOk result (questions.new.pairs.most ≡ questions.old.pairs.most) }
    ensures long { length marks.new ≡ length marks.old }
    ensures refused { IfErr result (RefusesPairs questions.old.pairs.most
        (AsksMore machine.now questions.old.pairs.most leaves.now)) }
{
    marks.clear();
    for at in 0..leaves.len() {
        if !is_covered(machine, leaves, at, questions)? {
            marks.mark(leaves[at]);
        }
    }
    Ok(())
}

// The tree of the leaves that those before them don't cover.
fn left_of<'m>(
    alloc: Global,
    machine: &Trimmed,
    tree: &PathTree<'m>,
    questions: &mut Questions,
    marks: &mut Marks,
) -> Result<PathTree<'m>, CoverFault>
    requires few { questions.old.pairs.most < 4294967295 }
    requires long { length marks.old ≡ length machine.now.nodes }
    requires state { IsStateTree machine.now tree.now }
    requires kept { AreQuestionsKept machine.now questions.old }
    ensures left { IfOk result (λ left. IsLeftTree machine.now tree.now left) }
    ensures count { OnOk result (AsksAtMost machine.now questions.old.pairs.most tree.now.leaves) }
    ensures kept { OnOk result (AreQuestionsKept machine.now questions.new) }
    ensures most { OnOk result (questions.new.pairs.most ≡ questions.old.pairs.most) }
    ensures long { length marks.new ≡ length marks.old }
    ensures refused { IfErr result (RefusesPairs questions.old.pairs.most
        (AsksMore machine.now questions.old.pairs.most tree.now.leaves)) }
{
    // Its leaves are waiting places, each once, and there is one.
    let _nodes = machine.nodes();
    let _shape = tree.shape();
    mark_uncovered(machine, tree.leaves(), questions, marks)?;
    let left = tree.left(alloc, marks)?;
    Ok(left.unwrap())
}

/// What is left of each of a machine's state trees.
pub fn left_trees<'m>(
    alloc: Global,
    machine: &Trimmed,
    trees: &[PathTree<'m>],
    max_pairs: u32,
) -> Result<Vec<PathTree<'m>>, CoverFault>
    requires few { max_pairs < 4294967295 }
    requires states { (shapes : List (Shape ℕ)) × AreStateTrees machine.now shapes trees.now
        × AreStates machine.now shapes }
    ensures left { IfOk result (λ lefts. (shapes : List (Shape ℕ))
        → AreStateTrees machine.now shapes trees.now
        → AreLeftTrees machine.now shapes lefts.items) }
    ensures count { OnOk result ((shapes : List (Shape ℕ))
        → AreStateTrees machine.now shapes trees.now
        → EachAsksUpTo machine.now max_pairs shapes) }
    ensures refused { IfErr result (RefusesPairs max_pairs ((shapes : List (Shape ℕ))
        → AreStateTrees machine.now shapes trees.now → OneAsksMore machine.now max_pairs shapes)) }
{
    let mut marks = Marks::new(alloc, machine.nodes().len())?;
    let mut questions = Questions::new(alloc, machine, max_pairs)?;
    let mut lefts = Vec::with_capacity(alloc, trees.len())?;
    for tree in trees {
        let left = left_of(alloc, machine, tree, &mut questions, &mut marks)?;
        lefts.push(left)?;
    }
    Ok(lefts)
}
