// The trees of the states that were met, as their lines are written.

ghost use Rattle.std.specs.Prelude.{◌≡◌, ℕ, ◌<◌, ◌≤◌, ◌∷◌, List, Some, IfOk, OnOk, length};
ghost use Rattle.std.specs.Prelude.{slice_get};
ghost use Rattle.kex_model.specs.Labelled.{Grown, Shape, shape_of};
ghost use Rattle.kex_sst.specs.declared.parts.Part.{Part};
ghost use Rattle.kex_paths.specs.Nexts.{IsFirstTree};
ghost use Rattle.kex_determine.specs.Determined.{MeetsInOrder, targets_of};
ghost use Rattle.kex_tabfile.specs.PlaceNumbers.{ArePlaceNumbers};
ghost use Rattle.kex_tabfile.specs.Writing.{AreFirstTrees, AreTreesOf, EachGoesOn, GoesOnTo};

use crate::places::number_places;
use kex_code::memory::Memory;
use kex_machine::Trimmed;
use kex_paths::tree::PathTree;
use kex_paths::workspace::Workspace;
use kex_sst::fan::Fan;
use std::alloc::Global;

/// The numbers of a machine's places, and the trees of the states that were met, by number.
#[derive(Drop)]
pub(crate) struct StateTrees<'m> {
    pub(crate) numbers: Vec<u32>,
    pub(crate) trees: Vec<PathTree<'m>>,
    pub(crate) workspace: Workspace<'m>,
}

impl<'m> StateTrees<'m> {
    /// The first state is met.
    pub(crate) fn new(alloc: Global, machine: &'m Trimmed) -> Result<StateTrees<'m>, Memory>
        ensures machine { IfOk result (λ t. t.workspace ≡ machine.now) }
        ensures numbers { IfOk result (λ t. ArePlaceNumbers machine.now t.numbers.items) }
        ensures trees { IfOk result (λ t. AreTreesOf machine.now t.trees.items) }
        ensures one { IfOk result (λ t. length t.trees.items ≡ 1) }
        ensures first { IfOk result (λ t. (shapes : List (Shape ℕ)) (a : Grown Part ℕ)
            → IsFirstTree machine.now (Some a) → slice_get shapes 0 ≡ Some (shape_of a.tree)
            → AreFirstTrees shapes t.trees.items) }
    {
        let numbers = number_places(alloc, machine)?;
        let (tree, _update) = PathTree::start(alloc, machine)?;
        let mut trees = Vec::new(alloc);
        trees.push(tree)?;
        let workspace = Workspace::new(alloc, machine)?;
        Ok(StateTrees {
            numbers,
            trees,
            workspace,
        })
    }

    // A state goes on to a target with a class: a target that is the next has its tree from it.
    fn meet(&mut self, state: usize, class: u8, target: u32) -> Result<(), Memory>
        requires state { state < length self.old.trees.items }
        requires machine { AreTreesOf self.old.workspace self.old.trees.items }
        ensures kept { OnOk result ((self.new.numbers ≡ self.old.numbers)
            × (self.new.workspace ≡ self.old.workspace)) }
        ensures machine { OnOk result (AreTreesOf self.old.workspace self.new.trees.items) }
        ensures longer { OnOk result (length self.old.trees.items
            ≤ length self.new.trees.items) }
        ensures met { OnOk result ((shapes : List (Shape ℕ)) (s : Shape ℕ) (more : List ℕ) (n : ℕ)
            → AreFirstTrees shapes self.old.trees.items
            → slice_get shapes state ≡ Some s
            → GoesOnTo self.old.workspace shapes s class target
            → MeetsInOrder (length self.old.trees.items) (target ∷ more) n
            → AreFirstTrees shapes self.new.trees.items
            × MeetsInOrder (length self.new.trees.items) more n) }
    {
        if target as usize != self.trees.len() {
            return Ok(());
        }
        let next = self.trees[state].advance_with(&mut self.workspace, class)?;
        if let Some((tree, _update)) = next {
            self.trees.push(tree)?;
        }
        Ok(())
    }

    /// A state goes on: the targets that are new have their trees from it.
    pub(crate) fn meet_all(&mut self, state: usize, go: &Fan) -> Result<(), Memory>
        requires state { state < length self.old.trees.items }
        requires machine { AreTreesOf self.old.workspace self.old.trees.items }
        requires classes { length go.now ≤ 256 }
        ensures kept { OnOk result ((self.new.numbers ≡ self.old.numbers)
            × (self.new.workspace ≡ self.old.workspace)) }
        ensures machine { OnOk result (AreTreesOf self.old.workspace self.new.trees.items) }
        ensures met { OnOk result ((shapes : List (Shape ℕ)) (s : Shape ℕ) (n : ℕ)
            → AreFirstTrees shapes self.old.trees.items
            → slice_get shapes state ≡ Some s → EachGoesOn self.old.workspace shapes s go.now
            → MeetsInOrder (length self.old.trees.items) (targets_of go.now) n
            → AreFirstTrees shapes self.new.trees.items
            × (length self.new.trees.items ≡ n)) }
    {
        for class in 0..go.len() {
            if let Some(transition) = go.at(class as u8) {
                self.meet(state, class as u8, transition.target)?;
            }
        }
        Ok(())
    }
}
