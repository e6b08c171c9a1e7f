// The states to which lines lead, and their trees.

ghost use Rattle.std.specs.Prelude.{◌≡◌, ℕ, [], IfNone, IfOk, IfSome, List, true, false};
ghost use Rattle.kex_model.specs.Labelled.{Shape};
ghost use Rattle.kex_machine.specs.Nodes.{Graph};
ghost use Rattle.kex_paths.specs.Nexts.{IsOfShape};
ghost use Rattle.kex_code.specs.Codes.{IsAmong};
ghost use Rattle.kex_tabfile.specs.Walks.{MeetsTarget, Target};
ghost use Rattle.kex_tabfile.specs.Checking.{AreTargets};

use indexmap::IndexMap;
use kex_code::memory::Memory;
use kex_paths::tree::PathTree;
use std::alloc::Global;
use std::marker::Model;

/// The states that lines lead to, each with the tree that the first of these lines gives it.
#[derive(Drop)]
pub(crate) struct Targets<'m> {
    trees: IndexMap<u32, PathTree<'m>>,
}

impl<'m> Model for Targets<'m> {
    ghost use Rattle.std.specs.Prelude.{ℕ, List};
    ghost use Rattle.kex_paths.specs.Nexts.{Outline};

    ghost Value = { List (ℕ × Outline) };

    ghost view = { λ t. t.trees.entries };
}

// Whether two trees of a machine have one shape.
fn are_same_trees(left: &PathTree, right: &PathTree) -> bool
    ensures same { result ≡ true → (left.now.shape ≡ right.now.shape)
        × (left.now.leaves ≡ right.now.leaves) }
    ensures other { result ≡ false → left.now.shape ≡ right.now.shape
        → left.now.leaves ≡ right.now.leaves → ⊥ }
{
    left.shape() == right.shape() && left.leaves() == right.leaves()
}

impl<'m> Targets<'m> {
    /// No line leads to a state.
    pub(crate) fn new(alloc: Global) -> Targets<'m>
        ensures { result ≡ [] }
    {
        Targets {
            trees: IndexMap::new(alloc),
        }
    }

    /// The tree of a state, if a line leads to it.
    pub(crate) fn tree(&self, state: u32) -> Option<&PathTree<'m>>
        ensures some { IfSome result (λ tree. (g : Graph) (targets : List Target)
            → AreTargets g self.now targets → (s : Shape ℕ) × (tree.now.machine ≡ g)
            × IsOfShape tree.now s × IsAmong targets (record { state = state; tree = s })) }
        ensures none { IfNone result ((g : Graph) (targets : List Target) (s : Shape ℕ)
            → AreTargets g self.now targets
            → IsAmong targets (record { state = state; tree = s }) → ⊥) }
    {
        self.trees.get(&state)
    }

    /// A line leads to a state and gives it this tree. It says no where the state has another tree.
    pub(crate) fn meet(&mut self, state: u32, tree: PathTree<'m>) -> Result<bool, Memory>
        ensures yes { IfOk result (λ yes. yes ≡ true → (g : Graph) (targets : List Target)
            (s : Shape ℕ) → AreTargets g self.old targets → tree.entry.machine ≡ g
            → IsOfShape tree.entry s → (after : List Target) × AreTargets g self.new after
            × MeetsTarget targets (record { state = state; tree = s }) after) }
        ensures no { IfOk result (λ yes. yes ≡ false → (g : Graph) (targets after : List Target)
            (s : Shape ℕ) → AreTargets g self.old targets → tree.entry.machine ≡ g
            → IsOfShape tree.entry s
            → MeetsTarget targets (record { state = state; tree = s }) after → ⊥) }
    {
        match self.trees.get(&state) {
            Some(known) => Ok(are_same_trees(known, &tree)),
            None => {
                self.trees.insert(state, tree)?;
                Ok(true)
            }
        }
    }
}
