// The states that were met, by number.

ghost use Rattle.std.specs.Prelude.{◌≡◌, ℕ, ◌<◌, ◌≤◌, List, [], Some, Option, OnOk, IfOk, IfErr};
ghost use Rattle.std.specs.Prelude.{length, slice_get};
ghost use Rattle.kex_model.specs.Labelled.{Shape};
ghost use Rattle.kex_machine.specs.Nodes.{Graph};
ghost use Rattle.kex_determine.specs.Numbering.{texts, IsAdded, AreNumbered, IsMet, IsWith};
ghost use Rattle.kex_determine.specs.Numbering.{Refuses, HasMoreFound, IsMetIf, IsFollowed};

use crate::refusal::DetRefusal;
use indexmap::IndexSet;
use kex_code::memory::Memory;
use kex_paths::tree::PathTree;
use kex_sst::shared::SharedUpdate;
use kex_sst::table::Transition;
use std::alloc::Global;

/// The path trees of the states that were met, and their keys, by number; and how many there may
/// be.
#[derive(Drop)]
pub struct States<'m> {
    pub keys: IndexSet<Vec<u32>>,
    pub trees: Vec<PathTree<'m>>,
    pub most: u32,
}

// The number of a key: its own, or the next.
fn number(keys: &mut IndexSet<Vec<u32>>, key: Vec<u32>) -> Result<usize, Memory>
    ensures added { OnOk result (IsAdded (texts keys.old.keys) key.items (texts keys.new.keys)) }
    ensures at { IfOk result (λ i. slice_get (texts keys.new.keys) i ≡ Some key.items) }
{
    let (index, _) = keys.insert_full(key)?;
    Ok(index)
}

impl<'m> States<'m> {
    /// No states.
    pub fn new(alloc: Global, most: u32) -> States<'m>
        ensures keys { result.keys.keys ≡ [] }
        ensures trees { result.trees.items ≡ [] }
        ensures most { result.most ≡ most }
    {
        States {
            keys: IndexSet::new(alloc),
            trees: Vec::new(alloc),
            most,
        }
    }

    /// The trees, by the numbers of their states.
    pub fn into_trees(self) -> Vec<PathTree<'m>>
        ensures { result ≡ self.entry.trees }
    {
        self.trees
    }

    /// The number of a tree's shape: its own, or the next if it wasn't met before.
    pub fn enter(&mut self, alloc: Global, tree: PathTree<'m>) -> Result<u32, DetRefusal>
        requires few { self.old.most < 4294967295 }
        requires room { length self.old.trees.items ≤ self.old.most }
        ensures ok { IfOk result (λ i. (g : Graph) (xs : List (Shape ℕ)) (s : Shape ℕ)
            → AreNumbered g self.old.keys.keys self.old.trees.items xs → IsMet g tree.entry s
            → (ys : List (Shape ℕ)) × IsWith g self.new.keys.keys self.new.trees.items xs s i ys) }
        ensures most { self.new.most ≡ self.old.most }
        ensures within { OnOk result (length self.new.trees.items ≤ self.old.most) }
        ensures err { IfErr result (Refuses self.old.most ((g : Graph) (xs : List (Shape ℕ))
            (s : Shape ℕ) → AreNumbered g self.old.keys.keys self.old.trees.items xs
            → IsMet g tree.entry s → HasMoreFound g self.old.most)) }
    {
        let key = tree.key(alloc)?;
        let index = number(&mut self.keys, key)?;
        let count = self.trees.len();
        if index < count {
            return Ok(index as u32);
        }
        if count >= self.most as usize {
            return Err(DetRefusal::TooManyStates {
                seen: self.most + 1,
            });
        }
        self.trees.push(tree)?;
        Ok(count as u32)
    }

    /// The transition to a tree, if there is one, whose shape then has a number.
    pub fn follow(
        &mut self,
        alloc: Global,
        next: Option<(PathTree<'m>, SharedUpdate)>,
    ) -> Result<Option<Transition>, DetRefusal>
        requires few { self.old.most < 4294967295 }
        requires room { length self.old.trees.items ≤ self.old.most }
        ensures ok { IfOk result (λ r. (g : Graph) (xs : List (Shape ℕ))
            → AreNumbered g self.old.keys.keys self.old.trees.items xs → IsMetIf g next.entry
            → (ys : List (Shape ℕ))
            × IsFollowed g self.new.keys.keys self.new.trees.items xs next.entry ys r) }
        ensures most { self.new.most ≡ self.old.most }
        ensures within { OnOk result (length self.new.trees.items ≤ self.old.most) }
        ensures err { IfErr result (Refuses self.old.most ((g : Graph) (xs : List (Shape ℕ))
            → AreNumbered g self.old.keys.keys self.old.trees.items xs → IsMetIf g next.entry
            → HasMoreFound g self.old.most)) }
    {
        match next {
            None => Ok(None),
            Some((tree, update)) => {
                let target = self.enter(alloc, tree)?;
                Ok(Some(Transition { target, update }))
            }
        }
    }
}
