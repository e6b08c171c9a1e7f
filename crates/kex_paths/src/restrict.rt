// What is left of a path tree and its update where some of the leaves are kept.

ghost use Rattle.std.specs.Prelude.{◌≡◌, ℕ, ◌+◌, ◌<◌, ◌∷◌, [], List, Some, Option, OnOk, IfOk};
ghost use Rattle.std.specs.Prelude.{IfSome};
ghost use Rattle.std.specs.Prelude.{get_or, false, length, replicate, slice_get};
ghost use Rattle.kex_model.specs.Labelled.{Grown, shape_of, with_prefix};
ghost use Rattle.kex_machine.specs.Covering.{restrict_if};
ghost use Rattle.kex_sst.specs.declared.parts.Part.{Part};
ghost use Rattle.kex_paths.specs.Forests.{HasTrees, no_trees};
ghost use Rattle.kex_paths.specs.KeptLeaves.{IsRestricted, IsRestrictedTree, node_left};
ghost use Rattle.kex_paths.specs.KeptLeaves.{trees_beside};
ghost use Rattle.kex_paths.specs.Nexts.{IsChange, IsOfShape};
ghost use Rattle.kex_paths.specs.Tasks.{EachTip, IsTipBelow, tokens as tokens_of};

use crate::forest::Forest;
use crate::tree::{PathTree, gather, read_tokens};
use crate::walk::TreeToken;
use kex_code::memory::Memory;
use kex_machine::marks::Marks;
use kex_sst::parts::{Part, Parts, Update};
use std::alloc::Global;

// A leaf that is kept, or a fork of the last two trees, of which the last is the left one.
fn put_node(token: TreeToken, keep: &Marks, forest: &mut Forest) -> Result<(), Memory>
    requires { IsTipBelow (length keep.now) token }
    ensures { OnOk result ((rs : List (Option (Grown Part ℕ))) → HasTrees forest.old rs
        → HasTrees forest.new
        (node_left (λ p. get_or keep.now p false) token rs ∷ trees_beside token rs)) }
{
    match token {
        TreeToken::Fork => forest.merge_turned(),
        TreeToken::Tip(place) => {
            if keep.is_marked(place) {
                return forest.add_tip(place);
            }
            forest.add_none()
        }
    }
}

// A label in front of the last tree.
fn put_label(label: &[Part], forest: &mut Forest) -> Result<(), Memory>
    ensures { OnOk result ((t : Option (Grown Part ℕ)) (rs : List (Option (Grown Part ℕ)))
        → HasTrees forest.old (t ∷ rs) → HasTrees forest.new (with_prefix label.now t ∷ rs)) }
{
    let mut left = label.len();
    while left > 0 {
        left -= 1;
        forest.put_front(label[left])?;
    }
    Ok(())
}

// The label of the edge to a node, by its number in preorder: before the root comes what is passed
// on.
fn label_at(update: &Update, node: usize) -> &[Part]
    requires { node < length update.now.regs + 1 }
    ensures { slice_get (update.now.out ∷ update.now.regs) node ≡ Some result.now }
{
    if node == 0 {
        return update.out().as_slice();
    }
    update.regs()[node - 1].as_slice()
}

// What is left of a tree, node by node from the last, each with the label of the edge to it.
fn put_tree(
    tokens: &[TreeToken],
    update: &Update,
    keep: &Marks,
    forest: &mut Forest,
) -> Result<(), Memory>
    requires tips { EachTip (length keep.now) tokens.now }
    requires labels { length tokens.now ≡ length update.now.regs + 1 }
    requires none { forest.old ≡ no_trees }
    ensures { OnOk result ((a : Grown Part ℕ) → tokens.now ≡ tokens_of (shape_of a.tree)
        → IsChange update.now a
        → HasTrees forest.new (restrict_if (λ p. get_or keep.now p false) (Some a) ∷ [])) }
{
    let mut left = tokens.len();
    while left > 0 {
        left -= 1;
        put_node(tokens[left], keep, forest)?;
        put_label(label_at(update, left), forest)?;
    }
    Ok(())
}

// `count` labels, each empty, and an empty one to pass on.
fn blank(alloc: Global, count: usize) -> Result<Update, Memory>
    ensures { IfOk result (λ u. u ≡ record { out = []; regs = replicate count [] }) }
{
    let mut regs = Vec::with_capacity(alloc, count)?;
    for _ in 0..count {
        regs.push(Parts::new(alloc))?;
    }
    Ok(Update::new(Parts::new(alloc), regs))
}

impl<'m> PathTree<'m> {
    /// The tree of the leaves whose places are marked, and what is left of an update with them:
    /// where one side of a fork is gone, the labels of two edges are joined. None where no leaf is
    /// kept.
    pub fn restricted(
        &self,
        alloc: Global,
        update: &Update,
        keep: &Marks,
    ) -> Result<Option<(PathTree<'m>, Update)>, Memory>
        requires tree { (a : Grown Part ℕ) × IsOfShape self.now (shape_of a.tree)
            × IsChange update.now a }
        requires long { length keep.now ≡ length self.now.machine.nodes }
        ensures machine { IfOk result (λ r. IfSome r (λ n. n.0.machine ≡ self.now.machine)) }
        ensures left { IfOk result (λ r.
            IsRestricted (λ p. get_or keep.now p false) self.now update.now r) }
    {
        let machine = self.machine();
        let shape = self.shape();
        let mut tokens = Vec::with_capacity(alloc, shape.len())?;
        read_tokens(shape, self.leaves(), &mut tokens)?;
        let mut forest = Forest::new(alloc);
        put_tree(&tokens, update, keep, &mut forest)?;
        let Some(root) = forest.pop_root() else {
            return Ok(None);
        };
        let next = gather(alloc, machine, &root, forest.edges())?;
        Ok(Some(next))
    }

    /// The tree of the leaves whose places are marked, without an update; none where no leaf is
    /// kept.
    pub fn left(&self, alloc: Global, keep: &Marks) -> Result<Option<PathTree<'m>>, Memory>
        requires { length keep.now ≡ length self.now.machine.nodes }
        ensures machine { IfOk result (λ r. IfSome r (λ t. t.machine ≡ self.now.machine)) }
        ensures left { IfOk result (λ r.
            IsRestrictedTree (λ p. get_or keep.now p false) self.now r) }
    {
        let update = blank(alloc, self.shape().len() - 1)?;
        let next = self.restricted(alloc, &update, keep)?;
        let Some((tree, _update)) = next else {
            return Ok(None);
        };
        Ok(Some(tree))
    }
}
