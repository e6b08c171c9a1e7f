// Path trees, and how one is made of what a walk leaves.

ghost use Rattle.std.specs.Prelude.{◌≡◌, ℕ, ◌*◌, ◌<◌, ◌≤◌, ◌^◌, ◌↔◌, ◌∷◌, ◌++◌, [], Some};
ghost use Rattle.std.specs.Prelude.{IsTrue, OnOk, IfOk, length, slice_get};
ghost use Rattle.kex_model.specs.Labelled.{Grown, Shape, labels_of, shape_of, size_of};
ghost use Rattle.kex_machine.specs.Nodes.{node_moves};
ghost use Rattle.kex_machine.specs.Advancing.{EachPlace};
ghost use Rattle.kex_sst.specs.declared.parts.Part.{Part};
ghost use Rattle.kex_paths.specs.Forests.{LeadsToTree};
ghost use Rattle.kex_paths.specs.Nexts.{Outline, IsOfShape, IsChange, HasClass};
ghost use Rattle.kex_paths.specs.Alikes.{LeadAlikeFrom, GoesOnAlike};
ghost use Rattle.kex_paths.specs.Spellings.{IsTreeSound, key_of, token_number, is_inner, tip_in};
ghost use Rattle.kex_paths.specs.Spellings.{edges_from};
ghost use Rattle.kex_paths.specs.Tasks.{tokens_from, IsTipBelow};
ghost use Rattle.kex_paths.specs.Updates.{AreLabels};

use crate::forest::{PathEdge, PathEdges, TreeNode};
use crate::updates::{MetUpdates, update_of};
use crate::walk::{TreeToken, leads_alike};
use crate::workspace::Workspace;
use kex_code::memory::Memory;
use kex_machine::Trimmed;
use kex_sst::parts::Update;
use kex_sst::shared::SharedUpdate;
use std::alloc::Global;
use std::marker::Model;

/// The tree of the survivors of a text, with the codes left out: a path tree of the Kleenex paper
/// (POPL 2016).
#[derive(Drop)]
pub struct PathTree<'m> {
    machine: &'m Trimmed,
    shape: Vec<bool>,
    leaves: Vec<u32>,
}

impl<'m> Model for PathTree<'m> {
    ghost use Rattle.kex_paths.specs.Nexts.{Outline};
    ghost use Rattle.kex_paths.specs.Spellings.{IsTreeSound};

    ghost Value = { Outline };

    ghost view = { λ t.
        record { machine = t.machine.now; shape = t.shape.items; leaves = t.leaves.items } };

    ghost invariant = { λ t. IsTreeSound t.machine.now t.shape.items t.leaves.items };
}

impl<'m> PathTree<'m> {
    /// Whether each node is an inner one, in preorder.
    pub fn shape(&self) -> &[bool]
        ensures same { result.now ≡ self.now.shape }
        ensures tree { (s : Shape ℕ) × IsOfShape self.now s }
        ensures sound { IsTreeSound self.now.machine self.now.shape self.now.leaves }
    {
        &self.shape
    }

    pub(crate) fn machine(&self) -> &'m Trimmed
        ensures { result.now ≡ self.now.machine }
    {
        self.machine
    }

    /// The places of the leaves, in order.
    pub fn leaves(&self) -> &[u32]
        ensures { result.now ≡ self.now.leaves }
    {
        &self.leaves
    }

    /// Whether the tree goes on alike with two classes: their bytes lead to the same places from
    /// each of its leaves. Not where one of them has no byte.
    pub fn goes_on_alike(&self, workspace: &Workspace<'m>, class: u8, other: u8) -> bool
        requires { workspace.now ≡ self.now.machine }
        ensures alike { (b c : ℕ) → HasClass self.now.machine class b
            → HasClass self.now.machine other c → IsTrue result
            ↔ LeadAlikeFrom (node_moves self.now.machine.nodes) b c self.now.leaves }
        ensures next { IsTrue result → GoesOnAlike self.now class other }
    {
        let Some(byte) = workspace.sample(class) else {
            return false;
        };
        let Some(twin) = workspace.sample(other) else {
            return false;
        };
        let nodes = self.machine.nodes();
        for place in &self.leaves {
            if !leads_alike(nodes, *place, byte, twin) {
                return false;
            }
        }
        true
    }

    /// Numbers that are equal for two trees of a machine exactly if their shapes are.
    pub fn key(&self, alloc: Global) -> Result<Vec<u32>, Memory>
        ensures key { IfOk result (λ key. (s : Shape ℕ) → IsOfShape self.now s
            → key.items ≡ key_of s) }
        ensures equal { IfOk result (λ key. (s : Shape ℕ) (t : Shape ℕ) → IsOfShape self.now s
            → (key.items ≡ key_of t) ↔ (s ≡ t)) }
    {
        let mut tokens = Vec::with_capacity(alloc, self.shape.len())?;
        read_tokens(&self.shape, &self.leaves, &mut tokens)?;
        let mut key = Vec::with_capacity(alloc, tokens.len())?;
        for token in &tokens {
            key.push(number_of(*token))?;
        }
        Ok(key)
    }
}

// A node of a tree as a number.
fn number_of(token: TreeToken) -> u32
    requires { IsTipBelow 4294967295 token }
    ensures { result ≡ token_number token }
{
    match token {
        TreeToken::Fork => 0,
        TreeToken::Tip(place) => place + 1,
    }
}

/// The nodes of a tree, in preorder.
pub fn read_tokens(
    shape: &[bool],
    leaves: &[u32],
    tokens: &mut Vec<TreeToken>,
) -> Result<(), Memory>
    ensures { OnOk result (tokens.new.items ≡ tokens_from shape.now leaves.now) }
{
    tokens.clear();
    let mut leaf: usize = 0;
    for inner in shape {
        if *inner {
            tokens.push(TreeToken::Fork)?;
        } else if leaf < leaves.len() {
            tokens.push(TreeToken::Tip(leaves[leaf]))?;
            leaf += 1;
        }
    }
    Ok(())
}

// A node is spelled; the edges that go from it are to be followed, the left one first.
fn add_node(
    node: TreeNode,
    shape: &mut Vec<bool>,
    leaves: &mut Vec<u32>,
    pending: &mut Vec<usize>,
) -> Result<(), Memory>
    ensures shape { OnOk result (shape.new.items ≡ shape.old.items ++ is_inner node ∷ []) }
    ensures leaves { OnOk result (leaves.new.items ≡ leaves.old.items ++ tip_in node) }
    ensures pending { OnOk result (pending.new.items ≡ pending.old.items ++ edges_from node) }
{
    match node {
        TreeNode::Tip(place) => {
            shape.push(false)?;
            leaves.push(place)?;
            Ok(())
        }
        TreeNode::Fork(left, right) => {
            shape.push(true)?;
            pending.push(right)?;
            pending.push(left)?;
            Ok(())
        }
    }
}

// The edge of a number.
fn edge_at(edges: &[PathEdge], number: usize) -> &PathEdge
    requires { number < length edges.now }
    ensures { slice_get edges.now number ≡ Some result.now }
{
    edges.get(number).unwrap()
}

/// The tree that an edge leads to, and the labels of the edges below it, in preorder.
pub fn spell<'m>(
    alloc: Global,
    machine: &'m Trimmed,
    root: &PathEdge,
    edges: &PathEdges,
) -> Result<(PathTree<'m>, Vec<usize>), Memory>
    requires few { 2 * length machine.now.nodes ≤ 2 ^ 32 }
    requires fits { (a : Grown Part ℕ) × LeadsToTree edges.now (Some root.now) (Some a)
        × EachPlace (length machine.now.nodes) (shape_of a.tree)
        × (size_of (shape_of a.tree) < 2 * length machine.now.nodes) }
    ensures machine { IfOk result (λ r. r.0.machine ≡ machine.now) }
    ensures tree { IfOk result (λ r. (a : Grown Part ℕ) → LeadsToTree edges.now (Some root.now)
        (Some a) → IsOfShape r.0 (shape_of a.tree)
        × AreLabels edges.now.cells r.1.items (labels_of a.tree)) }
{
    let below = edges.all();
    let mut shape = Vec::with_capacity(alloc, below.len() + 1)?;
    let mut leaves = Vec::with_capacity(alloc, below.len() / 2 + 1)?;
    let mut labels = Vec::with_capacity(alloc, below.len())?;
    let mut pending = Vec::new(alloc);
    add_node(root.node, &mut shape, &mut leaves, &mut pending)?;
    while let Some(number) = pending.pop() {
        let edge = edge_at(below, number);
        labels.push(edge.label)?;
        add_node(edge.node, &mut shape, &mut leaves, &mut pending)?;
    }
    let tree = PathTree {
        machine,
        shape,
        leaves,
    };
    Ok((tree, labels))
}

/// The tree that an edge leads to, with the update that its label and those of the edges below it
/// are.
pub fn gather<'m>(
    alloc: Global,
    machine: &'m Trimmed,
    root: &PathEdge,
    edges: &PathEdges,
) -> Result<(PathTree<'m>, Update), Memory>
    requires few { 2 * length machine.now.nodes ≤ 2 ^ 32 }
    requires fits { (a : Grown Part ℕ) × LeadsToTree edges.now (Some root.now) (Some a)
        × EachPlace (length machine.now.nodes) (shape_of a.tree)
        × (size_of (shape_of a.tree) < 2 * length machine.now.nodes) }
    ensures machine { IfOk result (λ r. r.0.machine ≡ machine.now) }
    ensures tree { IfOk result (λ r. (a : Grown Part ℕ) → LeadsToTree edges.now (Some root.now)
        (Some a) → IsOfShape r.0 (shape_of a.tree) × IsChange r.1 a) }
{
    let (tree, labels) = spell(alloc, machine, root, edges)?;
    let update = update_of(alloc, edges, root.label, &labels)?;
    Ok((tree, update))
}

/// The same, with an update that was met before, if there is one.
pub fn gather_shared<'m>(
    alloc: Global,
    machine: &'m Trimmed,
    root: &PathEdge,
    edges: &PathEdges,
    updates: &mut MetUpdates,
) -> Result<(PathTree<'m>, SharedUpdate), Memory>
    requires few { 2 * length machine.now.nodes ≤ 2 ^ 32 }
    requires fits { (a : Grown Part ℕ) × LeadsToTree edges.now (Some root.now) (Some a)
        × EachPlace (length machine.now.nodes) (shape_of a.tree)
        × (size_of (shape_of a.tree) < 2 * length machine.now.nodes) }
    ensures machine { IfOk result (λ r. r.0.machine ≡ machine.now) }
    ensures tree { IfOk result (λ r. (a : Grown Part ℕ) → LeadsToTree edges.now (Some root.now)
        (Some a) → IsOfShape r.0 (shape_of a.tree) × IsChange r.1 a) }
{
    let (tree, labels) = spell(alloc, machine, root, edges)?;
    let update = updates.share(edges, root.label, &labels)?;
    Ok((tree, update))
}
