// Trees side by side, of which each may be gone, with parts of an update for labels.

ghost use Rattle.std.specs.Prelude.{◌≡◌, ℕ, suc, List, [], ◌∷◌, ◌++◌, Some, Option, OnOk, IfOk};
ghost use Rattle.std.specs.Prelude.{length, true};
ghost use Rattle.kex_model.specs.Labelled.{Grown, tip, with_prefix, fork_of};
ghost use Rattle.kex_sst.specs.declared.parts.Part.{Part};
ghost use Rattle.kex_paths.specs.Forests.{HasTrees, IsLabel, LeadsToTree, last_tree, trees_before};
ghost use Rattle.kex_paths.specs.Forests.{no_edges, no_trees};

use kex_code::memory::Memory;
use kex_sst::parts::{Part, Parts, are_same, hash_parts};
use std::alloc::Global;
use std::hash::{FoldHasher, Hasher};
use std::marker::Model;

/// What an edge leads to: a place, or a fork, by the numbers of its left and its right edge.
#[derive(Clone, Copy, Debug, PartialEq, Eq)]
pub enum TreeNode {
    Tip(u32),
    Fork(usize, usize),
}

/// An edge: its label, by number, and what it leads to.
#[derive(Clone, Copy, Debug, PartialEq, Eq)]
pub struct PathEdge {
    pub label: usize,
    pub node: TreeNode,
}

/// A part of a label, and the number of the label after it.
#[derive(Clone, Copy, Debug, PartialEq, Eq)]
pub struct LabelCell {
    pub part: Part,
    pub rest: usize,
}

/// Edges by number, and the labels of edges: label 0 is empty, and each other is a cell, so that a
/// part is put in front of a label without a copy.
#[derive(Drop)]
pub struct PathEdges {
    all: Vec<PathEdge>,
    cells: Vec<LabelCell>,
}

impl Model for PathEdges {
    ghost use Rattle.kex_paths.specs.Forests.{EdgeStock};

    ghost Value = { EdgeStock };

    ghost view = { λ e. record { all = e.all.items; cells = e.cells.items } };
}

impl PathEdges {
    // No edges.
    fn new(alloc: Global) -> PathEdges
        ensures { result ≡ no_edges }
    {
        PathEdges {
            all: Vec::new(alloc),
            cells: Vec::new(alloc),
        }
    }

    // Takes all edges away.
    fn clear(&mut self)
        ensures { self.new ≡ no_edges }
    {
        self.all.clear();
        self.cells.clear();
    }

    /// The edges, by their numbers.
    pub fn all(&self) -> &[PathEdge]
        ensures { result.now ≡ self.now.all }
    {
        &self.all
    }

    // One edge more, and its number.
    fn add(&mut self, edge: PathEdge) -> Result<usize, Memory>
        ensures edge { OnOk result (self.new.all ≡ self.old.all ++ edge ∷ []) }
        ensures number { IfOk result (λ n. n ≡ length self.old.all) }
        ensures cells { self.new.cells ≡ self.old.cells }
    {
        let number = self.all.len();
        self.all.push(edge)?;
        Ok(number)
    }

    // The number of the label with a part in front of that of a number.
    fn put(&mut self, part: Part, rest: usize) -> Result<usize, Memory>
        ensures cell { OnOk result
            (self.new.cells ≡ self.old.cells ++ record { part = part; rest = rest } ∷ []) }
        ensures number { IfOk result (λ n. n ≡ suc (length self.old.cells)) }
        ensures edges { self.new.all ≡ self.old.all }
    {
        self.cells.push(LabelCell { part, rest })?;
        Ok(self.cells.len())
    }

    /// The parts of the label of a number.
    pub fn parts(&self, alloc: Global, label: usize) -> Result<Parts, Memory>
        requires { (xs : List Part) × IsLabel self.now.cells label xs }
        ensures { IfOk result (λ parts. (xs : List Part) → IsLabel self.now.cells label xs
            → parts ≡ xs) }
    {
        let mut parts = Parts::new(alloc);
        let mut left = label;
        while left > 0 {
            let cell = self.cells[left - 1];
            parts.push(cell.part)?;
            left = cell.rest;
        }
        Ok(parts)
    }

    /// Whether the label of a number has these parts.
    pub fn has_parts(&self, label: usize, parts: &[Part]) -> bool
        requires { (xs : List Part) × IsLabel self.now.cells label xs }
        ensures { result ≡ true → (xs : List Part) → IsLabel self.now.cells label xs
            → parts.now ≡ xs }
    {
        let mut left = label;
        for part in parts {
            if left == 0 {
                return false;
            }
            let cell = self.cells[left - 1];
            if !are_same(&[cell.part], &[*part]) {
                return false;
            }
            left = cell.rest;
        }
        left == 0
    }

    /// Hashes the label of a number, with a mark at its end.
    pub fn hash_label(&self, label: usize, hasher: &mut FoldHasher)
        requires { (xs : List Part) × IsLabel self.now.cells label xs }
    {
        let mut left = label;
        while left > 0 {
            let cell = self.cells[left - 1];
            hash_parts(&[cell.part], hasher);
            left = cell.rest;
        }
        hasher.write_u8(0);
    }
}

/// Trees side by side, each with an edge to its root; the edges below the roots are stored by
/// number.
#[derive(Drop)]
pub struct Forest {
    edges: PathEdges,
    roots: Vec<Option<PathEdge>>,
}

impl Model for Forest {
    ghost use Rattle.std.specs.Prelude.{reverse};
    ghost use Rattle.kex_paths.specs.Forests.{Trees};

    ghost Value = { Trees };

    ghost view = { λ g. record { edges = g.edges; roots = reverse g.roots.items } };
}

impl Forest {
    /// No trees.
    pub fn new(alloc: Global) -> Forest
        ensures { result ≡ no_trees }
    {
        Forest {
            edges: PathEdges::new(alloc),
            roots: Vec::new(alloc),
        }
    }

    /// Takes all trees away.
    pub fn clear(&mut self)
        ensures { self.new ≡ no_trees }
    {
        self.edges.clear();
        self.roots.clear();
    }

    /// The edges below the roots.
    pub fn edges(&self) -> &PathEdges
        ensures { result.now ≡ self.now.edges }
    {
        &self.edges
    }

    fn push_root(&mut self, root: Option<PathEdge>) -> Result<(), Memory>
        ensures { OnOk result ((t : Option (Grown Part ℕ)) (rs : List (Option (Grown Part ℕ)))
            → LeadsToTree self.old.edges root t → HasTrees self.old rs
            → HasTrees self.new (t ∷ rs)) }
    {
        self.roots.push(root)?;
        Ok(())
    }

    /// Takes the last tree away; the edges below its root stay.
    pub fn pop_root(&mut self) -> Option<PathEdge>
        ensures trees { (rs : List (Option (Grown Part ℕ))) → HasTrees self.old rs
            → LeadsToTree self.new.edges result (last_tree rs)
            × HasTrees self.new (trees_before rs) }
        ensures edges { self.new.edges ≡ self.old.edges }
    {
        match self.roots.pop() {
            Some(root) => root,
            None => None,
        }
    }

    /// A tree that is gone.
    pub fn add_none(&mut self) -> Result<(), Memory>
        ensures { OnOk result ((rs : List (Option (Grown Part ℕ))) → HasTrees self.old rs
            → HasTrees self.new (None ∷ rs)) }
    {
        self.push_root(None)
    }

    /// A tree of one place.
    pub fn add_tip(&mut self, place: u32) -> Result<(), Memory>
        ensures { OnOk result ((rs : List (Option (Grown Part ℕ))) → HasTrees self.old rs
            → HasTrees self.new (Some (record { label = []; tree = tip place }) ∷ rs)) }
    {
        let node = TreeNode::Tip(place);
        self.push_root(Some(PathEdge { label: 0, node }))
    }

    // A fork of two trees, as the last tree.
    fn add_fork(&mut self, left: PathEdge, right: PathEdge) -> Result<(), Memory>
        ensures { OnOk result ((a : Grown Part ℕ) (b : Grown Part ℕ)
            (rs : List (Option (Grown Part ℕ))) → LeadsToTree self.old.edges (Some left) (Some a)
            → LeadsToTree self.old.edges (Some right) (Some b) → HasTrees self.old rs
            → HasTrees self.new (fork_of (Some a) (Some b) ∷ rs)) }
    {
        let left_number = self.edges.add(left)?;
        let right_number = self.edges.add(right)?;
        let node = TreeNode::Fork(left_number, right_number);
        self.push_root(Some(PathEdge { label: 0, node }))
    }

    // Two trees as the sides of a fork, as the last tree; of one that is gone no fork is left.
    fn join(&mut self, left: Option<PathEdge>, right: Option<PathEdge>) -> Result<(), Memory>
        ensures { OnOk result ((a : Option (Grown Part ℕ)) (b : Option (Grown Part ℕ))
            (rs : List (Option (Grown Part ℕ))) → LeadsToTree self.old.edges left a
            → LeadsToTree self.old.edges right b → HasTrees self.old rs
            → HasTrees self.new (fork_of a b ∷ rs)) }
    {
        match (left, right) {
            (None, right) => self.push_root(right),
            (Some(left), None) => self.push_root(Some(left)),
            (Some(left), Some(right)) => self.add_fork(left, right),
        }
    }

    /// The last two trees as the sides of a fork; of one that is gone no fork is left.
    pub fn merge(&mut self) -> Result<(), Memory>
        ensures { OnOk result ((rs : List (Option (Grown Part ℕ))) → HasTrees self.old rs
            → HasTrees self.new (fork_of (last_tree (trees_before rs)) (last_tree rs)
            ∷ trees_before (trees_before rs))) }
    {
        let right = self.pop_root();
        let left = self.pop_root();
        self.join(left, right)
    }

    /// The last two trees as the sides of a fork, of which the last is the left one; of one that is
    /// gone no fork is left.
    pub fn merge_turned(&mut self) -> Result<(), Memory>
        ensures { OnOk result ((rs : List (Option (Grown Part ℕ))) → HasTrees self.old rs
            → HasTrees self.new (fork_of (last_tree rs) (last_tree (trees_before rs))
            ∷ trees_before (trees_before rs))) }
    {
        let left = self.pop_root();
        let right = self.pop_root();
        self.join(left, right)
    }

    /// A part in front of the last tree.
    pub fn put_front(&mut self, part: Part) -> Result<(), Memory>
        ensures { OnOk result ((rs : List (Option (Grown Part ℕ))) → HasTrees self.old rs
            → HasTrees self.new (with_prefix (part ∷ []) (last_tree rs) ∷ trees_before rs)) }
    {
        let count = self.roots.len();
        if count == 0 {
            return self.push_root(None);
        }
        if let Some(root) = &mut self.roots[count - 1] {
            root.label = self.edges.put(part, root.label)?;
        }
        Ok(())
    }
}
