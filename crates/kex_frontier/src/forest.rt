// Trees side by side, as lists of their edges.

ghost use Rattle.std.specs.Prelude.{◌≡◌, ℕ, List, [], ◌∷◌, ◌++◌, Some, None, Option, OnOk, IfOk};
ghost use Rattle.std.specs.Prelude.{IfNone, reverse, get_or, drop, map, option_to_list, false};
ghost use Rattle.kex_code.specs.declared.symbol.Symbol.{Symbol};
ghost use Rattle.kex_model.specs.Labelled.{Grown, tip, with_prefix};
ghost use Rattle.kex_frontier.specs.Edges.{HasCodeTrees, as_is, no_code_trees, last_code_tree};
ghost use Rattle.kex_frontier.specs.Edges.{with_front, with_fork, with_first_tree, IsTipIf};
ghost use Rattle.kex_frontier.specs.Edges.{fork_if, is_there, root_label, bare_edges};
ghost use Rattle.kex_frontier.specs.Edges.{with_label_turned};
ghost use Rattle.kex_frontier.specs.Views.{edge_of, edges_at};

use kex_code::code::Code;
use kex_code::memory::Memory;
use kex_code::symbol::Symbol;
use std::alloc::Global;
use std::marker::Model;
use std::mem;

/// An edge of a tree: its label, and the place that it leads to, if that is a tip.
#[derive(Drop)]
pub struct TreeEdge {
    pub label: Vec<Symbol>,
    pub at: Option<u32>,
}

/// Trees side by side, of which each may be gone: all their edges in postorder, and which of them
/// are there.
#[derive(Drop)]
pub struct CodeForest {
    edges: Vec<TreeEdge>,
    there: Vec<bool>,
}

impl Model for CodeForest {
    ghost use Rattle.std.specs.Prelude.{map, reverse};
    ghost use Rattle.kex_frontier.specs.Edges.{CodeTrees};

    ghost Value = { CodeTrees };

    ghost use Rattle.kex_frontier.specs.Views.{edge_of};

    ghost view = { λ f.
        record { edges = map edge_of f.edges.items; there = reverse f.there.items } };
}

// The longest label whose room is kept.
const ROOM: usize = 64;

/// Labels that aren't used any more: their room is used again.
#[derive(Drop)]
pub struct Spare {
    alloc: Global,
    labels: Vec<Vec<Symbol>>,
}

impl Spare {
    /// No labels.
    pub fn new(alloc: Global) -> Spare {
        Spare {
            alloc,
            labels: Vec::new(alloc),
        }
    }

    /// An empty label.
    pub fn take(&mut self) -> Vec<Symbol>
        ensures { result.items ≡ [] }
    {
        match self.labels.pop() {
            Some(mut label) => {
                label.clear();
                label
            }
            None => Vec::new(self.alloc),
        }
    }

    /// A label that isn't used any more.
    pub fn give(&mut self, label: Vec<Symbol>) {
        if label.capacity() <= ROOM {
            let _ = self.labels.push(label);
        }
    }
}

impl CodeForest {
    /// No trees.
    pub fn new(alloc: Global) -> CodeForest
        ensures { result ≡ no_code_trees }
    {
        CodeForest {
            edges: Vec::new(alloc),
            there: Vec::new(alloc),
        }
    }

    /// Takes all trees away.
    pub fn clear(&mut self)
        ensures { self.new ≡ no_code_trees }
    {
        self.edges.clear();
        self.there.clear();
    }

    // Whether the last tree is there.
    fn is_last_there(&self) -> bool
        ensures { result ≡ get_or self.now.there 0 false }
    {
        self.there.last().copied().unwrap_or(false)
    }

    // The same of a tree that is taken away; its edges stay.
    fn pop_there(&mut self) -> bool
        ensures last { result ≡ get_or self.old.there 0 false }
        ensures others { self.new.there ≡ drop 1 self.old.there }
        ensures same { self.new.edges ≡ self.old.edges }
    {
        self.there.pop().unwrap_or(false)
    }

    fn push_there(&mut self, there: bool) -> Result<(), Memory>
        ensures there { OnOk result (self.new.there ≡ there ∷ self.old.there) }
        ensures same { OnOk result (self.new.edges ≡ self.old.edges) }
    {
        self.there.push(there)?;
        Ok(())
    }

    fn push_edge(&mut self, edge: TreeEdge) -> Result<(), Memory>
        ensures edges { OnOk result (self.new.edges ≡ self.old.edges ++ edge_of edge ∷ []) }
        ensures same { OnOk result (self.new.there ≡ self.old.there) }
    {
        self.edges.push(edge)?;
        Ok(())
    }

    fn pop_edge(&mut self) -> Option<TreeEdge>
        ensures edges { self.old.edges ≡ self.new.edges ++ map edge_of (option_to_list result) }
        ensures none { IfNone result (self.old.edges ≡ []) }
        ensures same { self.new.there ≡ self.old.there }
    {
        self.edges.pop()
    }

    // A fork's edge after its sides, if both of them are there.
    fn add_fork_if(&mut self, both: bool, spare: &mut Spare) -> Result<(), Memory>
        ensures edges { OnOk result (self.new.edges ≡ self.old.edges ++ fork_if both) }
        ensures same { OnOk result (self.new.there ≡ self.old.there) }
    {
        if both {
            let label = spare.take();
            return self.push_edge(TreeEdge { label, at: None });
        }
        Ok(())
    }

    /// A tree that is gone.
    pub fn add_none(&mut self) -> Result<(), Memory>
        ensures { OnOk result ((h : List Symbol → List Symbol) (rs : List (Option (Grown Symbol ℕ)))
            → HasCodeTrees h self.old rs → HasCodeTrees h self.new (None ∷ rs)) }
    {
        self.push_there(false)
    }

    /// A tree of one place.
    pub fn add_tip(&mut self, place: u32, spare: &mut Spare) -> Result<(), Memory>
        ensures { OnOk result ((h : List Symbol → List Symbol) (rs : List (Option (Grown Symbol ℕ)))
            → h [] ≡ [] → HasCodeTrees h self.old rs
            → HasCodeTrees h self.new (Some (record { label = []; tree = tip place }) ∷ rs)) }
    {
        let label = spare.take();
        let at = Some(place);
        self.push_edge(TreeEdge { label, at })?;
        self.push_there(true)
    }

    /// The last two trees as the sides of a fork; of one that is gone no fork is left.
    pub fn merge(&mut self, spare: &mut Spare) -> Result<(), Memory>
        ensures { OnOk result ((h : List Symbol → List Symbol) (rs : List (Option (Grown Symbol ℕ)))
            → h [] ≡ [] → HasCodeTrees h self.old rs → HasCodeTrees h self.new (with_fork rs)) }
    {
        let right = self.pop_there();
        let left = self.pop_there();
        self.add_fork_if(left & right, spare)?;
        self.push_there(left | right)
    }

    /// Of the last two trees, which are tips, the first that is there.
    pub fn choose(&mut self) -> Result<(), Memory>
        ensures { OnOk result ((rs : List (Option (Grown Symbol ℕ))) → IsTipIf (last_code_tree rs)
            → HasCodeTrees as_is self.old rs → HasCodeTrees as_is self.new (with_first_tree rs)) }
    {
        let right = self.pop_there();
        if self.is_last_there() {
            if right {
                let _ = self.pop_edge();
            }
            return Ok(());
        }
        let _ = self.pop_there();
        self.push_there(right)
    }

    /// A symbol in front of the last tree, where labels are turned.
    pub fn put_symbol(&mut self, symbol: Symbol) -> Result<(), Memory>
        ensures { OnOk result ((rs : List (Option (Grown Symbol ℕ)))
            → HasCodeTrees reverse self.old rs
            → HasCodeTrees reverse self.new (with_front (symbol ∷ []) rs)) }
    {
        if self.is_last_there() {
            if let Some(mut edge) = self.pop_edge() {
                edge.label.push(symbol)?;
                self.push_edge(edge)?;
                return Ok(());
            }
        }
        Ok(())
    }

    /// A label in front of the last tree. What is in front of it already is put after the label: of
    /// two labels that a fork has parted the one below is copied, which is as long as the fork has
    /// lived.
    pub fn put_label(&mut self, label: Vec<Symbol>, spare: &mut Spare) -> Result<(), Memory>
        ensures { OnOk result ((rs : List (Option (Grown Symbol ℕ)))
            → HasCodeTrees as_is self.old rs
            → HasCodeTrees as_is self.new (with_front label.items rs)) }
    {
        if self.is_last_there() {
            if let Some(edge) = self.pop_edge() {
                let mut label = label;
                label.extend_from_slice(&edge.label)?;
                spare.give(edge.label);
                self.push_edge(TreeEdge { label, at: edge.at })?;
                return Ok(());
            }
        }
        spare.give(label);
        Ok(())
    }

    /// The only tree of `fresh`, whose labels are turned, becomes the last tree here, with a label
    /// in front.
    pub fn graft(
        &mut self,
        fresh: &mut CodeForest,
        label: Vec<Symbol>,
        spare: &mut Spare,
    ) -> Result<(), Memory>
        ensures { OnOk result ((a : Option (Grown Symbol ℕ)) (rs : List (Option (Grown Symbol ℕ)))
            → HasCodeTrees reverse fresh.old (a ∷ []) → HasCodeTrees as_is self.old rs
            → HasCodeTrees as_is self.new (with_prefix label.items a ∷ rs)) }
    {
        let there = fresh.is_last_there();
        self.move_turned(fresh)?;
        self.push_there(there)?;
        self.put_label(label, spare)
    }

    fn move_turned(&mut self, fresh: &mut CodeForest) -> Result<(), Memory>
        ensures edges { OnOk result (self.new.edges
            ≡ self.old.edges ++ map with_label_turned fresh.old.edges) }
        ensures same { OnOk result (self.new.there ≡ self.old.there) }
    {
        move_turned(&mut fresh.edges, &mut self.edges)
    }

    /// The only tree is moved to `tree`, but for its root's label, which goes to the end of `code`.
    /// Tells whether it is there.
    pub fn settle(&mut self, tree: &mut Vec<TreeEdge>, code: &mut Code) -> Result<bool, Memory>
        ensures there { IfOk result (λ there. (r : Option (Grown Symbol ℕ))
            → HasCodeTrees as_is self.old (r ∷ []) → there ≡ is_there r) }
        ensures code { OnOk result ((r : Option (Grown Symbol ℕ))
            → HasCodeTrees as_is self.old (r ∷ []) → code.new ≡ code.old ++ root_label r) }
        ensures tree { OnOk result ((r : Option (Grown Symbol ℕ))
            → HasCodeTrees as_is self.old (r ∷ []) → edges_at tree.new.items ≡ bare_edges r) }
    {
        tree.clear();
        if self.is_last_there() {
            if let Some(mut edge) = self.pop_edge() {
                code.append(&edge.label)?;
                edge.label.clear();
                self.push_edge(edge)?;
                mem::swap(&mut self.edges, tree);
                return Ok(true);
            }
        }
        Ok(false)
    }
}

// Edges go to the end of others, with their labels turned.
fn move_turned(from: &mut Vec<TreeEdge>, to: &mut Vec<TreeEdge>) -> Result<(), Memory>
    ensures { OnOk result (edges_at to.new.items
        ≡ edges_at to.old.items ++ map with_label_turned (edges_at from.old.items)) }
{
    from.reverse();
    while let Some(mut edge) = from.pop() {
        edge.label.reverse();
        to.push(edge)?;
    }
    Ok(())
}
