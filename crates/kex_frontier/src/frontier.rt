// The oracle of a stage.

ghost use Rattle.std.specs.Prelude.{◌≡◌, ℕ, ◌++◌, ◌∷◌, [], List, IfOk, OnOk, IsTrue, IsOk};
ghost use Rattle.std.specs.Prelude.{true, false, length, ◌↔◌};
ghost use Rattle.kex_code.specs.declared.symbol.Symbol.{Symbol};
ghost use Rattle.kex_model.specs.Labelled.{Labelled};
ghost use Rattle.kex_machine.specs.Nodes.{node_moves, StaysWithin};
ghost use Rattle.kex_frontier.specs.Edges.{edges_of, IsTreeBelow};
ghost use Rattle.kex_frontier.specs.Views.{edges_at};
ghost use Rattle.kex_frontier.specs.Going.{TreeWentOn};
ghost use Rattle.kex_machine.specs.Answers.{IsSaid};
ghost use Rattle.kex_frontier.specs.Frontiers.{IsFed, IsFedBy, IsOver, answer_of, end_answer};

use crate::forest::{CodeForest, TreeEdge};
use crate::grow::{accept, advance};
use crate::visit::{VisitTools, walk};
use kex_code::code::Code;
use kex_code::memory::Memory;
use kex_machine::{MNode, Trimmed};
use std::alloc::Global;
use std::marker::Model;
use std::mem;

/// What a byte leaves: a text that can go on to a parse, or none.
#[derive(Clone, Copy, Debug, PartialEq, Eq)]
pub enum Fed {
    On,
    Dead,
}

/// What the end shows: that the bytes have a parse, or that they have none.
#[derive(Clone, Copy, Debug, PartialEq, Eq)]
pub enum Ended {
    Parsed,
    Cut,
}

/// The oracle of a stage's machine: the tree of the survivors of what it was fed, and what they
/// agree on.
#[derive(Drop)]
pub struct Frontier<'m> {
    alloc: Global,
    machine: &'m Trimmed,
    tree: Vec<TreeEdge>,
    grown: CodeForest,
    tools: VisitTools,
    untaken: Code,
    ended: bool,
    usable: bool,
}

impl<'m> Model for Frontier<'m> {
    ghost use Rattle.kex_frontier.specs.Views.{edges_at};
    ghost use Rattle.kex_frontier.specs.Frontiers.{Front, IsFrontierSound};

    ghost Value = { Front };

    ghost view = { λ f. record {
      machine = f.machine.now;
      untaken = f.untaken;
      edges = edges_at f.tree.items;
      ended = f.ended;
      usable = f.usable;
    } };

    ghost invariant = { λ f.
        IsFrontierSound f.machine.now (edges_at f.tree.items) f.tools.marks f.usable };
}

fn answer_of(on: bool) -> Fed
    ensures { result ≡ answer_of on }
{
    if on { Fed::On } else { Fed::Dead }
}

fn end_of(parsed: bool) -> Ended
    ensures { result ≡ end_answer parsed }
{
    if parsed { Ended::Parsed } else { Ended::Cut }
}

// A tree goes on with a byte; its root's label goes to the end of `code`. Tells whether a tree is
// left.
fn go_on(
    nodes: &[MNode],
    tree: &mut Vec<TreeEdge>,
    byte: u8,
    grown: &mut CodeForest,
    tools: &mut VisitTools,
    code: &mut Code,
) -> Result<bool, Memory>
    requires range { StaysWithin nodes.now }
    requires tree { IsTreeBelow (length nodes.now) (edges_at tree.old.items) }
    requires long { length tools.old.marks ≡ length nodes.now }
    ensures went { IfOk result (λ there. (t : Labelled Symbol ℕ)
        → edges_at tree.old.items ≡ edges_of t [] → TreeWentOn (node_moves nodes.now) byte
        (length nodes.now) t there code.old code.new (edges_at tree.new.items)) }
    ensures long { OnOk result (length tools.new.marks ≡ length nodes.now) }
{
    tools.marks.clear();
    advance(nodes, tree, byte, grown, tools)?;
    grown.settle(tree, code)
}

impl<'m> Frontier<'m> {
    /// The frontier of the empty text.
    pub fn new(alloc: Global, machine: &'m Trimmed) -> Result<Frontier<'m>, Memory>
        ensures machine { IfOk result (λ f. f.machine ≡ machine.now) }
        ensures begins { IfOk result (λ f. IsFed f [] []) }
        ensures usable { IfOk result (λ f. (f.usable ≡ true) × (f.ended ≡ false)) }
    {
        let nodes = machine.machine().nodes();
        let start = machine.machine().start();
        let mut tools = VisitTools::new(alloc, nodes.len())?;
        let mut grown = CodeForest::new(alloc);
        let mut tree = Vec::new(alloc);
        let mut untaken = Code::new(alloc);
        walk(nodes, start, &mut tools)?;
        let label = tools.spare.take();
        grown.graft(&mut tools.fresh, label, &mut tools.spare)?;
        let _ = grown.settle(&mut tree, &mut untaken)?;
        Ok(Frontier {
            alloc,
            machine,
            tree,
            grown,
            tools,
            untaken,
            ended: false,
            usable: true,
        })
    }

    /// Is as a new frontier of its machine.
    pub fn begin_anew(&mut self) -> Result<(), Memory>
        ensures machine { self.new.machine ≡ self.old.machine }
        ensures begins { OnOk result (IsFed self.new [] []) }
        ensures usable { OnOk result ((self.new.usable ≡ true) × (self.new.ended ≡ false)) }
    {
        let fresh = Frontier::new(self.alloc, self.machine)?;
        *self = fresh;
        Ok(())
    }

    /// Takes a byte. `Dead` exactly where no parse begins with the bytes, and then for good.
    ///
    /// The cost is that of the nodes which the byte reaches, and of the survivors.
    pub fn feed(&mut self, byte: u8) -> Result<Fed, Memory>
        requires usable { IsTrue self.old.usable }
        requires open { self.old.ended ≡ false }
        ensures fed { IfOk result (λ answer. (w : List ℕ) (taken : List Symbol)
            → IsFed self.old w taken → IsFedBy answer self.new (w ++ byte ∷ []) taken) }
        ensures machine { self.new.machine ≡ self.old.machine }
        ensures open { self.new.ended ≡ false }
        ensures usable { IsTrue self.new.usable ↔ IsOk result }
    {
        if self.tree.is_empty() {
            return Ok(Fed::Dead);
        }
        self.usable = false;
        let nodes = self.machine.machine().nodes();
        let on = go_on(
            nodes,
            &mut self.tree,
            byte,
            &mut self.grown,
            &mut self.tools,
            &mut self.untaken,
        )?;
        self.usable = true;
        Ok(answer_of(on))
    }

    /// Takes the end. `Parsed` exactly where the bytes have a parse; the rest of the greedy code
    /// can then be taken.
    pub fn end(&mut self) -> Result<Ended, Memory>
        requires usable { IsTrue self.old.usable }
        requires open { self.old.ended ≡ false }
        ensures over { IfOk result (λ answer. (w : List ℕ) (taken : List Symbol)
            → IsFed self.old w taken → IsOver answer self.new w taken) }
        ensures machine { self.new.machine ≡ self.old.machine }
        ensures ended { OnOk result (self.new.ended ≡ true) }
        ensures usable { IsTrue self.new.usable ↔ IsOk result }
    {
        self.ended = true;
        if self.tree.is_empty() {
            return Ok(Ended::Cut);
        }
        self.usable = false;
        let nodes = self.machine.machine().nodes();
        accept(
            nodes,
            &mut self.tree,
            &mut self.grown,
            &mut self.tools.spare,
        )?;
        let parsed = self.grown.settle(&mut self.tree, &mut self.untaken)?;
        self.tree.clear();
        self.usable = true;
        Ok(end_of(parsed))
    }

    /// What is agreed and wasn't taken yet; after `Parsed` the rest of the greedy code.
    pub fn take_code(&mut self) -> Code
        requires { IsTrue self.old.usable }
        ensures value { result ≡ self.old.untaken }
        ensures fed { (w : List ℕ) (taken : List Symbol) → IsFed self.old w taken
            → IsFed self.new w (taken ++ result) × IsSaid self.old.machine w (taken ++ result) }
        ensures over { (answer : Ended) (w : List ℕ) (taken : List Symbol)
            → IsOver answer self.old w taken → IsOver answer self.new w (taken ++ result) }
        ensures after { self.new ≡ record {
          machine = self.old.machine;
          untaken = [];
          edges = self.old.edges;
          ended = self.old.ended;
          usable = self.old.usable;
        } }
    {
        mem::replace(&mut self.untaken, Code::new(self.alloc))
    }

    /// Whether no call has answered `Memory`.
    pub fn usable(&self) -> bool
        ensures { result ≡ self.now.usable }
    {
        self.usable
    }
}
