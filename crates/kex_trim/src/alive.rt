// From which nodes the end is reached.

ghost use Rattle.std.specs.Prelude.{◌≡◌, ◌<◌, ◌++◌, ◌∷◌, [], All, length, Some, IfOk, OnOk};
ghost use Rattle.std.specs.Prelude.{slice_set, get_or, replicate};
ghost use Rattle.kex_machine.specs.Nodes.{move_of};
ghost use Rattle.kex_trim.specs.Ways.{AddsToLists, EachUnder, AreAliveFlags, IsReverse, LeadsBelow};
ghost use Rattle.kex_trim.specs.Ways.{Marks, listed_successors, successors};

use kex_machine::{MNode, node_at};
use std::alloc::{AllocError, Global};
use std::marker::Model;

/// Where a node leads.
#[derive(Clone, Copy)]
pub enum Successors {
    NoWay,
    One(u32),
    Two(u32, u32),
}

fn successors_of(node: &MNode) -> Successors
    ensures { listed_successors result ≡ successors (move_of (Some node.now)) }
{
    match node {
        MNode::Accept => Successors::NoWay,
        MNode::Read(set, next) => {
            if set.has_any() {
                Successors::One(*next)
            } else {
                Successors::NoWay
            }
        }
        MNode::Choice(left, right) => Successors::Two(*left, *right),
        MNode::Forced(_, next) => Successors::One(*next),
        MNode::Do(_, next) => Successors::One(*next),
        MNode::Skip(next) => Successors::One(*next),
    }
}

/// The nodes that lead to a node.
#[derive(Drop)]
pub struct Sources {
    all: Vec<u32>,
}

impl Model for Sources {
    ghost use Rattle.std.specs.Prelude.{ℕ, List};

    ghost Value = { List ℕ };

    ghost view = { λ s. s.all.items };
}

impl Sources {
    fn none(alloc: Global) -> Sources
        ensures { result ≡ [] }
    {
        Sources {
            all: Vec::new(alloc),
        }
    }

    fn push(&mut self, n: u32) -> Result<(), AllocError>
        ensures { OnOk result (self.new ≡ self.old ++ n ∷ []) }
    {
        self.all.push(n)?;
        Ok(())
    }

    fn as_slice(&self) -> &[u32]
        ensures { result.now ≡ self.now }
    {
        &self.all
    }
}

fn add_source(into: &mut Vec<Sources>, to: u32, from: u32) -> Result<(), AllocError>
    requires { to < length into.old.items }
    ensures { OnOk result (into.new.items
        ≡ slice_set into.old.items to (get_or into.old.items to [] ++ from ∷ [])) }
{
    into[to as usize].push(from)
}

fn no_sources(alloc: Global, count: usize) -> Result<Vec<Sources>, AllocError>
    ensures { IfOk result (λ into. into.items ≡ replicate count []) }
{
    let mut into = Vec::new(alloc);
    for _n in 0..count {
        into.push(Sources::none(alloc))?;
    }
    Ok(into)
}

// The ways of a node are added to what leads where.
fn add_to_successors(
    into: &mut Vec<Sources>,
    found: Successors,
    from: u32,
) -> Result<(), AllocError>
    requires { EachUnder (length into.old.items) (listed_successors found) }
    ensures { OnOk result
        (AddsToLists (listed_successors found) from into.old.items into.new.items) }
{
    match found {
        Successors::NoWay => Ok(()),
        Successors::One(next) => add_source(into, next, from),
        Successors::Two(left, right) => {
            add_source(into, left, from)?;
            add_source(into, right, from)
        }
    }
}

// For each node, those that lead to it.
fn sources_of(alloc: Global, nodes: &[MNode]) -> Result<Vec<Sources>, AllocError>
    requires below { All (LeadsBelow (length nodes.now)) nodes.now }
    requires count { length nodes.now < 4294967296 }
    ensures { IfOk result (λ into. IsReverse nodes.now into.items) }
{
    let mut into = no_sources(alloc, nodes.len())?;
    for n in 0..nodes.len() {
        let found = successors_of(node_at(nodes, n));
        add_to_successors(&mut into, found, n as u32)?;
    }
    Ok(into)
}

// A node from which the end is reached.
fn reach_one(alive: &mut Vec<bool>, stack: &mut Vec<u32>, n: u32) -> Result<(), AllocError>
    requires { n < length alive.old.items }
    ensures { OnOk result
        (Marks (n ∷ []) alive.old.items stack.old.items alive.new.items stack.new.items) }
{
    if !alive[n as usize] {
        alive[n as usize] = true;
        stack.push(n)?;
    }
    Ok(())
}

// Nodes from which the end is reached.
fn reach_all(alive: &mut Vec<bool>, stack: &mut Vec<u32>, nodes: &[u32]) -> Result<(), AllocError>
    requires { EachUnder (length alive.old.items) nodes.now }
    ensures { OnOk result
        (Marks nodes.now alive.old.items stack.old.items alive.new.items stack.new.items) }
{
    for n in nodes {
        reach_one(alive, stack, *n)?;
    }
    Ok(())
}

// From which nodes the end is reached.
pub(crate) fn alive_nodes(alloc: Global, nodes: &[MNode]) -> Result<Vec<bool>, AllocError>
    requires below { All (LeadsBelow (length nodes.now)) nodes.now }
    requires count { length nodes.now < 4294967296 }
    ensures { IfOk result (λ alive. AreAliveFlags nodes.now alive.items) }
{
    let into = sources_of(alloc, nodes)?;
    let mut alive = vec![in alloc; false; nodes.len()]?;
    let mut stack = Vec::new(alloc);
    for n in 0..nodes.len() {
        if let MNode::Accept = node_at(nodes, n) {
            reach_one(&mut alive, &mut stack, n as u32)?;
        }
    }
    'stack: while let Some(n) = stack.pop() {
        reach_all(&mut alive, &mut stack, into[n as usize].as_slice())?;
    }
    Ok(alive)
}
