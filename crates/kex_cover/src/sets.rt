// Sets of waiting places, as lists that fall.

ghost use Rattle.std.specs.Prelude.{◌≡◌, ◌<◌, ◌/◌, ◌↔◌, IsTrue, IfOk, length};
ghost use Rattle.kex_model.specs.Moves.{IsWaiting};
ghost use Rattle.kex_machine.specs.Nodes.{move_of};
ghost use Rattle.kex_cover.specs.Pairs.{ArePlacesAfter, IsPlaceSetOf};
ghost use Rattle.kex_cover.specs.Searches.{AreWaiting, AreWithin, HaveRoom, IsListOf, AreMarksOf};

use kex_code::memory::Memory;
use kex_frontier::matcher::step;
use kex_frontier::row::Row;
use kex_machine::{MNode, Trimmed, node_at};
use std::alloc::Global;

/// The rows that a step goes from and comes to.
#[derive(Drop)]
pub struct MarkPair {
    pub from: Row,
    pub reached: Row,
}

impl MarkPair {
    /// Rows for the places of a machine.
    pub fn new(alloc: Global, count: usize) -> Result<MarkPair, Memory>
        ensures { IfOk result (λ rows. HaveRoom count rows) }
    {
        let from = Row::new(alloc, count)?;
        let reached = Row::new(alloc, count)?;
        Ok(MarkPair { from, reached })
    }
}

// Whether a node waits for a byte or for the end.
fn waits(node: &MNode) -> bool
    ensures { IsTrue result ↔ IsWaiting (move_of (Some node.now)) }
{
    match node {
        MNode::Accept | MNode::Read(_, _) => true,
        MNode::Choice(_, _) | MNode::Forced(_, _) | MNode::Do(_, _) | MNode::Skip(_) => false,
    }
}

// The waiting places that are marked, the highest first.
fn marked_places(alloc: Global, nodes: &[MNode], row: &Row) -> Result<Vec<u32>, Memory>
    requires room { length nodes.now / 64 < length row.now }
    requires few { length nodes.now < 4294967296 }
    ensures { IfOk result (λ places. IsListOf nodes.now row.now places.items) }
{
    let mut places = Vec::new(alloc);
    let mut left = nodes.len();
    'places: while let Some(n) = row.highest_below(left) {
        if waits(node_at(nodes, n)) {
            places.push(n as u32)?;
        }
        left = n;
    }
    Ok(places)
}

// Marks these places, and no others.
fn mark_all(row: &mut Row, places: &[u32], count: usize)
    requires room { count / 64 < length row.old }
    requires places { AreWithin count places.now }
    ensures room { length row.new ≡ length row.old }
    ensures marked { AreMarksOf places.now row.new }
{
    row.clear();
    for place in places {
        row.mark(*place as usize);
    }
}

/// The set of the waiting places that are reached from some of these by a byte.
pub fn set_after(
    alloc: Global,
    machine: &Trimmed,
    from: &[u32],
    byte: u8,
    rows: &mut MarkPair,
) -> Result<Vec<u32>, Memory>
    requires rooms { HaveRoom (length machine.now.nodes) rows.old }
    requires places { AreWithin (length machine.now.nodes) from.now }
    ensures rooms { HaveRoom (length machine.now.nodes) rows.new }
    ensures set { IfOk result (λ set. ArePlacesAfter machine.now from.now byte set.items) }
    ensures within { IfOk result (λ set. AreWithin (length machine.now.nodes) set.items) }
{
    let nodes = machine.nodes();
    mark_all(&mut rows.from, from, nodes.len());
    step(nodes, byte, &mut rows.from, &mut rows.reached);
    marked_places(alloc, nodes, &rows.reached)
}

/// The set of these waiting places.
pub fn set_of(
    alloc: Global,
    machine: &Trimmed,
    places: &[u32],
    rows: &mut MarkPair,
) -> Result<Vec<u32>, Memory>
    requires rooms { HaveRoom (length machine.now.nodes) rows.old }
    requires places { AreWaiting machine.now places.now }
    ensures rooms { HaveRoom (length machine.now.nodes) rows.new }
    ensures set { IfOk result (λ set. IsPlaceSetOf places.now set.items) }
    ensures within { IfOk result (λ set. AreWithin (length machine.now.nodes) set.items) }
{
    let nodes = machine.nodes();
    mark_all(&mut rows.from, places, nodes.len());
    marked_places(alloc, nodes, &rows.from)
}
