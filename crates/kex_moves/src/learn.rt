// How an edge is learnt, from the table or a list of words and the machine.

ghost use Rattle.std.specs.Prelude.{◌≡◌, ◌<◌, true, IfOk, IfSome, OnOk, length};
ghost use Rattle.kex_byteset.specs.Classes.{class_count};
ghost use Rattle.kex_machine.specs.Nodes.{Graph};
ghost use Rattle.kex_sst.specs.Tables.{Transducer};
ghost use Rattle.kex_moves.specs.declared.edges.Pair.{Pair};
ghost use Rattle.kex_moves.specs.Edges.{is_known};
ghost use Rattle.kex_moves.specs.Known.{IsEdge, IsRight, IsPairRow, HasRowFor, IsPairOf, IsKnown};
ghost use Rattle.kex_moves.specs.Known.{IsLed, KnownGrows};
ghost use Rattle.kex_moves.specs.Speech.{words_table};

use crate::edge::Edge;
use crate::edges::{Edges, Pair};
use crate::settle::settle;
use kex_code::memory::Memory;
use kex_held::walk::{Learnt, learn};
use kex_machine::Trimmed;
use kex_sst::parts::Parts;
use kex_sst::table::Table;
use std::alloc::Global;

// An edge to the row of a state and the node to which a walk led, for what is done along the walk.
// A plain one where there is no room for the row.
fn lead(
    alloc: Global,
    machine: &Trimmed,
    edges: &mut Edges,
    state: u32,
    learnt: &Learnt,
) -> Result<Edge, Memory>
    requires { learnt.now.to < length machine.now.nodes }
    ensures known { IfOk result (λ e. (t : Transducer) → state < length t.states
        → IsKnown t machine.now edges.old → IsKnown t machine.now edges.new) }
    ensures grows { IfOk result (λ e. KnownGrows edges.old edges.new) }
    ensures led { IfOk result
        (IsLed machine.now.nodes edges.new state learnt.now.to learnt.now.actions.items) }
{
    let Some(row) = edges.row_of(state, learnt.to)? else {
        return Ok(Edge::plain());
    };
    let edge = settle(alloc, machine, edges, &learnt.actions, row)?;
    Ok(edge)
}

// The edge of a pair at a class of bytes.
fn edge_of(
    alloc: Global,
    table: &Table,
    machine: &Trimmed,
    edges: &mut Edges,
    pair: Pair,
    class: u8,
) -> Result<Edge, Memory>
    requires class { class < class_count table.now.classes }
    requires pair { IsPairOf table.now machine.now pair }
    requires known { IsKnown table.now machine.now edges.old }
    ensures known { IfOk result (λ e. IsKnown table.now machine.now edges.new) }
    ensures grows { IfOk result (λ e. KnownGrows edges.old edges.new) }
    ensures edge { IfOk result (IsEdge edges.new) }
    ensures right { IfOk result (λ e. is_known e.kind ≡ true
        → IsRight table.now machine.now.nodes edges.new pair class e) }
{
    let Some((target, update)) = table.next(pair.state, class) else {
        return Ok(Edge::plain());
    };
    if !update.regs().is_empty() || target as usize >= table.states().len() {
        return Ok(Edge::plain());
    }
    let Some(learnt) = learn(alloc, machine, pair.node, update.out().as_slice())? else {
        return Ok(Edge::plain());
    };
    lead(alloc, machine, edges, target, &learnt)
}

/// Learns the edge of a row at a byte.
pub fn learn_edge(
    alloc: Global,
    table: &Table,
    machine: &Trimmed,
    edges: &mut Edges,
    row: usize,
    byte: u8,
) -> Result<(), Memory>
    requires row { (p : Pair) × IsPairRow edges.old row p }
    requires known { IsKnown table.now machine.now edges.old }
    ensures known { OnOk result (IsKnown table.now machine.now edges.new) }
    ensures rows { OnOk result (KnownGrows edges.old edges.new) }
{
    let pair = edges.pair_at(row);
    let class = edges.class_of(byte);
    let edge = edge_of(alloc, table, machine, edges, pair, class)?;
    edges.put(row, class, edge.at_row(row));
    Ok(())
}

// The edge of a pair at a word.
fn word_edge(
    alloc: Global,
    words: &[Parts],
    machine: &Trimmed,
    edges: &mut Edges,
    pair: Pair,
    word: u8,
) -> Result<Edge, Memory>
    requires pair { IsPairOf (words_table words.now) machine.now pair }
    requires known { IsKnown (words_table words.now) machine.now edges.old }
    ensures known { IfOk result (λ e. IsKnown (words_table words.now) machine.now edges.new) }
    ensures grows { IfOk result (λ e. KnownGrows edges.old edges.new) }
    ensures edge { IfOk result (IsEdge edges.new) }
    ensures right { IfOk result (λ e. is_known e.kind ≡ true
        → IsRight (words_table words.now) machine.now.nodes edges.new pair word e) }
{
    let Some(parts) = words.get(word as usize) else {
        return Ok(Edge::plain());
    };
    let Some(learnt) = learn(alloc, machine, pair.node, parts.as_slice())? else {
        return Ok(Edge::plain());
    };
    lead(alloc, machine, edges, 0, &learnt)
}

/// Learns the edge of a row at a word.
pub fn learn_word(
    alloc: Global,
    words: &[Parts],
    machine: &Trimmed,
    edges: &mut Edges,
    row: usize,
    word: u8,
) -> Result<(), Memory>
    requires row { (p : Pair) × IsPairRow edges.old row p }
    requires word { word < edges.old.width }
    requires known { IsKnown (words_table words.now) machine.now edges.old }
    ensures known { OnOk result (IsKnown (words_table words.now) machine.now edges.new) }
{
    let pair = edges.pair_at(row);
    let edge = word_edge(alloc, words, machine, edges, pair, word)?;
    edges.put(row, word, edge.at_row(row));
    Ok(())
}

// Forgets all where it is time to.
fn renew(edges: &mut Edges)
    ensures { (t : Transducer) (g : Graph) → IsKnown t g edges.old → IsKnown t g edges.new }
{
    if edges.is_worn() {
        edges.forget();
    }
}

/// The row of a state and a node. `None` where there is no such state or node, and where there is
/// no room for the row.
pub fn row_for(
    machine: &Trimmed,
    edges: &mut Edges,
    states: usize,
    state: u32,
    node: u32,
) -> Result<Option<usize>, Memory>
    ensures known { IfOk result (λ o. (t : Transducer) → length t.states ≡ states
        → IsKnown t machine.now edges.old → IsKnown t machine.now edges.new) }
    ensures row { IfOk result (λ o. IfSome o (λ row. HasRowFor edges.new row state node)) }
{
    renew(edges);
    if let Some(row) = edges.find(state, node) {
        return Ok(Some(row));
    }
    if state as usize >= states || node as usize >= machine.nodes().len() {
        return Ok(None);
    }
    let row = edges.add(state, node)?;
    Ok(row)
}
