// How a tree goes on with a byte, and with the end.

ghost use Rattle.std.specs.Prelude.{◌≡◌, ℕ, ◌<◌, ◌∷◌, [], List, Option, Some, None, OnOk};
ghost use Rattle.std.specs.Prelude.{MatchOption, IfSome, length};
ghost use Rattle.kex_code.specs.declared.symbol.Symbol.{Symbol};
ghost use Rattle.kex_model.specs.Labelled.{Labelled, Grown, tip, with_prefix};
ghost use Rattle.kex_model.specs.Moves.{Allows, took};
ghost use Rattle.kex_machine.specs.Nodes.{node_moves};
ghost use Rattle.kex_frontier.specs.Edges.{HasCodeTrees, as_is, edges_of, last_code_tree, IsTipIf};
ghost use Rattle.kex_frontier.specs.Edges.{IsTreeBelow};
ghost use Rattle.kex_frontier.specs.Views.{edges_at};
ghost use Rattle.kex_machine.specs.Advancing.{first_accepting};
ghost use Rattle.kex_frontier.specs.Going.{AdvancesCodes, trees_at_end};
ghost use Rattle.kex_machine.specs.Nodes.{StaysWithin};

use crate::forest::{CodeForest, Spare, TreeEdge};
use crate::visit::{VisitTools, walk};
use kex_code::memory::Memory;
use kex_code::symbol::Symbol;
use kex_machine::{MNode, node_at};

// Where a byte leads from a place, if it leads on.
fn next_by(nodes: &[MNode], place: u32, byte: u8) -> Option<u32>
    requires { place < length nodes.now }
    ensures { MatchOption result ((t : ℕ) → Allows (node_moves nodes.now place) (took byte t)
        → ⊥) (λ t. Allows (node_moves nodes.now place) (took byte t)) }
{
    match node_at(nodes, place as usize) {
        MNode::Read(set, next) => { if set.has(byte) { Some(*next) } else { None } }
        _ => None,
    }
}

// A tip goes on with a byte.
fn advance_tip(
    nodes: &[MNode],
    place: u32,
    label: Vec<Symbol>,
    byte: u8,
    grown: &mut CodeForest,
    tools: &mut VisitTools,
) -> Result<(), Memory>
    requires range { StaysWithin nodes.now }
    requires below { place < length nodes.now }
    requires long { length tools.old.marks ≡ length nodes.now }
    ensures tree { OnOk result ((a : Option (Grown Symbol ℕ))
        × AdvancesCodes (node_moves nodes.now) byte tools.old.marks (tip place) a tools.new.marks
        × ((rs : List (Option (Grown Symbol ℕ))) → HasCodeTrees as_is grown.old rs
        → HasCodeTrees as_is grown.new (with_prefix label.items a ∷ rs))) }
    ensures long { OnOk result (length tools.new.marks ≡ length nodes.now) }
{
    if let Some(next) = next_by(nodes, place, byte) {
        let mut label = label;
        label.push(Symbol::Byte(byte))?;
        walk(nodes, next, tools)?;
        grown.graft(&mut tools.fresh, label, &mut tools.spare)?;
        return Ok(());
    }
    tools.spare.give(label);
    grown.add_none()?;
    Ok(())
}

/// A tree goes on with a byte: what comes of it is the only tree of `grown`.
pub fn advance(
    nodes: &[MNode],
    tree: &mut Vec<TreeEdge>,
    byte: u8,
    grown: &mut CodeForest,
    tools: &mut VisitTools,
) -> Result<(), Memory>
    requires range { StaysWithin nodes.now }
    requires tree { IsTreeBelow (length nodes.now) (edges_at tree.old.items) }
    requires long { length tools.old.marks ≡ length nodes.now }
    ensures tree { OnOk result ((t : Labelled Symbol ℕ) → edges_at tree.old.items ≡ edges_of t []
        → (a : Option (Grown Symbol ℕ))
        × AdvancesCodes (node_moves nodes.now) byte tools.old.marks t a tools.new.marks
        × HasCodeTrees as_is grown.new (a ∷ [])) }
    ensures long { OnOk result (length tools.new.marks ≡ length nodes.now) }
{
    grown.clear();
    tree.reverse();
    while let Some(edge) = tree.pop() {
        match edge.at {
            Some(place) => advance_tip(nodes, place, edge.label, byte, grown, tools)?,
            None => {
                grown.merge(&mut tools.spare)?;
                grown.put_label(edge.label, &mut tools.spare)?;
            }
        }
    }
    Ok(())
}

// An edge at the end: of tips those that accept stay, and of two sides the first that is there.
fn end_edge(
    nodes: &[MNode],
    at: Option<u32>,
    found: &mut CodeForest,
    spare: &mut Spare,
) -> Result<(), Memory>
    requires { IfSome at (λ place. place < length nodes.now) }
    ensures { OnOk result ((rs : List (Option (Grown Symbol ℕ))) → IsTipIf (last_code_tree rs)
        → HasCodeTrees as_is found.old rs
        → HasCodeTrees as_is found.new (trees_at_end (node_moves nodes.now) at rs)) }
{
    match at {
        None => found.choose(),
        Some(place) => match node_at(nodes, place as usize) {
            MNode::Accept => found.add_tip(place, spare),
            _ => found.add_none(),
        },
    }
}

/// The first tip of a tree that accepts, with the label to it, is the only tree of `found`.
pub fn accept(
    nodes: &[MNode],
    tree: &mut Vec<TreeEdge>,
    found: &mut CodeForest,
    spare: &mut Spare,
) -> Result<(), Memory>
    requires { IsTreeBelow (length nodes.now) (edges_at tree.old.items) }
    ensures { OnOk result ((t : Labelled Symbol ℕ) → edges_at tree.old.items ≡ edges_of t []
        → HasCodeTrees as_is found.new (first_accepting (node_moves nodes.now) t ∷ [])) }
{
    found.clear();
    tree.reverse();
    while let Some(edge) = tree.pop() {
        end_edge(nodes, edge.at, found, spare)?;
        found.put_label(edge.label, spare)?;
    }
    Ok(())
}
