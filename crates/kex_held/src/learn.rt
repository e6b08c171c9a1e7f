// What is learnt of a row at a class of bytes.

ghost use Rattle.std.specs.Prelude.{◌<◌, ◌+◌, IfOk, IfSome};
ghost use Rattle.kex_byteset.specs.Classes.{class_count};
ghost use Rattle.kex_held.specs.LearntEdges.{IsRowWithin, IsLearnt, IsEdgeWith};

use crate::item::{HeldItem, RegisterText};
use crate::keep::{points_to_keep, renumber_texts};
use crate::list::{list_of, texts_of};
use crate::row::{LearntEdge, TextRow};
use crate::track::{ListTracker, track};
use crate::upper::byte_of;
use kex_code::memory::Memory;
use kex_machine::Trimmed;
use kex_sst::table::Table;
use std::alloc::Global;

/// How many marks a row may have.
const MOST_MARKS: usize = 60;

/// How many items a list may have.
pub const MOST_ITEMS: usize = 64;

// Whether a list is longer than one may be.
fn has_long(texts: &[RegisterText]) -> bool {
    for text in texts {
        if text.items().len() > MOST_ITEMS {
            return true;
        }
    }
    false
}

// The edge to a state and a node with these items for the output, where the new registers have
// these texts by the edge's points, of which `last` is the end after the byte.
fn settle(
    alloc: Global,
    state: u32,
    node: u32,
    last: u8,
    outs: Vec<HeldItem>,
    texts: &[RegisterText],
) -> Result<Option<LearntEdge>, Memory>
    ensures { IfOk result (λ o. IfSome o (IsEdgeWith state node last outs.items texts.now)) }
{
    if outs.len() > MOST_ITEMS || has_long(texts) {
        return Ok(None);
    }
    let keep = points_to_keep(alloc, texts, last)?;
    if keep.len() > MOST_MARKS {
        return Ok(None);
    }
    let Some(texts) = renumber_texts(alloc, &keep, last, texts)? else {
        return Ok(None);
    };
    let to = TextRow::new(state, node, keep.len() as u8, texts);
    Ok(Some(LearntEdge::new(to, outs, keep)))
}

/// What a row does on a class of bytes. `None` says nothing: the table has no transition, or a list
/// is too long, or there are too many marks.
pub fn learn_edge(
    alloc: Global,
    table: &Table,
    machine: &Trimmed,
    row: &TextRow,
    class: u8,
) -> Result<Option<LearntEdge>, Memory>
    requires class { class < class_count table.now.classes }
    requires row { IsRowWithin table.now machine.now row.now }
    ensures learnt { IfOk result (λ o.
        IfSome o (IsLearnt table.now machine.now.nodes row.now class)) }
    ensures row { IfOk result (λ o. IfSome o (λ e. IsRowWithin table.now machine.now e.to)) }
{
    let Some((target, update)) = table.next(row.state(), class) else {
        return Ok(None);
    };
    if target as usize >= table.states().len() {
        return Ok(None);
    }
    let texts = row.texts();
    let marks = row.marks();
    let Some(out) = track(alloc, machine, texts, row.node(), update.out().as_slice())? else {
        return Ok(None);
    };
    let tracker = ListTracker {
        alloc,
        table,
        machine,
        texts,
        byte: byte_of(table.partition(), class),
    };
    let tracked = tracker.track_edges(target, out.to(), update.regs())?;
    let Some(tracked) = tracked else {
        return Ok(None);
    };
    let outs = list_of(alloc, machine, texts, marks, out.links())?;
    let new = texts_of(alloc, machine, texts, marks, &tracked)?;
    let edge = settle(alloc, target, out.to(), marks + 1, outs, &new)?;
    Ok(edge)
}
