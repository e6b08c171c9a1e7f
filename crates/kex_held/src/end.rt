// What the end of the input does at a row.

ghost use Rattle.std.specs.Prelude.{◌≡◌, ◌<◌, IfOk, IfSome, IsTrue, Some, length, slice_get};
ghost use Rattle.kex_sst.specs.Passes.{way_of};
ghost use Rattle.kex_held.specs.Slices.{IsItemWithin, AreItemsWithin};
ghost use Rattle.kex_held.specs.LearntEdges.{IsRowWithin};
ghost use Rattle.kex_held.specs.RowEnds.{IsRightEnd};

use crate::item::HeldItem;
use crate::learn::MOST_ITEMS;
use crate::list::list_of;
use crate::row::TextRow;
use crate::track::track;
use kex_code::memory::Memory;
use kex_machine::Trimmed;
use kex_sst::parts::Part;
use kex_sst::table::Table;
use std::alloc::Global;
use std::marker::Model;

/// The node to which the end of the input leads from a row, and what it does.
#[derive(Drop)]
pub struct LearntEnd {
    node: u32,
    outs: Vec<HeldItem>,
}

impl Model for LearntEnd {
    ghost use Rattle.kex_held.specs.RowEnds.{RowEnd};

    ghost Value = { RowEnd };

    ghost view = { λ e. record { node = e.node; outs = e.outs.items } };
}

impl LearntEnd {
    /// The node to which it leads.
    pub fn node(&self) -> u32
        ensures { result ≡ self.now.node }
    {
        self.node
    }

    /// What goes to the output.
    pub fn outs(&self) -> &[HeldItem]
        ensures { result.now ≡ self.now.outs }
    {
        &self.outs
    }
}

// The parts that a state has for the end of a text, if one may end there.
fn way_at(table: &Table, state: u32) -> Option<&[Part]>
    requires { state < length table.now.states }
    ensures { IfSome result (λ way. way_of (slice_get table.now.states state) ≡ Some way.now) }
{
    match table.states()[state as usize].accepting() {
        Some(parts) => Some(parts.as_slice()),
        None => None,
    }
}

// Whether a slice is between two of that many points, in their order.
fn is_within(count: u8, item: HeldItem) -> bool
    ensures { IsTrue result → IsItemWithin count item }
{
    match item {
        HeldItem::Slice(from, to) => from <= to && to < count,
        HeldItem::Effect(_) => true,
    }
}

// Whether all slices of a list are.
fn are_within(count: u8, items: &[HeldItem]) -> bool
    ensures { IsTrue result → AreItemsWithin count items.now }
{
    'items: for item in items {
        if !is_within(count, *item) {
            return false;
        }
    }
    true
}

/// What the end of the input does at a row. `None` says nothing: no text ends at the row's state,
/// or its list can't be made or is too long.
pub fn learn_end(
    alloc: Global,
    table: &Table,
    machine: &Trimmed,
    row: &TextRow,
) -> Result<Option<LearntEnd>, Memory>
    requires row { IsRowWithin table.now machine.now row.now }
    ensures right { IfOk result (λ o. IfSome o (IsRightEnd table.now machine.now.nodes row.now)) }
    ensures node { IfOk result (λ o. IfSome o (λ e. e.node < length machine.now.nodes)) }
{
    let Some(way) = way_at(table, row.state()) else {
        return Ok(None);
    };
    let texts = row.texts();
    let marks = row.marks();
    let Some(tracked) = track(alloc, machine, texts, row.node(), way)? else {
        return Ok(None);
    };
    let outs = list_of(alloc, machine, texts, marks, tracked.links())?;
    // By the points of an edge a slice up to the last has the byte in it, and here is none.
    if outs.len() > MOST_ITEMS || !are_within(marks + 1, &outs) {
        return Ok(None);
    }
    let node = tracked.to();
    Ok(Some(LearntEnd { node, outs }))
}
