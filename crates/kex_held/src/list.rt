// How a list of items is made, one item after another.

ghost use Rattle.std.specs.Prelude.{◌≡◌, ◌+◌, ◌<◌, ◌^◌, ◌∷◌, [], List, OnOk, IfOk, IfSome};
ghost use Rattle.std.specs.Prelude.{slice_get};
ghost use Rattle.kex_model.specs.Acting.{ActingState, after_effect};
ghost use Rattle.kex_machine.specs.declared.MNode.{MNode};
ghost use Rattle.kex_machine.specs.Nodes.{node_moves, effect_of};
ghost use Rattle.kex_action.specs.Actions.{after_move};
ghost use Rattle.kex_held.specs.declared.item.HeldItem.TheVariants.{Slice, Effect};
ghost use Rattle.kex_held.specs.Slices.{ListGoesOn, item_of};
ghost use Rattle.kex_held.specs.Sealed.{DoesTurn, OpensAt};
ghost use Rattle.kex_held.specs.HeldRows.{items_if, items_by_links};
ghost use Rattle.kex_held.specs.LearntEdges.{AreListsOf};

use crate::item::{HeldItem, RegisterText};
use crate::link::Link;
use crate::track::Tracked;
use kex_action::action::Action;
use kex_code::memory::Memory;
use kex_machine::{Effect as NodeEffect, MNode, Trimmed};
use std::alloc::Global;

/// What an item does to the open buffers.
#[derive(Clone, Copy, Debug, PartialEq, Eq)]
pub enum ItemTurn {
    Writes,
    Opens,
    Drops,
    Other,
}

// What a node does, if it does anything.
fn effect_at(machine: &Trimmed, n: u32) -> Option<&NodeEffect>
    ensures { IfSome result (λ e. (s : ActingState)
        → after_move (node_moves machine.now.nodes n) s ≡ after_effect (effect_of e.now) s) }
{
    match machine.nodes().get(n as usize) {
        Some(MNode::Do(effect, _)) => Some(effect),
        _ => None,
    }
}

// What an item does to the open buffers.
fn turn_of(machine: &Trimmed, item: HeldItem) -> ItemTurn
    ensures { DoesTurn machine.now.nodes item result }
{
    match item {
        HeldItem::Slice(_, _) => ItemTurn::Writes,
        HeldItem::Effect(node) => match effect_at(machine, node) {
            Some(NodeEffect::Lit(_)) => ItemTurn::Writes,
            Some(NodeEffect::Write(_)) => ItemTurn::Writes,
            Some(NodeEffect::Open) => ItemTurn::Opens,
            Some(NodeEffect::Drop) => ItemTurn::Drops,
            _ => ItemTurn::Other,
        },
    }
}

// The number of the last item that opens a buffer, if all after it only write.
fn opened_at(machine: &Trimmed, items: &[HeldItem]) -> Option<usize>
    ensures { IfSome result (λ at. OpensAt machine.now.nodes items.now at (Slice 0 0)) }
{
    let mut at = items.len();
    while at > 0 {
        let before = at - 1;
        match turn_of(machine, items[before]) {
            ItemTurn::Writes => at = before,
            ItemTurn::Opens => return Some(before),
            ItemTurn::Drops | ItemTurn::Other => return None,
        }
    }
    None
}

// Puts a slice after items. One that begins where the last ends is joined to it.
fn push_slice(items: &mut Vec<HeldItem>, from: u8, to: u8) -> Result<(), Memory>
    ensures { OnOk result ((nodes : List MNode)
        → ListGoesOn nodes items.old.items (Slice from to ∷ []) items.new.items) }
{
    let last = items.pop();
    match last {
        None => {
            items.push(HeldItem::Slice(from, to))?;
            Ok(())
        }
        Some(HeldItem::Slice(first, end)) if end == from => {
            items.push(HeldItem::Slice(first, to))?;
            Ok(())
        }
        Some(other) => {
            items.push(other)?;
            items.push(HeldItem::Slice(from, to))?;
            Ok(())
        }
    }
}

// Puts what a node does after items. Where it drops a buffer into which bytes alone were written,
// the buffer is left out.
fn push_effect(machine: &Trimmed, items: &mut Vec<HeldItem>, node: u32) -> Result<(), Memory>
    ensures { OnOk result
        (ListGoesOn machine.now.nodes items.old.items (Effect node ∷ []) items.new.items) }
{
    if let ItemTurn::Drops = turn_of(machine, HeldItem::Effect(node)) {
        if let Some(at) = opened_at(machine, items) {
            items.truncate(at);
            return Ok(());
        }
    }
    items.push(HeldItem::Effect(node))?;
    Ok(())
}

/// Puts an item after others: slices that touch are joined, and a buffer into which bytes alone
/// were written is left out once it is dropped.
pub fn push(machine: &Trimmed, items: &mut Vec<HeldItem>, item: HeldItem) -> Result<(), Memory>
    ensures { OnOk result
        (ListGoesOn machine.now.nodes items.old.items (item ∷ []) items.new.items) }
{
    match item {
        HeldItem::Slice(from, to) => push_slice(items, from, to),
        HeldItem::Effect(node) => push_effect(machine, items, node),
    }
}

// Puts a list after another.
fn push_all(machine: &Trimmed, items: &mut Vec<HeldItem>, more: &[HeldItem]) -> Result<(), Memory>
    ensures { OnOk result
        (ListGoesOn machine.now.nodes items.old.items more.now items.new.items) }
{
    for item in more {
        push(machine, items, *item)?;
    }
    Ok(())
}

// Puts the text of a register after a list, if there is the register.
fn push_text(
    machine: &Trimmed,
    texts: &[RegisterText],
    items: &mut Vec<HeldItem>,
    register: usize,
) -> Result<(), Memory>
    ensures { OnOk result (ListGoesOn machine.now.nodes items.old.items
        (items_if (slice_get texts.now register)) items.new.items) }
{
    if register >= texts.len() {
        return Ok(());
    }
    let text = &texts[register];
    push_all(machine, items, text.items())?;
    Ok(())
}

// What an action is, where there are `marks` marks before the byte.
fn own_item(marks: u8, action: Action) -> HeldItem
    requires { marks + 1 < 2 ^ 8 }
    ensures { result ≡ item_of marks action }
{
    match action {
        Action::Byte => HeldItem::Slice(marks, marks + 1),
        Action::Node(node) => HeldItem::Effect(node),
    }
}

// Puts after a list what a link names.
fn push_link(
    machine: &Trimmed,
    texts: &[RegisterText],
    marks: u8,
    items: &mut Vec<HeldItem>,
    link: Link,
) -> Result<(), Memory>
    requires { marks + 1 < 2 ^ 8 }
    ensures { OnOk result (ListGoesOn machine.now.nodes items.old.items
        (items_by_links texts.now marks (link ∷ [])) items.new.items) }
{
    match link {
        Link::Whole(register) => push_text(machine, texts, items, register as usize),
        Link::Own(action) => push(machine, items, own_item(marks, action)),
    }
}

/// The list that links name, over the texts of the registers before, by the points of an edge.
pub fn list_of(
    alloc: Global,
    machine: &Trimmed,
    texts: &[RegisterText],
    marks: u8,
    links: &[Link],
) -> Result<Vec<HeldItem>, Memory>
    requires { marks + 1 < 2 ^ 8 }
    ensures { IfOk result (λ items. ListGoesOn machine.now.nodes []
        (items_by_links texts.now marks links.now) items.items) }
{
    let mut items = Vec::new(alloc);
    for link in links {
        push_link(machine, texts, marks, &mut items, *link)?;
    }
    Ok(items)
}

/// The texts of new registers, by the points of an edge.
pub fn texts_of(
    alloc: Global,
    machine: &Trimmed,
    texts: &[RegisterText],
    marks: u8,
    tracked: &[Tracked],
) -> Result<Vec<RegisterText>, Memory>
    requires { marks + 1 < 2 ^ 8 }
    ensures { IfOk result (λ xs.
        AreListsOf machine.now.nodes texts.now marks tracked.now xs.items) }
{
    let mut all = Vec::new(alloc);
    'tracked: for new in tracked {
        let items = list_of(alloc, machine, texts, marks, new.links())?;
        all.push(RegisterText::new(new.from(), new.to(), items))?;
    }
    Ok(all)
}
