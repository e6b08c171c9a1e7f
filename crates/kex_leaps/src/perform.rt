// What is done along a leap is done by the actor.

ghost use Rattle.std.specs.Prelude.{◌≡◌, ◌<◌, ◌≤◌, ◌+◌, ◌-◌, OnOk, IsTrue, length, take};
ghost use Rattle.kex_machine.specs.Nodes.{node_moves};
ghost use Rattle.kex_action.specs.Actions.{after_move};
ghost use Rattle.kex_action.specs.Deeds.{after_deed};
ghost use Rattle.kex_action.specs.Holdings.{with_bytes};
ghost use Rattle.kex_action.specs.Sheets.{IsSheet, IsAsLong, Writes, state_with};
ghost use Rattle.kex_held.specs.Acts.{after_act, after_acts};
ghost use Rattle.kex_held.specs.Slices.{slice_between};
ghost use Rattle.kex_leaps.specs.Leaps.{act_in, acts_in, IsActWithin, AreActsWithin, DoesAll};

use crate::act::LeapAct;
use crate::copy::{AT_ONCE, copy_at_once};
use kex_action::action::Action;
use kex_action::actor::Actor;
use kex_action::deed::Deed;
use kex_action::sheet::Sheet;
use kex_code::memory::Memory;

// Writes bytes on a sheet.
#[inline(never)]
fn put_many(sheet: &mut Sheet, text: &[u8])
    requires sheet { IsSheet sheet.old }
    requires room { sheet.old.used + length text.now ≤ length sheet.old.bytes.items }
    ensures written { Writes sheet.old sheet.new text.now }
    ensures sheet { IsSheet sheet.new }
    ensures long { IsAsLong sheet.old sheet.new }
{
    let end = sheet.used + text.len();
    sheet.bytes[sheet.used..end].copy_from_slice(text);
    sheet.used = end;
}

// Writes a part of a piece on a sheet. A few bytes are copied as sixteen where there are as many.
#[inline(always)]
fn put_on(sheet: &mut Sheet, piece: &[u8], from: usize, to: usize)
    requires part { (from ≤ to) × (to ≤ length piece.now) }
    requires sheet { IsSheet sheet.old }
    requires room { sheet.old.used + (to - from) ≤ length sheet.old.bytes.items }
    ensures written { Writes sheet.old sheet.new (slice_between piece.now from to) }
    ensures sheet { IsSheet sheet.new }
    ensures long { IsAsLong sheet.old sheet.new }
{
    let used = sheet.used;
    let count = to - from;
    let left = piece.len() - from;
    let room = sheet.bytes.len() - used;
    if count <= AT_ONCE && left >= AT_ONCE && room >= AT_ONCE {
        copy_at_once(piece, from, &mut sheet.bytes, used);
        sheet.used = used + count;
        return;
    }
    put_many(sheet, &piece[from..to]);
}

// Hands on what is on a sheet, where there is no room for `count` bytes.
#[inline(always)]
fn make_place(
    node: u32,
    count: usize,
    actor: &mut Actor,
    sheet: &mut Sheet,
    out: &mut Vec<u8>,
) -> Result<(), Memory>
    requires usable { IsTrue actor.old.usable }
    requires node { node < length actor.old.machine.nodes }
    requires sheet { IsSheet sheet.old }
    requires room { count ≤ length sheet.old.bytes.items }
    ensures did { OnOk result (state_with sheet.new out.new.items actor.new.holding
        ≡ state_with sheet.old out.old.items actor.old.holding) }
    ensures room { OnOk result (sheet.new.used + count ≤ length sheet.new.bytes.items) }
    ensures sheet { OnOk result (IsSheet sheet.new × IsAsLong sheet.old sheet.new) }
    ensures same { (actor.new.machine ≡ actor.old.machine)
        × (actor.new.refused ≡ actor.old.refused) }
    ensures usable { OnOk result (IsTrue actor.new.usable) }
{
    if count <= sheet.bytes.len() - sheet.used {
        return Ok(());
    }
    actor.hand_on(node, sheet, out)?;
    Ok(())
}

// Writes a text for which there is no room, in parts that are no longer than a sheet. What is on
// the sheet is handed on before each of them. That is seldom, so it is kept out of the caller.
#[inline(never)]
fn put_in_parts(
    node: u32,
    text: &[u8],
    actor: &mut Actor,
    sheet: &mut Sheet,
    out: &mut Vec<u8>,
) -> Result<(), Memory>
    requires usable { IsTrue actor.old.usable }
    requires node { node < length actor.old.machine.nodes }
    requires sheet { IsSheet sheet.old }
    requires some { 0 < length sheet.old.bytes.items }
    ensures did { OnOk result (state_with sheet.new out.new.items actor.new.holding
        ≡ with_bytes text.now (state_with sheet.old out.old.items actor.old.holding)) }
    ensures sheet { OnOk result (IsSheet sheet.new × IsAsLong sheet.old sheet.new) }
    ensures same { (actor.new.machine ≡ actor.old.machine)
        × (actor.new.refused ≡ actor.old.refused) }
    ensures usable { OnOk result (IsTrue actor.new.usable) }
{
    let most = sheet.bytes.len();
    let mut at = 0;
    'parts: while at < text.len() {
        let count = most.min(text.len() - at);
        make_place(node, count, actor, sheet, out)?;
        put_many(sheet, &text[at..at + count]);
        at += count;
    }
    Ok(())
}

// Does a deed after what is on a sheet.
fn act_behind(
    node: u32,
    deed: Deed,
    actor: &mut Actor,
    sheet: &mut Sheet,
    out: &mut Vec<u8>,
) -> Result<(), Memory>
    requires usable { IsTrue actor.old.usable }
    requires node { node < length actor.old.machine.nodes }
    requires sheet { IsSheet sheet.old }
    ensures did { OnOk result (state_with sheet.new out.new.items actor.new.holding
        ≡ after_deed actor.old.machine.nodes 0 deed
        (state_with sheet.old out.old.items actor.old.holding)) }
    ensures sheet { OnOk result (IsSheet sheet.new × IsAsLong sheet.old sheet.new) }
    ensures same { (actor.new.machine ≡ actor.old.machine)
        × (actor.new.refused ≡ actor.old.refused) }
    ensures usable { OnOk result (IsTrue actor.new.usable) }
{
    actor.hand_on(node, sheet, out)?;
    actor.act(node, &[deed], 0, out)?;
    Ok(())
}

// Does what a node does: on a sheet, or where it can't be done there, after what is on it.
#[inline(always)]
fn act(
    node: u32,
    by: u32,
    actor: &mut Actor,
    sheet: &mut Sheet,
    out: &mut Vec<u8>,
) -> Result<(), Memory>
    requires usable { IsTrue actor.old.usable }
    requires node { node < length actor.old.machine.nodes }
    requires sheet { IsSheet sheet.old }
    ensures did { OnOk result (state_with sheet.new out.new.items actor.new.holding
        ≡ after_move (node_moves actor.old.machine.nodes by)
        (state_with sheet.old out.old.items actor.old.holding)) }
    ensures sheet { OnOk result (IsSheet sheet.new × IsAsLong sheet.old sheet.new) }
    ensures same { (actor.new.machine ≡ actor.old.machine)
        × (actor.new.refused ≡ actor.old.refused) }
    ensures usable { OnOk result (IsTrue actor.new.usable) }
{
    let deed = actor.deed_of(Action::Node(by));
    if actor.act_at(deed, 0, sheet)? {
        return Ok(());
    }
    act_behind(node, deed, actor, sheet, out)
}

// Does one of the acts.
#[inline(always)]
fn perform_one(
    node: u32,
    piece: &[u8],
    one: LeapAct,
    actor: &mut Actor,
    sheet: &mut Sheet,
    out: &mut Vec<u8>,
) -> Result<(), Memory>
    requires usable { IsTrue actor.old.usable }
    requires node { node < length actor.old.machine.nodes }
    requires sheet { IsSheet sheet.old }
    requires some { 0 < length sheet.old.bytes.items }
    requires within { IsActWithin (length piece.now) one }
    ensures did { OnOk result (state_with sheet.new out.new.items actor.new.holding
        ≡ after_act actor.old.machine.nodes (act_in piece.now one)
        (state_with sheet.old out.old.items actor.old.holding)) }
    ensures sheet { OnOk result (IsSheet sheet.new × IsAsLong sheet.old sheet.new) }
    ensures same { (actor.new.machine ≡ actor.old.machine)
        × (actor.new.refused ≡ actor.old.refused) }
    ensures usable { OnOk result (IsTrue actor.new.usable) }
{
    match one {
        LeapAct::Text { from, to } => {
            if to - from > sheet.bytes.len() - sheet.used {
                return put_in_parts(node, &piece[from..to], actor, sheet, out);
            }
            put_on(sheet, piece, from, to);
            Ok(())
        }
        LeapAct::Effect(by) => act(node, by, actor, sheet, out),
    }
}

// What the first of some acts do, and how many those are.
#[derive(Clone, Copy)]
struct FirstActs {
    act: LeapAct,
    count: usize,
}

// The first acts that are one: a text and those that begin where it ends, or the first act alone.
#[inline(always)]
fn join(acts: &[LeapAct]) -> FirstActs
    requires some { 0 < length acts.now }
    ensures does { DoesAll (take result.count acts.now) result.act }
    ensures some { 0 < result.count }
    ensures within { result.count ≤ length acts.now }
{
    let LeapAct::Text { from, to } = acts[0] else {
        return FirstActs {
            act: acts[0],
            count: 1,
        };
    };
    let mut end = to;
    let mut count = 1;
    'acts: while count < acts.len() {
        match acts[count] {
            LeapAct::Text { from: next, to } if next == end => end = to,
            _ => break,
        }
        count += 1;
    }
    let act = LeapAct::Text { from, to: end };
    FirstActs { act, count }
}

/// Does acts of a piece, one after another, on a sheet, and goes by a node where that has to be
/// handed on meanwhile.
pub fn perform(
    node: u32,
    piece: &[u8],
    acts: &[LeapAct],
    actor: &mut Actor,
    sheet: &mut Sheet,
    out: &mut Vec<u8>,
) -> Result<(), Memory>
    requires usable { IsTrue actor.old.usable }
    requires node { node < length actor.old.machine.nodes }
    requires sheet { IsSheet sheet.old }
    requires some { 0 < length sheet.old.bytes.items }
    requires within { AreActsWithin (length piece.now) acts.now }
    ensures did { OnOk result (state_with sheet.new out.new.items actor.new.holding
        ≡ after_acts actor.old.machine.nodes (acts_in piece.now acts.now)
        (state_with sheet.old out.old.items actor.old.holding)) }
    ensures sheet { OnOk result (IsSheet sheet.new × IsAsLong sheet.old sheet.new) }
    ensures same { (actor.new.machine ≡ actor.old.machine)
        × (actor.new.refused ≡ actor.old.refused) }
    ensures usable { OnOk result (IsTrue actor.new.usable) }
{
    let mut at = 0;
    'acts: while at < acts.len() {
        let next = join(&acts[at..]);
        perform_one(node, piece, next.act, actor, sheet, out)?;
        at += next.count;
    }
    Ok(())
}
