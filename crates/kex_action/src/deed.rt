// What is done at a step where that was looked up beforehand.

ghost use Rattle.std.specs.Prelude.{◌≡◌, ◌≤◌, false, IfOk, IfSome, IfNone, IsTrue, OnOk, List, ℕ};
ghost use Rattle.std.specs.Prelude.{length, take};
ghost use Rattle.kex_model.specs.Acting.{ActingState, after_effect};
ghost use Rattle.kex_machine.specs.Nodes.{node_moves, effect_of, HasRegisters};
ghost use Rattle.kex_action.specs.Holdings.{state_of};
ghost use Rattle.kex_action.specs.Actions.{after_move, after_action};
ghost use Rattle.kex_action.specs.Deeds.{after_deed, after_deeds};
ghost use Rattle.kex_action.specs.Sheets.{IsSheet, IsAsLong, state_with};

use crate::action::Action;
use crate::sheet::Sheet;
use crate::store::Store;
use kex_code::memory::Memory;
use kex_machine::{Effect, MNode, Trimmed};

/// What an action does, as far as it is looked up beforehand: the byte that is read is written, or
/// another; a buffer is opened, dropped, or moved into a register; a register is written; or a node
/// does what it does.
#[derive(Clone, Copy, Debug, PartialEq, Eq)]
pub enum Deed {
    Byte,
    Put(u8),
    Open,
    Drop,
    Into(u32),
    Write(u32),
    Node(u32),
}

// What a node does, if it does anything.
#[inline(always)]
fn effect_at(machine: &Trimmed, n: u32) -> Option<&Effect>
    ensures did { IfSome result (λ e. (s : ActingState)
        → after_move (node_moves machine.now.nodes n) s ≡ after_effect (effect_of e.now) s) }
    ensures registers { IfSome result (λ e. HasRegisters machine.now.registers e.now) }
    ensures none { IfNone result ((s : ActingState)
        → after_move (node_moves machine.now.nodes n) s ≡ s) }
{
    match machine.nodes().get(n as usize) {
        Some(MNode::Do(effect, _)) => Some(effect),
        _ => None,
    }
}

/// The deed of an action.
#[inline(always)]
pub fn deed_of(machine: &Trimmed, action: Action) -> Deed
    ensures { (b : ℕ) (s : ActingState) → after_deed machine.now.nodes b result s
        ≡ after_action machine.now.nodes b action s }
{
    let Action::Node(n) = action else {
        return Deed::Byte;
    };
    match effect_at(machine, n) {
        Some(Effect::Lit(bytes)) => match bytes.as_slice() {
            [byte] => Deed::Put(*byte),
            _ => Deed::Node(n),
        },
        Some(Effect::Open) => Deed::Open,
        Some(Effect::Drop) => Deed::Drop,
        Some(Effect::Into(r)) => Deed::Into(*r),
        Some(Effect::Write(r)) => Deed::Write(*r),
        _ => Deed::Node(n),
    }
}

// Does a deed, where this byte is read.
fn act(
    machine: &Trimmed,
    deed: Deed,
    byte: u8,
    store: &mut Store,
    out: &mut Vec<u8>,
) -> Result<(), Memory>
    requires { length store.old.registers ≡ machine.now.registers }
    ensures { OnOk result (state_of out.new.items store.new
        ≡ after_deed machine.now.nodes byte deed (state_of out.old.items store.old)) }
{
    match deed {
        Deed::Byte => store.write(&[byte], out),
        Deed::Put(put) => store.write(&[put], out),
        Deed::Open => store.open(),
        Deed::Drop => {
            store.drop_innermost();
            Ok(())
        }
        Deed::Into(r) => {
            store.move_into(r);
            Ok(())
        }
        Deed::Write(r) => store.write_register(r, out),
        Deed::Node(n) => match effect_at(machine, n) {
            Some(effect) => store.perform(effect, out),
            None => Ok(()),
        },
    }
}

/// Does deeds one after another, where this byte is read.
pub fn act_all(
    machine: &Trimmed,
    deeds: &[Deed],
    byte: u8,
    store: &mut Store,
    out: &mut Vec<u8>,
) -> Result<(), Memory>
    requires { length store.old.registers ≡ machine.now.registers }
    ensures { OnOk result (state_of out.new.items store.new
        ≡ after_deeds machine.now.nodes byte deeds.now (state_of out.old.items store.old)) }
{
    for deed in deeds {
        act(machine, *deed, byte, store, out)?;
    }
    Ok(())
}

// Does what a node does on a sheet. False where it can't be done there: nothing is done then.
#[inline(never)]
fn act_by(machine: &Trimmed, n: u32, store: &mut Store, sheet: &mut Sheet) -> Result<bool, Memory>
    requires registers { length store.old.registers ≡ machine.now.registers }
    requires sheet { IsSheet sheet.old }
    ensures did { IfOk result (λ b. IsTrue b → (out : List ℕ) → state_with sheet.new out store.new
        ≡ after_move (node_moves machine.now.nodes n) (state_with sheet.old out store.old)) }
    ensures stays { IfOk result (λ b. b ≡ false → (out : List ℕ)
        → state_with sheet.new out store.new ≡ state_with sheet.old out store.old) }
    ensures sheet { OnOk result (IsSheet sheet.new × IsAsLong sheet.old sheet.new) }
{
    match effect_at(machine, n) {
        Some(effect) => store.perform_on(effect, sheet),
        None => Ok(false),
    }
}

/// Does a deed on a sheet, where this byte is read. False where it can't be done there: nothing is
/// done then.
#[inline(always)]
pub fn act_at(
    machine: &Trimmed,
    deed: Deed,
    byte: u8,
    store: &mut Store,
    sheet: &mut Sheet,
) -> Result<bool, Memory>
    requires registers { length store.old.registers ≡ machine.now.registers }
    requires sheet { IsSheet sheet.old }
    ensures did { IfOk result (λ b. IsTrue b → (out : List ℕ) → state_with sheet.new out store.new
        ≡ after_deed machine.now.nodes byte deed (state_with sheet.old out store.old)) }
    ensures stays { IfOk result (λ b. b ≡ false → (out : List ℕ)
        → state_with sheet.new out store.new ≡ state_with sheet.old out store.old) }
    ensures sheet { OnOk result (IsSheet sheet.new × IsAsLong sheet.old sheet.new) }
{
    match deed {
        Deed::Byte => Ok(sheet.write_byte(byte)),
        Deed::Put(put) => Ok(sheet.write_byte(put)),
        Deed::Open => {
            sheet.open()?;
            Ok(true)
        }
        Deed::Drop => Ok(sheet.close().is_some()),
        Deed::Into(r) => store.take_from(r, sheet),
        Deed::Write(r) => Ok(store.write_on(r, sheet)),
        Deed::Node(n) => act_by(machine, n, store, sheet),
    }
}

/// Does deeds on a sheet, one after another, where this byte is read. Tells how many were done.
#[inline(always)]
pub fn act_on(
    machine: &Trimmed,
    deeds: &[Deed],
    byte: u8,
    store: &mut Store,
    sheet: &mut Sheet,
) -> Result<usize, Memory>
    requires registers { length store.old.registers ≡ machine.now.registers }
    requires sheet { IsSheet sheet.old }
    ensures did { IfOk result (λ n. (out : List ℕ)
        → state_with sheet.new out store.new ≡ after_deeds machine.now.nodes byte
        (take n deeds.now) (state_with sheet.old out store.old)) }
    ensures count { IfOk result (λ n. n ≤ length deeds.now) }
    ensures sheet { OnOk result (IsSheet sheet.new × IsAsLong sheet.old sheet.new) }
{
    for (count, deed) in deeds.iter().enumerate() {
        if !act_at(machine, *deed, byte, store, sheet)? {
            return Ok(count);
        }
    }
    Ok(deeds.len())
}
