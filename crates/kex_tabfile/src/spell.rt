// How lines are spelled.

ghost use Rattle.std.specs.Prelude.{◌≡◌, ℕ, ◌++◌, OnOk, codes, decimal, length};
ghost use Rattle.kex_model.specs.Labelled.{Shape};
ghost use Rattle.kex_paths.specs.Nexts.{IsOfShape};
ghost use Rattle.kex_tabfile.specs.Lines.{go_front, go_rest, init_line, part_text};
ghost use Rattle.kex_tabfile.specs.Lines.{parts_text, registers_text, size_line, stage_front};
ghost use Rattle.kex_tabfile.specs.Lines.{state_line, update_text};

use crate::trees::push_tree;
use itoa::Buffer;
use kex_code::memory::Memory;
use kex_code::symbol::Symbol;
use kex_paths::tree::PathTree;
use kex_sst::parts::{Part, Parts, Update};
use std::alloc::Global;

/// Writes a number.
pub(crate) fn push_number(number: u32, line: &mut Vec<u8>) -> Result<(), Memory>
    ensures { OnOk result (line.new.items ≡ line.old.items ++ decimal number) }
{
    let mut digits = Buffer::new();
    line.extend_from_slice(digits.format(number).as_bytes())?;
    Ok(())
}

// Writes a part of what an update gives.
fn push_part(part: Part, line: &mut Vec<u8>) -> Result<(), Memory>
    ensures { OnOk result (line.new.items ≡ line.old.items ++ part_text part) }
{
    match part {
        Part::Put(Symbol::L) => line.push(b'0')?,
        Part::Put(Symbol::R) => line.push(b'1')?,
        // No update gives a byte of its own.
        Part::Put(Symbol::Byte(_)) => {}
        Part::Old(register) => {
            let mut digits = Buffer::new();
            line.push(b'$')?;
            line.extend_from_slice(digits.format(u64::from(register) + 1).as_bytes())?;
            line.push(b';')?;
        }
        Part::Input => line.push(b'.')?,
    }
    Ok(())
}

fn push_parts(parts: &[Part], line: &mut Vec<u8>) -> Result<(), Memory>
    ensures { OnOk result (line.new.items ≡ line.old.items ++ parts_text parts.now) }
{
    for part in parts {
        push_part(*part, line)?;
    }
    Ok(())
}

fn push_registers(registers: &[Parts], line: &mut Vec<u8>) -> Result<(), Memory>
    ensures { OnOk result (line.new.items ≡ line.old.items ++ registers_text registers.now) }
{
    for parts in registers {
        line.push(b',')?;
        push_parts(parts.as_slice(), line)?;
    }
    Ok(())
}

fn push_update(update: &Update, line: &mut Vec<u8>) -> Result<(), Memory>
    ensures { OnOk result (line.new.items ≡ line.old.items ++ update_text update.now) }
{
    push_parts(update.out().as_slice(), line)?;
    push_registers(update.regs(), line)
}

/// Writes the line of a text's size.
pub(crate) fn push_size_line(size: u32, line: &mut Vec<u8>) -> Result<(), Memory>
    ensures { OnOk result (line.new.items ≡ line.old.items ++ size_line size) }
{
    line.extend_from_slice(b"text ")?;
    push_number(size, line)?;
    line.push(b'\n')?;
    Ok(())
}

/// Writes the front of a stage's line, up to the number of states.
pub(crate) fn push_stage_front(stage: u32, classes: u16, line: &mut Vec<u8>) -> Result<(), Memory>
    ensures { OnOk result (line.new.items ≡ line.old.items ++ stage_front stage classes) }
{
    line.extend_from_slice(b"stage ")?;
    push_number(stage, line)?;
    line.extend_from_slice(b" classes ")?;
    push_number(u32::from(classes), line)?;
    line.extend_from_slice(b" states ")?;
    Ok(())
}

/// Writes the rest of a stage's line.
pub(crate) fn push_stage_rest(states: u32, line: &mut Vec<u8>) -> Result<(), Memory>
    ensures { OnOk result (line.new.items ≡ line.old.items ++ (decimal states ++ codes "\n")) }
{
    push_number(states, line)?;
    line.push(b'\n')?;
    Ok(())
}

/// Writes the line of a state.
pub(crate) fn push_state_line(
    alloc: Global,
    numbers: &[u32],
    state: u32,
    tree: &PathTree,
    line: &mut Vec<u8>,
) -> Result<(), Memory>
    requires { length numbers.now ≡ length tree.now.machine.nodes }
    ensures { OnOk result ((s : Shape ℕ) → IsOfShape tree.now s
        → line.new.items ≡ line.old.items ++ state_line numbers.now state s) }
{
    line.extend_from_slice(b"state ")?;
    push_number(state, line)?;
    line.push(b' ')?;
    push_tree(alloc, numbers, tree.shape(), tree.leaves(), line)?;
    line.push(b'\n')?;
    Ok(())
}

/// Writes the line of the start's update.
pub(crate) fn push_init_line(update: &Update, line: &mut Vec<u8>) -> Result<(), Memory>
    ensures { OnOk result (line.new.items ≡ line.old.items ++ init_line update.now) }
{
    line.extend_from_slice(b"init ")?;
    push_update(update, line)?;
    line.push(b'\n')?;
    Ok(())
}

/// Writes the front of a line by which a state goes on, up to the target.
pub(crate) fn push_go_front(state: u32, class: u8, line: &mut Vec<u8>) -> Result<(), Memory>
    ensures { OnOk result (line.new.items ≡ line.old.items ++ go_front state class) }
{
    line.extend_from_slice(b"go ")?;
    push_number(state, line)?;
    line.push(b' ')?;
    push_number(u32::from(class), line)?;
    line.push(b' ')?;
    Ok(())
}

/// Writes the rest of such a line.
pub(crate) fn push_go_rest(target: u32, update: &Update, line: &mut Vec<u8>) -> Result<(), Memory>
    ensures { OnOk result (line.new.items ≡ line.old.items ++ go_rest target update.now) }
{
    push_number(target, line)?;
    line.push(b' ')?;
    push_update(update, line)?;
    line.push(b'\n')?;
    Ok(())
}
