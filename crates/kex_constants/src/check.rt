// Checking that registers always hold their constants.

ghost use Rattle.std.specs.Prelude.{◌≡◌, ℕ, List, [], ◌++◌, Some, IfOk, IsTrue, IfSome, map};
ghost use Rattle.std.specs.Prelude.{get_or, slice_get};
ghost use Rattle.kex_code.specs.declared.symbol.Symbol.{Symbol as ASymbol};
ghost use Rattle.kex_machine.specs.declared.Bit.{Bit as ABit};
ghost use Rattle.kex_machine.specs.Nodes.{side_of};
ghost use Rattle.kex_model.specs.Moves.{symbol_of};
ghost use Rattle.kex_sst.specs.Parts.{value, parts_code};
ghost use Rattle.kex_sst.specs.Tables.{transition_if};
ghost use Rattle.kex_constants.specs.Known.{Hold, symbols};
ghost use Rattle.kex_constants.specs.Clearing.{GivesConstants, GivesIf, HoldAlways};

use crate::choices::Choices;
use crate::known::{Constants, constant_of};
use kex_code::memory::Memory;
use kex_code::symbol::Symbol;
use kex_machine::Bit;
use kex_sst::fan::Fan;
use kex_sst::parts::{Part, Parts, Update};
use kex_sst::table::{Table, Transition};
use std::alloc::Global;

// The side of a choice; a byte has none.
fn side_at(symbol: Symbol) -> Option<Bit>
    ensures { IfSome result (λ side. symbol_of (side_of side) ≡ symbol) }
{
    match symbol {
        Symbol::L => Some(Bit::L),
        Symbol::R => Some(Bit::R),
        Symbol::Byte(_) => None,
    }
}

// Adds the choices of a part, if they are known.
fn spell(part: Part, known: &[Option<Choices>], into: &mut Choices) -> Result<bool, Memory>
    ensures { IfOk result (λ yes. IsTrue yes → (regs : List (List ASymbol)) (b : ℕ)
        → Hold known.now regs → symbols into.new ≡ symbols into.old ++ value regs b part) }
{
    match part {
        Part::Put(symbol) => match side_at(symbol) {
            Some(side) => into.push(side)?,
            None => return Ok(false),
        },
        Part::Old(register) => match constant_of(known, register as usize) {
            Some(constant) => into.append(constant)?,
            None => return Ok(false),
        },
        Part::Input => return Ok(false),
    }
    Ok(true)
}

/// Whether the choices of a list of parts are known: then `into` has them.
pub fn spelled(
    parts: &[Part],
    known: &[Option<Choices>],
    into: &mut Choices,
) -> Result<bool, Memory>
    ensures { IfOk result (λ yes. IsTrue yes → (regs : List (List ASymbol)) (b : ℕ)
        → Hold known.now regs → parts_code regs b parts.now ≡ symbols into.new) }
{
    into.clear();
    for part in parts {
        if !spell(*part, known, into)? {
            return Ok(false);
        }
    }
    Ok(true)
}

// Whether a register is given its constant, if it has one, where the old registers hold theirs.
fn is_given(
    lists: &[Parts],
    register: usize,
    from: &[Option<Choices>],
    constant: &Option<Choices>,
    spare: &mut Choices,
) -> Result<bool, Memory>
    ensures { IfOk result (λ yes. IsTrue yes → (c : List ABit) → constant.now ≡ Some c
        → (regs : List (List ASymbol)) (b : ℕ) → Hold from.now regs
        → get_or (map (λ x. parts_code regs b x) lists.now) register [] ≡ symbols c) }
{
    match constant {
        None => Ok(true),
        Some(wanted) => {
            if register >= lists.len() {
                return Ok(false);
            }
            let parts = &lists[register];
            Ok(spelled(parts.as_slice(), from, spare)? && spare.is_same(wanted))
        }
    }
}

/// Whether an update gives each new register its constant, where the old ones hold theirs.
pub fn gives(
    update: &Update,
    from: &[Option<Choices>],
    to: &[Option<Choices>],
    spare: &mut Choices,
) -> Result<bool, Memory>
    ensures { IfOk result (λ yes. IsTrue yes → GivesConstants from.now update.now to.now) }
{
    for (register, constant) in to.iter().enumerate() {
        if !is_given(update.regs(), register, from, constant, spare)? {
            return Ok(false);
        }
    }
    Ok(true)
}

fn transition_gives(
    transition: &Option<Transition>,
    from: &[Option<Choices>],
    constants: &Constants,
    spare: &mut Choices,
) -> Result<bool, Memory>
    ensures { IfOk result (λ yes. IsTrue yes → GivesIf constants.now from.now transition.now) }
{
    match transition {
        None => Ok(true),
        Some(transition) => {
            let to = constants.known(transition.target as usize);
            gives(transition.update.get(), from, to.constants(), spare)
        }
    }
}

// Whether all transitions of a state give constants where it holds its own.
fn state_gives(
    go: &Fan,
    from: &[Option<Choices>],
    constants: &Constants,
    spare: &mut Choices,
) -> Result<bool, Memory>
    ensures { IfOk result (λ yes. IsTrue yes → (k : ℕ)
        → GivesIf constants.now from.now (transition_if (slice_get go.now k))) }
{
    let (_numbers, different) = go.parts();
    for transition in different {
        if !transition_gives(transition, from, constants, spare)? {
            return Ok(false);
        }
    }
    Ok(true)
}

// Whether the initial update gives constants, and each transition where constants are held.
fn are_constant(alloc: Global, table: &Table, constants: &Constants) -> Result<bool, Memory>
    ensures { IfOk result (λ yes. IsTrue yes → HoldAlways table.now constants.now) }
{
    let mut spare = Choices::new(alloc);
    let first = constants.known(0);
    if !gives(table.initial(), &[], first.constants(), &mut spare)? {
        return Ok(false);
    }
    let states = table.states();
    for (number, state) in states.iter().enumerate() {
        let from = constants.known(number);
        if !state_gives(state.go(), from.constants(), constants, &mut spare)? {
            return Ok(false);
        }
    }
    Ok(true)
}

/// The constants that were guessed, if registers always hold them; else none.
pub fn checked(alloc: Global, table: &Table, guess: Constants) -> Result<Constants, Memory>
    ensures { IfOk result (λ c. HoldAlways table.now c) }
{
    if are_constant(alloc, table, &guess)? {
        return Ok(guess);
    }
    Constants::new(alloc, Vec::new(alloc))
}
