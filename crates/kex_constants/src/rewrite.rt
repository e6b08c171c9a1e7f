// Constants in place of their registers.

ghost use Rattle.std.specs.Prelude.{◌≡◌, ◌++◌, IfOk, OnOk, map, get_or, None};
ghost use Rattle.kex_constants.specs.Known.{item_if_kept};
ghost use Rattle.kex_constants.specs.Clearing.{puts_bits, parts_for, cleared_parts, cleared_change};
ghost use Rattle.kex_constants.specs.Clearing.{cleared_transition, cleared_way, cleared_state};
ghost use Rattle.kex_constants.specs.Clearing.{cleared_states, cleared_table};

use crate::choices::Choices;
use crate::known::{Constants, Known, constant_of};
use kex_code::memory::Memory;
use kex_code::symbol::Symbol;
use kex_machine::Bit;
use kex_sst::fan::Fan;
use kex_sst::parts::{Part, Parts, Update};
use kex_sst::table::{State, Table, Transition};
use kex_sst::updates::Updates;
use std::alloc::Global;

fn put_choices(choices: &[Bit], into: &mut Parts) -> Result<(), Memory>
    ensures { OnOk result (into.new ≡ into.old ++ puts_bits choices.now) }
{
    for side in choices {
        into.push(Part::Put(Symbol::from(*side)))?;
    }
    Ok(())
}

// Adds what replaces a part: a constant, or a register by its new number, or the part itself.
fn put(part: Part, known: &Known, into: &mut Parts) -> Result<(), Memory>
    ensures { OnOk result (into.new ≡ into.old ++ parts_for known.now part) }
{
    match part {
        Part::Old(register) => match constant_of(known.constants(), register as usize) {
            Some(constant) => put_choices(constant.as_slice(), into),
            None => into.push(Part::Old(known.number(register))),
        },
        _ => into.push(part),
    }
}

// A list of parts with the constants in place of their registers.
fn replace(alloc: Global, parts: &Parts, known: &Known) -> Result<Parts, Memory>
    ensures { IfOk result (λ p. p ≡ cleared_parts known.now parts.now) }
{
    let mut list = Parts::new(alloc);
    for part in parts.as_slice() {
        put(*part, known, &mut list)?;
    }
    Ok(list)
}

// Adds the list that a register is given, if the register is kept.
fn put_list(
    alloc: Global,
    parts: &Parts,
    register: usize,
    from: &Known,
    to: &Known,
    into: &mut Vec<Parts>,
) -> Result<(), Memory>
    ensures { OnOk result (into.new.items ≡ into.old.items ++ map (λ x.
        cleared_parts from.now x) (item_if_kept (get_or to.now register None) parts.now)) }
{
    match constant_of(to.constants(), register) {
        Some(_) => Ok(()),
        None => {
            into.push(replace(alloc, parts, from)?)?;
            Ok(())
        }
    }
}

// An update between the registers that are kept.
fn clear(alloc: Global, update: &Update, from: &Known, to: &Known) -> Result<Update, Memory>
    ensures { IfOk result (λ u. u ≡ cleared_change from.now update.now to.now) }
{
    let out = replace(alloc, update.out(), from)?;
    let mut regs = Vec::with_capacity(alloc, update.regs().len())?;
    for (register, parts) in update.regs().iter().enumerate() {
        put_list(alloc, parts, register, from, to, &mut regs)?;
    }
    // Mostly few registers are kept.
    regs.shrink_to_fit();
    Ok(Update::new(out, regs))
}

fn clear_transition(
    alloc: Global,
    transition: &Option<Transition>,
    from: &Known,
    constants: &Constants,
    updates: &mut Updates,
) -> Result<Option<Transition>, Memory>
    ensures { IfOk result (λ r. r ≡ cleared_transition constants.now from.now transition.now) }
{
    match transition {
        None => Ok(None),
        Some(Transition { target, update }) => {
            let to = constants.known(*target as usize);
            let update = clear(alloc, update.get(), from, to)?;
            Ok(Some(Transition {
                target: *target,
                update: updates.share(update)?,
            }))
        }
    }
}

fn clear_all(
    alloc: Global,
    all: &[Option<Transition>],
    from: &Known,
    constants: &Constants,
    updates: &mut Updates,
) -> Result<Vec<Option<Transition>>, Memory>
    ensures { IfOk result (λ v. v.items
        ≡ map (λ r. cleared_transition constants.now from.now r) all.now) }
{
    let mut cleared = Vec::with_capacity(alloc, all.len())?;
    for transition in all {
        cleared.push(clear_transition(alloc, transition, from, constants, updates)?)?;
    }
    Ok(cleared)
}

// The transitions of a state: those that classes share stay shared.
fn clear_transitions(
    alloc: Global,
    go: &Fan,
    from: &Known,
    constants: &Constants,
    updates: &mut Updates,
) -> Result<Fan, Memory>
    ensures { IfOk result (λ f. f
        ≡ map (λ r. cleared_transition constants.now from.now r) go.now) }
{
    let (numbers, different) = go.parts();
    let cleared = clear_all(alloc, different, from, constants, updates)?;
    Fan::from_parts(alloc, go.len(), numbers, cleared)
}

// What is on the way to the leaf at which a text may end.
fn clear_way(alloc: Global, state: &State, known: &Known) -> Result<Option<Parts>, Memory>
    ensures { IfOk result (λ way. way ≡ cleared_way known.now state.now.accepting) }
{
    match state.accepting() {
        None => Ok(None),
        Some(way) => Ok(Some(replace(alloc, way, known)?)),
    }
}

fn clear_state(
    alloc: Global,
    state: &State,
    known: &Known,
    constants: &Constants,
    updates: &mut Updates,
) -> Result<State, Memory>
    ensures { IfOk result (λ s. s ≡ cleared_state constants.now known.now state.now) }
{
    let registers = known.number(state.registers());
    let accepting = clear_way(alloc, state, known)?;
    let go = clear_transitions(alloc, state.go(), known, constants, updates)?;
    Ok(State::new(registers, accepting, go))
}

fn clear_states(
    alloc: Global,
    states: &[State],
    constants: &Constants,
    updates: &mut Updates,
) -> Result<Vec<State>, Memory>
    ensures { IfOk result (λ v. v.items ≡ cleared_states constants.now 0 states.now) }
{
    let mut cleared = Vec::with_capacity(alloc, states.len())?;
    for (number, state) in states.iter().enumerate() {
        cleared.push(clear_state(alloc, state, constants.known(number), constants, updates)?)?;
    }
    Ok(cleared)
}

/// The table with each constant in place of its register.
pub fn without_constants(
    alloc: Global,
    table: &Table,
    constants: &Constants,
) -> Result<Table, Memory>
    ensures { IfOk result (λ t. t ≡ cleared_table constants.now table.now) }
{
    let none = Known::new(alloc, Vec::new(alloc))?;
    let mut updates = Updates::new(alloc);
    let initial = clear(alloc, table.initial(), &none, constants.known(0))?;
    let states = clear_states(alloc, table.states(), constants, &mut updates)?;
    Ok(Table::new(table.partition().copy(), initial, states))
}
