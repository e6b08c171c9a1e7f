// Copies of states, each for some of the ways into its state, so that more registers are constant.

ghost use Rattle.std.specs.Prelude.{◌≡◌, IfOk, IfSome};
ghost use Rattle.kex_machine.specs.Nodes.{Graph};
ghost use Rattle.kex_sst.specs.Machines.{IsBestTableOf, IsTableOf};
ghost use Rattle.kex_constants.specs.Alike.{SpeakAlike};
ghost use Rattle.kex_constants.specs.Copies.{AreCopies, GoAlike, GoesAlike, HasCopiedStates};
ghost use Rattle.kex_constants.specs.Copies.{IsCopy, originals};

use crate::copies::{StateCopy, guessed_copies};
use kex_code::memory::Memory;
use kex_sst::fan::Fan;
use kex_sst::parts::{Parts, Update};
use kex_sst::table::{State, Table, Transition};
use std::alloc::Global;

/// A table with more states isn't split.
const MOST_STATES: usize = 1_024;

/// Nor is one whose transitions give registers more lists: a guess would take longer than it saves.
const MOST_LISTS: usize = 16_384;

/// How many copies that makes at most: four of each state, and one for all other ways into it.
const MOST_COPIES: usize = 5_120;

// How many lists a table's transitions give to registers.
fn list_count(table: &Table) -> usize {
    let mut count: usize = 0;
    for state in table.states() {
        let (_numbers, different) = state.go().parts();
        let lists = (state.registers() as usize).saturating_mul(different.len());
        count = count.saturating_add(lists);
    }
    count
}

// The same lists again.
fn copy_lists(alloc: Global, lists: &[Parts]) -> Result<Vec<Parts>, Memory>
    ensures { IfOk result (λ copy. copy.items ≡ lists.now) }
{
    let mut copies = Vec::with_capacity(alloc, lists.len())?;
    for parts in lists {
        copies.push(parts.copy(alloc)?)?;
    }
    Ok(copies)
}

// The same update again.
fn copy_update(alloc: Global, update: &Update) -> Result<Update, Memory>
    ensures { IfOk result (λ u. u ≡ update.now) }
{
    let out = update.out().copy(alloc)?;
    let regs = copy_lists(alloc, update.regs())?;
    Ok(Update::new(out, regs))
}

// A transition that leads to a copy of its target, if this is one.
fn copy_transition(
    transition: &Option<Transition>,
    target: u32,
    copies: &[StateCopy],
) -> Result<Option<Option<Transition>>, Memory>
    ensures { IfOk result (λ o. IfSome o (GoesAlike (originals copies.now) transition.now)) }
{
    let Some(transition) = transition else {
        return Ok(Some(None));
    };
    if target as usize >= copies.len() {
        return Ok(None);
    }
    if copies[target as usize].of != transition.target {
        return Ok(None);
    }
    let update = transition.update.copy()?;
    Ok(Some(Some(Transition { target, update })))
}

// Transitions that lead to copies of their targets, if these are such.
fn copy_transitions(
    alloc: Global,
    transitions: &[Option<Transition>],
    targets: &[u32],
    copies: &[StateCopy],
) -> Result<Option<Vec<Option<Transition>>>, Memory>
    ensures { IfOk result (λ o. IfSome o (λ made.
        GoAlike (originals copies.now) transitions.now made.items)) }
{
    let mut made = Vec::with_capacity(alloc, transitions.len())?;
    for (i, transition) in transitions.iter().enumerate() {
        let Some(target) = targets.get(i) else {
            return Ok(None);
        };
        let Some(copy) = copy_transition(transition, *target, copies)? else {
            return Ok(None);
        };
        made.push(copy)?;
    }
    Ok(Some(made))
}

// The same by class.
fn copy_fan(
    alloc: Global,
    go: &Fan,
    targets: &[u32],
    copies: &[StateCopy],
) -> Result<Option<Fan>, Memory>
    ensures { IfOk result (λ o. IfSome o (GoAlike (originals copies.now) go.now)) }
{
    let (numbers, different) = go.parts();
    let Some(made) = copy_transitions(alloc, different, targets, copies)? else {
        return Ok(None);
    };
    let fan = Fan::from_parts(alloc, go.len(), numbers, made)?;
    Ok(Some(fan))
}

// What is on the way to the leaf at which a text may end, again.
fn copy_way(alloc: Global, state: &State) -> Result<Option<Parts>, Memory>
    ensures { IfOk result (λ way. way ≡ state.now.accepting) }
{
    match state.accepting() {
        None => Ok(None),
        Some(way) => Ok(Some(way.copy(alloc)?)),
    }
}

// A copy of a state, if its transitions can be copied.
fn copy_state(
    alloc: Global,
    state: &State,
    targets: &[u32],
    copies: &[StateCopy],
) -> Result<Option<State>, Memory>
    ensures { IfOk result (λ o. IfSome o (IsCopy (originals copies.now) state.now)) }
{
    let Some(go) = copy_fan(alloc, state.go(), targets, copies)? else {
        return Ok(None);
    };
    let accepting = copy_way(alloc, state)?;
    Ok(Some(State::new(state.registers(), accepting, go)))
}

// The states that are copies, if each can be copied.
fn copy_states(
    alloc: Global,
    states: &[State],
    copies: &[StateCopy],
) -> Result<Option<Vec<State>>, Memory>
    ensures { IfOk result (λ o. IfSome o (λ made.
        AreCopies (originals copies.now) states.now made.items)) }
{
    let mut made = Vec::with_capacity(alloc, copies.len())?;
    for copy in copies {
        let of = copy.of as usize;
        if of >= states.len() {
            return Ok(None);
        }
        let Some(state) = copy_state(alloc, &states[of], &copy.targets, copies)? else {
            return Ok(None);
        };
        made.push(state)?;
    }
    Ok(Some(made))
}

// The table whose states are copies, if they can be, and the first is one of the first.
fn copy_table(alloc: Global, table: &Table, copies: &[StateCopy]) -> Result<Option<Table>, Memory>
    ensures { IfOk result (λ o. IfSome o (λ t. HasCopiedStates table.now t)) }
{
    if copies.is_empty() || copies.len() > MOST_COPIES || copies[0].of != 0 {
        return Ok(None);
    }
    let Some(states) = copy_states(alloc, table.states(), copies)? else {
        return Ok(None);
    };
    let initial = copy_update(alloc, table.initial())?;
    Ok(Some(Table::new(table.partition().copy(), initial, states)))
}

/// A table that passes on the same, in which ways into a state lead to copies of it: one for each
/// list of constants that such ways give all its registers, at most four, and one for all others.
/// None where there would be no more states than before, and where the table is large.
pub fn split_table(alloc: Global, table: &Table, longest: usize) -> Result<Option<Table>, Memory>
    ensures alike { IfOk result (λ o. IfSome o (λ t. SpeakAlike table.now t)) }
    ensures machine { IfOk result (λ o. IfSome o (λ t. (g : Graph) → IsTableOf g table.now
        → IsTableOf g t)) }
    ensures best { IfOk result (λ o. IfSome o (λ t. (g : Graph) → IsBestTableOf g table.now
        → IsBestTableOf g t)) }
{
    let count = table.states().len();
    if count > MOST_STATES || list_count(table) > MOST_LISTS {
        return Ok(None);
    }
    let copies = guessed_copies(alloc, table, longest)?;
    if copies.len() <= count {
        return Ok(None);
    }
    let split = copy_table(alloc, table, &copies)?;
    Ok(split)
}
