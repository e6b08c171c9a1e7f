// Guessing constants: what all ways into a state agree on, found by following those that are known,
// as constants of programs are (Kildall, A unified approach to global program optimization, POPL
// 1973). Nothing is promised of a guess: it is checked.

use crate::check::{gives, spelled};
use crate::choices::Choices;
use crate::known::{Constants, Known};
use crate::shared::{SharedLists, is_same};
use kex_code::memory::Memory;
use kex_sst::fan::Fan;
use kex_sst::parts::Update;
use kex_sst::table::{Table, Transition};
use std::alloc::Global;
use std::rc::Rc;

// What is thought of the registers of each state that was met, and the states whose transitions are
// to be followed.
#[derive(Drop)]
struct Guess {
    alloc: Global,
    longest: usize,
    lists: SharedLists,
    states: Vec<Option<Rc<Known>>>,
    todo: Vec<usize>,
    spare: Choices,
}

impl Guess {
    // No state was met.
    fn new(alloc: Global, longest: usize, count: usize) -> Result<Guess, Memory> {
        let mut states = Vec::with_capacity(alloc, count)?;
        for _ in 0..count {
            states.push(None)?;
        }
        Ok(Guess {
            alloc,
            longest,
            lists: SharedLists::new(alloc),
            states,
            todo: Vec::new(alloc),
            spare: Choices::new(alloc),
        })
    }

    // Whether an update of registers of which this is known gives a state that was met all that is
    // thought of it.
    fn agrees(
        &mut self,
        state: usize,
        update: &Update,
        from: &[Option<Choices>],
    ) -> Result<bool, Memory> {
        match self.states.get(state) {
            Some(Some(known)) => gives(update, from, known.constants(), &mut self.spare),
            _ => Ok(false),
        }
    }

    // What an update gives each new register, as far as that is known and not too long.
    fn given(
        &mut self,
        update: &Update,
        from: &[Option<Choices>],
    ) -> Result<Vec<Option<Choices>>, Memory> {
        let mut given = Vec::with_capacity(self.alloc, update.regs().len())?;
        for parts in update.regs() {
            let known = spelled(parts.as_slice(), from, &mut self.spare)?;
            if known && self.spare.len() <= self.longest {
                given.push(Some(self.spare.copy(self.alloc)?))?;
            } else {
                given.push(None)?;
            }
        }
        Ok(given)
    }

    // One more way into a state: an update of registers of which this is known. It is followed if
    // less is thought of it than before.
    fn meet(
        &mut self,
        state: usize,
        update: &Update,
        from: &[Option<Choices>],
    ) -> Result<(), Memory> {
        if self.agrees(state, update, from)? {
            return Ok(());
        }
        let mut given = self.given(update, from)?;
        if let Some(place) = self.states.get_mut(state) {
            if let Some(known) = place {
                narrow(&mut given, known.constants());
            }
            *place = Some(self.lists.share(given)?);
            self.todo.push(state)?;
        }
        Ok(())
    }

    // Each transition of a state is a way into its target.
    fn follow(&mut self, go: &Fan, state: usize) -> Result<(), Memory> {
        let Some(Some(known)) = self.states.get(state) else {
            return Ok(());
        };
        let known = Rc::clone(known)?;
        let (_numbers, different) = go.parts();
        for transition in different {
            if let Some(Transition { target, update }) = transition {
                self.meet(*target as usize, update.get(), known.constants())?;
            }
        }
        Ok(())
    }
}

// Registers that are given something else than was known of them have no constants.
fn narrow(given: &mut [Option<Choices>], known: &[Option<Choices>]) {
    for (given, known) in given.iter_mut().zip(known) {
        if !is_same(given, known) {
            *given = None;
        }
    }
}

// How often a state may be followed: each when it is met, and again for each constant that it
// loses.
fn follow_count(table: &Table) -> u64 {
    let mut count: u64 = 0;
    for state in table.states() {
        count = count.saturating_add(u64::from(state.registers()) + 1);
    }
    count
}

/// Constants of registers, none longer than `longest`: what all ways into a state agree on.
pub fn guessed(alloc: Global, table: &Table, longest: usize) -> Result<Constants, Memory> {
    let states = table.states();
    let mut guess = Guess::new(alloc, longest, states.len())?;
    guess.meet(0, table.initial(), &[])?;
    for _ in 0..follow_count(table) {
        match guess.todo.pop() {
            Some(state) if state < states.len() => guess.follow(states[state].go(), state)?,
            _ => break,
        }
    }
    Constants::new(alloc, guess.states)
}
