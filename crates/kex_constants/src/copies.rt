// Guessing copies of states: for some ways into a state all its registers are constant, and the
// first lists of such constants have a copy each. Procedures are cloned so for constants (Metzger
// and Stroud, Interprocedural constant propagation, ACM LOPLAS 1993). Nothing is promised of a
// guess: it is checked.

use crate::check::spelled;
use crate::choices::Choices;
use crate::shared::are_same;
use kex_code::memory::Memory;
use kex_sst::fan::Fan;
use kex_sst::parts::Update;
use kex_sst::table::{Table, Transition};
use std::alloc::Global;

/// How many copies a state has at most beside the one for all other ways.
const MOST_CONSTANT: usize = 4;

/// A copy of a state, and the copies to which the transitions lead that differ.
#[derive(Drop)]
pub struct StateCopy {
    pub of: u32,
    pub targets: Vec<u32>,
}

// A copy that was met, with what its registers hold if all are constant.
#[derive(Drop)]
struct MetCopy {
    of: u32,
    constants: Vec<Option<Choices>>,
}

// The copies that were met, and by state their numbers.
#[derive(Drop)]
struct CopyGuess {
    alloc: Global,
    longest: usize,
    met: Vec<MetCopy>,
    numbers: Vec<Vec<u32>>,
    spare: Choices,
}

// What the registers of a copy hold, if all are constant and it was met.
fn constants_of(met: &[MetCopy], copy: usize) -> &[Option<Choices>] {
    match met.get(copy) {
        Some(met) => &met.constants,
        None => &[],
    }
}

impl CopyGuess {
    // No copy was met.
    fn new(alloc: Global, longest: usize, count: usize) -> Result<CopyGuess, Memory> {
        let mut numbers = Vec::with_capacity(alloc, count)?;
        for _ in 0..count {
            numbers.push(Vec::new(alloc))?;
        }
        Ok(CopyGuess {
            alloc,
            longest,
            met: Vec::new(alloc),
            numbers,
            spare: Choices::new(alloc),
        })
    }

    // What an update at a copy gives the new registers, if all of it is known and not too long.
    // Else nothing.
    fn given(&mut self, update: &Update, copy: usize) -> Result<Vec<Option<Choices>>, Memory> {
        let mut given = Vec::new(self.alloc);
        let from = constants_of(&self.met, copy);
        for parts in update.regs() {
            let known = spelled(parts.as_slice(), from, &mut self.spare)?;
            if !known || self.spare.len() > self.longest {
                return Ok(Vec::new(self.alloc));
            }
            given.push(Some(self.spare.copy(self.alloc)?))?;
        }
        Ok(given)
    }

    // The number of the copy of a state with these constants, if it was met.
    fn find(&self, state: u32, constants: &[Option<Choices>]) -> Option<u32> {
        for number in self.numbers.get(state as usize)? {
            if let Some(met) = self.met.get(*number as usize) {
                if are_same(&met.constants, constants) {
                    return Some(*number);
                }
            }
        }
        None
    }

    // Whether a state has as many copies with constants as it may have.
    fn is_full(&self, state: u32) -> bool {
        let Some(numbers) = self.numbers.get(state as usize) else {
            return true;
        };
        let mut count: usize = 0;
        for number in numbers {
            if !constants_of(&self.met, *number as usize).is_empty() {
                count = count.saturating_add(1);
            }
        }
        count >= MOST_CONSTANT
    }

    // Meets a new copy of a state, and tells its number.
    fn meet(&mut self, state: u32, constants: Vec<Option<Choices>>) -> Result<u32, Memory> {
        // There are never as many copies as that.
        let Ok(number) = u32::try_from(self.met.len()) else {
            return Ok(0);
        };
        if let Some(numbers) = self.numbers.get_mut(state as usize) {
            numbers.push(number)?;
        }
        self.met.push(MetCopy {
            of: state,
            constants,
        })?;
        Ok(number)
    }

    // The number of the copy of a state into which an update at a copy leads.
    fn target(&mut self, state: u32, update: &Update, copy: usize) -> Result<u32, Memory> {
        let mut given = self.given(update, copy)?;
        if let Some(number) = self.find(state, &given) {
            return Ok(number);
        }
        if self.is_full(state) {
            given.clear();
            if let Some(number) = self.find(state, &given) {
                return Ok(number);
            }
        }
        self.meet(state, given)
    }

    // The copies to which the transitions of a copy lead that differ.
    fn targets(&mut self, go: &Fan, copy: usize) -> Result<Vec<u32>, Memory> {
        let (_numbers, different) = go.parts();
        let mut targets = Vec::with_capacity(self.alloc, different.len())?;
        for transition in different {
            let number = match transition {
                None => 0,
                Some(Transition { target, update }) => self.target(*target, update.get(), copy)?,
            };
            targets.push(number)?;
        }
        Ok(targets)
    }
}

/// Copies of a table's states, of which the first is entered before the first byte. A constant has
/// at most `longest` choices.
pub fn guessed_copies(
    alloc: Global,
    table: &Table,
    longest: usize,
) -> Result<Vec<StateCopy>, Memory> {
    let states = table.states();
    let mut guess = CopyGuess::new(alloc, longest, states.len())?;
    let mut copies = Vec::new(alloc);
    guess.target(0, table.initial(), 0)?;
    let most = states.len().saturating_mul(MOST_CONSTANT + 1);
    for number in 0..most {
        let Some(met) = guess.met.get(number) else {
            break;
        };
        let of = met.of;
        let Some(state) = states.get(of as usize) else {
            break;
        };
        let targets = guess.targets(state.go(), number)?;
        copies.push(StateCopy { of, targets })?;
    }
    Ok(copies)
}
