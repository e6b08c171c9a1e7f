// What registers are known to hold, by state and register.

ghost use Rattle.std.specs.Prelude.{◌≡◌, [], Some, None, IfOk, IfSome, IfNone, get_or, map};
ghost use Rattle.kex_constants.specs.Known.{AreNumbers, kept_number, one_if_kept};
ghost use Rattle.kex_constants.specs.States.{constants_of};

use crate::choices::Choices;
use kex_code::memory::Memory;
use std::alloc::Global;
use std::marker::Model;
use std::rc::Rc;

/// What the registers of a state are known to hold, and which numbers the others have without them.
#[derive(Drop)]
pub struct Known {
    constants: Vec<Option<Choices>>,
    numbers: Vec<usize>,
}

impl Model for Known {
    ghost use Rattle.kex_constants.specs.Known.{Constants, AreNumbers};

    ghost Value = { Constants };

    ghost view = { λ k. k.constants.items };

    ghost invariant = { λ k. AreNumbers k.constants.items k.numbers.items };
}

impl Known {
    /// These constants, by register.
    pub fn new(alloc: Global, constants: Vec<Option<Choices>>) -> Result<Known, Memory>
        ensures { IfOk result (λ k. k ≡ constants.items) }
    {
        let numbers = numbers(alloc, &constants)?;
        Ok(Known { constants, numbers })
    }

    /// The constants, by register.
    pub fn constants(&self) -> &[Option<Choices>]
        ensures { result.now ≡ self.now }
    {
        &self.constants
    }

    /// The number of a register among those without a constant.
    pub fn number(&self, register: u32) -> u32
        ensures { result ≡ kept_number self.now register }
    {
        let at = register as usize;
        let past = self.constants.len();
        if at < past {
            self.numbers[at] as u32
        } else {
            (self.numbers[past] + (at - past)) as u32
        }
    }
}

/// The constant of a register, if there is one.
pub fn constant_of(constants: &[Option<Choices>], register: usize) -> Option<&Choices>
    ensures some { IfSome result (λ c. get_or constants.now register None ≡ Some c.now) }
    ensures none { IfNone result (get_or constants.now register None ≡ None) }
{
    match constants.get(register) {
        Some(Some(constant)) => Some(constant),
        _ => None,
    }
}

// One for a register that is kept.
fn count(constant: &Option<Choices>) -> usize
    ensures { result ≡ one_if_kept constant.now }
{
    match constant {
        None => 1,
        Some(_) => 0,
    }
}

// The new numbers of a state's registers, and of the next that there would be.
fn numbers(alloc: Global, constants: &[Option<Choices>]) -> Result<Vec<usize>, Memory>
    ensures { IfOk result (λ v. AreNumbers constants.now v.items) }
{
    let mut numbers = Vec::with_capacity(alloc, constants.len() + 1)?;
    let mut next: usize = 0;
    for constant in constants {
        numbers.push(next)?;
        next += count(constant);
    }
    numbers.push(next)?;
    Ok(numbers)
}

/// What is known of each state's registers; of a state without a list nothing is. States may share
/// a list.
#[derive(Drop)]
pub struct Constants {
    states: Vec<Option<Rc<Known>>>,
    nothing: Known,
}

impl Model for Constants {
    ghost use Rattle.std.specs.Prelude.{List, ◌≡◌, [], map};
    ghost use Rattle.kex_constants.specs.Known.{Constants};
    ghost use Rattle.kex_constants.specs.States.{constants_of};

    ghost Value = { List Constants };

    ghost view = { λ c. map constants_of c.states.items };

    ghost invariant = { λ c. c.nothing ≡ [] };
}

impl Constants {
    /// What is known of each state, by its number.
    pub fn new(alloc: Global, states: Vec<Option<Rc<Known>>>) -> Result<Constants, Memory>
        ensures { IfOk result (λ c. c ≡ map constants_of states.items) }
    {
        let nothing = Known::new(alloc, Vec::new(alloc))?;
        Ok(Constants { states, nothing })
    }

    /// What is known of a state: nothing past the last.
    pub fn known(&self, state: usize) -> &Known
        ensures { result.now ≡ get_or self.now state [] }
    {
        match self.states.get(state) {
            Some(Some(known)) => known,
            _ => &self.nothing,
        }
    }
}
