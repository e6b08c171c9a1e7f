// Lists of constants, so that states of equal ones share them.

ghost use Rattle.std.specs.Prelude.{◌≡◌, true, IfOk, IfSome};

use crate::choices::Choices;
use crate::known::Known;
use indexmap::IndexMap;
use kex_code::memory::Memory;
use kex_machine::Bit;
use std::alloc::Global;
use std::hash::{FoldHasher, Hasher};
use std::rc::{Rc, Weak};

/// Lists of constants that were met, by a hash of their choices. Each is kept as long as a state
/// has it. Of two with one hash only the one that was met last is found again.
#[derive(Drop)]
pub struct SharedLists {
    alloc: Global,
    met: IndexMap<u64, Weak<Known>>,
}

// Hashes what is known of a register.
fn hash_constant(constant: &Option<Choices>, hasher: &mut FoldHasher) {
    let Some(choices) = constant else {
        return hasher.write_u8(0);
    };
    hasher.write_u8(1);
    for side in choices.as_slice() {
        hasher.write_u8(match side {
            Bit::L => 2,
            Bit::R => 3,
        });
    }
}

// A hash of constants in the order of their registers.
fn hash_of(constants: &[Option<Choices>]) -> u64 {
    let mut hasher = FoldHasher::default();
    for constant in constants {
        hash_constant(constant, &mut hasher);
    }
    hasher.finish()
}

/// Whether the same is known of two registers.
pub fn is_same(left: &Option<Choices>, right: &Option<Choices>) -> bool
    ensures { result ≡ true → left.now ≡ right.now }
{
    match (left, right) {
        (None, None) => true,
        (Some(left), Some(right)) => left.is_same(right),
        _ => false,
    }
}

/// Whether the same is known of all registers.
pub fn are_same(left: &[Option<Choices>], right: &[Option<Choices>]) -> bool
    ensures { result ≡ true → left.now ≡ right.now }
{
    if left.len() != right.len() {
        return false;
    }
    for register in 0..left.len() {
        if !is_same(&left[register], &right[register]) {
            return false;
        }
    }
    true
}

impl SharedLists {
    /// No list was met.
    pub fn new(alloc: Global) -> SharedLists {
        SharedLists {
            alloc,
            met: IndexMap::new(alloc),
        }
    }

    // The list of these constants, if it is found.
    fn find(&self, hash: u64, constants: &[Option<Choices>]) -> Option<Rc<Known>>
        ensures { IfSome result (λ k. k.value ≡ constants.now) }
    {
        let known = self.met.get(&hash)?.upgrade()?;
        if are_same(known.constants(), constants) {
            Some(known)
        } else {
            None
        }
    }

    /// A list of these constants: one that a state has already, if it is found.
    pub fn share(&mut self, constants: Vec<Option<Choices>>) -> Result<Rc<Known>, Memory>
        ensures { IfOk result (λ k. k.value ≡ constants.items) }
    {
        let hash = hash_of(&constants);
        if let Some(known) = self.find(hash, &constants) {
            return Ok(known);
        }
        let known = Rc::new(self.alloc, Known::new(self.alloc, constants)?)?;
        self.met.insert(hash, Rc::downgrade(&known)?)?;
        Ok(known)
    }
}
