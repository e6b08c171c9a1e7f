// Rows of numbers, one after the other.

ghost use Rattle.std.specs.Prelude.{◌≡◌, ◌≤◌, ◌∷◌, ◌++◌, [], true, IfOk, IfSome, OnOk, length};
ghost use Rattle.std.specs.Prelude.{take, drop};
ghost use Rattle.kex_script.specs.Pages.{KeepsItems};

use indexmap::IndexMap;
use kex_code::memory::Memory;
use std::alloc::Global;
use std::hash::{FoldHasher, Hasher};
use std::marker::Model;

/// Rows of numbers, one after the other, each known by its place. Equal ones are found by a hash
/// of their numbers; where two rows have one hash, the first isn't found again.
#[derive(Drop)]
pub struct Rows {
    numbers: Vec<u32>,
    places: IndexMap<u64, u32>,
}

impl Model for Rows {
    ghost use Rattle.std.specs.Prelude.{List, ℕ};

    ghost Value = { List ℕ };

    ghost view = { λ r. r.numbers.items };
}

// A hash of numbers in their order.
fn hash_of(row: &[u32]) -> u64 {
    let mut hasher = FoldHasher::default();
    for number in row {
        hasher.write_u32(*number);
    }
    hasher.finish()
}

// Whether numbers begin with a row.
fn begins_with(numbers: &[u32], row: &[u32]) -> bool
    ensures { result ≡ true → KeepsItems row.now numbers.now }
{
    if numbers.len() < row.len() {
        return false;
    }
    &numbers[..row.len()] == row
}

impl Rows {
    /// No rows.
    pub fn new(alloc: Global) -> Rows
        ensures { result ≡ [] }
    {
        Rows {
            numbers: Vec::new(alloc),
            places: IndexMap::new(alloc),
        }
    }

    /// How many numbers there are.
    pub fn len(&self) -> usize
        ensures { result ≡ length self.now }
    {
        self.numbers.len()
    }

    /// A number is put after the others.
    pub fn push(&mut self, number: u32) -> Result<(), Memory>
        ensures { OnOk result (self.new ≡ self.old ++ number ∷ []) }
    {
        self.numbers.push(number)?;
        Ok(())
    }

    // Where a row before a place equals the one that begins there, if such a row is found.
    fn find(&self, at: usize) -> Option<u32>
        requires { at ≤ length self.now }
        ensures { IfSome result (λ place.
            KeepsItems (drop at self.now) (drop place (take at self.now))) }
    {
        let row = &self.numbers[at..];
        let place = *self.places.get(&hash_of(row))?;
        let before = self.numbers[..at].get(place as usize..)?;
        if begins_with(before, row) {
            Some(place)
        } else {
            None
        }
    }

    /// The row that begins at a place goes, where an equal one is found before it. Tells where the
    /// row is then.
    pub fn share(&mut self, at: u32) -> Result<u32, Memory>
        requires { at ≤ length self.old }
        ensures row { IfOk result (λ place. KeepsItems (drop at self.old) (drop place self.new)) }
        ensures before { OnOk result (KeepsItems (take at self.old) self.new) }
    {
        match self.find(at as usize) {
            Some(place) => {
                self.numbers.truncate(at as usize);
                Ok(place)
            }
            None => {
                self.places
                    .insert(hash_of(&self.numbers[at as usize..]), at)?;
                Ok(at)
            }
        }
    }

    /// The numbers, in their order.
    pub fn into_numbers(self) -> Vec<u32>
        ensures { result.items ≡ self }
    {
        self.numbers
    }
}
