// Lists of parts by number.

ghost use Rattle.std.specs.Prelude.{◌≡◌, ◌∷◌, ◌++◌, length, [], Some, IfOk, OnOk, IfSome, get_or};
ghost use Rattle.std.specs.Prelude.{slice_get};
ghost use Rattle.kex_script.specs.Pages.{KeepsItems};

use indexmap::IndexMap;
use kex_code::memory::Memory;
use kex_sst::parts::{Part, Parts, are_same, hash_parts};
use std::alloc::Global;
use std::hash::{FoldHasher, Hasher};
use std::marker::Model;

/// Lists of parts by number. Equal ones are found by a hash of their parts; where two lists have
/// one hash, the first isn't found again.
#[derive(Drop)]
pub struct Interned {
    alloc: Global,
    all: Vec<Parts>,
    numbers: IndexMap<u64, u32>,
}

impl Model for Interned {
    ghost use Rattle.std.specs.Prelude.{List};
    ghost use Rattle.kex_sst.specs.declared.parts.Part.{Part};

    ghost Value = { List (List Part) };

    ghost view = { λ i. i.all.items };
}

// The same parts in a list of their own.
fn parts_of(alloc: Global, all: &[Part]) -> Result<Parts, Memory>
    ensures { IfOk result (λ p. p ≡ all.now) }
{
    let mut parts = Parts::new(alloc);
    for part in all {
        parts.push(*part)?;
    }
    Ok(parts)
}

fn hash_of(parts: &[Part]) -> u64 {
    let mut hasher = FoldHasher::default();
    hash_parts(parts, &mut hasher);
    hasher.finish()
}

impl Interned {
    /// No lists.
    pub fn new(alloc: Global) -> Interned
        ensures { result ≡ [] }
    {
        Interned {
            alloc,
            all: Vec::new(alloc),
            numbers: IndexMap::new(alloc),
        }
    }

    /// The number of these parts, if it is found.
    pub fn find(&self, parts: &[Part]) -> Option<u32>
        ensures { IfSome result (λ n. slice_get self.now n ≡ Some parts.now) }
    {
        let number = *self.numbers.get(&hash_of(parts))?;
        let list = self.all.get(number as usize)?;
        if are_same(list.as_slice(), parts) {
            Some(number)
        } else {
            None
        }
    }

    /// A number of these parts that is new.
    pub fn add(&mut self, parts: &[Part]) -> Result<u32, Memory>
        ensures added { OnOk result (self.new ≡ self.old ++ parts.now ∷ []) }
        ensures number { IfOk result (λ n. n ≡ length self.old) }
    {
        let Ok(number) = u32::try_from(self.all.len()) else {
            return Err(Memory);
        };
        self.numbers.insert(hash_of(parts), number)?;
        self.all.push(parts_of(self.alloc, parts)?)?;
        Ok(number)
    }

    /// A number of these parts.
    pub fn number(&mut self, parts: &[Part]) -> Result<u32, Memory>
        ensures number { IfOk result (λ n. slice_get self.new n ≡ Some parts.now) }
        ensures kept { OnOk result (KeepsItems self.old self.new) }
    {
        match self.find(parts) {
            Some(number) => Ok(number),
            None => self.add(parts),
        }
    }

    /// The list of a number; an empty one where there is none.
    pub fn list(&self, number: u32) -> &[Part]
        ensures { result.now ≡ get_or self.now number [] }
    {
        match self.all.get(number as usize) {
            Some(parts) => parts.as_slice(),
            None => &[],
        }
    }

    /// How many lists there are.
    pub fn len(&self) -> usize
        ensures { result ≡ length self.now }
    {
        self.all.len()
    }

    /// The lists, by number.
    pub fn into_lists(self) -> Vec<Parts>
        ensures { result.items ≡ self }
    {
        self.all
    }
}
