// Texts one after the other.

ghost use Rattle.std.specs.Prelude.{◌≡◌, ◌<◌, ◌++◌, ◌∷◌, [], OnOk, get_or, length, map};
ghost use Rattle.std.specs.List.{concat};
ghost use Rattle.kex_each.specs.Texts.{begin_of};

use kex_code::memory::Memory;
use std::alloc::Global;
use std::marker::Model;

/// A list of texts, which are kept one after the other: a text more takes no room of its own.
#[derive(Drop)]
pub struct Texts {
    bytes: Vec<u8>,
    // Where each text ends.
    ends: Vec<usize>,
}

impl Model for Texts {
    ghost use Rattle.std.specs.Prelude.{ℕ, List, length};
    ghost use Rattle.kex_each.specs.Texts.{AreEnds, cut_at};

    ghost Value = { List (List ℕ) };

    ghost view = { λ t. cut_at 0 t.ends.items t.bytes.items };

    ghost invariant = { λ t. AreEnds 0 t.ends.items (length t.bytes.items) };
}

// Where the text at this place begins.
fn begin_of(ends: &[usize], index: usize) -> usize
    requires { index < length ends.now }
    ensures { result ≡ begin_of 0 ends.now index }
{
    if index == 0 {
        return 0;
    }
    ends[index - 1]
}

impl Texts {
    /// No texts.
    pub fn new(alloc: Global) -> Texts
        ensures { result ≡ [] }
    {
        Texts {
            bytes: Vec::new(alloc),
            ends: Vec::new(alloc),
        }
    }

    /// How many there are.
    pub fn len(&self) -> usize
        ensures { result ≡ length self.now }
    {
        self.ends.len()
    }

    /// The text at this place, counted from 0.
    pub fn get(&self, index: usize) -> &[u8]
        requires { index < length self.now }
        ensures { result.now ≡ get_or self.now index [] }
    {
        let from = begin_of(&self.ends, index);
        let to = self.ends[index];
        prove!(from <= to);
        prove!(to <= self.bytes.len());
        &self.bytes[from..to]
    }

    /// All of them, joined.
    pub fn bytes(&self) -> &[u8]
        ensures { result.now ≡ concat self.now }
    {
        &self.bytes
    }

    /// Adds a text.
    pub fn push(&mut self, text: &[u8]) -> Result<(), Memory>
        ensures { OnOk result (self.new ≡ self.old ++ text.now ∷ []) }
    {
        self.ends.try_reserve(1)?;
        self.bytes.extend_from_slice(text)?;
        self.ends.push_reserved(self.bytes.len());
        Ok(())
    }

    /// Lets all of them go, and keeps the room.
    pub fn clear(&mut self)
        ensures { self.new ≡ [] }
    {
        self.bytes.clear();
        self.ends.clear();
    }

    /// Adds a copy of each, with room of its own.
    pub fn unpack_into(&self, alloc: Global, all: &mut Vec<Vec<u8>>) -> Result<(), Memory>
        ensures { OnOk result (map (λ v. v.items) all.new.items
            ≡ map (λ v. v.items) all.old.items ++ self.now) }
    {
        for i in 0..self.len() {
            let text = Vec::from_slice(alloc, self.get(i))?;
            all.push(text)?;
        }
        Ok(())
    }
}
