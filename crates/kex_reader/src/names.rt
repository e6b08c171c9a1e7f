// Names by their numbers.

ghost use Rattle.std.specs.Prelude.{◌≡◌, ◌<◌, ◌⊎◌, ℕ, [], slice_get, Some, IfOk, length};
ghost use Rattle.kex_code.specs.Codes.{Begins, Different};

use indexmap::IndexSet;
use kex_code::memory::Memory;
use kex_code::piece::Bytes;
use std::alloc::Global;
use std::marker::Model;

/// Different names of a text, numbered in the order in which they were first met.
#[derive(Drop)]
pub(crate) struct Names<'t> {
    all: IndexSet<&'t [u8]>,
}

impl<'t> Model for Names<'t> {
    ghost use Rattle.std.specs.Prelude.{List, ℕ, map};
    ghost use Rattle.kex_code.specs.Codes.{Different};

    ghost Value = { List (List ℕ) };

    ghost view = { λ n. map (λ k. k.now) n.all.keys };

    ghost invariant = { λ n. Different (map (λ k. k.now) n.all.keys) };
}

impl<'t> Names<'t> {
    pub(crate) fn new(alloc: Global) -> Names<'t>
        ensures { result ≡ [] }
    {
        Names {
            all: IndexSet::new(alloc),
        }
    }

    // The number of a name, which gets the next one if it has none.
    pub(crate) fn number(&mut self, name: &'t [u8]) -> Result<u32, Memory>
        ensures number { IfOk result (λ i. slice_get self.new i ≡ Some name.now) }
        ensures grown { Begins self.new self.old }
        ensures added { IfOk result (λ i. (k : ℕ) → k < length self.new → (k < length self.old)
            ⊎ (k ≡ i)) }
    {
        let (number, _) = self.all.insert_full(name)?;
        let Ok(number) = u32::try_from(number) else {
            return Err(Memory);
        };
        Ok(number)
    }

    // How many names there are.
    pub(crate) fn len(&self) -> usize
        ensures long { result ≡ length self.now }
        ensures different { Different self.now }
    {
        self.all.len()
    }

    // The names, in the order of their numbers.
    pub(crate) fn copies(&self, alloc: Global) -> Result<Vec<Bytes>, Memory>
        ensures same { IfOk result (λ all. all.items ≡ self.now) }
        ensures different { Different self.now }
    {
        let mut all = Vec::new(alloc);
        for i in 0..self.all.len() {
            let bytes = Vec::from_slice(alloc, self.all[i])?;
            all.push(Bytes::new(bytes))?;
        }
        Ok(all)
    }
}
