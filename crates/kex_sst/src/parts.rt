// Updates: what is passed on, and what each new register is given.

ghost use Rattle.std.specs.Prelude.{◌≡◌, ◌++◌, ◌∷◌, [], true, OnOk, OnErr, IfOk};

use kex_code::memory::Memory;
use kex_code::symbol::Symbol;
use smallvec::SmallVec;
use std::alloc::Global;
use std::hash::{FoldHasher, Hasher};
use std::marker::Model;

/// A part of what an update gives: a symbol, what an old register holds, or the byte that is read.
#[derive(Clone, Copy, Debug, Default, PartialEq, Eq)]
pub enum Part {
    Put(Symbol),
    Old(u32),
    #[default]
    Input,
}

/// The parts that are joined.
#[derive(Drop)]
pub struct Parts {
    all: SmallVec<Part, 2>,
}

impl Model for Parts {
    ghost use Rattle.std.specs.Prelude.{List};
    ghost use Rattle.kex_sst.specs.declared.parts.Part.{Part};

    ghost Value = { List Part };

    ghost view = { λ p. p.all.items };
}

impl Parts {
    /// No parts.
    pub fn new(alloc: Global) -> Parts
        ensures { result ≡ [] }
    {
        Parts {
            all: SmallVec::new(alloc),
        }
    }

    /// Adds a part at the end.
    pub fn push(&mut self, part: Part) -> Result<(), Memory>
        ensures added { OnOk result (self.new ≡ self.old ++ part ∷ []) }
        ensures kept { OnErr result (self.new ≡ self.old) }
    {
        self.all.push(part)?;
        Ok(())
    }

    /// The parts, in their order.
    pub fn as_slice(&self) -> &[Part]
        ensures { result.now ≡ self.now }
    {
        self.all.as_slice()
    }

    /// The same parts again.
    pub fn copy(&self, alloc: Global) -> Result<Parts, Memory>
        ensures { IfOk result (λ p. p ≡ self.now) }
    {
        let all = SmallVec::from_slice(alloc, self.all.as_slice())?;
        Ok(Parts { all })
    }
}

// A number for a part.
fn code_of(part: Part) -> u64 {
    match part {
        Part::Input => 1,
        Part::Put(Symbol::L) => 2,
        Part::Put(Symbol::R) => 3,
        Part::Put(Symbol::Byte(byte)) => 4 + u64::from(byte),
        Part::Old(register) => 512 + u64::from(register),
    }
}

/// Hashes parts in their order: equal lists are found by their hash, and then compared.
pub fn hash_parts(parts: &[Part], hasher: &mut FoldHasher) {
    hasher.write_u64(parts.len() as u64);
    for part in parts {
        hasher.write_u64(code_of(*part));
    }
}

/// Whether two lists of parts are the same.
pub fn are_same(left: &[Part], right: &[Part]) -> bool
    ensures { result ≡ true → left.now ≡ right.now }
{
    left == right
}

// Whether the lists are the same, each at its place.
fn are_same_lists(left: &[Parts], right: &[Parts]) -> bool
    ensures { result ≡ true → left.now ≡ right.now }
{
    if left.len() != right.len() {
        return false;
    }
    for i in 0..left.len() {
        if !are_same(left[i].as_slice(), right[i].as_slice()) {
            return false;
        }
    }
    true
}

/// What a transition passes on, and what it gives to each of the registers of its target.
#[derive(Drop)]
pub struct Update {
    out: Parts,
    regs: Vec<Parts>,
}

impl Model for Update {
    ghost use Rattle.kex_sst.specs.Parts.{Change};

    ghost Value = { Change };

    ghost view = { λ u. record { out = u.out; regs = u.regs.items } };
}

impl Update {
    /// The update of these parts, which are moved.
    pub fn new(out: Parts, regs: Vec<Parts>) -> Update
        ensures { result ≡ record { out = out; regs = regs.items } }
    {
        Update { out, regs }
    }

    /// What is passed on.
    pub fn out(&self) -> &Parts
        ensures { result.now ≡ self.now.out }
    {
        &self.out
    }

    /// What each new register is given, by its number.
    pub fn regs(&self) -> &[Parts]
        ensures { result.now ≡ self.now.regs }
    {
        &self.regs
    }

    /// Whether another update has the same lists.
    pub(crate) fn is_same(&self, other: &Update) -> bool
        ensures { result ≡ true → self.now ≡ other.now }
    {
        are_same(self.out.as_slice(), other.out.as_slice())
            && are_same_lists(&self.regs, &other.regs)
    }
}
