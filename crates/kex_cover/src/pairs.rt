// The pairs that were met, by number.

ghost use Rattle.std.specs.Prelude.{◌≡◌, ◌<◌, ◌≤◌, [], OnOk, IfErr, length};
ghost use Rattle.kex_code.specs.Codes.{IsAmong};
ghost use Rattle.kex_cover.specs.Searches.{IsEntered, RefusesPairs};

use crate::fault::CoverFault;
use indexmap::IndexSet;
use std::alloc::Global;

/// What a text leads to from a place, and from others: sets of waiting places, by number.
#[derive(Clone, Copy, PartialEq, Eq, Hash)]
pub struct SetPair {
    pub first: usize,
    pub second: usize,
}

/// The pairs that were met, each once; and how many there may be.
#[derive(Drop)]
pub struct Pairs {
    pub met: IndexSet<SetPair>,
    pub most: u32,
}

impl Pairs {
    /// No pairs.
    pub fn new(alloc: Global, most: u32) -> Pairs
        ensures met { result.met.keys ≡ [] }
        ensures most { result.most ≡ most }
    {
        Pairs {
            met: IndexSet::new(alloc),
            most,
        }
    }

    /// Forgets all pairs.
    pub fn forget(&mut self)
        ensures met { self.new.met.keys ≡ [] }
        ensures most { self.new.most ≡ self.old.most }
    {
        self.met.clear();
    }

    /// Puts a pair among the others, if it isn't there.
    pub fn enter(&mut self, pair: SetPair) -> Result<(), CoverFault>
        requires few { self.old.most < 4294967295 }
        requires room { length self.old.met.keys ≤ self.old.most }
        ensures ok { OnOk result (IsEntered self.old.met.keys pair self.new.met.keys) }
        ensures most { self.new.most ≡ self.old.most }
        ensures within { OnOk result (length self.new.met.keys ≤ self.old.most) }
        ensures err { IfErr result (RefusesPairs self.old.most ((IsAmong self.old.met.keys pair
            → ⊥) × (self.old.most ≤ length self.old.met.keys))) }
    {
        let (_, _) = self.met.insert_full(pair)?;
        if self.met.len() > self.most as usize {
            return Err(CoverFault::TooManyPairs {
                seen: self.most + 1,
            });
        }
        Ok(())
    }
}
