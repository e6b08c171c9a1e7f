// Updates that were met, so that equal ones are shared.

ghost use Rattle.std.specs.Prelude.{◌≡◌, IfOk};

use crate::parts::{Update, hash_parts};
use crate::shared::SharedUpdate;
use indexmap::IndexMap;
use kex_code::memory::Memory;
use std::alloc::Global;
use std::hash::{FoldHasher, Hasher};

/// Updates that were met, by a hash of their parts. Where two have one hash, the second isn't kept.
#[derive(Drop)]
pub struct Updates {
    alloc: Global,
    met: IndexMap<u64, SharedUpdate>,
}

// A hash of an update's parts in their order.
fn hash_of(update: &Update) -> u64 {
    let mut hasher = FoldHasher::default();
    hash_parts(update.out().as_slice(), &mut hasher);
    for parts in update.regs() {
        hash_parts(parts.as_slice(), &mut hasher);
    }
    hasher.finish()
}

impl Updates {
    /// No update was met.
    pub fn new(alloc: Global) -> Updates {
        Updates {
            alloc,
            met: IndexMap::new(alloc),
        }
    }

    /// The same update: an equal one that was met before, if there is one.
    pub fn share(&mut self, update: Update) -> Result<SharedUpdate, Memory>
        ensures { IfOk result (λ s. s ≡ update) }
    {
        let hash = hash_of(&update);
        if let Some(met) = self.met.get(&hash) {
            if met.get().is_same(&update) {
                return met.copy();
            }
            return SharedUpdate::new(self.alloc, update);
        }
        let shared = SharedUpdate::new(self.alloc, update)?;
        self.met.insert(hash, shared.copy()?)?;
        Ok(shared)
    }
}
