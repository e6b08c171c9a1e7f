// Updates that transitions share.

ghost use Rattle.std.specs.Prelude.{◌≡◌, IfOk};

use crate::parts::Update;
use kex_code::memory::Memory;
use std::alloc::Global;
use std::marker::Model;
use std::sync::Arc;

/// An update that transitions share: it stays while one of them has it.
#[derive(Drop)]
pub struct SharedUpdate {
    one: Arc<Update>,
}

impl Model for SharedUpdate {
    ghost use Rattle.kex_sst.specs.Parts.{Change};

    ghost Value = { Change };

    ghost view = { λ u. u.one.value };
}

impl SharedUpdate {
    /// The update, with one owner.
    pub fn new(alloc: Global, update: Update) -> Result<SharedUpdate, Memory>
        ensures { IfOk result (λ s. s ≡ update) }
    {
        match Arc::new(alloc, update) {
            Ok(one) => Ok(SharedUpdate { one }),
            Err(_) => Err(Memory),
        }
    }

    /// One more owner of the same update.
    pub fn copy(&self) -> Result<SharedUpdate, Memory>
        ensures { IfOk result (λ s. s ≡ self.now) }
    {
        let one = Arc::try_clone(&self.one)?;
        Ok(SharedUpdate { one })
    }

    /// The update.
    pub fn get(&self) -> &Update
        ensures { result.now ≡ self.now }
    {
        &self.one
    }
}
