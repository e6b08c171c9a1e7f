// The guide of a table, which runners may have in common.

ghost use Rattle.std.specs.Prelude.{◌≡◌, IfOk};
ghost use Rattle.kex_runner.specs.Quiet.{IsGuide};

use crate::quiet::Guide;
use kex_code::memory::Memory;
use kex_sst::table::Table;
use std::alloc::Global;
use std::marker::Model;
use std::sync::Arc;

/// What a runner goes by beside its table: the table's script, with its quiet updates. Runners of
/// one table may have it in common: it stays while one of them has it.
#[derive(Drop)]
pub struct SharedGuide {
    one: Arc<Guide>,
}

impl Model for SharedGuide {
    ghost use Rattle.kex_runner.specs.declared.quiet.Guide.{Guide};

    ghost Value = { Guide };

    ghost view = { λ s. s.one.value };
}

impl SharedGuide {
    /// The guide of a table, with one owner.
    pub fn new(alloc: Global, table: &Table) -> Result<SharedGuide, Memory>
        ensures { IfOk result (λ s. IsGuide table.now s) }
    {
        let guide = Guide::new(alloc, table)?;
        match Arc::new(alloc, guide) {
            Ok(one) => Ok(SharedGuide { one }),
            Err(_) => Err(Memory),
        }
    }

    /// One more owner of the same guide.
    pub fn again(&self) -> Result<SharedGuide, Memory>
        ensures { IfOk result (λ s. s ≡ self.now) }
    {
        let one = Arc::try_clone(&self.one)?;
        Ok(SharedGuide { one })
    }

    /// The guide.
    #[inline(always)]
    pub(crate) fn get(&self) -> &Guide
        ensures { result.now ≡ self.now }
    {
        &self.one
    }
}
