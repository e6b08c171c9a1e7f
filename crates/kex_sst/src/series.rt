// Updates one after another.

ghost use Rattle.std.specs.Prelude.{◌≡◌, IfOk, OnOk};
ghost use Rattle.kex_sst.specs.Series.{series_of, then_update};

use crate::shared::SharedUpdate;
use kex_code::memory::Memory;
use std::alloc::Global;
use std::marker::Model;

/// Updates one after another, seen as the one update that they come to: in each after the first
/// the old registers are those that the ones before it give. Series that end alike share their
/// updates.
#[derive(Drop)]
pub struct Series {
    first: SharedUpdate,
    more: Vec<SharedUpdate>,
}

impl Model for Series {
    ghost use Rattle.kex_sst.specs.Parts.{Change};
    ghost use Rattle.kex_sst.specs.Series.{series_of};

    ghost Value = { Change };

    ghost view = { λ s. series_of s.first s.more.items };
}

impl Series {
    /// One update.
    pub fn new(alloc: Global, first: SharedUpdate) -> Series
        ensures { result ≡ first }
    {
        Series {
            first,
            more: Vec::new(alloc),
        }
    }

    /// The updates, the first by itself.
    pub fn updates(&self) -> (&SharedUpdate, &[SharedUpdate])
        ensures { self.now ≡ series_of result.0.now result.1.now }
    {
        (&self.first, &self.more)
    }

    /// Puts an update after those that are there.
    pub fn push(&mut self, next: SharedUpdate) -> Result<(), Memory>
        ensures { OnOk result (self.new ≡ then_update self.old next) }
    {
        self.more.push(next)?;
        Ok(())
    }

    // Puts more updates after those that are there.
    fn push_all(&mut self, more: &[SharedUpdate]) -> Result<(), Memory>
        ensures { OnOk result (self.new ≡ series_of self.old more.now) }
    {
        for update in more {
            self.push(update.copy()?)?;
        }
        Ok(())
    }

    /// These updates, and then those of another series.
    pub fn then(&self, alloc: Global, other: &Series) -> Result<Series, Memory>
        ensures { IfOk result (λ s. s ≡ then_update self.now other.now) }
    {
        let mut all = Series::new(alloc, self.first.copy()?);
        all.push_all(&self.more)?;
        let (first, more) = other.updates();
        all.push(first.copy()?)?;
        all.push_all(more)?;
        Ok(all)
    }
}
