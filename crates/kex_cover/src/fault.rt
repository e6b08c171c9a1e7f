// Why it isn't known whether a place is covered.

ghost use Rattle.std.specs.Prelude.{◌≡◌};
ghost use Rattle.kex_cover.specs.declared.fault.CoverFault.TheVariants.{Memory};

use std::alloc::{AllocError, AllocFailed};
use thiserror::Error;

/// Why it isn't known whether a place is covered.
#[derive(Clone, Copy, Debug, PartialEq, Eq, Drop, Error)]
pub enum CoverFault {
    /// There are more pairs than are allowed; `seen` is one more than these.
    #[error("there are {seen} pairs or more")]
    TooManyPairs { seen: u32 },
    /// Memory was wanted, and there was none.
    #[error("out of memory")]
    Memory,
}

impl From<AllocError> for CoverFault {
    ghost from_gives = { λ _ e. e ≡ Memory };

    fn from(_: AllocError) -> CoverFault {
        CoverFault::Memory
    }
}

impl<T: Drop> From<AllocFailed<T>> for CoverFault {
    ghost from_gives = { λ _ e. e ≡ Memory };

    fn from(_: AllocFailed<T>) -> CoverFault {
        CoverFault::Memory
    }
}

impl From<kex_code::memory::Memory> for CoverFault {
    ghost from_gives = { λ _ e. e ≡ Memory };

    fn from(_: kex_code::memory::Memory) -> CoverFault {
        CoverFault::Memory
    }
}
