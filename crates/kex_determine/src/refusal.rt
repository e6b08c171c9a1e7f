// Why a machine has no table.

ghost use Rattle.std.specs.Prelude.{◌≡◌};
ghost use Rattle.kex_determine.specs.declared.refusal.DetRefusal.TheVariants.{Memory};

use std::alloc::{AllocError, AllocFailed};
use thiserror::Error;

/// Why a machine has no table.
#[derive(Clone, Copy, Debug, PartialEq, Eq, Drop, Error)]
pub enum DetRefusal {
    /// There are more states than are allowed; `seen` is one more than these.
    #[error("there are {seen} states or more")]
    TooManyStates { seen: u32 },
    /// Memory was wanted, and there was none.
    #[error("out of memory")]
    Memory,
}

impl From<AllocError> for DetRefusal {
    ghost from_gives = { λ _ e. e ≡ Memory };

    fn from(_: AllocError) -> DetRefusal {
        DetRefusal::Memory
    }
}

impl<T: Drop> From<AllocFailed<T>> for DetRefusal {
    ghost from_gives = { λ _ e. e ≡ Memory };

    fn from(_: AllocFailed<T>) -> DetRefusal {
        DetRefusal::Memory
    }
}

impl From<kex_code::memory::Memory> for DetRefusal {
    ghost from_gives = { λ _ e. e ≡ Memory };

    fn from(_: kex_code::memory::Memory) -> DetRefusal {
        DetRefusal::Memory
    }
}
