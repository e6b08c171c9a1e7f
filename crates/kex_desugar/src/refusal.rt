// Why a stage has no machine.

ghost use Rattle.std.specs.Prelude.{◌≡◌};
ghost use Rattle.kex_desugar.specs.declared.refusal.DesugarRefusal.TheVariants.{Memory};

use std::alloc::{AllocError, AllocFailed};
use thiserror::Error;

/// Why a stage has no machine.
#[derive(Clone, Copy, Debug, PartialEq, Eq, Drop, Error)]
pub enum DesugarRefusal {
    /// The stage has more places than are allowed.
    #[error("the stage has too many places")]
    TooManyPlaces,
    /// Memory was wanted, and there was none.
    #[error("out of memory")]
    Memory,
}

impl From<AllocError> for DesugarRefusal {
    ghost from_gives = { λ _ e. e ≡ Memory };

    fn from(_: AllocError) -> DesugarRefusal {
        DesugarRefusal::Memory
    }
}

impl<T: Drop> From<AllocFailed<T>> for DesugarRefusal {
    ghost from_gives = { λ _ e. e ≡ Memory };

    fn from(_: AllocFailed<T>) -> DesugarRefusal {
        DesugarRefusal::Memory
    }
}

impl From<kex_code::memory::Memory> for DesugarRefusal {
    ghost from_gives = { λ _ e. e ≡ Memory };

    fn from(_: kex_code::memory::Memory) -> DesugarRefusal {
        DesugarRefusal::Memory
    }
}
