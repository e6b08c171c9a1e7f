// Why a machine has no table that passes on what is best.

ghost use Rattle.std.specs.Prelude.{◌≡◌};
ghost use Rattle.kex_cover.specs.declared.refusal.CoverRefusal.TheVariants.{Memory};
ghost use Rattle.kex_cover.specs.Optimal.{refusal_by_pairs, refusal_by_states};

use crate::fault::CoverFault;
use kex_determine::refusal::DetRefusal;
use std::alloc::{AllocError, AllocFailed};
use thiserror::Error;

/// Why a machine has no table that passes on what is best.
#[derive(Clone, Copy, Debug, PartialEq, Eq, Drop, Error)]
pub enum CoverRefusal {
    /// There are more states than are allowed; `seen` is one more than these.
    #[error("there are {seen} states or more")]
    TooManyStates { seen: u32 },
    /// To tell whether a leaf is covered takes more pairs than are allowed; `seen` is one more than
    /// these.
    #[error("there are {seen} pairs or more")]
    TooManyPairs { seen: u32 },
    /// Memory was wanted, and there was none.
    #[error("out of memory")]
    Memory,
}

impl From<DetRefusal> for CoverRefusal {
    ghost from_gives = { λ r e. e ≡ refusal_by_states r };

    fn from(refusal: DetRefusal) -> CoverRefusal {
        match refusal {
            DetRefusal::TooManyStates { seen } => CoverRefusal::TooManyStates { seen },
            DetRefusal::Memory => CoverRefusal::Memory,
        }
    }
}

impl From<CoverFault> for CoverRefusal {
    ghost from_gives = { λ f e. e ≡ refusal_by_pairs f };

    fn from(fault: CoverFault) -> CoverRefusal {
        match fault {
            CoverFault::TooManyPairs { seen } => CoverRefusal::TooManyPairs { seen },
            CoverFault::Memory => CoverRefusal::Memory,
        }
    }
}

impl From<AllocError> for CoverRefusal {
    ghost from_gives = { λ _ e. e ≡ Memory };

    fn from(_: AllocError) -> CoverRefusal {
        CoverRefusal::Memory
    }
}

impl<T: Drop> From<AllocFailed<T>> for CoverRefusal {
    ghost from_gives = { λ _ e. e ≡ Memory };

    fn from(_: AllocFailed<T>) -> CoverRefusal {
        CoverRefusal::Memory
    }
}

impl From<kex_code::memory::Memory> for CoverRefusal {
    ghost from_gives = { λ _ e. e ≡ Memory };

    fn from(_: kex_code::memory::Memory) -> CoverRefusal {
        CoverRefusal::Memory
    }
}
