// Why a program isn't accepted.

ghost use Rattle.std.specs.Prelude.{◌≡◌};
ghost use Rattle.kex_rules.specs.declared.refusal.RuleRefusal.TheVariants.{Memory};

use std::alloc::{AllocError, AllocFailed};
use thiserror::Error;

/// The rule that a program breaks. Offsets count the bytes of the text from 0.
#[derive(Clone, Copy, Debug, PartialEq, Eq, Drop, Error)]
pub enum RuleRefusal {
    /// K07: the name that is defined at this offset was defined before.
    #[error("K07: the name at byte {0} is defined twice")]
    TwiceDefined(u32),
    /// K08: the name that is called or started at this offset has no definition.
    #[error("K08: the name at byte {0} has no definition")]
    Unknown(u32),
    /// K09: there is no stage.
    #[error("K09: there is no stage")]
    NoStart,
    /// K10: the call at this offset comes back, and is outside tail position.
    #[error("K10: the call at byte {0} comes back outside tail position")]
    NotTail(u32),
    /// Memory was wanted, and there was none.
    #[error("out of memory")]
    Memory,
}

impl From<AllocError> for RuleRefusal {
    ghost from_gives = { λ _ e. e ≡ Memory };

    fn from(_: AllocError) -> RuleRefusal {
        RuleRefusal::Memory
    }
}

impl<T: Drop> From<AllocFailed<T>> for RuleRefusal {
    ghost from_gives = { λ _ e. e ≡ Memory };

    fn from(_: AllocFailed<T>) -> RuleRefusal {
        RuleRefusal::Memory
    }
}

impl From<kex_code::memory::Memory> for RuleRefusal {
    ghost from_gives = { λ _ e. e ≡ Memory };

    fn from(_: kex_code::memory::Memory) -> RuleRefusal {
        RuleRefusal::Memory
    }
}
