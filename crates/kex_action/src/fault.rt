// Why symbols are not performed.

use kex_code::memory::Memory;
use thiserror::Error;

/// Why symbols were not performed.
#[derive(Clone, Copy, Debug, PartialEq, Eq, Drop, Error)]
pub enum ActFault {
    /// The least number of a symbol of the slice, from 0, with which all that was given begins the
    /// code of no tree.
    #[error("symbol {0} begins no code")]
    NotACode(u64),
    /// No contract says when this comes.
    #[error("out of memory")]
    Memory,
}

impl From<Memory> for ActFault {
    ghost use Rattle.std.specs.Prelude.{◌≡◌};
    ghost use Rattle.kex_action.specs.declared.fault.ActFault.TheVariants as faults;

    ghost from_gives = { λ _ e. e ≡ faults.Memory };

    fn from(_: Memory) -> ActFault {
        ActFault::Memory
    }
}
