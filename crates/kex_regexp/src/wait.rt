// What the next byte belongs to.

ghost use Rattle.std.specs.Prelude.{◌≡◌};

use crate::constructs::Placed;
use crate::counts::{Bounds, Count};
use crate::escapes::Escaping;
use crate::sets::SetPart;
use kex_code::memory::Memory;

/// An item that takes turns, and bounds on how many.
#[derive(Clone, Copy, Drop)]
pub struct Repetition {
    pub item: Placed,
    pub bounds: Bounds,
}

impl Placed {
    /// This item, taken from `low` to `high` times, or without end where there is no `high`.
    pub fn turns(self, low: u32, high: Option<u32>) -> Repetition
        ensures { result ≡ record { item = self; bounds = record { low = low; high = high } } }
    {
        Repetition {
            item: self,
            bounds: Bounds { low, high },
        }
    }
}

/// What the next byte belongs to.
#[derive(Clone, Copy, Drop)]
pub enum Wait {
    /// A piece may begin.
    Ready,
    /// An item has ended, and a postfix may follow it.
    After(Placed),
    /// A postfix has ended, and the sign that makes it lazy may follow it.
    Turned(Repetition),
    InEscape {
        escaping: Escaping,
        from: u32,
    },
    /// A set that begins at `from`; `empty` says that no member of it has ended.
    InSet {
        negated: bool,
        empty: bool,
        part: SetPart,
        from: u32,
    },
    /// The count of an item, after the brace at `brace`.
    InCount {
        item: Placed,
        count: Count,
        brace: u32,
    },
}

/// Why a byte is not taken.
#[derive(Clone, Copy, Drop)]
pub enum StepFault {
    Memory,
    /// No body goes on so.
    Wrong,
}

impl From<Memory> for StepFault {
    ghost use Rattle.std.specs.Prelude.{◌≡◌};
    ghost use Rattle.kex_regexp.specs.declared.wait.StepFault.TheVariants as faults;

    ghost from_gives = { λ _ e. e ≡ faults.Memory };

    fn from(_: Memory) -> StepFault {
        StepFault::Memory
    }
}
