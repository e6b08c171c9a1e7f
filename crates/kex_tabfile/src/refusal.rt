// Why a table file isn't good.

ghost use Rattle.std.specs.Prelude.{◌≡◌};
ghost use Rattle.kex_tabfile.specs.TableFiles.{of_text};
ghost use Rattle.kex_tabfile.specs.declared.refusal.TableRefusal.TheVariants.{Memory};

use kex_code::memory::Memory;
use kex_compile::refusal::CompileRefusal;
use std::alloc::{AllocError, AllocFailed};
use thiserror::Error;

/// Why a table file isn't good.
#[derive(Clone, Copy, Debug, PartialEq, Eq, Drop, Error)]
pub enum TableRefusal {
    /// The file has more than `MOST_BYTES` bytes.
    #[error("the table file is too long")]
    TableTooLong,
    /// This line is the first that isn't right, or is missing where another is. Lines count by line
    /// feeds, from 1.
    #[error("line {line} of the table file isn't right")]
    BadTable { line: u32 },
    /// The program text in the file is refused, but not for want of memory; offsets count its
    /// bytes.
    #[error("{0}")]
    Text(CompileRefusal),
    #[error("out of memory")]
    Memory,
}

impl From<Memory> for TableRefusal {
    ghost from_gives = { λ _ e. e ≡ Memory };

    fn from(_: Memory) -> TableRefusal {
        TableRefusal::Memory
    }
}

impl From<AllocError> for TableRefusal {
    ghost from_gives = { λ _ e. e ≡ Memory };

    fn from(_: AllocError) -> TableRefusal {
        TableRefusal::Memory
    }
}

impl<T: Drop> From<AllocFailed<T>> for TableRefusal {
    ghost from_gives = { λ _ e. e ≡ Memory };

    fn from(_: AllocFailed<T>) -> TableRefusal {
        TableRefusal::Memory
    }
}

impl From<CompileRefusal> for TableRefusal {
    ghost from_gives = { λ why e. e ≡ of_text why };

    fn from(why: CompileRefusal) -> TableRefusal {
        match why {
            CompileRefusal::Memory => TableRefusal::Memory,
            why => TableRefusal::Text(why),
        }
    }
}
