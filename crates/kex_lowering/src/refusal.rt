// Why a stage has no machine.

ghost use Rattle.std.specs.Prelude.{◌≡◌};
ghost use Rattle.kex_lowering.specs.Refusals.{of_desugar, of_trim};

use kex_desugar::refusal::DesugarRefusal;
use kex_trim::TrimRefusal;
use thiserror::Error;

/// Why a stage has no machine.
#[derive(Clone, Copy, Debug, PartialEq, Eq, Drop, Error)]
pub enum StageRefusal {
    #[error("the stage has too many places")]
    TooManyPlaces,
    /// The empty place isn't reached from the start.
    #[error("no text has a parse")]
    NoText,
    #[error("out of memory")]
    Memory,
}

impl From<DesugarRefusal> for StageRefusal {
    ghost from_gives = { λ why e. e ≡ of_desugar why };

    fn from(why: DesugarRefusal) -> StageRefusal {
        match why {
            DesugarRefusal::TooManyPlaces => StageRefusal::TooManyPlaces,
            DesugarRefusal::Memory => StageRefusal::Memory,
        }
    }
}

impl From<TrimRefusal> for StageRefusal {
    ghost from_gives = { λ why e. e ≡ of_trim why };

    fn from(why: TrimRefusal) -> StageRefusal {
        match why {
            TrimRefusal::NoText => StageRefusal::NoText,
            TrimRefusal::Memory => StageRefusal::Memory,
        }
    }
}
