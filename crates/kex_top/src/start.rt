// Why a command doesn't begin.
ghost use Rattle.std.specs.Prelude.{◌≡◌};
ghost use Rattle.kex_top.specs.Starts.{of_words, status_of, status_of_answer};
ghost use Rattle.kex_top.specs.declared.start.StartError.TheVariants as start;

use crate::status::Status;
use kex_code::memory::Memory;
use kex_words::{Refusal, WordsRefusal};

/// Why a command doesn't begin. Nothing is read or written then.
#[derive(Clone, Copy, Debug, PartialEq, Eq, Drop)]
pub(crate) enum StartError {
    /// The words are out of form.
    Usage,
    /// The shelf failed.
    Shelf,
    /// The program, or the table file, breaks a rule.
    Refused(Refusal),
    Memory,
}

impl From<WordsRefusal> for StartError {
    ghost from_gives = { λ why e. e ≡ of_words why };

    fn from(why: WordsRefusal) -> StartError {
        match why {
            WordsRefusal::Usage => StartError::Usage,
            WordsRefusal::Memory => StartError::Memory,
        }
    }
}

impl From<Memory> for StartError {
    ghost from_gives = { λ _ e. e ≡ start.Memory };

    fn from(_: Memory) -> StartError {
        StartError::Memory
    }
}

impl StartError {
    fn status(self) -> Status
        ensures { result ≡ status_of self }
    {
        match self {
            StartError::Usage => Status::Usage,
            StartError::Shelf => Status::ShelfFault,
            StartError::Refused(refusal) => Status::Refused(refusal),
            StartError::Memory => Status::Memory,
        }
    }
}

/// The status of a command that has ended, or hasn't begun.
pub(crate) fn status_of(answer: Result<Status, StartError>) -> Status
    ensures { result ≡ status_of_answer answer }
{
    match answer {
        Ok(status) => status,
        Err(why) => why.status(),
    }
}
