// What a call of the program answers.

ghost use Rattle.std.specs.Prelude.{◌≡◌};
ghost use Rattle.kex_top.specs.Status.{is_at_end, note_of, status_number};

use kex_pipe::report::Rejected;
use kex_pipe::turn::Why;
use kex_words::{Note, Refusal};

/// What a call answers. A report names the last stage that rejects, and the byte.
#[derive(Clone, Copy, Debug, PartialEq, Eq)]
pub enum Status {
    Done,
    Rejected(Rejected),
    Usage,
    Refused(Refusal),
    ReadFault,
    WriteFault,
    ShelfFault,
    Memory,
    TooLong(Rejected),
    /// More bytes were read than an input may have.
    InputTooLong,
}

impl Status {
    /// The number with which the program ends.
    pub fn number(&self) -> u8
        ensures { result ≡ status_number self.now }
    {
        match self {
            Status::Done => 0,
            Status::Rejected(_) => 1,
            Status::Usage => 2,
            Status::Refused(_) => 3,
            Status::ReadFault => 4,
            Status::WriteFault => 5,
            Status::ShelfFault => 6,
            Status::Memory => 7,
            Status::TooLong(_) | Status::InputTooLong => 8,
        }
    }

    // What it says.
    pub(crate) fn note(&self) -> Note
        ensures { result ≡ note_of self.now }
    {
        match self {
            Status::Done => Note::Nothing,
            Status::Rejected(report) => Note::Rejected {
                stage: report.stage,
                at: report.at,
                at_end: is_end(report.why),
            },
            Status::Usage => Note::Usage,
            Status::Refused(refusal) => Note::Refused(*refusal),
            Status::ReadFault => Note::ReadFault,
            Status::WriteFault => Note::WriteFault,
            Status::ShelfFault => Note::ShelfFault,
            Status::Memory => Note::Memory,
            Status::TooLong(report) => Note::TooLong {
                stage: report.stage,
                at: report.at,
            },
            Status::InputTooLong => Note::InputTooLong,
        }
    }
}

fn is_end(why: Why) -> bool
    ensures { result ≡ is_at_end why }
{
    match why {
        Why::End => true,
        Why::Byte | Why::Limit => false,
    }
}
