// The line that a run leaves in the notes. It takes no memory.
ghost use Rattle.std.specs.Prelude.{◌≡◌};
ghost use Rattle.kex_ports.specs.Endings.{IsUnfinished, finishes_of};
ghost use Rattle.kex_words.specs.Gains.{Gains, TellsGain, change_of};
ghost use Rattle.kex_words.specs.Lines.{line_end, line_of, refused_line, rejected_line};
ghost use Rattle.kex_words.specs.Lines.{too_long_line};
ghost use Rattle.kex_words.specs.declared.notes.Note.TheVariants.{Nothing};

use crate::commands::USAGE;
use crate::parts::{LinePart, write_parts, write_text};
use crate::refusals::{Refusal, RefusalPlace};
use kex_ports::{Failed, Sink};

/// What a run leaves to be told. Stages count from 1, bytes from 0.
#[derive(Clone, Copy, Debug, PartialEq, Eq)]
pub enum Note {
    Nothing,
    /// The first `at` bytes of the stage's input begin a text that has a parse. Up to byte `at` and
    /// with it they begin none; or, at the end, they are the whole input, and have no parse.
    Rejected { stage: u32, at: u64, at_end: bool },
    /// The stage's input goes on past its limit, which is this byte.
    TooLong { stage: u32, at: u64 },
    /// More bytes were read than an input may have.
    InputTooLong,
    Usage,
    Refused(Refusal),
    ReadFault,
    WriteFault,
    ShelfFault,
    Memory,
}

fn end_of(at_end: bool) -> &'static str
    ensures { result.now ≡ line_end at_end }
{
    if at_end { " (end)\n" } else { "\n" }
}

fn rejected<N: Sink>(sink: &mut N, stage: u32, at: u64, at_end: bool) -> Result<(), Failed>
    ensures tells { TellsGain (change_of N.held N.faults sink.old sink.new)
        (rejected_line stage at at_end) result }
    ensures unfinished { IsUnfinished (N.ending sink.old) (N.ending sink.new) result }
{
    write_parts(
        sink,
        &[
            LinePart::Text("rejected: stage "),
            LinePart::Number(stage as u64),
            LinePart::Text(" at byte "),
            LinePart::Number(at),
            LinePart::Text(end_of(at_end)),
        ],
    )
}

fn too_long<N: Sink>(sink: &mut N, stage: u32, at: u64) -> Result<(), Failed>
    ensures tells { TellsGain (change_of N.held N.faults sink.old sink.new)
        (too_long_line stage at) result }
    ensures unfinished { IsUnfinished (N.ending sink.old) (N.ending sink.new) result }
{
    write_parts(
        sink,
        &[
            LinePart::Text("too long: stage "),
            LinePart::Number(stage as u64),
            LinePart::Text(" at byte "),
            LinePart::Number(at),
            LinePart::Text("\n"),
        ],
    )
}

fn refused<N: Sink>(sink: &mut N, refusal: Refusal) -> Result<(), Failed>
    ensures tells { TellsGain (change_of N.held N.faults sink.old sink.new)
        (refused_line refusal) result }
    ensures unfinished { IsUnfinished (N.ending sink.old) (N.ending sink.new) result }
{
    let title = refusal.rule.title();
    match refusal.place {
        RefusalPlace::Nowhere => write_parts(
            sink,
            &[
                LinePart::Text("refused: "),
                LinePart::Text(title),
                LinePart::Text("\n"),
            ],
        ),
        RefusalPlace::At { line, column } => write_parts(
            sink,
            &[
                LinePart::Text("refused: "),
                LinePart::Text(title),
                LinePart::Text(" at line "),
                LinePart::Number(line as u64),
                LinePart::Text(" column "),
                LinePart::Number(column as u64),
                LinePart::Text("\n"),
            ],
        ),
        RefusalPlace::Line(line) => write_parts(
            sink,
            &[
                LinePart::Text("refused: "),
                LinePart::Text(title),
                LinePart::Text(" at line "),
                LinePart::Number(line as u64),
                LinePart::Text("\n"),
            ],
        ),
        RefusalPlace::Stage(stage) => write_parts(
            sink,
            &[
                LinePart::Text("refused: "),
                LinePart::Text(title),
                LinePart::Text(" in stage "),
                LinePart::Number(stage as u64),
                LinePart::Text("\n"),
            ],
        ),
    }
}

pub(crate) fn line<N: Sink>(sink: &mut N, note: Note) -> Result<(), Failed>
    ensures tells { TellsGain (change_of N.held N.faults sink.old sink.new)
        (line_of note) result }
    ensures unfinished { IsUnfinished (N.ending sink.old) (N.ending sink.new) result }
    ensures left { note ≡ Nothing → sink.new ≡ sink.old }
{
    match note {
        Note::Nothing => Ok(()),
        Note::Rejected { stage, at, at_end } => rejected(sink, stage, at, at_end),
        Note::TooLong { stage, at } => too_long(sink, stage, at),
        Note::InputTooLong => write_text(sink, "too long: input\n"),
        Note::Usage => write_text(sink, USAGE),
        Note::Refused(refusal) => refused(sink, refusal),
        Note::ReadFault => write_text(sink, "read fault\n"),
        Note::WriteFault => write_text(sink, "write fault\n"),
        Note::ShelfFault => write_text(sink, "shelf fault\n"),
        Note::Memory => write_text(sink, "out of memory\n"),
    }
}

/// Writes the note's line, or a front of it where the sink fails. Where the note is `Nothing`, the
/// sink isn't called.
pub fn tell<N: Sink>(note: Note, sink: &mut N)
    ensures tells { Gains (change_of N.held N.faults sink.old sink.new) (line_of note) }
    ensures unfinished { finishes_of (N.ending sink.new) ≡ finishes_of (N.ending sink.old) }
    ensures left { note ≡ Nothing → sink.new ≡ sink.old }
{
    let _ = line(sink, note);
}
