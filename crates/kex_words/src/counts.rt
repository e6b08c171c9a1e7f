// Lines of counts.
ghost use Rattle.std.specs.Prelude.{OnOk, OnErr};
ghost use Rattle.std.specs.Io.KnownBytes.{Appends};
ghost use Rattle.kex_ports.specs.Bytes.{AppendsFront};
ghost use Rattle.kex_ports.specs.Causes.{HasCause};
ghost use Rattle.kex_ports.specs.Endings.{IsUnfinished};
ghost use Rattle.kex_words.specs.Lines.{counts_line, trial_line};

use crate::parts::{LinePart, write_parts};
use kex_ports::{Failed, Sink};

/// What a check counts of a program that breaks no rule.
#[derive(Clone, Copy, Debug, PartialEq, Eq)]
pub struct Counts {
    pub stages: u32,
    /// The places of all stages together.
    pub places: u64,
    /// The states of all stages together.
    pub states: u64,
}

/// What a trial counts.
#[derive(Clone, Copy, Debug, PartialEq, Eq)]
pub struct TrialCounts {
    pub lines: u32,
    /// The bytes that were made.
    pub made: u64,
    /// The bytes that were written of them.
    pub written: u64,
    /// The rolled sum of the bytes that were written.
    pub roll: u32,
}

/// Writes the line of the counts, or a front of it where the sink fails. It takes no memory.
pub fn write_counts<K: Sink>(sink: &mut K, counts: Counts) -> Result<(), Failed>
    ensures written { OnOk result
        (Appends (K.held sink.old) (K.held sink.new) (counts_line counts)) }
    ensures failed { OnErr result
        (AppendsFront (K.held sink.old) (K.held sink.new) (counts_line counts)) }
    ensures cause { HasCause (K.faults sink.old) (K.faults sink.new) result }
    ensures unfinished { IsUnfinished (K.ending sink.old) (K.ending sink.new) result }
{
    write_parts(
        sink,
        &[
            LinePart::Text("stages "),
            LinePart::Number(counts.stages as u64),
            LinePart::Text(" places "),
            LinePart::Number(counts.places),
            LinePart::Text(" states "),
            LinePart::Number(counts.states),
            LinePart::Text("\n"),
        ],
    )
}

/// Writes the line of a trial, or a front of it where the sink fails. It takes no memory.
pub fn write_trial_counts<K: Sink>(sink: &mut K, counts: TrialCounts) -> Result<(), Failed>
    ensures written { OnOk result
        (Appends (K.held sink.old) (K.held sink.new) (trial_line counts)) }
    ensures failed { OnErr result
        (AppendsFront (K.held sink.old) (K.held sink.new) (trial_line counts)) }
    ensures cause { HasCause (K.faults sink.old) (K.faults sink.new) result }
    ensures unfinished { IsUnfinished (K.ending sink.old) (K.ending sink.new) result }
{
    write_parts(
        sink,
        &[
            LinePart::Text("lines "),
            LinePart::Number(counts.lines as u64),
            LinePart::Text(" in "),
            LinePart::Number(counts.made),
            LinePart::Text(" out "),
            LinePart::Number(counts.written),
            LinePart::Text(" roll "),
            LinePart::Number(counts.roll as u64),
            LinePart::Text("\n"),
        ],
    )
}
