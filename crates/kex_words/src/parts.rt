// A line in parts, which is written without taking memory.
ghost use Rattle.std.specs.Prelude.{decimal, map};
ghost use Rattle.std.specs.List.{concat};
ghost use Rattle.kex_ports.specs.Endings.{IsUnfinished};
ghost use Rattle.kex_words.specs.Gains.{TellsGain, change_of};
ghost use Rattle.kex_words.specs.Parts.{part_bytes};

use crate::writing::write_all;
use itoa::Buffer;
use kex_ports::{Failed, Sink};

/// A part of a line.
#[derive(Clone, Copy)]
pub enum LinePart<'a> {
    Text(&'a str),
    Number(u64),
}

pub(crate) fn write_text<N: Sink>(sink: &mut N, text: &str) -> Result<(), Failed>
    ensures tells { TellsGain (change_of N.held N.faults sink.old sink.new) text.now result }
    ensures unfinished { IsUnfinished (N.ending sink.old) (N.ending sink.new) result }
{
    write_all(sink, text.as_bytes())
}

fn write_number<N: Sink>(sink: &mut N, number: u64) -> Result<(), Failed>
    ensures tells { TellsGain (change_of N.held N.faults sink.old sink.new)
        (decimal number) result }
    ensures unfinished { IsUnfinished (N.ending sink.old) (N.ending sink.new) result }
{
    let mut digits = Buffer::new();
    write_all(sink, digits.format(number).as_bytes())
}

fn write_part<N: Sink>(sink: &mut N, part: LinePart) -> Result<(), Failed>
    ensures tells { TellsGain (change_of N.held N.faults sink.old sink.new)
        (part_bytes part.entry) result }
    ensures unfinished { IsUnfinished (N.ending sink.old) (N.ending sink.new) result }
{
    match part {
        LinePart::Text(text) => write_text(sink, text),
        LinePart::Number(number) => write_number(sink, number),
    }
}

/// Writes the parts one after the other, or a front of them where the sink fails. Takes no memory.
pub fn write_parts<N: Sink>(sink: &mut N, parts: &[LinePart]) -> Result<(), Failed>
    ensures tells { TellsGain (change_of N.held N.faults sink.old sink.new)
        (concat (map part_bytes parts.now)) result }
    ensures unfinished { IsUnfinished (N.ending sink.old) (N.ending sink.new) result }
{
    for part in parts {
        write_part(sink, *part)?;
    }
    Ok(())
}
