// The command that checks a program.
ghost use Rattle.std.specs.Prelude.{◌≡◌, Option, length};
ghost use Rattle.kex_ports.specs.Reads.{Reads};
ghost use Rattle.kex_ports.specs.Shelf.{told_of};
ghost use Rattle.kex_words.specs.Gains.{StreamChange, change_of};
ghost use Rattle.kex_words.specs.Lines.{counts_line};
ghost use Rattle.kex_words.specs.Words.Asked.{ToCheck};
ghost use Rattle.kex_top.specs.Commands.{TellsBytes};
ghost use Rattle.kex_top.specs.Kex.{CommandAnswers};
ghost use Rattle.kex_top.specs.Outside.{Closes};
ghost use Rattle.kex_top.specs.Run.{IsAsBefore};
ghost use Rattle.kex_top.specs.Shelves.{ShelfAnswers, shelf_change_of};
ghost use Rattle.kex_top.specs.Starts.{status_of_answer};

use crate::limits::limits_to_check;
use crate::program::plans_of;
use crate::start::StartError;
use crate::status::Status;
use kex_compile::compiled::Compiled;
use kex_ports::{Failed, Shelf, Sink};
use kex_words::{Counts, StateLimit, write_counts};
use std::alloc::Global;

// Writes how many stages, places and states there are, and closes the output.
fn tell_counts<K: Sink>(compiled: &Compiled, output: &mut K) -> Status
    ensures told { TellsBytes (counts_line (record {
      stages = length compiled.now.stages;
      places = compiled.now.places;
      states = compiled.now.states;
    }))
        (change_of K.held K.faults output.old output.new) result }
    ensures closes { Closes (K.ending output.old) (K.ending output.new) result }
{
    let counts = Counts {
        stages: compiled.stages().len() as u32,
        places: compiled.places(),
        states: compiled.states(),
    };
    match write_counts(output, counts) {
        Ok(()) => match output.finish() {
            Ok(()) => Status::Done,
            Err(Failed) => Status::WriteFault,
        },
        Err(Failed) => Status::WriteFault,
    }
}

/// Answers a command to check the program of a name.
pub(crate) fn answer_check<H: Shelf, K: Sink>(
    alloc: Global,
    program: &str,
    states: StateLimit,
    shelf: &mut H,
    output: &mut K,
) -> Result<Status, StartError>
    ensures texts { H.texts shelf.new ≡ H.texts shelf.old }
    ensures shelf { ShelfAnswers (told_of (H.texts shelf.old) program.now)
        (shelf_change_of H.faults H.breaks shelf.old shelf.new) (status_of_answer result) }
    ensures answers { (reads : Option Reads) (source : StreamChange) → IsAsBefore source
        → CommandAnswers (ToCheck program.now states.most) (H.texts shelf.old) reads source
        (change_of K.held K.faults output.old output.new) (status_of_answer result) }
    ensures closes { Closes (K.ending output.old) (K.ending output.new) (status_of_answer result) }
{
    let asked = limits_to_check(states.most);
    let plans = plans_of(alloc, shelf, program, &asked)?;
    Ok(tell_counts(&plans, output))
}
