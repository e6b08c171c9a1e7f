// The program over the objects that it is handed.
ghost use Rattle.std.specs.Prelude.{◌≡◌, ◌⊎◌, ℕ, List, Some, None, true, false, map, string_bytes};
ghost use Rattle.kex_ports.specs.Endings.{finishes_of};
ghost use Rattle.kex_ports.specs.Shelf.{present};
ghost use Rattle.kex_words.specs.Words.{Asked, asked_by_command, asked_of};
ghost use Rattle.kex_words.specs.Gains.{Gains, change_of};
ghost use Rattle.kex_words.specs.Lines.{line_of};
ghost use Rattle.kex_top.specs.Commands.{calls_of, runs_within, taken_for, told_text};
ghost use Rattle.kex_top.specs.Kex.{CallAnswers, CommandAnswers, Headline, IsComplete};
ghost use Rattle.kex_top.specs.Outside.{Closes, ReadsBy};
ghost use Rattle.kex_top.specs.Shelves.{ShelfServes, shelf_change_of};
ghost use Rattle.kex_top.specs.Starts.{status_of_answer};
ghost use Rattle.kex_top.specs.Status.{note_of};
ghost use Rattle.kex_top.specs.declared.status.Status.TheVariants.{Done, Memory};

mod check;
mod compile;
mod each;
mod exec;
mod serve;
mod trial;

use crate::call::check::answer_check;
use crate::call::compile::answer_compile;
use crate::call::each::answer_each;
use crate::call::exec::answer_exec;
use crate::call::serve::answer_stream;
use crate::call::trial::answer_trial;
use crate::start::{StartError, status_of};
use crate::status::Status;
use kex_pipeline::host::Host;
use kex_ports::{Gate, Shelf, Sink, Source};
use kex_words::{Command, read, tell};
use std::alloc::Global;
use std::thread::Threads;

// Answers a command.
fn answer_command<R: Threads + Sync, G: Gate + Sync, H: Shelf, S: Source, K: Sink>(
    host: &Host<R, G>,
    command: Command,
    shelf: &mut H,
    input: &mut S,
    output: &mut K,
) -> Result<Status, StartError>
    ensures texts { H.texts shelf.new ≡ H.texts shelf.old }
    ensures shelf { ShelfServes (calls_of (Some (asked_by_command command.entry))).takes
        (H.texts shelf.old) (shelf_change_of H.faults H.breaks shelf.old shelf.new)
        (status_of_answer result) }
    ensures answers { CommandAnswers (asked_by_command command.entry) (H.texts shelf.old)
        (S.reads input.new) (change_of S.rest S.faults input.old input.new)
        (change_of K.held K.faults output.old output.new) (status_of_answer result) }
    ensures reads { ReadsBy (calls_of (Some (asked_by_command command.entry))).block
        (S.reads input.old) (S.reads input.new) (status_of_answer result) }
    ensures closes { (calls_of (Some (asked_by_command command.entry))).writes ≡ true
        → Closes (K.ending output.old) (K.ending output.new) (status_of_answer result) }
    ensures untouched { let calls = calls_of (Some (asked_by_command command.entry)) in
        (calls.takes ≡ None → shelf.new ≡ shelf.old) × (calls.block ≡ None → input.new ≡ input.old)
        × (calls.writes ≡ false → output.new ≡ output.old) }
{
    match command {
        Command::Stream(stream) => answer_stream(host, stream, shelf, input, output),
        Command::Check { program, states } => {
            answer_check(host.alloc, program, states, shelf, output)
        }
        Command::Each { program, limits } => {
            answer_each(host, program, limits, shelf, input, output)
        }
        Command::Trial(lines) => answer_trial(host, lines, output),
        Command::Compile { program, states } => {
            answer_compile(host.alloc, program, states, shelf, output)
        }
        Command::Exec { table, limits } => {
            answer_exec(host, table, limits, shelf, input, output)
        }
    }
}

// Answers the words.
fn answer<R: Threads + Sync, G: Gate + Sync, H: Shelf, S: Source, K: Sink>(
    host: &Host<R, G>,
    words: &[String],
    shelf: &mut H,
    input: &mut S,
    output: &mut K,
) -> Result<Status, StartError>
    ensures texts { H.texts shelf.new ≡ H.texts shelf.old }
    ensures shelf { ShelfServes (calls_of (asked_of (map string_bytes words.now))).takes
        (H.texts shelf.old) (shelf_change_of H.faults H.breaks shelf.old shelf.new)
        (status_of_answer result) }
    ensures answers { CallAnswers (asked_of (map string_bytes words.now)) (H.texts shelf.old)
        (S.reads input.new) (change_of S.rest S.faults input.old input.new)
        (change_of K.held K.faults output.old output.new) (status_of_answer result) }
    ensures reads { ReadsBy (calls_of (asked_of (map string_bytes words.now))).block
        (S.reads input.old) (S.reads input.new) (status_of_answer result) }
    ensures closes { (calls_of (asked_of (map string_bytes words.now))).writes ≡ true
        → Closes (K.ending output.old) (K.ending output.new) (status_of_answer result) }
    ensures untouched { let calls = calls_of (asked_of (map string_bytes words.now)) in
        (calls.takes ≡ None → shelf.new ≡ shelf.old) × (calls.block ≡ None → input.new ≡ input.old)
        × (calls.writes ≡ false → output.new ≡ output.old) }
{
    let command = read(host.alloc, words)?;
    answer_command(host, command, shelf, input, output)
}

/// Does what the words ask for, and leaves a line in the notes. The words begin with the program's
/// own name.
///
/// `run` writes what the program means on the input: exactly the meaning of its greedy parse. Where
/// the input breaks off or has no parse it is exactly what its surviving paths agreed on before the
/// first byte after which no continuation parses. Of a program of several stages each stage reads
/// what the one before it wrote. The cases of `Performs` say what the other commands do.
pub fn kex<R: Threads + Sync, H: Shelf, S: Source, K: Sink, N: Sink, G: Gate + Sync>(
    rt: &R,
    alloc: Global,
    words: &[String],
    shelf: &mut H,
    input: &mut S,
    output: &mut K,
    notes: &mut N,
    gate: &G,
) -> Status
    // What the words ask for decides what each of these says; the definitions go by its cases.
    ensures texts { H.texts shelf.new ≡ H.texts shelf.old }
    ensures shelf { ShelfServes (calls_of (asked_of (map string_bytes words.now))).takes
        (H.texts shelf.old) (shelf_change_of H.faults H.breaks shelf.old shelf.new) result }
    ensures answers { CallAnswers (asked_of (map string_bytes words.now)) (H.texts shelf.old)
        (S.reads input.new) (change_of S.rest S.faults input.old input.new)
        (change_of K.held K.faults output.old output.new) result }
    ensures complete { IsComplete (asked_of (map string_bytes words.now)) (H.texts shelf.old)
        (shelf_change_of H.faults H.breaks shelf.old shelf.new)
        (change_of S.rest S.faults input.old input.new)
        (change_of K.held K.faults output.old output.new) → (result ≡ Done) ⊎ (result ≡ Memory) }
    ensures reads { ReadsBy (calls_of (asked_of (map string_bytes words.now))).block
        (S.reads input.old) (S.reads input.new) result }
    ensures closes { (calls_of (asked_of (map string_bytes words.now))).writes ≡ true
        → Closes (K.ending output.old) (K.ending output.new) result }
    ensures untouched { let calls = calls_of (asked_of (map string_bytes words.now)) in
        (calls.takes ≡ None → shelf.new ≡ shelf.old) × (calls.block ≡ None → input.new ≡ input.old)
        × (calls.writes ≡ false → output.new ≡ output.old) }

    // What shelf, source and sink show, and the answer Done, fix the output.
    ensures headline { (asked : Asked) (limit : ℕ) (text input_bytes before : List ℕ)
        → asked_of (map string_bytes words.now) ≡ Some asked → runs_within asked ≡ Some limit
        → told_text (H.texts shelf.old) asked ≡ present text
        → S.rest input.old ≡ Some input_bytes → K.held output.old ≡ Some before → result ≡ Done
        → Headline (taken_for asked) text limit input_bytes before (S.rest input.new)
        (K.held output.new) }

    ensures unfinished { finishes_of (N.ending notes.new) ≡ finishes_of (N.ending notes.old) }
    ensures silent { result ≡ Done → notes.new ≡ notes.old }
    ensures note { Gains (change_of N.held N.faults notes.old notes.new)
        (line_of (note_of result)) }
{
    let host = Host { rt, gate, alloc };
    let status = status_of(answer(&host, words, shelf, input, output));
    tell(status.note(), notes);
    status
}
