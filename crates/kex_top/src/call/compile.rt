// The command that writes a program's table file.
ghost use Rattle.std.specs.Prelude.{◌≡◌, ◌≤◌, IfErr, IfOk, Option, length, true, false};
ghost use Rattle.kex_compile.specs.Compiled.{IsCompiled, IsRefused};
ghost use Rattle.kex_compile.specs.Stages.{Plans};
ghost use Rattle.kex_compile.specs.declared.refusal.CompileRefusal.{CompileRefusal};
ghost use Rattle.kex_ports.specs.Reads.{Reads};
ghost use Rattle.kex_ports.specs.Shelf.{told_of};
ghost use Rattle.kex_tabfile.specs.Walks.{most_table_states};
ghost use Rattle.kex_tokens.specs.Texts.{most_text};
ghost use Rattle.kex_words.specs.Gains.{StreamChange, change_of};
ghost use Rattle.kex_words.specs.Words.Asked.{ToCompile};
ghost use Rattle.kex_top.specs.Commands.{Filed, TellsBytes};
ghost use Rattle.kex_top.specs.Kex.{CommandAnswers};
ghost use Rattle.kex_top.specs.Outside.{Closes};
ghost use Rattle.kex_top.specs.Refusals.{IsStartOf};
ghost use Rattle.kex_top.specs.Run.{IsAsBefore};
ghost use Rattle.kex_top.specs.Shelves.{ShelfAnswers, shelf_change_of};
ghost use Rattle.kex_top.specs.Starts.{status_of_answer};

use crate::limits::limits_to_check;
use crate::program::plans_of_text;
use crate::start::StartError;
use crate::status::Status;
use crate::taking::{TextKind, take};
use kex_compile::limits::Limits;
use kex_ports::{Failed, Shelf, Sink};
use kex_tabfile::write_table;
use kex_words::{StateLimit, write_all};
use std::alloc::Global;

// Writes the file, and closes the output.
fn tell_file<K: Sink>(file: &[u8], output: &mut K) -> Status
    ensures told { TellsBytes file.now
        (change_of K.held K.faults output.old output.new) result }
    ensures closes { Closes (K.ending output.old) (K.ending output.new) result }
{
    match write_all(output, file) {
        Ok(()) => match output.finish() {
            Ok(()) => Status::Done,
            Err(Failed) => Status::WriteFault,
        },
        Err(Failed) => Status::WriteFault,
    }
}

// The table file of a text, whole.
fn table_file(alloc: Global, text: &[u8], asked: &Limits) -> Result<Vec<u8>, StartError>
    requires short { length text.now ≤ most_text }
    requires tables { asked.now.tables ≡ true }
    requires agreed { asked.now.optimal ≡ false }
    requires states { asked.now.states ≤ most_table_states }
    ensures file { IfOk result (λ file. (plans : Plans) × IsCompiled asked.now text.now plans
        × Filed text.now (λ bytes. bytes ≡ file.items)) }
    ensures none { IfErr result (λ why.
        (rule : CompileRefusal) × IsRefused asked.now text.now rule × IsStartOf text.now rule why) }
{
    let plans = plans_of_text(alloc, text, asked)?;
    let mut file = Vec::new(alloc);
    write_table(alloc, plans.stages(), text, &mut file)?;
    Ok(file)
}

/// Answers a command to write the table file of the program of a name. The file is made whole
/// before any of it is written.
pub(crate) fn answer_compile<H: Shelf, K: Sink>(
    alloc: Global,
    program: &str,
    states: StateLimit,
    shelf: &mut H,
    output: &mut K,
) -> Result<Status, StartError>
    ensures texts { H.texts shelf.new ≡ H.texts shelf.old }
    ensures shelf { ShelfAnswers (told_of (H.texts shelf.old) program.now)
        (shelf_change_of H.faults H.breaks shelf.old shelf.new) (status_of_answer result) }
    ensures answers { (reads : Option Reads) (source : StreamChange) → IsAsBefore source
        → CommandAnswers (ToCompile program.now states.most) (H.texts shelf.old) reads source
        (change_of K.held K.faults output.old output.new) (status_of_answer result) }
    ensures closes { Closes (K.ending output.old) (K.ending output.new) (status_of_answer result) }
{
    let asked = limits_to_check(states.most);
    let text = take(alloc, shelf, program, TextKind::ProgramText)?;
    let file = table_file(alloc, &text, &asked)?;
    Ok(tell_file(&file, output))
}
