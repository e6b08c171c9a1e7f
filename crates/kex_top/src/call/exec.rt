// The command that runs a table file.
ghost use Rattle.std.specs.Prelude.{◌≡◌, IfErr, IfOk, map};
ghost use Rattle.kex_ports.specs.Shelf.{told_of};
ghost use Rattle.kex_plan.specs.Plans.{AllTell, machine_of};
ghost use Rattle.kex_plan.specs.declared.plan.Telling.TheVariants as telling;
ghost use Rattle.kex_words.specs.Gains.{change_of};
ghost use Rattle.kex_words.specs.Words.{reach_of};
ghost use Rattle.kex_words.specs.Words.Asked.{ToExec};
ghost use Rattle.kex_top.specs.Kex.{CommandAnswers};
ghost use Rattle.kex_top.specs.Outside.{Closes, ReadsBlocks};
ghost use Rattle.kex_top.specs.Refusals.{HasNone, HoldsStages};
ghost use Rattle.kex_top.specs.Shelves.{ShelfAnswers, TakesFromShelf, shelf_change_of};
ghost use Rattle.kex_top.specs.Starts.{status_of_answer};
ghost use Rattle.kex_top.specs.Taken.{a_table_file};

use crate::call::serve::run_stages;
use crate::refused::file_refused;
use crate::start::StartError;
use crate::status::Status;
use crate::taking::{TextKind, take};
use kex_pipeline::host::Host;
use kex_ports::{Gate, Shelf, Sink, Source};
use kex_tabfile::check_table;
use kex_tabfile::checked::Checked;
use kex_words::RunLimits;
use std::alloc::Global;
use std::thread::Threads;

// Takes the table file of a name, and checks it.
fn stages_in_file<H: Shelf>(alloc: Global, shelf: &mut H, name: &str) -> Result<Checked, StartError>
    ensures texts { H.texts shelf.new ≡ H.texts shelf.old }
    ensures shelf { TakesFromShelf (told_of (H.texts shelf.old) name.now)
        (shelf_change_of H.faults H.breaks shelf.old shelf.new) result }
    ensures checked { IfOk result (λ checked.
        HoldsStages (told_of (H.texts shelf.old) name.now) (map machine_of checked)) }
    ensures agreed { IfOk result (λ checked. AllTell telling.Agreed checked) }
    ensures none { IfErr result (λ why.
        HasNone a_table_file (told_of (H.texts shelf.old) name.now) why) }
{
    let file = take(alloc, shelf, name, TextKind::TableFile)?;
    match check_table(alloc, &file) {
        Ok(checked) => Ok(checked),
        Err(refusal) => Err(file_refused(alloc, &file, refusal)),
    }
}

/// Answers a command to run the table file of a name on the input.
pub(crate) fn answer_exec<R: Threads + Sync, G: Gate + Sync, H: Shelf, S: Source, K: Sink>(
    host: &Host<R, G>,
    table: &str,
    limits: RunLimits,
    shelf: &mut H,
    input: &mut S,
    output: &mut K,
) -> Result<Status, StartError>
    ensures texts { H.texts shelf.new ≡ H.texts shelf.old }
    ensures shelf { ShelfAnswers (told_of (H.texts shelf.old) table.now)
        (shelf_change_of H.faults H.breaks shelf.old shelf.new) (status_of_answer result) }
    ensures answers { CommandAnswers (ToExec table.now (reach_of limits)) (H.texts shelf.old)
        (S.reads input.new) (change_of S.rest S.faults input.old input.new)
        (change_of K.held K.faults output.old output.new) (status_of_answer result) }
    ensures reads { ReadsBlocks limits.block (S.reads input.old) (S.reads input.new)
        (status_of_answer result) }
    ensures closes { Closes (K.ending output.old) (K.ending output.new) (status_of_answer result) }
{
    let checked = stages_in_file(host.alloc, shelf, table)?;
    let short = checked.shorten(host.alloc)?;
    let status = run_stages(host, short.stages(), limits, input, output)?;
    Ok(status)
}
