// The trial: a program of its own on lines of its own.
ghost use Rattle.std.specs.Prelude.{◌≡◌, ◌≤◌, ◌<◌, ◌+◌, ◌++◌, [], List, ℕ, Option, None, true};
ghost use Rattle.std.specs.Prelude.{false, All, IfOk, OnOk, drop, length, map};
ghost use Rattle.kex_ports.specs.Named.{Texts};
ghost use Rattle.kex_ports.specs.Reads.{Reads};
ghost use Rattle.kex_plan.specs.Plans.{teller_of};
ghost use Rattle.kex_plan.specs.declared.plan.Telling.TheVariants as telling;
ghost use Rattle.kex_words.specs.Words.{most_input, room_of};
ghost use Rattle.kex_words.specs.Gains.{StreamChange, change_of};
ghost use Rattle.kex_words.specs.Lines.{trial_line};
ghost use Rattle.kex_words.specs.Words.Asked.{ToTry};
ghost use Rattle.kex_top.specs.Commands.{TellsBytes};
ghost use Rattle.kex_pipeline.specs.History.{History, bytes_passed, is_history_ended};
ghost use Rattle.kex_top.specs.Kex.{CommandAnswers};
ghost use Rattle.kex_top.specs.Outside.{Closes};
ghost use Rattle.kex_pipeline.specs.Piped.{PipeSays, PipeStands, plans_of};
ghost use Rattle.kex_top.specs.Pipelines.{NodesSay, agreed_plans, stage_plans};
ghost use Rattle.kex_top.specs.Run.{IsAsBefore};
ghost use Rattle.kex_top.specs.Starts.{status_of_answer};
ghost use Rattle.kex_top.specs.Tallies.{Counts, HasWaiting, SumsUp};
ghost use Rattle.kex_top.specs.Trials.{AreTrialCounts, made_lines};

use crate::call::serve::pipe_of;
use crate::limits::{MOST_INPUT, limits_to_check};
use crate::program::plans_of_text;
use crate::start::StartError;
use crate::status::Status;
use crate::tally::Tally;
use crate::trial_lines::{next, push_line};
use crate::workers::chunk_pipe_of;
use kex_code::memory::Memory;
use kex_compile::compiled::Compiled;
use kex_pipeline::any_pipe::AnyPipe;
use kex_pipeline::feed::{end, feed};
use kex_pipeline::host::Host;
use kex_pipeline::limited::Limited;
use kex_pipeline::rounds::Pace;
use kex_plan::plan::Plan;
use kex_ports::{Failed, Gate, Sink};
use kex_words::{TrialCounts, TrialLines, write_trial_counts};
use std::thread::Threads;

const TEXT: &str =
    "start: swap >> mark\nswap := (w@/[a-z]+/ ~/ / n@/[0-9]+/ !n \" \" !w /\\n/)*\nmark := (/[0-9]+/ ~/ / \"=\" /[a-z]+\\n/)*\n";

const STATES: u32 = 4_096;

// Gives a piece, and drops what is written for it.
fn give<R: Threads + Sync, T: Limited + Drop + Send, G: Gate + Sync>(
    host: &Host<R, G>,
    pipe: &mut AnyPipe<T>,
    piece: &[u8],
    out: &mut Vec<u8>,
    tally: Tally,
) -> Result<Tally, Memory>
    requires { (h : History) × PipeStands T.Turn pipe.old h × (is_history_ended h ≡ false) }
    ensures same { OnOk result (plans_of T.Turn pipe.new ≡ plans_of T.Turn pipe.old) }
    ensures counts { IfOk result (λ more. (h : History) → PipeStands T.Turn pipe.old h
        → is_history_ended h ≡ false
        → Counts (PipeSays T.Turn (plans_of T.Turn pipe.old)) (PipeStands T.Turn pipe.new) h
        (bytes_passed h ++ piece.now) false tally more) }
{
    let _ = feed(host, pipe, Pace::Blocks, piece, out)?;
    Ok(tally.add(piece.len(), out))
}

// Gives the end.
fn give_end<R: Threads + Sync, T: Limited + Drop + Send, G: Gate + Sync>(
    host: &Host<R, G>,
    pipe: &mut AnyPipe<T>,
    out: &mut Vec<u8>,
    tally: Tally,
) -> Result<Tally, Memory>
    requires { (h : History) × PipeStands T.Turn pipe.old h × (is_history_ended h ≡ false) }
    ensures same { OnOk result (plans_of T.Turn pipe.new ≡ plans_of T.Turn pipe.old) }
    ensures counts { IfOk result (λ more. (h : History) → PipeStands T.Turn pipe.old h
        → is_history_ended h ≡ false
        → Counts (PipeSays T.Turn (plans_of T.Turn pipe.old)) (PipeStands T.Turn pipe.new) h
        (bytes_passed h) true tally more) }
{
    let _ = end(host, pipe, out)?;
    Ok(tally.add(0, out))
}

// Takes away the first `count` bytes.
fn drop_front(waiting: &mut Vec<u8>, count: usize)
    requires { count ≤ length waiting.old.items }
    ensures { waiting.new.items ≡ drop count waiting.old.items }
{
    waiting.drain(..count);
}

// Gives what waits in whole blocks.
fn give_blocks<R: Threads + Sync, T: Limited + Drop + Send, G: Gate + Sync>(
    host: &Host<R, G>,
    pipe: &mut AnyPipe<T>,
    waiting: &mut Vec<u8>,
    block: usize,
    out: &mut Vec<u8>,
    tally: Tally,
) -> Result<Tally, Memory>
    requires block { 0 < block }
    requires fed { (all : List ℕ) × HasWaiting (PipeSays T.Turn (plans_of T.Turn pipe.old))
        (PipeStands T.Turn pipe.old) all waiting.old.items tally }
    ensures same { OnOk result (plans_of T.Turn pipe.new ≡ plans_of T.Turn pipe.old) }
    ensures given { IfOk result (λ more. (all : List ℕ) → HasWaiting (PipeSays T.Turn
        (plans_of T.Turn pipe.old)) (PipeStands T.Turn pipe.old) all waiting.old.items tally
        → HasWaiting (PipeSays T.Turn (plans_of T.Turn pipe.old))
        (PipeStands T.Turn pipe.new) all waiting.new.items more) }
{
    let mut more = tally;
    'blocks: while waiting.len() >= block {
        more = give(host, pipe, &waiting[..block], out, more)?;
        drop_front(waiting, block);
    }
    Ok(more)
}

// Gives lines in blocks, and then the end.
fn give_lines<R: Threads + Sync, T: Limited + Drop + Send, G: Gate + Sync>(
    host: &Host<R, G>,
    pipe: &mut AnyPipe<T>,
    lines: TrialLines,
) -> Result<Tally, Memory>
    requires { PipeStands T.Turn pipe.old None }
    ensures { IfOk result (λ tally.
        SumsUp (PipeSays T.Turn (plans_of T.Turn pipe.old)) (made_lines lines.count) tally) }
{
    let mut out = Vec::new(host.alloc);
    let mut waiting = Vec::new(host.alloc);
    let mut state = 0;
    let mut tally = give(host, pipe, &[], &mut out, Tally::new())?;
    'lines: for _line in 0..lines.count {
        state = next(state);
        push_line(state, &mut waiting)?;
        let block = lines.block as usize;
        tally = give_blocks(host, pipe, &mut waiting, block, &mut out, tally)?;
    }
    tally = give(host, pipe, &waiting, &mut out, tally)?;
    give_end(host, pipe, &mut out, tally)
}

// Gives the lines to stages with these plans: with workers where there are several, and no rings.
fn run_lines<R: Threads + Sync, G: Gate + Sync>(
    host: &Host<R, G>,
    plans: &[Plan],
    lines: TrialLines,
) -> Result<Tally, Memory>
    requires some { 0 < length plans.now }
    requires tables { All (λ p. p.table ≡ None → ⊥) plans.now }
    ensures { IfOk result (λ tally.
        SumsUp (NodesSay (stage_plans most_input (map teller_of plans.now)))
        (made_lines lines.count) tally) }
{
    if lines.workers > 1 && lines.rings.is_none() {
        let mut pipe = chunk_pipe_of(host.alloc, plans, MOST_INPUT, lines.workers)?;
        return give_lines(host, &mut pipe, lines);
    }
    let mut pipe = pipe_of(host.alloc, plans, MOST_INPUT, lines.rings)?;
    give_lines(host, &mut pipe, lines)
}

// Runs the plans on the lines, and sums up what they write.
fn sum_up<R: Threads + Sync, G: Gate + Sync>(
    host: &Host<R, G>,
    compiled: &Compiled,
    lines: TrialLines,
) -> Result<TrialCounts, Memory>
    requires some { 0 < length compiled.now.stages }
    requires agreed { compiled.now.telling ≡ telling.Agreed }
    requires tables { All (λ o. o ≡ None → ⊥) compiled.now.tables }
    ensures { IfOk result (λ counts.
        AreTrialCounts (NodesSay (agreed_plans most_input compiled.now.stages))
        lines.count counts) }
{
    let tally = run_lines(host, compiled.stages(), lines)?;
    Ok(TrialCounts {
        lines: lines.count,
        made: tally.made,
        written: tally.written,
        roll: tally.roll as u32,
    })
}

// Writes the line, and finishes the output.
fn tell_trial_counts<K: Sink>(counts: TrialCounts, output: &mut K) -> Status
    ensures told { TellsBytes (trial_line counts)
        (change_of K.held K.faults output.old output.new) result }
    ensures closes { Closes (K.ending output.old) (K.ending output.new) result }
{
    match write_trial_counts(output, counts) {
        Ok(()) => match output.finish() {
            Ok(()) => Status::Done,
            Err(Failed) => Status::WriteFault,
        },
        Err(Failed) => Status::WriteFault,
    }
}

/// Answers a command for a trial. It needs no shelf and no source.
pub(crate) fn answer_trial<R: Threads + Sync, G: Gate + Sync, K: Sink>(
    host: &Host<R, G>,
    lines: TrialLines,
    output: &mut K,
) -> Result<Status, StartError>
    ensures answers { (texts : Option Texts) (reads : Option Reads) (source : StreamChange)
        → IsAsBefore source
        → CommandAnswers (ToTry lines.count lines.block (room_of lines.rings) lines.workers) texts
        reads source (change_of K.held K.faults output.old output.new) (status_of_answer result) }
    ensures closes { Closes (K.ending output.old) (K.ending output.new) (status_of_answer result) }
{
    let asked = limits_to_check(STATES);
    let plans = plans_of_text(host.alloc, TEXT.as_bytes(), &asked)?;
    let short = plans.shorten(host.alloc)?;
    let counts = sum_up(host, &short, lines)?;
    Ok(tell_trial_counts(counts, output))
}
