// The command that answers each line by itself.
ghost use Rattle.std.specs.Prelude.{◌≡◌, ◌<◌, ◌≤◌, ◌^◌, ◌++◌, [], ℕ, List, IfOk, OnErr};
ghost use Rattle.std.specs.Prelude.{OnOk, length};
ghost use Rattle.kex_ports.specs.Endings.{IsUnfinished};
ghost use Rattle.kex_ports.specs.Reads.{Asks, last_given};
ghost use Rattle.kex_ports.specs.Shelf.{told_of};
ghost use Rattle.kex_plan.specs.declared.plan.Telling.TheVariants as telling;
ghost use Rattle.kex_each.specs.Lines.{IsBegunBehind, begun_behind, lines_behind, line_if_some};
ghost use Rattle.kex_words.specs.Gains.{change_of};
ghost use Rattle.kex_words.specs.Words.Asked.{ToEach};
ghost use Rattle.kex_top.specs.ByLines.{NodesSayLines, PumpedByLines, RanByLines, line_block};
ghost use Rattle.kex_top.specs.Kex.{CommandAnswers};
ghost use Rattle.kex_top.specs.LineWrites.{PassesLines};
ghost use Rattle.kex_top.specs.Outside.{Closes, IsSinkOpen, ReadsBlocks};
ghost use Rattle.kex_top.specs.Pipelines.{agreed_plans};
ghost use Rattle.kex_pipeline.specs.Troubles.{TroubleCause};
ghost use Rattle.kex_top.specs.Shelves.{ShelfAnswers, shelf_change_of};
ghost use Rattle.kex_top.specs.Starts.{status_of_answer};

use crate::limits::{MOST_INPUT, limits_to_check};
use crate::program::plans_of;
use crate::start::StartError;
use crate::status::Status;
use crate::stream::{is_whole, status_after};
use kex_code::memory::Memory;
use kex_compile::compiled::Compiled;
use kex_each::LineAnswers;
use kex_pipeline::host::Host;
use kex_pipeline::pass::Trouble;
use kex_ports::{Failed, Gate, Shelf, Sink, Source};
use kex_words::{LineLimits, write_all};
use std::thread::Threads;

/// The bytes that one read asks for.
const BLOCK: usize = 65_536;

// Reads a piece, and writes the answers to the lines that it ends.
fn pass_lines<'p, R: Threads + Sync, G: Gate + Sync, K: Sink>(
    host: &Host<R, G>,
    answers: &mut LineAnswers<'p>,
    piece: &[u8],
    out: &mut Vec<u8>,
    output: &mut K,
) -> Result<(), Trouble>
    ensures plans { answers.new.plans ≡ answers.old.plans }
    ensures reads { OnOk result ((w : List ℕ) → IsBegunBehind w answers.old.begun
        → IsBegunBehind (w ++ piece.now) answers.new.begun) }
    ensures passes { (w : List ℕ) → IsBegunBehind w answers.old.begun
        → PassesLines answers.old.plans (lines_behind (begun_behind [] w) piece.now)
        (K.held output.old) (K.held output.new) result }
    ensures cause { TroubleCause (K.faults output.old) (K.faults output.new) result }
    ensures unfinished { IsUnfinished (K.ending output.old) (K.ending output.new) result }
{
    out.clear();
    answers.read(host.rt, host.gate, piece, out)?;
    write_all(output, out)?;
    Ok(())
}

// Writes the answer to an unfinished line that isn't empty.
fn pass_last<'p, R: Threads + Sync, G: Gate + Sync, K: Sink>(
    host: &Host<R, G>,
    answers: &mut LineAnswers<'p>,
    out: &mut Vec<u8>,
    output: &mut K,
) -> Result<(), Trouble>
    ensures passes { (w : List ℕ) → IsBegunBehind w answers.old.begun
        → PassesLines answers.old.plans (line_if_some (begun_behind [] w))
        (K.held output.old) (K.held output.new) result }
    ensures cause { TroubleCause (K.faults output.old) (K.faults output.new) result }
    ensures unfinished { IsUnfinished (K.ending output.old) (K.ending output.new) result }
{
    out.clear();
    answers.finish(host.rt, host.gate, out)?;
    write_all(output, out)?;
    Ok(())
}

// Reads blocks until the end of input, a fault, or more bytes than an input may have, and writes
// the answers to the lines of each.
fn pump_lines<'p, R: Threads + Sync, G: Gate + Sync, S: Source, K: Sink>(
    host: &Host<R, G>,
    answers: &mut LineAnswers<'p>,
    block: &mut [u8],
    out: &mut Vec<u8>,
    input: &mut S,
    output: &mut K,
) -> Status
    requires fresh { IsBegunBehind [] answers.old.begun }
    requires block { (0 < length block.old) × (length block.old ≤ 2 ^ 20) }
    ensures pumped { PumpedByLines (NodesSayLines answers.old.plans)
        (last_given (length block.old) (S.reads input.new))
        (change_of S.rest S.faults input.old input.new)
        (change_of K.held K.faults output.old output.new) result }
    ensures asks { Asks (length block.old) (S.reads input.old) (S.reads input.new) }
    ensures unclosed { IsSinkOpen (K.ending output.old) (K.ending output.new) result }
{
    let mut total: u64 = 0;
    // Each read gives at least one byte.
    'reads: for _read in 0..MOST_INPUT + 1 {
        match input.read(block) {
            Err(Failed) => return Status::ReadFault,
            Ok(0) => return match pass_last(host, answers, out, output) {
                Ok(()) => Status::Done,
                Err(trouble) => status_after(trouble),
            },
            Ok(count) => match pass_lines(host, answers, &block[..count], out, output) {
                Ok(()) => {
                    total += count as u64;
                    if total > MOST_INPUT {
                        return Status::InputTooLong;
                    }
                }
                Err(trouble) => return status_after(trouble),
            },
        }
    }
    Status::InputTooLong
}

/// Answers the lines of the input by these stages. Err says that there was no memory to begin with.
pub(crate) fn answer_lines<R: Threads + Sync, G: Gate + Sync, S: Source, K: Sink>(
    host: &Host<R, G>,
    compiled: &Compiled,
    limits: LineLimits,
    input: &mut S,
    output: &mut K,
) -> Result<Status, Memory>
    requires some { 0 < length compiled.now.stages }
    requires agreed { compiled.now.telling ≡ telling.Agreed }
    ensures ran { IfOk result (λ status.
        RanByLines (NodesSayLines (agreed_plans limits.max_input compiled.now.stages))
        (last_given line_block (S.reads input.new))
        (change_of S.rest S.faults input.old input.new)
        (change_of K.held K.faults output.old output.new) status) }
    ensures blocks { IfOk result (λ status.
        ReadsBlocks line_block (S.reads input.old) (S.reads input.new) status) }
    ensures closes { IfOk result (λ status.
        Closes (K.ending output.old) (K.ending output.new) status) }
    ensures left { OnErr result ((input.new ≡ input.old) × (output.new ≡ output.old)) }
{
    let plans = compiled.stages();
    let mut answers = LineAnswers::new(host.alloc, plans, limits.max_input, limits.workers)?;
    let mut block = vec![in host.alloc; 0u8; BLOCK]?;
    let mut out = Vec::new(host.alloc);
    let status = pump_lines(host, &mut answers, &mut block, &mut out, input, output);
    if !is_whole(status) {
        return Ok(status);
    }
    match output.finish() {
        Ok(()) => Ok(status),
        Err(Failed) => Ok(Status::WriteFault),
    }
}

/// Answers a command to answer each line of the input by itself.
pub(crate) fn answer_each<R: Threads + Sync, G: Gate + Sync, H: Shelf, S: Source, K: Sink>(
    host: &Host<R, G>,
    program: &str,
    limits: LineLimits,
    shelf: &mut H,
    input: &mut S,
    output: &mut K,
) -> Result<Status, StartError>
    ensures texts { H.texts shelf.new ≡ H.texts shelf.old }
    ensures shelf { ShelfAnswers (told_of (H.texts shelf.old) program.now)
        (shelf_change_of H.faults H.breaks shelf.old shelf.new) (status_of_answer result) }
    ensures answers { CommandAnswers
        (ToEach program.now limits.states.most limits.max_input limits.workers)
        (H.texts shelf.old) (S.reads input.new) (change_of S.rest S.faults input.old input.new)
        (change_of K.held K.faults output.old output.new) (status_of_answer result) }
    ensures reads { ReadsBlocks line_block (S.reads input.old) (S.reads input.new)
        (status_of_answer result) }
    ensures closes { Closes (K.ending output.old) (K.ending output.new) (status_of_answer result) }
{
    let asked = limits_to_check(limits.states.most);
    let plans = plans_of(host.alloc, shelf, program, &asked)?;
    let short = plans.shorten(host.alloc)?;
    let status = answer_lines(host, &short, limits, input, output)?;
    Ok(status)
}
