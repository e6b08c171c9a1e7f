// Commands that work on the input with stages, and how stages are run.
ghost use Rattle.std.specs.Prelude.{◌≡◌, ◌<◌, All, IfOk, None, OnErr, true, false, length};
ghost use Rattle.std.specs.Prelude.{map, vec_len};
ghost use Rattle.kex_ports.specs.Reads.{last_given};
ghost use Rattle.kex_ports.specs.Shelf.{told_of};
ghost use Rattle.kex_plan.specs.Plans.{teller_of};
ghost use Rattle.kex_compile.specs.Stages.{asked_telling};
ghost use Rattle.kex_words.specs.Gains.{change_of};
ghost use Rattle.kex_words.specs.Words.{mode_of, reach_of};
ghost use Rattle.kex_words.specs.Words.Asked.{ToStream};
ghost use Rattle.kex_top.specs.Commands.{is_writing};
ghost use Rattle.kex_top.specs.Kex.{CommandAnswers};
ghost use Rattle.kex_top.specs.Modes.{MachinesSay, limits_of};
ghost use Rattle.kex_top.specs.Outside.{Closes, ReadsBlocks};
ghost use Rattle.kex_pipeline.specs.Piped.{PipeSays, PipeStands, plans_of};
ghost use Rattle.kex_pipeline.specs.Sayings.{AllAnswer, AlwaysSays};
ghost use Rattle.kex_top.specs.Pipelines.{NodesSay, stage_plans};
ghost use Rattle.kex_top.specs.Run.{Ran};
ghost use Rattle.kex_top.specs.Shelves.{ShelfAnswers, shelf_change_of};
ghost use Rattle.kex_top.specs.Starts.{status_of_answer};

use crate::limits::limits_of;
use crate::program::plans_of;
use crate::single::{act, code, test};
use crate::start::StartError;
use crate::status::Status;
use crate::stream::run;
use crate::workers::run_shared;
use kex_code::memory::Memory;
use kex_compile::compiled::Compiled;
use kex_pipe::turn::Turn;
use kex_pipeline::any_pipe::AnyPipe;
use kex_pipeline::host::Host;
use kex_pipeline::limited::Limited;
use kex_pipeline::plain::Plain;
use kex_pipeline::rounds::Pace;
use kex_plan::plan::Plan;
use kex_ports::{Gate, Shelf, Sink, Source};
use kex_stage::stage::Stage;
use kex_words::{Mode, Rings, RunLimits, Stream};
use std::alloc::Global;
use std::thread::Threads;

// The stage with this plan, which takes at most `max_input` bytes.
fn stage_of<'p>(alloc: Global, plan: &'p Plan, max_input: u64) -> Result<Plain<Stage<'p>>, Memory>
    ensures plan { IfOk result (λ s. ⟦<Plain<Stage<'p>> as Turn>⟧.plan s
        ≡ record { machine = teller_of plan.now; limit = max_input }) }
    ensures unfed { IfOk result (λ s. ⟦<Plain<Stage<'p>> as Turn>⟧.stands s None) }
{
    let stage = Stage::new(alloc, plan, max_input)?;
    Ok(Plain { alloc, stage })
}

/// The stages with these plans, each of which takes at most `max_input` bytes.
pub(crate) fn stages_of<'p>(
    alloc: Global,
    plans: &'p [Plan],
    max_input: u64,
) -> Result<Vec<Plain<Stage<'p>>>, Memory>
    ensures count { IfOk result (λ stages. vec_len stages ≡ length plans.now) }
    ensures plans { IfOk result (λ stages. map ⟦<Plain<Stage<'p>> as Turn>⟧.plan stages.items
        ≡ stage_plans max_input (map teller_of plans.now)) }
    ensures unfed { IfOk result (λ stages.
        All (λ s. ⟦<Plain<Stage<'p>> as Turn>⟧.stands s None) stages.items) }
    ensures answers { IfOk result (λ stages.
        AllAnswer ⟦<Plain<Stage<'p>> as Turn>⟧.gives
        (map ⟦<Plain<Stage<'p>> as Turn>⟧.plan stages.items)) }
{
    let mut stages = Vec::new(alloc);
    'plans: for plan in plans {
        let _nodes = plan.machine().nodes();
        let _table = plan.table();
        let stage = stage_of(alloc, plan, max_input)?;
        stages.push(stage)?;
    }
    Ok(stages)
}

/// The pipe of the stages with these plans.
pub(crate) fn pipe_of<'p>(
    alloc: Global,
    plans: &'p [Plan],
    max_input: u64,
    rings: Option<Rings>,
) -> Result<AnyPipe<Plain<Stage<'p>>>, Memory>
    requires { 0 < length plans.now }
    ensures plans { IfOk result (λ pipe. plans_of ⟦<Plain<Stage<'p>> as Turn>⟧ pipe
        ≡ stage_plans max_input (map teller_of plans.now)) }
    ensures fresh { IfOk result (λ pipe. PipeStands ⟦<Plain<Stage<'p>> as Turn>⟧ pipe None) }
    ensures says { IfOk result (λ pipe. AlwaysSays (PipeSays ⟦<Plain<Stage<'p>> as Turn>⟧
        (plans_of ⟦<Plain<Stage<'p>> as Turn>⟧ pipe))) }
{
    let stages = stages_of(alloc, plans, max_input)?;
    let pipe = AnyPipe::new(alloc, stages, rings)?;
    Ok(pipe)
}

/// Runs the stages with these plans.
pub(crate) fn run_stages<R: Threads + Sync, G: Gate + Sync, S: Source, K: Sink>(
    host: &Host<R, G>,
    plans: &[Plan],
    limits: RunLimits,
    input: &mut S,
    output: &mut K,
) -> Result<Status, Memory>
    requires { 0 < length plans.now }
    ensures ran { IfOk result (λ status.
        Ran (NodesSay (stage_plans limits.max_input (map teller_of plans.now)))
        (last_given limits.block (S.reads input.new))
        (change_of S.rest S.faults input.old input.new)
        (change_of K.held K.faults output.old output.new) status) }
    ensures blocks { IfOk result (λ status.
        ReadsBlocks limits.block (S.reads input.old) (S.reads input.new) status) }
    ensures closes { IfOk result (λ status.
        Closes (K.ending output.old) (K.ending output.new) status) }
    ensures left { OnErr result ((input.new ≡ input.old) × (output.new ≡ output.old)) }
{
    let mut pipe = pipe_of(host.alloc, plans, limits.max_input, limits.rings)?;
    run(host, &mut pipe, Pace::Parts, limits, input, output)
}

// Runs the stages with these plans: with workers where there are several, and no rings.
fn run_plans<R: Threads + Sync, G: Gate + Sync, S: Source, K: Sink>(
    host: &Host<R, G>,
    plans: &[Plan],
    limits: RunLimits,
    input: &mut S,
    output: &mut K,
) -> Result<Status, Memory>
    requires some { 0 < length plans.now }
    requires tables { All (λ p. p.table ≡ None → ⊥) plans.now }
    ensures ran { IfOk result (λ status.
        Ran (NodesSay (stage_plans limits.max_input (map teller_of plans.now)))
        (last_given limits.block (S.reads input.new))
        (change_of S.rest S.faults input.old input.new)
        (change_of K.held K.faults output.old output.new) status) }
    ensures blocks { IfOk result (λ status.
        ReadsBlocks limits.block (S.reads input.old) (S.reads input.new) status) }
    ensures closes { IfOk result (λ status.
        Closes (K.ending output.old) (K.ending output.new) status) }
    ensures left { OnErr result ((input.new ≡ input.old) × (output.new ≡ output.old)) }
{
    if limits.workers > 1 && limits.rings.is_none() {
        run_shared(host, plans, limits, input, output)
    } else {
        run_stages(host, plans, limits, input, output)
    }
}

// Writes for the input what is asked for. A test doesn't call the output.
fn serve<R: Threads + Sync, G: Gate + Sync, S: Source, K: Sink>(
    host: &Host<R, G>,
    mode: Mode,
    compiled: &Compiled,
    limits: RunLimits,
    input: &mut S,
    output: &mut K,
) -> Result<Status, Memory>
    requires some { 0 < length compiled.now.stages }
    requires one { (limits_of (mode_of mode)).one_stage ≡ true → length compiled.now.stages ≡ 1 }
    requires told { compiled.now.telling ≡ asked_telling (limits_of (mode_of mode)) }
    requires tables { (limits_of (mode_of mode)).tables ≡ true
        → All (λ o. o ≡ None → ⊥) compiled.now.tables }
    ensures ran { IfOk result (λ status.
        Ran (MachinesSay (mode_of mode) limits.max_input compiled.now.stages)
        (last_given limits.block (S.reads input.new))
        (change_of S.rest S.faults input.old input.new)
        (change_of K.held K.faults output.old output.new) status) }
    ensures blocks { IfOk result (λ status.
        ReadsBlocks limits.block (S.reads input.old) (S.reads input.new) status) }
    ensures closes { IfOk result (λ status. is_writing (mode_of mode) ≡ true
        → Closes (K.ending output.old) (K.ending output.new) status) }
    ensures left { OnErr result ((input.new ≡ input.old) × (output.new ≡ output.old)) }
    ensures untouched { is_writing (mode_of mode) ≡ false → output.new ≡ output.old }
{
    match mode {
        Mode::Run { .. } => run_plans(host, compiled.stages(), limits, input, output),
        Mode::Code => code(host, compiled.stages()[0].machine(), limits, input, output),
        Mode::Act => act(host, compiled.stages()[0].machine(), limits, input, output),
        Mode::Test => test(host, compiled.stages()[0].machine(), limits, input),
    }
}

/// Answers a command on the input.
pub(crate) fn answer_stream<R: Threads + Sync, G: Gate + Sync, H: Shelf, S: Source, K: Sink>(
    host: &Host<R, G>,
    stream: Stream,
    shelf: &mut H,
    input: &mut S,
    output: &mut K,
) -> Result<Status, StartError>
    ensures texts { H.texts shelf.new ≡ H.texts shelf.old }
    ensures shelf { ShelfAnswers (told_of (H.texts shelf.old) stream.entry.program.now)
        (shelf_change_of H.faults H.breaks shelf.old shelf.new) (status_of_answer result) }
    ensures answers { CommandAnswers (ToStream (mode_of stream.entry.mode)
        stream.entry.program.now (reach_of stream.entry.limits))
        (H.texts shelf.old) (S.reads input.new) (change_of S.rest S.faults input.old input.new)
        (change_of K.held K.faults output.old output.new) (status_of_answer result) }
    ensures reads { ReadsBlocks stream.entry.limits.block (S.reads input.old) (S.reads input.new)
        (status_of_answer result) }
    ensures closes { is_writing (mode_of stream.entry.mode) ≡ true
        → Closes (K.ending output.old) (K.ending output.new) (status_of_answer result) }
    ensures untouched { is_writing (mode_of stream.entry.mode) ≡ false → output.new ≡ output.old }
{
    let asked = limits_of(stream.mode);
    let plans = plans_of(host.alloc, shelf, stream.program, &asked)?;
    let short = plans.shorten(host.alloc)?;
    let status = serve(host, stream.mode, &short, stream.limits, input, output)?;
    Ok(status)
}
