// The stages of a program with desks, so that workers share what a stage is to read.
ghost use Rattle.std.specs.Prelude.{◌≡◌, ◌<◌, ◌≤◌, All, IfOk, None, OnErr, length, map, vec_len};
ghost use Rattle.kex_ports.specs.Reads.{last_given};
ghost use Rattle.kex_plan.specs.Plans.{teller_of};
ghost use Rattle.kex_words.specs.Gains.{change_of};
ghost use Rattle.kex_top.specs.Outside.{Closes, ReadsBlocks};
ghost use Rattle.kex_pipeline.specs.Piped.{PipeSays, PipeStands, plans_of};
ghost use Rattle.kex_pipeline.specs.Sayings.{AllAnswer, AlwaysSays};
ghost use Rattle.kex_top.specs.Pipelines.{NodesSay, stage_plans};
ghost use Rattle.kex_top.specs.Run.{Ran};

use crate::status::Status;
use crate::stream::run;
use kex_chunk_stage::chunk_stage::ChunkStage;
use kex_code::memory::Memory;
use kex_pipe::turn::Turn;
use kex_pipeline::any_pipe::AnyPipe;
use kex_pipeline::host::Host;
use kex_pipeline::limited::Limited;
use kex_pipeline::rounds::Pace;
use kex_pipeline::sharing::Sharing;
use kex_plan::plan::Plan;
use kex_ports::{Gate, Sink, Source};
use kex_words::RunLimits;
use std::alloc::Global;
use std::thread::Threads;

// The stages with these plans, each of which takes at most `max_input` bytes and has `workers`
// workers.
fn chunk_stages_of<'p>(
    alloc: Global,
    plans: &'p [Plan],
    max_input: u64,
    workers: u32,
) -> Result<Vec<ChunkStage<'p>>, Memory>
    requires workers { (1 ≤ workers) × (workers ≤ 64) }
    requires tables { All (λ p. p.table ≡ None → ⊥) plans.now }
    ensures count { IfOk result (λ stages. vec_len stages ≡ length plans.now) }
    ensures plans { IfOk result (λ stages. map ⟦<ChunkStage<'p> as Turn>⟧.plan stages.items
        ≡ stage_plans max_input (map teller_of plans.now)) }
    ensures unfed { IfOk result (λ stages.
        All (λ s. ⟦<ChunkStage<'p> as Turn>⟧.stands s None) stages.items) }
    ensures answers { IfOk result (λ stages.
        AllAnswer ⟦<ChunkStage<'p> as Turn>⟧.gives
        (map ⟦<ChunkStage<'p> as Turn>⟧.plan stages.items)) }
{
    let mut stages = Vec::new(alloc);
    'plans: for plan in plans {
        let _nodes = plan.machine().nodes();
        let _table = plan.table();
        let stage = ChunkStage::new(alloc, plan, max_input, workers)?;
        stages.push(stage)?;
    }
    Ok(stages)
}

/// The pipe of the stages with these plans, each of which has `workers` workers.
pub(crate) fn chunk_pipe_of<'p>(
    alloc: Global,
    plans: &'p [Plan],
    max_input: u64,
    workers: u32,
) -> Result<AnyPipe<ChunkStage<'p>>, Memory>
    requires some { 0 < length plans.now }
    requires workers { (1 ≤ workers) × (workers ≤ 64) }
    requires tables { All (λ p. p.table ≡ None → ⊥) plans.now }
    ensures plans { IfOk result (λ pipe. plans_of ⟦<ChunkStage<'p> as Turn>⟧ pipe
        ≡ stage_plans max_input (map teller_of plans.now)) }
    ensures fresh { IfOk result (λ pipe.
        PipeStands ⟦<ChunkStage<'p> as Turn>⟧ pipe None) }
    ensures says { IfOk result (λ pipe.
        AlwaysSays (PipeSays ⟦<ChunkStage<'p> as Turn>⟧
        (plans_of ⟦<ChunkStage<'p> as Turn>⟧ pipe))) }
{
    let stages = chunk_stages_of(alloc, plans, max_input, workers)?;
    let pipe = AnyPipe::in_turns(alloc, stages, Sharing::of(plans))?;
    Ok(pipe)
}

/// Runs the stages with these plans, each of which shares what it reads among its workers.
pub(crate) fn run_shared<R: Threads + Sync, G: Gate + Sync, S: Source, K: Sink>(
    host: &Host<R, G>,
    plans: &[Plan],
    limits: RunLimits,
    input: &mut S,
    output: &mut K,
) -> Result<Status, Memory>
    requires some { 0 < length plans.now }
    requires tables { All (λ p. p.table ≡ None → ⊥) plans.now }
    ensures ran { IfOk result (λ status.
        Ran (NodesSay (stage_plans limits.max_input (map teller_of plans.now)))
        (last_given limits.block (S.reads input.new))
        (change_of S.rest S.faults input.old input.new)
        (change_of K.held K.faults output.old output.new) status) }
    ensures blocks { IfOk result (λ status.
        ReadsBlocks limits.block (S.reads input.old) (S.reads input.new) status) }
    ensures closes { IfOk result (λ status.
        Closes (K.ending output.old) (K.ending output.new) status) }
    ensures left { OnErr result ((input.new ≡ input.old) × (output.new ≡ output.old)) }
{
    let mut pipe = chunk_pipe_of(host.alloc, plans, limits.max_input, limits.workers)?;
    run(host, &mut pipe, Pace::Parts, limits, input, output)
}
