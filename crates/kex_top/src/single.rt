// The commands on a program of one stage.
ghost use Rattle.std.specs.Prelude.{◌≡◌, ◌≤◌, ◌∷◌, [], IfOk, IfSome, None, OnErr};
ghost use Rattle.kex_pipeline.specs.Sayings.{AlwaysAnswers, StagesSay};
ghost use Rattle.kex_ports.specs.Reads.{last_given};
ghost use Rattle.kex_single.specs.CodeLaws as code;
ghost use Rattle.kex_single.specs.PlayedLaws as act;
ghost use Rattle.kex_single.specs.TestLaws as test;
ghost use Rattle.kex_sst.specs.Machines.{IsTableOf};
ghost use Rattle.kex_words.specs.Gains.{StreamChange, change_of};
ghost use Rattle.kex_words.specs.Words.Mode.{acting, coding, testing};
ghost use Rattle.kex_top.specs.Modes.{MachinesSay};
ghost use Rattle.kex_top.specs.Outside.{Closes, ReadsBlocks};
ghost use Rattle.kex_top.specs.Run.{IsAsBefore, Ran};

use crate::status::Status;
use crate::stream::run;
use kex_code::memory::Memory;
use kex_constants::{LONGEST, shorten_table};
use kex_determine::determine;
use kex_machine::Trimmed;
use kex_pipeline::any_pipe::AnyPipe;
use kex_pipeline::host::Host;
use kex_pipeline::limited::Limited;
use kex_pipeline::plain::Plain;
use kex_pipeline::rounds::Pace;
use kex_ports::{Gate, NeverFailsSink, Sink, Source};
use kex_single::{Coder, Player, Tester};
use kex_sst::table::Table;
use kex_words::RunLimits;
use std::alloc::Global;
use std::thread::Threads;

/// How many states a table may have by which a code is found.
const MOST_STATES: usize = 1_024;

/// And how many leaves and classes all its states may have, if each has as many as can be.
const MOST_STEPS: usize = 2_097_152;

// Runs one stage.
fn run_one<R: Threads + Sync, T: Limited + Drop + Send, G: Gate + Sync, S: Source, K: Sink>(
    host: &Host<R, G>,
    stage: T,
    pace: Pace,
    limits: RunLimits,
    input: &mut S,
    output: &mut K,
) -> Result<Status, Memory>
    requires fresh { T.stands stage None }
    requires limit { T.limit stage ≡ limits.max_input }
    requires answers { pace ≡ Pace.Parts → AlwaysAnswers T.gives (T.plan stage) }
    ensures ran { IfOk result (λ status.
        Ran (StagesSay (λ p w e a. T.gives p w e a) (T.plan stage ∷ []))
        (last_given limits.block (S.reads input.new))
        (change_of S.rest S.faults input.old input.new)
        (change_of K.held K.faults output.old output.new) status) }
    ensures blocks { IfOk result (λ status.
        ReadsBlocks limits.block (S.reads input.old) (S.reads input.new) status) }
    ensures closes { IfOk result (λ status.
        Closes (K.ending output.old) (K.ending output.new) status) }
    ensures left { OnErr result ((input.new ≡ input.old) × (output.new ≡ output.old)) }
{
    let mut stages = Vec::new(host.alloc);
    stages.push(stage)?;
    let mut pipe = AnyPipe::new(host.alloc, stages, None)?;
    run(host, &mut pipe, pace, limits, input, output)
}

// How many states a table of a machine may have by which a code is found: less where each may have
// many leaves, or leads on by many classes.
fn most_states(machine: &Trimmed) -> u32
    ensures { result ≤ 1024 }
{
    let classes = machine.partition().classes() as usize;
    let width = machine.nodes().len().saturating_mul(classes);
    (MOST_STEPS / width.max(1)).min(MOST_STATES) as u32
}

// A table of a machine, without constant registers, if the machine has few states and there is
// memory for it.
fn table_of(alloc: Global, machine: &Trimmed) -> Option<Table>
    ensures { IfSome result (λ t. IsTableOf machine.now t) }
{
    let Ok(table) = determine(alloc, machine, most_states(machine)) else {
        return None;
    };
    match shorten_table(alloc, &table, LONGEST) {
        Ok(short) => Some(short),
        Err(Memory) => None,
    }
}

/// Writes the code of the input. It is found by the machine's table where that has few states, and
/// else by paths.
pub(crate) fn code<R: Threads + Sync, G: Gate + Sync, S: Source, K: Sink>(
    host: &Host<R, G>,
    machine: &Trimmed,
    limits: RunLimits,
    input: &mut S,
    output: &mut K,
) -> Result<Status, Memory>
    ensures ran { IfOk result (λ status.
        Ran (MachinesSay coding limits.max_input (machine.now ∷ []))
        (last_given limits.block (S.reads input.new))
        (change_of S.rest S.faults input.old input.new)
        (change_of K.held K.faults output.old output.new) status) }
    ensures blocks { IfOk result (λ status.
        ReadsBlocks limits.block (S.reads input.old) (S.reads input.new) status) }
    ensures closes { IfOk result (λ status.
        Closes (K.ending output.old) (K.ending output.new) status) }
    ensures left { OnErr result ((input.new ≡ input.old) × (output.new ≡ output.old)) }
{
    let _nodes = machine.nodes();
    let table = table_of(host.alloc, machine);
    let coder = Coder::new(host.alloc, machine, table.as_ref(), limits.max_input)?;
    let stage = Plain {
        alloc: host.alloc,
        stage: coder,
    };
    run_one(host, stage, Pace::Parts, limits, input, output)
}

/// Writes what the input means as the text of a code.
pub(crate) fn act<R: Threads + Sync, G: Gate + Sync, S: Source, K: Sink>(
    host: &Host<R, G>,
    machine: &Trimmed,
    limits: RunLimits,
    input: &mut S,
    output: &mut K,
) -> Result<Status, Memory>
    ensures ran { IfOk result (λ status.
        Ran (MachinesSay acting limits.max_input (machine.now ∷ []))
        (last_given limits.block (S.reads input.new))
        (change_of S.rest S.faults input.old input.new)
        (change_of K.held K.faults output.old output.new) status) }
    ensures blocks { IfOk result (λ status.
        ReadsBlocks limits.block (S.reads input.old) (S.reads input.new) status) }
    ensures closes { IfOk result (λ status.
        Closes (K.ending output.old) (K.ending output.new) status) }
    ensures left { OnErr result ((input.new ≡ input.old) × (output.new ≡ output.old)) }
{
    let player = Player::new(host.alloc, machine, limits.max_input)?;
    let stage = Plain {
        alloc: host.alloc,
        stage: player,
    };
    run_one(host, stage, Pace::Blocks, limits, input, output)
}

/// Tells whether the input has a parse, and writes nothing.
pub(crate) fn test<R: Threads + Sync, G: Gate + Sync, S: Source>(
    host: &Host<R, G>,
    machine: &Trimmed,
    limits: RunLimits,
    input: &mut S,
) -> Result<Status, Memory>
    ensures ran { (sink : StreamChange) → IsAsBefore sink → IfOk result (λ status.
        Ran (MachinesSay testing limits.max_input (machine.now ∷ []))
        (last_given limits.block (S.reads input.new))
        (change_of S.rest S.faults input.old input.new) sink status) }
    ensures blocks { IfOk result (λ status.
        ReadsBlocks limits.block (S.reads input.old) (S.reads input.new) status) }
    ensures left { OnErr result (input.new ≡ input.old) }
{
    let tester = Tester::new(host.alloc, machine, limits.max_input)?;
    let stage = Plain {
        alloc: host.alloc,
        stage: tester,
    };
    run_one(
        host,
        stage,
        Pace::Blocks,
        limits,
        input,
        &mut NeverFailsSink,
    )
}
