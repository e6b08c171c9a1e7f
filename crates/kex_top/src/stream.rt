// The loop from a source through the stages into a sink.
ghost use Rattle.std.specs.Prelude.{◌≡◌, ◌<◌, ◌≤◌, ◌^◌, IfOk, None, OnErr, length};
ghost use Rattle.kex_ports.specs.Reads.{Asks, last_given};
ghost use Rattle.kex_words.specs.Gains.{change_of};
ghost use Rattle.kex_top.specs.Outside.{Closes, IsSinkOpen, ReadsBlocks};
ghost use Rattle.kex_pipeline.specs.Piped.{PipeSays, PipeStands, limit_of, plans_of};
ghost use Rattle.kex_pipeline.specs.Sayings.{AlwaysSays};
ghost use Rattle.kex_top.specs.Run.{Pumped, Ran, status_of, status_after, is_whole};

use crate::limits::MOST_INPUT;
use crate::status::Status;
use kex_code::memory::Memory;
use kex_pipe::report::Rejected;
use kex_pipe::turn::{Fate, Why};
use kex_pipeline::any_pipe::AnyPipe;
use kex_pipeline::feed::rejected;
use kex_pipeline::host::Host;
use kex_pipeline::limited::Limited;
use kex_pipeline::pass::{Trouble, pass, pass_end};
use kex_pipeline::rounds::Pace;
use kex_ports::{Failed, Gate, Sink, Source};
use kex_words::RunLimits;
use std::thread::Threads;

// The status of a run that was worked off.
fn status_of(report: Option<Rejected>) -> Status
    ensures { result ≡ status_of report }
{
    match report {
        None => Status::Done,
        Some(report) => match report.why {
            Why::Byte | Why::End => Status::Rejected(report),
            Why::Limit => Status::TooLong(report),
        },
    }
}

pub(crate) fn status_after(trouble: Trouble) -> Status
    ensures { result ≡ status_after trouble }
{
    match trouble {
        Trouble::Memory => Status::Memory,
        Trouble::Write => Status::WriteFault,
    }
}

/// Reads blocks until the end of input, a fault or a report, and writes what the stages say of each
/// at this pace.
pub(crate) fn pump<R: Threads + Sync, T: Limited + Drop + Send, G: Gate + Sync, S: Source, K: Sink>(
    host: &Host<R, G>,
    pipe: &mut AnyPipe<T>,
    pace: Pace,
    block: &mut [u8],
    input: &mut S,
    output: &mut K,
) -> Status
    requires fresh { PipeStands T.Turn pipe.old None }
    requires says { pace ≡ Pace.Parts → AlwaysSays (PipeSays T.Turn (plans_of T.Turn pipe.old)) }
    requires limit { limit_of T.Turn T.limit pipe.old ≤ 2 ^ 48 }
    requires block { (0 < length block.old) × (length block.old ≤ 2 ^ 20) }
    ensures pumped { Pumped (PipeSays T.Turn (plans_of T.Turn pipe.old))
        (last_given (length block.old) (S.reads input.new))
        (change_of S.rest S.faults input.old input.new)
        (change_of K.held K.faults output.old output.new) result }
    ensures asks { Asks (length block.old) (S.reads input.old) (S.reads input.new) }
    ensures unclosed { IsSinkOpen (K.ending output.old) (K.ending output.new) result }
{
    let mut out = Vec::new(host.alloc);
    match pass(host, pipe, pace, &[], &mut out, output) {
        Ok(Fate::On) => {}
        Ok(Fate::Stopped) => return status_of(rejected(pipe)),
        Err(trouble) => return status_after(trouble),
    }
    // Each read gives at least one byte, and with one byte more than it takes the first stage has a
    // report.
    'reads: for _read in 0..MOST_INPUT + 1 {
        match input.read(block) {
            Err(Failed) => return Status::ReadFault,
            Ok(0) => match pass_end(host, pipe, &mut out, output) {
                Ok(_) => return status_of(rejected(pipe)),
                Err(trouble) => return status_after(trouble),
            },
            Ok(count) => match pass(host, pipe, pace, &block[..count], &mut out, output) {
                Ok(Fate::On) => {}
                Ok(Fate::Stopped) => return status_of(rejected(pipe)),
                Err(trouble) => return status_after(trouble),
            },
        }
    }
    status_of(rejected(pipe))
}

/// All was written that the run had to say.
pub(crate) fn is_whole(status: Status) -> bool
    ensures { result ≡ is_whole status }
{
    match status {
        Status::Done
        | Status::Rejected(_)
        | Status::TooLong(_)
        | Status::InputTooLong
        | Status::ReadFault => true,
        _ => false,
    }
}

/// Runs new stages over a source into a sink, by blocks, within the limits. Err says that there was
/// no memory for a block.
pub(crate) fn run<R: Threads + Sync, T: Limited + Drop + Send, G: Gate + Sync, S: Source, K: Sink>(
    host: &Host<R, G>,
    pipe: &mut AnyPipe<T>,
    pace: Pace,
    limits: RunLimits,
    input: &mut S,
    output: &mut K,
) -> Result<Status, Memory>
    requires fresh { PipeStands T.Turn pipe.old None }
    requires says { pace ≡ Pace.Parts → AlwaysSays (PipeSays T.Turn (plans_of T.Turn pipe.old)) }
    requires limit { limit_of T.Turn T.limit pipe.old ≡ limits.max_input }
    ensures ran { IfOk result (λ status. Ran (PipeSays T.Turn (plans_of T.Turn pipe.old))
        (last_given limits.block (S.reads input.new))
        (change_of S.rest S.faults input.old input.new)
        (change_of K.held K.faults output.old output.new) status) }
    ensures blocks { IfOk result (λ status.
        ReadsBlocks limits.block (S.reads input.old) (S.reads input.new) status) }
    ensures closes { IfOk result (λ status.
        Closes (K.ending output.old) (K.ending output.new) status) }
    ensures left { OnErr result ((input.new ≡ input.old) × (output.new ≡ output.old)) }
{
    let mut buffer = vec![in host.alloc; 0u8; limits.block as usize]?;
    let status = pump(host, pipe, pace, &mut buffer, input, output);
    if !is_whole(status) {
        return Ok(status);
    }
    match output.finish() {
        Ok(()) => Ok(status),
        Err(Failed) => Ok(Status::WriteFault),
    }
}
