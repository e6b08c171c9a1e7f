// The stages of a program, fed piece by piece.
ghost use Rattle.std.specs.Prelude.{◌≡◌, ◌≢◌, ◌<◌, ◌++◌, Some, OnOk, IfOk, Err};
ghost use Rattle.std.specs.Prelude.{false, true, take};
ghost use Rattle.kex_pipeline.specs.Fronts.{IsFront};
ghost use Rattle.kex_pipeline.specs.History.{StagesFed, History, bytes_passed, is_history_ended};
ghost use Rattle.kex_pipeline.specs.History.{IsFateOfStages, FeedsStages};
ghost use Rattle.kex_pipeline.specs.Piped.{PipeSays, PipeStands, plans_of};

use crate::any_pipe::{AnyPipe, give_front, work_off};
use crate::host::Host;
use crate::limited::Limited;
use crate::rounds::Pace;
use kex_code::memory::Memory;
use kex_pipe::pipe::PipeFault;
use kex_pipe::report::Rejected;
use kex_pipe::turn::{Fate, Turn};
use kex_ports::Gate;
use std::thread::Threads;

fn fate_of(report: Option<Rejected>) -> Fate
    ensures { IsFateOfStages report result }
{
    match report {
        None => Fate::On,
        Some(_) => Fate::Stopped,
    }
}

/// How many bytes of a piece were fed, and whether the stages go on.
#[derive(Clone, Copy)]
pub struct Front {
    pub count: usize,
    pub fate: Fate,
}

// Feeds a front of the piece to a pipe, and puts into `out`, in place of what it held, what the
// stages say now.
fn feed_pipe<R: Threads + Sync, T: Limited + Drop + Send, G: Gate + Sync>(
    host: &Host<R, G>,
    pipe: &mut AnyPipe<T>,
    pace: Pace,
    piece: &[u8],
    out: &mut Vec<u8>,
) -> Result<Front, PipeFault>
    requires { (h : History) × PipeStands T.Turn pipe.old h × (is_history_ended h ≡ false) }
    ensures same { OnOk result (plans_of T.Turn pipe.new ≡ plans_of T.Turn pipe.old) }
    ensures front { IfOk result (λ front. IsFront pace piece.now front.count) }
    ensures feeds { IfOk result (λ front. (h : History) → PipeStands T.Turn pipe.old h
        → is_history_ended h ≡ false
        → FeedsStages (PipeSays T.Turn (plans_of T.Turn pipe.old)) (PipeStands T.Turn pipe.new) h
        (bytes_passed h ++ take front.count piece.now) false out.new.items front.fate) }
    ensures wants { result ≢ Err PipeFault.Spent }
{
    let count = give_front(host.rt, pipe, host.gate, pace, piece)?;
    work_off(host.rt, pipe, host.gate)?;
    pipe.take_output_into(out);
    Ok(Front {
        count,
        fate: fate_of(pipe.report()),
    })
}

// The same, for the end of the bytes.
fn end_pipe<R: Threads + Sync, T: Limited + Drop + Send, G: Gate + Sync>(
    host: &Host<R, G>,
    pipe: &mut AnyPipe<T>,
    out: &mut Vec<u8>,
) -> Result<Fate, PipeFault>
    requires { (h : History) × PipeStands T.Turn pipe.old h × (is_history_ended h ≡ false) }
    ensures same { OnOk result (plans_of T.Turn pipe.new ≡ plans_of T.Turn pipe.old) }
    ensures feeds { IfOk result (λ fate. (h : History) → PipeStands T.Turn pipe.old h
        → is_history_ended h ≡ false
        → FeedsStages (PipeSays T.Turn (plans_of T.Turn pipe.old)) (PipeStands T.Turn pipe.new) h
        (bytes_passed h) true out.new.items fate) }
    ensures wants { result ≢ Err PipeFault.Spent }
{
    pipe.give_end()?;
    work_off(host.rt, pipe, host.gate)?;
    pipe.take_output_into(out);
    Ok(fate_of(pipe.report()))
}

// What a pipe that isn't spent wants.
fn want_of(fault: PipeFault) -> Memory
    requires { fault ≢ PipeFault.Spent }
{
    match fault {
        PipeFault::Memory => Memory,
        PipeFault::Spent => unreachable!(),
    }
}

/// Feeds a front of the piece, and puts into `out`, in place of what it held, what the stages say
/// now of the bytes and haven't said yet.
///
/// Once a call has answered Err, the pipe may only be dropped.
pub fn feed<R: Threads + Sync, T: Limited + Drop + Send, G: Gate + Sync>(
    host: &Host<R, G>,
    pipe: &mut AnyPipe<T>,
    pace: Pace,
    piece: &[u8],
    out: &mut Vec<u8>,
) -> Result<Front, Memory>
    requires { (h : History) × PipeStands T.Turn pipe.old h × (is_history_ended h ≡ false) }
    ensures same { OnOk result (plans_of T.Turn pipe.new ≡ plans_of T.Turn pipe.old) }
    ensures front { IfOk result (λ front. IsFront pace piece.now front.count) }
    ensures feeds { IfOk result (λ front. (h : History) → PipeStands T.Turn pipe.old h
        → is_history_ended h ≡ false
        → FeedsStages (PipeSays T.Turn (plans_of T.Turn pipe.old)) (PipeStands T.Turn pipe.new) h
        (bytes_passed h ++ take front.count piece.now) false out.new.items front.fate) }
{
    match feed_pipe(host, pipe, pace, piece, out) {
        Ok(front) => Ok(front),
        Err(fault) => Err(want_of(fault)),
    }
}

/// The same, for the end of the bytes.
pub fn end<R: Threads + Sync, T: Limited + Drop + Send, G: Gate + Sync>(
    host: &Host<R, G>,
    pipe: &mut AnyPipe<T>,
    out: &mut Vec<u8>,
) -> Result<Fate, Memory>
    requires { (h : History) × PipeStands T.Turn pipe.old h × (is_history_ended h ≡ false) }
    ensures same { OnOk result (plans_of T.Turn pipe.new ≡ plans_of T.Turn pipe.old) }
    ensures feeds { IfOk result (λ fate. (h : History) → PipeStands T.Turn pipe.old h
        → is_history_ended h ≡ false
        → FeedsStages (PipeSays T.Turn (plans_of T.Turn pipe.old)) (PipeStands T.Turn pipe.new) h
        (bytes_passed h) true out.new.items fate) }
{
    match end_pipe(host, pipe, out) {
        Ok(fate) => Ok(fate),
        Err(fault) => Err(want_of(fault)),
    }
}

/// The report of what was fed.
pub fn rejected<T: Limited + Drop>(pipe: &AnyPipe<T>) -> Option<Rejected>
    ensures { (f : StagesFed) → PipeStands T.Turn pipe.now (Some f) → result ≡ f.said.report }
{
    pipe.report()
}
