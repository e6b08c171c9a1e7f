// A program's stages take turns in their order, and desks work on parts of what each is to read.
ghost use Rattle.std.specs.Prelude.{◌≡◌, ◌≢◌, List, ℕ, Err, IfOk, OnOk, false, take};
ghost use Rattle.kex_model.specs.Schedules.{Event};
ghost use Rattle.kex_pipe.specs.Standing.{Stands, is_ended, is_in_round, is_spent};
ghost use Rattle.kex_pipeline.specs.Fronts.{IsFront};
ghost use Rattle.kex_pipeline.specs.Piped.{IsGiven, IsWorkedOff};

use crate::limited::Limited;
use crate::rounds::{Pace, is_due};
use crate::sharing::Sharing;
use kex_pipe::pipe::{Pipe, PipeFault};
use kex_ports::Gate;
use kex_rounds::desks::turn_in_parts;
use std::thread::Threads;

/// Each stage, in the order of the pipeline, takes a turn of all that waits before it, which desks
/// share. Tells how many bytes at most lay before one.
pub(crate) fn work_off<R: Threads + Sync, T: Limited + Drop, G: Gate + Sync>(
    rt: &R,
    pipe: &mut Pipe<T>,
    gate: &G,
    sharing: &Sharing,
) -> Result<usize, PipeFault>
    requires closed { is_in_round T.Turn pipe.old ≡ false }
    requires going { is_spent T.Turn pipe.old ≡ false }
    ensures works { OnOk result ((ps : List T.Plan) (h : List Event) (taken : List ℕ)
        → Stands T.Turn ps pipe.old h taken
        → IsWorkedOff T.gives ps (λ k. Stands T.Turn ps pipe.new k taken) h) }
    ensures ended { OnOk result (is_ended T.Turn pipe.new ≡ is_ended T.Turn pipe.old) }
    ensures closed { is_in_round T.Turn pipe.new ≡ false }
    ensures going { OnOk result (is_spent T.Turn pipe.new ≡ false) }
    ensures wants { result ≢ Err PipeFault.Spent }
{
    let count = pipe.count();
    let mut most = 0;
    'turns: for k in 0..count {
        let waiting = pipe.waiting(k + 1).len();
        most = waiting.max(most);
        turn_in_parts(rt, pipe, gate, k + 1, sharing.least(waiting))?;
    }
    Ok(most)
}

/// Gives bytes in pieces, each of which the stages work off. Tells how many were given: all, or by
/// parts as many as leave enough output.
pub(crate) fn give_front<R: Threads + Sync, T: Limited + Drop, G: Gate + Sync>(
    rt: &R,
    pipe: &mut Pipe<T>,
    gate: &G,
    pace: Pace,
    sharing: &mut Sharing,
    bytes: &[u8],
) -> Result<usize, PipeFault>
    requires unended { is_ended T.Turn pipe.old ≡ false }
    requires closed { is_in_round T.Turn pipe.old ≡ false }
    requires going { is_spent T.Turn pipe.old ≡ false }
    ensures front { IfOk result (λ count. IsFront pace bytes.now count) }
    ensures given { IfOk result (λ count. (ps : List T.Plan) (h : List Event) (taken : List ℕ)
        → Stands T.Turn ps pipe.old h taken
        → IsGiven (λ k. Stands T.Turn ps pipe.new k taken) (take count bytes.now) h) }
    ensures closed { is_in_round T.Turn pipe.new ≡ false }
    ensures going { OnOk result (is_spent T.Turn pipe.new ≡ false) }
    ensures wants { result ≢ Err PipeFault.Spent }
{
    let mut given = 0;
    'pieces: while given < bytes.len() {
        let end = bytes.len().min(given + sharing.piece());
        pipe.give(&bytes[given..end])?;
        let waited = work_off(rt, pipe, gate, sharing)?;
        sharing.learn(end - given, waited, pipe.output_length());
        given = end;
        if pace == Pace::Parts && is_due(pipe) {
            return Ok(given);
        }
    }
    Ok(given)
}
