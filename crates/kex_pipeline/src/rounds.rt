// A program's stages take what they are given, round by round.
ghost use Rattle.std.specs.Prelude.{◌≡◌, ◌≢◌, ◌<◌, ◌≤◌, List, ℕ, Err, IfOk, OnOk, false, take};
ghost use Rattle.kex_model.specs.Schedules.{Event};
ghost use Rattle.kex_pipe.specs.Standing.{Stands, is_ended, is_in_round, is_spent};
ghost use Rattle.kex_pipeline.specs.Fronts.{IsFront};
ghost use Rattle.kex_pipeline.specs.Piped.{IsGiven, IsWorkedOff};

use crate::piece_length::PieceLength;
use kex_pipe::pipe::{Pipe, PipeFault};
use kex_pipe::turn::Turn;
use kex_ports::Gate;
use kex_rounds::round::round;
use std::thread::Threads;

/// This many bytes of output are worth a write before the block is worked off.
pub(crate) const ENOUGH: usize = 65_536;

/// Where this many bytes are output or wait before a stage, no more is given before what waits is
/// worked off and written.
pub(crate) const MUCH: usize = 1_048_576;

/// When what the stages say goes out.
#[derive(Clone, Copy, Debug, PartialEq, Eq)]
pub enum Pace {
    /// After a part of a block, where there is enough of it and nothing waits, or where much of it
    /// is there or waits; and when the block is worked off.
    Parts,
    /// When a block is worked off.
    Blocks,
}

// How many bytes of `bytes` are given at once to `stages` stages. What a single stage says of them
// is held, so they are few. Of several stages each may take a thread for them. So they are more,
// and of many bytes a sixteenth: few beside all that is given.
fn part_for(stages: u32, bytes: usize) -> usize
    ensures some { 0 < result }
    ensures few { result ≤ 65536 }
    ensures one { stages ≤ 1 → result ≡ 4096 }
    ensures several { 1 < stages → 16384 ≤ result }
{
    if stages > 1 {
        (bytes / 16).max(16_384).min(65_536)
    } else {
        4_096
    }
}

// How many bytes at most wait before a stage.
fn most_waiting<T: Turn + Drop>(pipe: &Pipe<T>) -> usize {
    let mut most = 0;
    'stages: for k in 0..pipe.count() {
        most = pipe.waiting(k + 1).len().max(most);
    }
    most
}

/// Whether the output is to be written before more is given.
pub(crate) fn is_due<T: Turn + Drop>(pipe: &Pipe<T>) -> bool {
    let length = pipe.output_length();
    length.max(most_waiting(pipe)) >= MUCH || (length >= ENOUGH && pipe.settled())
}

// Gives a piece in parts, with a round after each: a stage works on one part while the next works
// on what came of the part before. Tells how many bytes were given: all, or by parts as many as
// leave nothing waiting and enough output, or much output or waiting.
fn give_parts<R: Threads + Sync, T: Turn + Drop + Send, G: Gate + Sync>(
    rt: &R,
    pipe: &mut Pipe<T>,
    gate: &G,
    pace: Pace,
    bytes: &[u8],
) -> Result<usize, PipeFault>
    requires unended { is_ended T.Turn pipe.old ≡ false }
    requires closed { is_in_round T.Turn pipe.old ≡ false }
    requires going { is_spent T.Turn pipe.old ≡ false }
    ensures front { IfOk result (λ count. IsFront pace bytes.now count) }
    ensures given { IfOk result (λ count. (ps : List T.Plan) (h : List Event) (taken : List ℕ)
        → Stands T.Turn ps pipe.old h taken
        → IsGiven (λ k. Stands T.Turn ps pipe.new k taken) (take count bytes.now) h) }
    ensures ended { OnOk result (is_ended T.Turn pipe.new ≡ is_ended T.Turn pipe.old) }
    ensures closed { is_in_round T.Turn pipe.new ≡ false }
    ensures going { OnOk result (is_spent T.Turn pipe.new ≡ false) }
    ensures wants { result ≢ Err PipeFault.Spent }
{
    let part = part_for(pipe.count(), bytes.len());
    let mut given = 0;
    'parts: while given < bytes.len() {
        let end = bytes.len().min(given + part);
        pipe.give(&bytes[given..end])?;
        round(rt, pipe, gate)?;
        given = end;
        if pace == Pace::Parts && is_due(pipe) {
            return Ok(given);
        }
    }
    Ok(given)
}

/// Makes rounds until nothing waits: with each one stage more, in the order of the pipeline, has
/// worked off all that comes to it.
pub(crate) fn work_off<R: Threads + Sync, T: Turn + Drop + Send, G: Gate + Sync>(
    rt: &R,
    pipe: &mut Pipe<T>,
    gate: &G,
) -> Result<(), PipeFault>
    requires closed { is_in_round T.Turn pipe.old ≡ false }
    requires going { is_spent T.Turn pipe.old ≡ false }
    ensures works { OnOk result ((ps : List T.Plan) (h : List Event) (taken : List ℕ)
        → Stands T.Turn ps pipe.old h taken
        → IsWorkedOff T.gives ps (λ k. Stands T.Turn ps pipe.new k taken) h) }
    ensures ended { OnOk result (is_ended T.Turn pipe.new ≡ is_ended T.Turn pipe.old) }
    ensures closed { is_in_round T.Turn pipe.new ≡ false }
    ensures going { OnOk result (is_spent T.Turn pipe.new ≡ false) }
    ensures wants { result ≢ Err PipeFault.Spent }
{
    let count = pipe.count();
    'rounds: for _round in 0..count {
        if pipe.settled() {
            return Ok(());
        }
        round(rt, pipe, gate)?;
    }
    Ok(())
}

/// Gives bytes in pieces, each of which the stages work off. Tells how many were given: all, or by
/// parts as many as leave enough output.
pub(crate) fn give_front<R: Threads + Sync, T: Turn + Drop + Send, G: Gate + Sync>(
    rt: &R,
    pipe: &mut Pipe<T>,
    gate: &G,
    pace: Pace,
    length: &mut PieceLength,
    bytes: &[u8],
) -> Result<usize, PipeFault>
    requires unended { is_ended T.Turn pipe.old ≡ false }
    requires closed { is_in_round T.Turn pipe.old ≡ false }
    requires going { is_spent T.Turn pipe.old ≡ false }
    ensures front { IfOk result (λ count. IsFront pace bytes.now count) }
    ensures given { IfOk result (λ count. (ps : List T.Plan) (h : List Event) (taken : List ℕ)
        → Stands T.Turn ps pipe.old h taken
        → IsGiven (λ k. Stands T.Turn ps pipe.new k taken) (take count bytes.now) h) }
    ensures closed { is_in_round T.Turn pipe.new ≡ false }
    ensures going { OnOk result (is_spent T.Turn pipe.new ≡ false) }
    ensures wants { result ≢ Err PipeFault.Spent }
{
    let mut given = 0;
    'pieces: while given < bytes.len() {
        let end = bytes.len().min(given + length.bytes());
        let count = give_parts(rt, pipe, gate, pace, &bytes[given..end])?;
        let waiting = most_waiting(pipe);
        work_off(rt, pipe, gate)?;
        length.learn(count, pipe.output_length().max(waiting));
        given += count;
        if pace == Pace::Parts && is_due(pipe) {
            return Ok(given);
        }
    }
    Ok(given)
}
