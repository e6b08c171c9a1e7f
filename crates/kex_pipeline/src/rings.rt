// A program's stages take what they are given over rings.
ghost use Rattle.std.specs.Prelude.{◌≡◌, ◌≢◌, List, ℕ, Err, IfOk, OnOk, false, take};
ghost use Rattle.kex_model.specs.Schedules.{Event};
ghost use Rattle.kex_rings.specs.Standing.{RingsStand, rings_ended, rings_spent};
ghost use Rattle.kex_pipeline.specs.Fronts.{IsFront};
ghost use Rattle.kex_pipeline.specs.Piped.{IsGiven, IsWorkedOff};

use crate::piece_length::PieceLength;
use crate::rounds::{ENOUGH, Pace};
use kex_pipe::pipe::PipeFault;
use kex_pipe::turn::Turn;
use kex_ports::Gate;
use kex_rings::pipe::RingPipe;
use kex_rings::round::ring_round;
use std::alloc::Global;
use std::thread::Threads;

/// The most rounds that are made before the rest is settled.
const ROUNDS: u32 = 64;

/// How often each stage looks in a round.
const LOOKS: u32 = 16;

/// At most this many bytes are given at once, however little comes of them.
const LONGEST: usize = 65_536;

/// How the input is cut for stages over rings, and how much each took in the last round.
#[derive(Drop)]
pub struct RingWork {
    length: PieceLength,
    counts: Vec<u64>,
}

impl RingWork {
    pub(crate) fn new(alloc: Global) -> RingWork {
        RingWork {
            length: PieceLength::new(LONGEST),
            counts: Vec::new(alloc),
        }
    }
}

// How much a stage took at most.
fn most_of(counts: &[u64]) -> usize {
    let mut most = 0;
    'counts: for count in counts {
        most = most.max(*count);
    }
    most as usize
}

/// Makes some rounds, as long as something waits, and settles the rest. Tells how much at most a
/// stage took in a round.
pub(crate) fn work_off<R: Threads + Sync, T: Turn + Drop + Send, G: Gate + Sync>(
    rt: &R,
    pipe: &mut RingPipe<T>,
    gate: &G,
    work: &mut RingWork,
) -> Result<usize, PipeFault>
    requires { rings_spent T.Turn pipe.old ≡ false }
    ensures works { OnOk result ((ps : List T.Plan) (h : List Event) (taken : List ℕ)
        → RingsStand T.Turn ps pipe.old h taken
        → IsWorkedOff T.gives ps (λ k. RingsStand T.Turn ps pipe.new k taken) h) }
    ensures ended { OnOk result (rings_ended T.Turn pipe.new ≡ rings_ended T.Turn pipe.old) }
    ensures going { OnOk result (rings_spent T.Turn pipe.new ≡ false) }
    ensures wants { result ≢ Err PipeFault.Spent }
{
    let mut most = 0;
    if pipe.settled() {
        return Ok(most);
    }
    'rounds: for _round in 0..ROUNDS {
        if pipe.settled() {
            break;
        }
        ring_round(rt, pipe, gate, LOOKS, &mut work.counts)?;
        most = most_of(&work.counts).max(most);
    }
    pipe.settle()?;
    Ok(most)
}

/// Gives bytes in pieces, each of which the stages work off. Tells how many were given: all, or by
/// parts as many as leave enough output.
pub(crate) fn give_front<R: Threads + Sync, T: Turn + Drop + Send, G: Gate + Sync>(
    rt: &R,
    pipe: &mut RingPipe<T>,
    gate: &G,
    pace: Pace,
    work: &mut RingWork,
    bytes: &[u8],
) -> Result<usize, PipeFault>
    requires unended { rings_ended T.Turn pipe.old ≡ false }
    requires going { rings_spent T.Turn pipe.old ≡ false }
    ensures front { IfOk result (λ count. IsFront pace bytes.now count) }
    ensures given { IfOk result (λ count. (ps : List T.Plan) (h : List Event) (taken : List ℕ)
        → RingsStand T.Turn ps pipe.old h taken
        → IsGiven (λ k. RingsStand T.Turn ps pipe.new k taken) (take count bytes.now) h) }
    ensures going { OnOk result (rings_spent T.Turn pipe.new ≡ false) }
    ensures wants { result ≢ Err PipeFault.Spent }
{
    let mut given = 0;
    'pieces: while given < bytes.len() {
        let end = bytes.len().min(given + work.length.bytes());
        pipe.give(&bytes[given..end])?;
        let most = work_off(rt, pipe, gate, work)?;
        let written = pipe.output_length();
        work.length.learn(end - given, most.max(written));
        given = end;
        if pace == Pace::Parts && written >= ENOUGH {
            return Ok(given);
        }
    }
    Ok(given)
}
