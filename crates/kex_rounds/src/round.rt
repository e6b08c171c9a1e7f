// A round of all the stages of a pipe.

ghost use Rattle.std.specs.Prelude.{◌≡◌, ◌+◌, ◌<◌, ◌≤◌, ◌^◌, ◌++◌, ◌↔◌, ◌&&◌, List, ℕ};
ghost use Rattle.std.specs.Prelude.{true, false, IsTrue, OnOk, OnErr, is_ok, is_err, Err, suc};
ghost use Rattle.std.specs.Prelude.{IsPermutation, map, length};
ghost use Rattle.std.specs.List.{range_with_len};
ghost use Rattle.std.specs.Thread.{IsSync};
ghost use Rattle.kex_model.specs.Schedules.{Event};
ghost use Rattle.kex_pipe.specs.Standing.{Stands, BeginsAnswer, HasWritten, in_hand, is_ended};
ghost use Rattle.kex_pipe.specs.Standing.{is_spent, is_in_round, stage_count};
ghost use Rattle.kex_pipe.specs.Rounds.{Each, Works, LeftBy, turn_of};
ghost use Rattle.kex_pipe.specs.Settling.{SettledTo};
ghost use Rattle.kex_rounds.specs.Working.{AllWork, HaveFew};

use kex_code::memory::Memory;
use kex_pipe::pipe::{Pipe, PipeFault};
use kex_pipe::seat::Seat;
use kex_pipe::turn::Turn;
use kex_ports::Gate;
use std::thread::{Threads, join_mut};

// One seat's work, between its entering the gate and its leaving it.
fn work_one<T: Turn, G: Gate>(gate: &G, stage: u32, seat: &mut Seat<T>) -> Result<(), Memory>
    ensures works { OnOk result (IsTrue seat.old.usable → Works T.Turn seat.old seat.new) }
    ensures usable { seat.new.usable ≡ (seat.old.usable && is_ok result) }
    ensures idle { seat.old.usable ≡ false → IsTrue (is_ok result) }
    ensures own { (before : Seat T T.Turn) → LeftBy T.Turn before seat.old
        → LeftBy T.Turn before seat.new }
{
    gate.enter(stage);
    let worked = seat.work();
    gate.leave(stage);
    worked
}

/// Up to this many bytes aren't worth a thread: to start one takes as long as a stage takes for
/// some thousand bytes, and longer on a busy machine.
const LITTLE: usize = 32_767;

// Whether each of these stages had a turn, and no more than `most` bytes in all wait before them.
fn have_few<T: Turn>(seats: &[Seat<T>], most: usize) -> bool
    ensures { IsTrue result ↔ HaveFew T.Turn most seats.now }
{
    match seats.split_first() {
        None => true,
        Some((seat, rest)) => {
            let bytes = seat.inbox.byte_count();
            if !seat.staged.turned || most < bytes {
                return false;
            }
            have_few(rest, most - bytes)
        }
    }
}

// The work of these seats, the first of which is that of this stage. Two halves that both have much
// to do work at once; else a thread would cost more than it brings. A first turn counts as much, so
// in the first round of any run all stages work at once.
fn work_all<R: Threads + Sync, T: Turn + Send, G: Gate + Sync>(
    rt: &R,
    gate: &G,
    first: u32,
    seats: &mut [Seat<T>],
) -> Result<(), Memory>
    requires { first + length seats.old ≤ 2 ^ 32 }
    ensures { AllWork T.Turn (is_ok result) seats.old seats.new }
{
    if seats.len() < 2 {
        return match seats.first_mut() {
            None => Ok(()),
            Some(seat) => work_one(gate, first, seat),
        };
    }
    let half = seats.len() / 2;
    let next = first + half as u32;
    let (front, back) = seats.split_at_mut(half);
    let (one, other) = if have_few(front, LITTLE) || have_few(back, LITTLE) {
        (
            work_all(rt, gate, first, front),
            work_all(rt, gate, next, back),
        )
    } else {
        join_mut(
            rt,
            &mut || -> Result<(), Memory>
                requires { IsSync R.row × (first + length front.now ≤ 2 ^ 32) }
                ensures { AllWork T.Turn (is_ok result) front.entry.now front.exit.now }
            { work_all(rt, gate, first, front) },
            &mut || -> Result<(), Memory>
                requires { IsSync R.row × (next + length back.now ≤ 2 ^ 32) }
                ensures { AllWork T.Turn (is_ok result) back.entry.now back.exit.now }
            { work_all(rt, gate, next, back) },
        )
    };
    one?;
    other
}

/// Each stage takes a turn of the items that lay before it when the round began, all at once. The
/// stages enter the gate before their turn and leave it after.
pub fn round<R: Threads + Sync, T: Turn + Drop + Send, G: Gate + Sync>(
    rt: &R,
    pipe: &mut Pipe<T>,
    gate: &G,
) -> Result<(), PipeFault>
    requires { is_in_round T.Turn pipe.old ≡ false }
    ensures stands { OnOk result ((ps : List T.Plan) (h : List Event) (taken : List ℕ)
        (order : List ℕ)
        → Stands T.Turn ps pipe.old h taken
        → IsPermutation (range_with_len 0 (stage_count T.Turn pipe.old)) order
        → Stands T.Turn ps pipe.new (h ++ map (turn_of T.Turn pipe.old.seats.items) order) taken) }
    // The first stages that had worked off all that came stay so, and the one after them joins
    // them.
    ensures settles { OnOk result ((ps : List T.Plan) (h : List Event) (taken : List ℕ)
        (order : List ℕ) (k : ℕ) (s : Stands T.Turn ps pipe.old h taken)
        → IsPermutation (range_with_len 0 (stage_count T.Turn pipe.old)) order
        → SettledTo T.gives k s.came ps s.seats
        → (now : Stands T.Turn ps pipe.new (h ++ map (turn_of T.Turn pipe.old.seats.items) order)
        taken) × SettledTo T.gives (suc k) now.came ps now.seats) }
    ensures begins { OnErr result ((ps : List T.Plan) (h : List Event) (taken : List ℕ)
        → Stands T.Turn ps pipe.old h taken → BeginsAnswer T.Turn ps pipe.new h taken) }
    ensures written { OnErr result ((ps : List T.Plan) (h : List Event) (taken : List ℕ)
        → Stands T.Turn ps pipe.old h taken → HasWritten T.Turn ps pipe.new h taken) }
    ensures hand { OnErr result (in_hand T.Turn pipe.new ≡ in_hand T.Turn pipe.old) }
    ensures spent { (result ≡ Err PipeFault.Spent) ↔ IsTrue (is_spent T.Turn pipe.old) }
    ensures spends { is_spent T.Turn pipe.new ≡ is_err result }
    ensures ended { is_ended T.Turn pipe.new ≡ is_ended T.Turn pipe.old }
    ensures count { stage_count T.Turn pipe.new ≡ stage_count T.Turn pipe.old }
    ensures closed { is_in_round T.Turn pipe.new ≡ false }
{
    let mut seats = pipe.begin_round();
    let worked = work_all(rt, gate, 1, seats.as_mut_slice());
    let ended = pipe.end_round(seats);
    match worked {
        Ok(()) => ended,
        Err(Memory) => Err(PipeFault::Memory),
    }
}
