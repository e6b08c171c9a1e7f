// The desks of a stage, which work on parts of a piece at once.

ghost use Rattle.std.specs.Prelude.{◌≡◌, ◌+◌, ◌-◌, ◌<◌, ◌≤◌, ◌++◌, ◌∷◌, ◌↔◌, [], List, ℕ};
ghost use Rattle.std.specs.Prelude.{false, IsTrue, OnOk, OnErr, Err, Option, is_err, length, map};
ghost use Rattle.std.specs.Thread.{IsSync};
ghost use Rattle.kex_model.specs.Schedules.{Event};
ghost use Rattle.kex_pipe.specs.Standing.{Stands, BeginsAnswer, HasWritten, in_hand, is_ended};
ghost use Rattle.kex_pipe.specs.Standing.{is_spent, is_in_round, stage_count};
ghost use Rattle.kex_pipe.specs.Histories.{StageFed};
ghost use Rattle.kex_pipe.specs.Rounds.{turn_of};

use kex_pipe::parted::{PartDesk, Parted};
use kex_pipe::parting::{hand_out, take_back};
use kex_pipe::pipe::{Pipe, PipeFault};
use kex_ports::Gate;
use std::thread::{Threads, join_mut};

// One desk's work, between its entering the gate and its leaving it.
fn work_one<D: PartDesk, G: Gate>(gate: &G, part: u32, of: u32, piece: &[u8], desk: &mut D) -> bool
    requires { (1 ≤ part) × (part ≤ of) }
    ensures { D.kind desk.new ≡ D.kind desk.old }
{
    gate.enter(part);
    desk.work(part, of, piece);
    gate.leave(part);
    true
}

// The work of these desks on parts of a piece, of which the first has this number.
fn work_parts<R: Threads + Sync, D: PartDesk + Send, G: Gate + Sync>(
    rt: &R,
    gate: &G,
    first: u32,
    of: u32,
    piece: &[u8],
    desks: &mut [D],
) -> bool
    requires { (1 ≤ first) × (first + length desks.old ≤ of + 1) }
    ensures { map D.kind desks.new ≡ map D.kind desks.old }
{
    if desks.len() < 2 {
        return match desks.first_mut() {
            None => true,
            Some(desk) => work_one(gate, first, of, piece, desk),
        };
    }
    let half = desks.len() / 2;
    let next = first + half as u32;
    // Each closure borrows a number of its own: what it was lent is back before the other's is.
    let all = of;
    let (front, back) = desks.split_at_mut(half);
    let (one, other) = join_mut(
        rt,
        &mut || -> bool
            requires { IsSync R.row × (1 ≤ first) × (first + length front.now ≤ of + 1) }
            ensures { map D.kind front.exit.now ≡ map D.kind front.entry.now }
        { work_parts(rt, gate, first, of, piece, front) },
        &mut || -> bool
            requires { IsSync R.row × (1 ≤ next) × (next + length back.now ≤ all + 1) }
            ensures { map D.kind back.exit.now ≡ map D.kind back.entry.now }
        { work_parts(rt, gate, next, all, piece, back) },
    );
    one && other
}

/// The desks work on parts of a piece at once: there are as many parts as desks, or fewer, of
/// `least` bytes at least. Part k, counted from 1, enters the gate as k before its work. It leaves
/// it after, also where it finds nothing to do. A single part isn't worked on: its desk would do
/// what the stage does then.
pub fn work_desks<R: Threads + Sync, D: PartDesk + Send, G: Gate + Sync>(
    rt: &R,
    desks: &mut [D],
    piece: &[u8],
    least: usize,
    gate: &G,
)
    requires few { length desks.old ≤ 64 }
    requires some { 0 < least }
    ensures { map D.kind desks.new ≡ map D.kind desks.old }
{
    let parts = desks.len().min(piece.len() / least);
    if parts < 2 {
        return;
    }
    let (busy, _idle) = desks.split_at_mut(parts);
    let _done = work_parts(rt, gate, 1, parts as u32, piece, busy);
}

/// The desks of a stage work at once on parts of a piece that it reads next, of `least` bytes at
/// least.
pub fn work_ahead<R: Threads + Sync, D: PartDesk + Drop + Send, T: Parted<D>, G: Gate + Sync>(
    rt: &R,
    stage: &mut T,
    piece: &[u8],
    least: usize,
    gate: &G,
)
    requires { 0 < least }
    ensures plan { T.plan stage.new ≡ T.plan stage.old }
    ensures usable { T.is_usable stage.new ≡ T.is_usable stage.old }
    ensures stands { (h : Option StageFed) → T.stands stage.old h → T.stands stage.new h }
{
    let mut desks: Vec<D> = stage.hand_out();
    work_desks(rt, &mut desks, piece, least, gate);
    stage.take_back(desks);
}

// The desks of stage `i` work at once on parts of what waits before it, of `least` bytes at least.
fn share<R: Threads + Sync, D: PartDesk + Drop + Send, T: Parted<D> + Drop, G: Gate + Sync>(
    rt: &R,
    pipe: &mut Pipe<T>,
    gate: &G,
    i: u32,
    least: usize,
)
    requires from_one { 1 ≤ i }
    requires to_last { i ≤ stage_count T.Turn pipe.old }
    requires closed { is_in_round T.Turn pipe.old ≡ false }
    requires some { 0 < least }
    ensures stands { (ps : List T.Plan) (h : List Event) (taken : List ℕ)
        → Stands T.Turn ps pipe.old h taken → Stands T.Turn ps pipe.new h taken }
    ensures hand { in_hand T.Turn pipe.new ≡ in_hand T.Turn pipe.old }
    ensures spent { is_spent T.Turn pipe.new ≡ is_spent T.Turn pipe.old }
    ensures ended { is_ended T.Turn pipe.new ≡ is_ended T.Turn pipe.old }
    ensures count { stage_count T.Turn pipe.new ≡ stage_count T.Turn pipe.old }
    ensures closed { is_in_round T.Turn pipe.new ≡ is_in_round T.Turn pipe.old }
{
    if pipe.waiting(i).len() / least < 2 {
        return;
    }
    let mut desks: Vec<D> = hand_out(pipe, i);
    work_desks(rt, &mut desks, pipe.waiting(i), least, gate);
    take_back(pipe, i, desks);
}

/// Stage `i`, counted from 1, takes a turn of all that waits before it. Its desks work on parts of
/// that at once, of `least` bytes at least, and it goes by what they have made where that is what
/// it makes itself. Where there are fewer than two parts it has no desks for this turn.
pub fn turn_in_parts<
    R: Threads + Sync,
    D: PartDesk + Drop + Send,
    T: Parted<D> + Drop,
    G: Gate + Sync,
>(rt: &R, pipe: &mut Pipe<T>, gate: &G, i: u32, least: usize) -> Result<(), PipeFault>
    requires from_one { 1 ≤ i }
    requires to_last { i ≤ stage_count T.Turn pipe.old }
    requires closed { is_in_round T.Turn pipe.old ≡ false }
    requires some { 0 < least }
    ensures stands { OnOk result ((ps : List T.Plan) (h : List Event) (taken : List ℕ)
        → Stands T.Turn ps pipe.old h taken
        → Stands T.Turn ps pipe.new (h ++ turn_of T.Turn pipe.old.seats.items (i - 1) ∷ []) taken) }
    ensures begins { OnErr result ((ps : List T.Plan) (h : List Event) (taken : List ℕ)
        → Stands T.Turn ps pipe.old h taken → BeginsAnswer T.Turn ps pipe.new h taken) }
    ensures written { OnErr result ((ps : List T.Plan) (h : List Event) (taken : List ℕ)
        → Stands T.Turn ps pipe.old h taken → HasWritten T.Turn ps pipe.new h taken) }
    ensures hand { OnErr result (in_hand T.Turn pipe.new ≡ in_hand T.Turn pipe.old) }
    ensures spent { (result ≡ Err PipeFault.Spent) ↔ IsTrue (is_spent T.Turn pipe.old) }
    ensures spends { is_spent T.Turn pipe.new ≡ is_err result }
    ensures ended { is_ended T.Turn pipe.new ≡ is_ended T.Turn pipe.old }
    ensures count { stage_count T.Turn pipe.new ≡ stage_count T.Turn pipe.old }
    ensures closed { is_in_round T.Turn pipe.new ≡ false }
{
    let all = pipe.count_waiting(i);
    share(rt, pipe, gate, i, least);
    pipe.turn(i, all)
}
