// A round of all stages at once, joined by their rings.

ghost use Rattle.std.specs.Prelude.{◌≡◌, ◌+◌, ◌<◌, ◌≤◌, ◌^◌, ◌++◌, ◌∷◌, ◌↔◌, [], List, ℕ, None};
ghost use Rattle.std.specs.Prelude.{Err, IsTrue, OnOk, OnErr, is_ok, is_err, length, map};
ghost use Rattle.std.specs.Prelude.{vec_len};
ghost use Rattle.std.specs.Thread.{IsSync};
ghost use Rattle.kex_model.specs.Schedules.{Event};
ghost use Rattle.kex_pipe.specs.Rounds.{Each};
ghost use Rattle.kex_pipe.specs.Waiting.{unread_bytes};
ghost use Rattle.kex_rings.specs.Ends.{sent_to, free_in, taken_from, SameGiver, SameTaker};
ghost use Rattle.kex_rings.specs.Ends.{ArePaired, AreBeside};
ghost use Rattle.kex_rings.specs.Looking.{Looks, OnlyLooked, NowBeside, CarriedOut};
ghost use Rattle.kex_rings.specs.Looking.{AllRingSeatsUsable, WorkedAll};
ghost use Rattle.kex_rings.specs.Lines.{turns_from, Joined, HaveRings, AllGetOn};
ghost use Rattle.kex_rings.specs.Lines.{LineRounds};
ghost use Rattle.kex_rings.specs.Standing.{RingsStand, RingsBeginAnswer, RingsHaveWritten};
ghost use Rattle.kex_rings.specs.Standing.{rings_in_hand, rings_ended, rings_spent};
ghost use Rattle.kex_rings.specs.Standing.{rings_stage_count};

use crate::item::Item;
use crate::pipe::RingPipe;
use crate::ring_seat::RingSeat;
use kex_code::memory::Memory;
use kex_pipe::inbox::Inbox;
use kex_pipe::pipe::PipeFault;
use kex_pipe::turn::Turn;
use kex_ports::Gate;
use rtrb::{Consumer, Producer};
use std::thread::{Threads, join_mut};

// Looks that some stages are to make, the first of which has this number. Each takes as many items
// in a look as there is room for.
#[derive(Drop)]
struct LookTask<'g, G: Gate> {
    gate: &'g G,
    first: u32,
    looks: u32,
    room: u32,
}

impl<'g, G: Gate> LookTask<'g, G> {
    // The same for the stages after the first ones, of which there are `count`.
    fn after(&self, count: u32) -> LookTask<'g, G>
        requires { self.now.first + count < 2 ^ 32 }
        ensures first { result.first ≡ self.now.first + count }
        ensures same { (result.looks ≡ self.now.looks) × (result.room ≡ self.now.room) }
    {
        LookTask {
            gate: self.gate,
            first: self.first + count,
            looks: self.looks,
            room: self.room,
        }
    }

    // The looks of the first stage, between its entering the gate and its leaving it.
    fn work<T: Turn>(&self, seat: &mut RingSeat<T>) -> Result<(), Memory>
        requires usable { IsTrue seat.old.seat.usable }
        requires some { 0 < self.now.looks }
        ensures usable { OnOk result (IsTrue seat.new.seat.usable) }
        ensures looks { OnOk result
            (Looks T.Turn self.now.room seat.old seat.new seat.new.took) }
    {
        self.gate.enter(self.first);
        let worked = seat.work(self.looks, u64::from(self.room));
        self.gate.leave(self.first);
        seat.took = worked?;
        Ok(())
    }
}

// The looks of these stages.
fn work_all<R: Threads + Sync, T: Turn + Send, G: Gate + Sync>(
    rt: &R,
    task: &LookTask<'_, G>,
    seats: &mut [RingSeat<T>],
) -> Result<(), Memory>
    requires { (task.now.first + length seats.old ≤ 2 ^ 32) × (0 < task.now.looks)
        × AllRingSeatsUsable T.Turn seats.old }
    ensures { WorkedAll T.Turn task.now.room (is_ok result) seats.old seats.new }
{
    if seats.len() < 2 {
        return match seats.first_mut() {
            None => Ok(()),
            Some(seat) => task.work(seat),
        };
    }
    let half = seats.len() / 2;
    let rest = task.after(half as u32);
    let next = &rest;
    let (front, back) = seats.split_at_mut(half);
    let (one, other) = join_mut(
        rt,
        &mut || -> Result<(), Memory>
            requires { IsSync R.row × (task.now.first + length front.now ≤ 2 ^ 32)
                × (0 < task.now.looks) × AllRingSeatsUsable T.Turn front.now }
            ensures { WorkedAll T.Turn task.entry.now.room (is_ok result) front.entry.now
                front.exit.now }
        { work_all(rt, task, front) },
        &mut || -> Result<(), Memory>
            requires { IsSync R.row × (next.now.first + length back.now ≤ 2 ^ 32)
                × (0 < next.now.looks) × AllRingSeatsUsable T.Turn back.now }
            ensures { WorkedAll T.Turn next.entry.now.room (is_ok result) back.entry.now
                back.exit.now }
        { work_all(rt, next, back) },
    );
    one?;
    other
}

// How many items each stage took.
fn gather<T: Turn>(seats: &[RingSeat<T>], counts: &mut Vec<u64>) -> Result<(), Memory>
    ensures { OnOk result (counts.new.items ≡ map (λ s. s.took) seats.now) }
{
    counts.clear();
    for seat in seats {
        counts.push(seat.took)?;
    }
    Ok(())
}

// With both ends of a ring, where there is one, in one hand all that lies in it is seen.
fn look_at(to: &mut Option<Producer<Item>>, from: &mut Option<Consumer<Item>>)
    requires { (room : ℕ) × ArePaired room to.old from.old }
    ensures beside { (room : ℕ) → ArePaired room to.old from.old → AreBeside room to.new from.new }
    ensures to { SameGiver to.old to.new × (sent_to to.new ≡ sent_to to.old)
        × (free_in to.old ≤ free_in to.new) }
    ensures from { SameTaker from.old from.new × (taken_from from.new ≡ taken_from from.old) }
{
    if let Some(to) = to {
        if let Some(from) = from {
            from.slots_beside(to);
        }
    }
}

// The last stage in front and the first one after it, which have the ends of one ring.
fn look_between<T: Turn>(front: &mut [RingSeat<T>], back: &mut [RingSeat<T>])
    requires front { 0 < length front.old }
    requires back { 0 < length back.old }
    requires paired { (room : ℕ) × (fs : List (RingSeat T T.Turn)) × (s : RingSeat T T.Turn)
        × (n : RingSeat T T.Turn) × (bs : List (RingSeat T T.Turn)) × (front.old ≡ fs ++ s ∷ [])
        × (back.old ≡ n ∷ bs) × ArePaired room s.to n.from }
    ensures { (fs bs : List (RingSeat T T.Turn)) (s n : RingSeat T T.Turn) → front.old
        ≡ fs ++ s ∷ [] → back.old ≡ n ∷ bs → NowBeside T.Turn fs bs s n (front.new ++ back.new) }
{
    let last = front.len() - 1;
    let before = &mut front[last];
    let behind = &mut back[0];
    look_at(&mut before.to, &mut behind.from);
}

// The stages at this place and after it, which have the ends of one ring.
fn look_beside<T: Turn>(seats: &mut [RingSeat<T>], i: usize)
    requires within { i + 1 < length seats.old }
    requires paired { (room : ℕ) × (front : List (RingSeat T T.Turn)) × (s : RingSeat T T.Turn)
        × (n : RingSeat T T.Turn) × (back : List (RingSeat T T.Turn))
        × (seats.old ≡ front ++ s ∷ n ∷ back) × (length front ≡ i) × ArePaired room s.to n.from }
    ensures count { length seats.new ≡ length seats.old }
    ensures beside { (front back : List (RingSeat T T.Turn)) (s n : RingSeat T T.Turn) → seats.old
        ≡ front ++ s ∷ n ∷ back → length front ≡ i → NowBeside T.Turn front back s n seats.new }
{
    let (front, back) = seats.split_at_mut(i + 1);
    look_between(front, back);
}

// With both ends of each ring in one hand each stage sees all that lies before it.
fn look_beside_all<T: Turn>(seats: &mut [RingSeat<T>])
    requires some { 0 < length seats.old }
    requires paired { (room : ℕ) × Joined T.Turn (ArePaired room) None seats.old }
    ensures count { length seats.new ≡ length seats.old }
    ensures looked { Each (OnlyLooked T.Turn) seats.old seats.new }
    ensures beside { (room : ℕ) → Joined T.Turn (ArePaired room) None seats.old
        → Joined T.Turn (AreBeside room) None seats.new }
{
    let last = seats.len() - 1;
    for i in 0..last {
        look_beside(seats, i);
    }
}

// What the last stage has written goes after the output in hand.
fn carry_out<T: Turn>(seats: &mut [RingSeat<T>], output: &mut Inbox) -> Result<(), Memory>
    requires { 0 < length seats.old }
    ensures count { length seats.new ≡ length seats.old }
    ensures out { OnOk result ((front : List (RingSeat T T.Turn)) (s : RingSeat T T.Turn)
        → seats.old ≡ front ++ s ∷ [] → CarriedOut T.Turn front s output.old seats.new output.new) }
    ensures hand { OnErr result (unread_bytes output.new ≡ unread_bytes output.old) }
{
    let last = seats.len() - 1;
    let seat = &mut seats[last];
    output.append(&mut seat.seat.outbox)
}

// A round of these stages.
fn run<R: Threads + Sync, T: Turn + Send, G: Gate + Sync>(
    rt: &R,
    task: &LookTask<'_, G>,
    seats: &mut [RingSeat<T>],
    output: &mut Inbox,
    counts: &mut Vec<u64>,
) -> Result<(), Memory>
    requires few { task.now.first + length seats.old ≤ 2 ^ 32 }
    requires some { 0 < length seats.old }
    requires looks { 0 < task.now.looks }
    requires usable { AllRingSeatsUsable T.Turn seats.old }
    requires joined { Joined T.Turn (AreBeside task.now.room) None seats.old }
    requires rings { HaveRings T.Turn seats.old }
    ensures usable { OnOk result (AllRingSeatsUsable T.Turn seats.new) }
    ensures joined { OnOk result (Joined T.Turn (AreBeside task.now.room) None seats.new) }
    ensures rings { OnOk result (HaveRings T.Turn seats.new) }
    ensures count { OnOk result (length seats.new ≡ length seats.old) }
    ensures counts { OnOk result (length counts.new.items ≡ length seats.old) }
    ensures turns { OnOk result
        (LineRounds T.Turn seats.old output.old seats.new output.new counts.new.items) }
    ensures gets_on { OnOk result
        (AllGetOn T.Turn task.now.room seats.old seats.new counts.new.items) }
    ensures hand { OnErr result (unread_bytes output.new ≡ unread_bytes output.old) }
{
    work_all(rt, task, seats)?;
    gather(seats, counts)?;
    look_beside_all(seats);
    carry_out(seats, output)
}

/// Each stage makes `looks` looks, all at once. A look sends what is unsent while the ring after it
/// takes that; only if nothing is left unsent it takes what it sees in the ring before, as much as
/// a ring has room for. The stages enter the gate before their looks and leave it after.
/// `counts` becomes the number of items that each stage took.
pub fn ring_round<R: Threads + Sync, T: Turn + Drop + Send, G: Gate + Sync>(
    rt: &R,
    pipe: &mut RingPipe<T>,
    gate: &G,
    looks: u32,
    counts: &mut Vec<u64>,
) -> Result<(), PipeFault>
    requires { 0 < looks }
    ensures stands { OnOk result ((ps : List T.Plan) (h : List Event) (taken : List ℕ)
        → RingsStand T.Turn ps pipe.old h taken
        → RingsStand T.Turn ps pipe.new (h ++ turns_from 0 counts.new.items) taken) }
    ensures counts { OnOk result (vec_len counts.new ≡ rings_stage_count T.Turn pipe.old) }
    // With nothing unsent a stage took at least all that lay in its ring when the round began, or
    // as much as there is room for; what was unsent it sent, as far as the room goes since its ring
    // was made. A stage that could not send all that was unsent took nothing, not even out of its
    // ring.
    ensures gets_on { OnOk result
        (AllGetOn T.Turn pipe.old.room pipe.old.seats.items pipe.new.seats.items counts.new.items) }
    ensures begins { OnErr result ((ps : List T.Plan) (h : List Event) (taken : List ℕ)
        → RingsStand T.Turn ps pipe.old h taken → RingsBeginAnswer T.Turn ps pipe.new h taken) }
    ensures written { OnErr result ((ps : List T.Plan) (h : List Event) (taken : List ℕ)
        → RingsStand T.Turn ps pipe.old h taken → RingsHaveWritten T.Turn ps pipe.new h taken) }
    ensures hand { OnErr result (rings_in_hand T.Turn pipe.new ≡ rings_in_hand T.Turn pipe.old) }
    ensures spent { (result ≡ Err PipeFault.Spent) ↔ IsTrue (rings_spent T.Turn pipe.old) }
    ensures unchanged { result ≡ Err PipeFault.Spent → pipe.new ≡ pipe.old }
    ensures spends { rings_spent T.Turn pipe.new ≡ is_err result }
    ensures ended { rings_ended T.Turn pipe.new ≡ rings_ended T.Turn pipe.old }
    ensures room { pipe.new.room ≡ pipe.old.room }
{
    if pipe.spent {
        return Err(PipeFault::Spent);
    }
    pipe.begins();
    let task = LookTask {
        gate,
        first: 1,
        looks,
        room: pipe.room,
    };
    match run(rt, &task, &mut pipe.seats, &mut pipe.output, counts) {
        Ok(()) => Ok(()),
        Err(Memory) => {
            pipe.spent = true; // its stages may only be dropped
            Err(PipeFault::Memory)
        }
    }
}
