// All that waits is worked off, step by step.

ghost use Rattle.std.specs.Prelude.{◌≡◌, ◌<◌, ◌++◌, [], None, true, All, IsTrue, IfOk};
ghost use Rattle.std.specs.Prelude.{IfSome, OnOk, OnErr, length};
ghost use Rattle.kex_pipe.specs.Waiting.{unread_bytes, waiting_items};
ghost use Rattle.kex_pipe.specs.Seats.{IsWhole};
ghost use Rattle.kex_rings.specs.Ends.{AreBeside, seen_in};
ghost use Rattle.kex_rings.specs.Items.{items_as};
ghost use Rattle.kex_rings.specs.Looking.{AllRingSeatsUsable, IsEmpty};
ghost use Rattle.kex_rings.specs.Settling.{Gathers, GathersAll, HandsOn, StageSteps, LineWorks};
ghost use Rattle.kex_rings.specs.Settling.{AllSeatsUsable, AllAtRest, NoneWaitsAfter};
ghost use Rattle.kex_rings.specs.Lines.{Joined, AreNew, HaveRings, LineSettles};

use crate::item::Item;
use crate::joining::join_all;
use crate::passing::pull_all;
use crate::ring_seat::RingSeat;
use kex_code::memory::Memory;
use kex_pipe::inbox::Inbox;
use kex_pipe::seat::Seat;
use kex_pipe::turn::Turn;
use rtrb::Consumer;
use std::alloc::Global;

/// A stage takes this many items in a step, at most.
const STEP: u64 = 4_096;

// Takes all that is seen in the ring, if there is one.
fn empty(from: Option<Consumer<Item>>, inbox: &mut Inbox) -> Result<(), Memory>
    ensures { OnOk result (IsWhole (waiting_items inbox.old ++ items_as (seen_in from))
        → waiting_items inbox.new ≡ waiting_items inbox.old ++ items_as (seen_in from)) }
{
    match from {
        None => Ok(()),
        Some(mut ring) => pull_all(&mut ring, inbox),
    }
}

// The stage without its rings. Before it lies what lay in its ring, and then what the stage before
// it had not sent; what it has not sent itself comes in the place of that.
fn gather_one<T: Turn + Drop>(seat: RingSeat<T>, unsent: &mut Inbox) -> Result<Seat<T>, Memory>
    requires { IsTrue seat.seat.usable }
    ensures usable { IfOk result (λ s. IsTrue s.usable) }
    ensures gathers { IfOk result (λ s.
        Gathers T.Turn seat s (waiting_items unsent.old) (waiting_items unsent.new)) }
{
    let RingSeat {
        mut seat,
        from,
        to: _,
        took: _,
    } = seat;
    empty(from, &mut seat.inbox)?;
    seat.inbox.append(unsent)?;
    unsent.append(&mut seat.outbox)?;
    Ok(seat)
}

// The same for all of them.
fn gather_each<T: Turn + Drop>(
    alloc: Global,
    seats: Vec<RingSeat<T>>,
    unsent: &mut Inbox,
) -> Result<Vec<Seat<T>>, Memory>
    requires { AllRingSeatsUsable T.Turn seats.items }
    ensures usable { IfOk result (λ row. AllSeatsUsable T.Turn row.items) }
    ensures gathers { IfOk result (λ row. GathersAll T.Turn seats.items row.items
        (waiting_items unsent.old) (waiting_items unsent.new)) }
{
    let mut row = Vec::new(alloc);
    for seat in seats {
        let gathered = gather_one(seat, unsent)?;
        row.push(gathered)?;
    }
    Ok(row)
}

// What a stage has written is handed on: before the next one, and after the last one to what was
// made.
fn hand_on<T: Turn>(
    outbox: &mut Inbox,
    behind: &mut [Seat<T>],
    made: &mut Inbox,
) -> Result<(), Memory>
    requires { AllSeatsUsable T.Turn behind.old }
    ensures usable { OnOk result (AllSeatsUsable T.Turn behind.new) }
    ensures count { length behind.new ≡ length behind.old }
    ensures none_left { OnOk result (waiting_items outbox.new ≡ []) }
    ensures moves { OnOk result
        (HandsOn T.Turn outbox.old behind.old made.old behind.new made.new) }
{
    if behind.is_empty() {
        return made.append(outbox);
    }
    let next = &mut behind[0];
    next.inbox.append(outbox)
}

// The stage with this number, counted from 0, takes a turn, and what it has written is handed on.
fn step<T: Turn>(seats: &mut [Seat<T>], made: &mut Inbox, i: usize) -> Result<(), Memory>
    requires seat { i < length seats.old }
    requires usable { AllSeatsUsable T.Turn seats.old }
    ensures usable { OnOk result (AllSeatsUsable T.Turn seats.new) }
    ensures count { length seats.new ≡ length seats.old }
    ensures steps { OnOk result
        (StageSteps T.Turn i STEP seats.old made.old seats.new made.new) }
{
    seats[i].take(STEP)?;
    let (front, behind) = seats.split_at_mut(i + 1);
    let seat = &mut front[i];
    hand_on(&mut seat.outbox, behind, made)
}

// The last stage before which something waits, if there is one.
fn last_waiting<T: Turn>(seats: &[Seat<T>]) -> Option<usize>
    ensures within { IfSome result (λ i. i < length seats.now) }
    ensures none { result ≡ None → All (λ s. IsEmpty s.inbox) seats.now }
    ensures last { IfSome result (λ i. NoneWaitsAfter T.Turn i seats.now) }
{
    for i in (0..seats.len()).rev() {
        if !seats[i].inbox.is_empty() {
            return Some(i);
        }
    }
    None
}

// The first stage that had no turn yet, if there is one.
fn first_unturned<T: Turn>(seats: &[Seat<T>]) -> Option<usize>
    ensures within { IfSome result (λ i. i < length seats.now) }
    ensures none { result ≡ None → All (λ s. s.staged.turned ≡ true) seats.now }
{
    for i in 0..seats.len() {
        if !seats[i].staged.turned {
            return Some(i);
        }
    }
    None
}

// The stage that goes next. What a stage has written is worked off before it writes more.
fn next_stage<T: Turn>(seats: &[Seat<T>]) -> Option<usize>
    ensures within { IfSome result (λ i. i < length seats.now) }
    ensures none { result ≡ None → AllAtRest T.Turn seats.now }
    ensures last { IfSome result (λ i. NoneWaitsAfter T.Turn i seats.now) }
{
    match last_waiting(seats) {
        Some(i) => Some(i),
        None => first_unturned(seats),
    }
}

// Steps, until all stages are at rest. What waits between two of them is what the first one has
// written in a step. `Memory` comes also after more steps than a `u64` counts.
fn work_off<T: Turn>(seats: &mut [Seat<T>], made: &mut Inbox) -> Result<(), Memory>
    requires { AllSeatsUsable T.Turn seats.old }
    ensures usable { OnOk result (AllSeatsUsable T.Turn seats.new) }
    ensures count { length seats.new ≡ length seats.old }
    ensures works { OnOk result (LineWorks T.Turn seats.old made.old seats.new made.new) }
    ensures rest { OnOk result (AllAtRest T.Turn seats.new) }
{
    'steps: for _step in 0..u64::MAX {
        let Some(i) = next_stage(seats) else {
            return Ok(());
        };
        step(seats, made, i)?;
    }
    Err(Memory)
}

/// The stages with new rings, after all that waits was worked off. What the last one has written
/// goes after the output in hand.
pub(crate) fn settle_all<T: Turn + Drop>(
    alloc: Global,
    room: u32,
    seats: Vec<RingSeat<T>>,
    output: &mut Inbox,
) -> Result<Vec<RingSeat<T>>, Memory>
    requires { AllRingSeatsUsable T.Turn seats.items }
    ensures usable { IfOk result (λ row. AllRingSeatsUsable T.Turn row.items) }
    ensures joined { IfOk result (λ row. Joined T.Turn (AreBeside room) None row.items) }
    ensures new { IfOk result (λ row. AreNew T.Turn row.items) }
    ensures rings { IfOk result (λ row. HaveRings T.Turn row.items) }
    ensures count { IfOk result (λ row. length row.items ≡ length seats.items) }
    ensures settles { IfOk result (λ row.
        LineSettles T.Turn seats.items output.old row.items output.new) }
    ensures hand { OnErr result (unread_bytes output.new ≡ unread_bytes output.old) }
{
    let mut unsent = Inbox::new(alloc);
    let mut gathered = gather_each(alloc, seats, &mut unsent)?;
    let mut made = Inbox::new(alloc);
    work_off(&mut gathered, &mut made)?;
    let row = join_all(alloc, room, gathered)?;
    output.append(&mut made)?;
    Ok(row)
}
