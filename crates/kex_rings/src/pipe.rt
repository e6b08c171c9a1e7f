// A pipeline of stages that rings join.

ghost use Rattle.std.specs.Prelude.{◌≡◌, ◌≢◌, ◌<◌, ◌≤◌, ◌^◌, ◌↔◌, ◌++◌, ◌∷◌, [], List, ℕ};
ghost use Rattle.std.specs.Prelude.{false, None, Err, IsTrue, IfOk, OnOk, OnErr, is_err, All};
ghost use Rattle.std.specs.Prelude.{length, map, vec_len};
ghost use Rattle.kex_model.specs.Answers.{Pipeline};
ghost use Rattle.kex_model.specs.Schedules.{Event, give, give_end, Settled};
ghost use Rattle.kex_rings.specs.Ends.{AreBeside};
ghost use Rattle.kex_rings.specs.Lines.{Joined, HaveRings};
ghost use Rattle.kex_rings.specs.Props.{prop, rings-prop};

use crate::joining::join_all;
use crate::ring_seat::RingSeat;
use crate::settling::settle_all;
use kex_code::memory::Memory;
use kex_pipe::inbox::Inbox;
use kex_pipe::pipe::PipeFault;
use kex_pipe::report::{Rejected, latest};
use kex_pipe::seat::Seat;
use kex_pipe::staged::Staged;
use kex_pipe::turn::Turn;
use std::alloc::Global;
use std::mem::replace;

/// Stages, each but the last with a ring after it. What the last one writes is the output.
///
/// What the contracts say of what it was given and has written is a schedule of turns, which it
/// doesn't store. To the inbox of a stage in that schedule belongs what lies in the ring before it,
/// and after that what the stage before it has not sent yet.
#[derive(Drop)]
pub struct RingPipe<T: Turn> {
    pub(crate) alloc: Global,
    pub(crate) room: u32,
    pub(crate) seats: Vec<RingSeat<T>>,
    pub(crate) output: Inbox,
    pub(crate) ended: bool,
    pub(crate) spent: bool,
    ghost some: { spent ≡ false → 0 < vec_len seats },
    ghost few: { vec_len seats < 2 ^ 32 },
    ghost all_usable: { spent ≡ false → All (λ s. IsTrue s.seat.usable) seats.items },
    ghost joined: { spent ≡ false → Joined T.Turn
        (AreBeside room) None seats.items } by { prop T.Turn spent room seats.items },
    ghost rings: { spent ≡ false
        → HaveRings T.Turn seats.items } by { rings-prop T.Turn spent seats.items },
}

impl<T: Turn + Drop> RingPipe<T> {
    ghost use Rattle.kex_rings.specs.Lines.{AreNew};
    ghost use Rattle.kex_rings.specs.Standing.{RingsStand, RingsBeginAnswer, RingsHaveWritten};
    ghost use Rattle.kex_rings.specs.Standing.{WorksOff, rings_in_hand, rings_ended, rings_spent};
    ghost use Rattle.kex_rings.specs.Standing.{rings_stage_count};
    ghost use Rattle.kex_pipe.specs.Reports.{report_as, LastStop};
    ghost use Rattle.kex_pipe.specs.Events.{bytes_given, end_given};

    /// At least one stage, none of which was fed before. Each ring has this room, 1 to 1,048,576
    /// items. `Memory` comes also for more stages than a `u32` counts.
    pub fn new(alloc: Global, stages: Vec<T>, room: u32) -> Result<RingPipe<T>, Memory>
        requires some { 0 < vec_len stages }
        requires unfed { All (λ s. T.stands s None) stages.items }
        requires least { 1 ≤ room }
        requires most { room ≤ 1048576 }
        ensures stands { IfOk result (λ pipe.
            RingsStand T.Turn (map T.plan stages.items) pipe [] []) }
        ensures count { IfOk result (λ pipe. rings_stage_count T.Turn pipe ≡ vec_len stages) }
        ensures room { IfOk result (λ pipe. pipe.room ≡ room) }
        ensures rings { IfOk result (λ pipe. HaveRings T.Turn pipe.seats.items) }
        ensures open { IfOk result (λ pipe. rings_ended T.Turn pipe ≡ false) }
        ensures going { IfOk result (λ pipe. rings_spent T.Turn pipe ≡ false) }
    {
        if stages.len() > u32::MAX as usize {
            return Err(Memory);
        }
        let mut seats = Vec::new(alloc);
        for stage in stages {
            seats.push(Seat {
                staged: Staged {
                    stage,
                    turned: false,
                },
                inbox: Inbox::new(alloc),
                outbox: Inbox::new(alloc),
                usable: true,
            })?;
        }
        let row = join_all(alloc, room, seats)?;
        Ok(RingPipe {
            alloc,
            room,
            seats: row,
            output: Inbox::new(alloc),
            ended: false,
            spent: false,
        })
    }

    /// Whether the end was given.
    pub fn ended(&self) -> bool
        ensures { result ≡ rings_ended T.Turn self.now }
    {
        self.ended
    }

    // A law: what was taken and is in hand begins the pipeline's text.
    pub(crate) fn begins(&self)
        ensures { (ps : List T.Plan) (h : List Event) (taken : List ℕ)
            → RingsStand T.Turn ps self.now h taken → RingsBeginAnswer T.Turn ps self.now h taken }
    {}

    /// Gives bytes to the first stage. After an error the output in hand is as it was, here and at
    /// every other call.
    pub fn give(&mut self, bytes: &[u8]) -> Result<(), PipeFault>
        requires unended { rings_ended T.Turn self.old ≡ false }
        ensures stands { OnOk result ((ps : List T.Plan) (h : List Event) (taken : List ℕ)
            → RingsStand T.Turn ps self.old h taken
            → RingsStand T.Turn ps self.new (h ++ give bytes.now ∷ []) taken) }
        ensures memory { result ≡ Err PipeFault.Memory
            → (ps : List T.Plan) (h : List Event) (taken : List ℕ)
            → RingsStand T.Turn ps self.old h taken → RingsBeginAnswer T.Turn ps self.new h taken }
        ensures written { result ≡ Err PipeFault.Memory
            → (ps : List T.Plan) (h : List Event) (taken : List ℕ)
            → RingsStand T.Turn ps self.old h taken → RingsHaveWritten T.Turn ps self.new h taken }
        ensures hand { rings_in_hand T.Turn self.new ≡ rings_in_hand T.Turn self.old }
        ensures spent { (result ≡ Err PipeFault.Spent) ↔ IsTrue (rings_spent T.Turn self.old) }
        ensures unchanged { result ≡ Err PipeFault.Spent → self.new ≡ self.old }
        ensures spends { rings_spent T.Turn self.new ≡ is_err result }
        ensures ended { rings_ended T.Turn self.new ≡ rings_ended T.Turn self.old }
        ensures count { rings_stage_count T.Turn self.new ≡ rings_stage_count T.Turn self.old }
        ensures room { self.new.room ≡ self.old.room }
    {
        if self.spent {
            return Err(PipeFault::Spent);
        }
        match self.seats[0].seat.inbox.give(bytes) {
            Ok(()) => Ok(()),
            Err(Memory) => {
                self.spent = true;
                Err(PipeFault::Memory)
            }
        }
    }

    /// The input ends here.
    pub fn give_end(&mut self) -> Result<(), PipeFault>
        requires unended { rings_ended T.Turn self.old ≡ false }
        ensures stands { OnOk result ((ps : List T.Plan) (h : List Event) (taken : List ℕ)
            → RingsStand T.Turn ps self.old h taken
            → RingsStand T.Turn ps self.new (h ++ give_end ∷ []) taken) }
        ensures memory { result ≢ Err PipeFault.Memory }
        ensures hand { rings_in_hand T.Turn self.new ≡ rings_in_hand T.Turn self.old }
        ensures spent { (result ≡ Err PipeFault.Spent) ↔ IsTrue (rings_spent T.Turn self.old) }
        ensures unchanged { result ≡ Err PipeFault.Spent → self.new ≡ self.old }
        ensures spends { rings_spent T.Turn self.new ≡ is_err result }
        ensures ended { OnOk result (IsTrue (rings_ended T.Turn self.new)) }
        ensures count { rings_stage_count T.Turn self.new ≡ rings_stage_count T.Turn self.old }
        ensures room { self.new.room ≡ self.old.room }
    {
        if self.spent {
            return Err(PipeFault::Spent);
        }
        self.seats[0].seat.inbox.give_end();
        self.ended = true;
        Ok(())
    }

    /// Whether every stage had a turn, and nothing waits before a stage or is unsent. Not so of a
    /// spent pipe.
    pub fn settled(&self) -> bool
        ensures settled { (ps : List T.Plan) (h : List Event) (taken : List ℕ)
            (s : RingsStand T.Turn ps self.now h taken)
            → (IsTrue result ↔ Settled T.gives s.came ps s.seats) }
        ensures spent { IsTrue (rings_spent T.Turn self.now) → result ≡ false }
    {
        if self.spent {
            return false;
        }
        for seat in &self.seats {
            if !seat.is_idle() {
                return false;
            }
        }
        true
    }

    /// The stop of the last stage, in the order of the pipeline, that has stopped. Of a spent pipe
    /// it says nothing.
    pub fn report(&self) -> Option<Rejected>
        ensures last { (ps : List T.Plan) (h : List Event) (taken : List ℕ)
            (s : RingsStand T.Turn ps self.now h taken)
            → LastStop T.Turn 1 ps s.seats (report_as result) }
        ensures settled { (ps : List T.Plan) (h : List Event) (taken : List ℕ)
            (s : RingsStand T.Turn ps self.now h taken) → Settled T.gives s.came ps s.seats
            → Pipeline T.gives 1 ps (bytes_given h) (end_given h)
            (taken ++ rings_in_hand T.Turn self.now) (report_as result) }
    {
        let mut report = None;
        for (i, seat) in self.seats.iter().enumerate() {
            report = latest(i as u32 + 1, seat.seat.staged.stage.stop(), report);
        }
        report
    }

    /// How many bytes of output are in hand.
    pub fn output_length(&self) -> usize
        ensures { result ≡ length (rings_in_hand T.Turn self.now) }
    {
        self.output.byte_count()
    }

    /// Takes the output that is in hand, in the place of what `out` held. The room of that is kept
    /// for the output to come.
    pub fn take_output_into(&mut self, out: &mut Vec<u8>)
        ensures all { out.new.items ≡ rings_in_hand T.Turn self.old }
        ensures none_left { rings_in_hand T.Turn self.new ≡ [] }
        ensures stands { (ps : List T.Plan) (h : List Event) (taken : List ℕ)
            → RingsStand T.Turn ps self.old h taken
            → RingsStand T.Turn ps self.new h (taken ++ out.new.items) }
        ensures begins { (ps : List T.Plan) (h : List Event) (taken : List ℕ)
            → RingsBeginAnswer T.Turn ps self.old h taken
            → RingsBeginAnswer T.Turn ps self.new h (taken ++ out.new.items) }
        ensures written { (ps : List T.Plan) (h : List Event) (taken : List ℕ)
            → RingsHaveWritten T.Turn ps self.old h taken
            → RingsHaveWritten T.Turn ps self.new h (taken ++ out.new.items) }
        ensures spent { rings_spent T.Turn self.new ≡ rings_spent T.Turn self.old }
        ensures ended { rings_ended T.Turn self.new ≡ rings_ended T.Turn self.old }
        ensures count { rings_stage_count T.Turn self.new ≡ rings_stage_count T.Turn self.old }
        ensures room { self.new.room ≡ self.old.room }
    {
        self.output.take_bytes_into(out);
    }

    /// Takes the output that is in hand.
    pub fn take_output(&mut self) -> Vec<u8>
        ensures all { result.items ≡ rings_in_hand T.Turn self.old }
        ensures none_left { rings_in_hand T.Turn self.new ≡ [] }
        ensures stands { (ps : List T.Plan) (h : List Event) (taken : List ℕ)
            → RingsStand T.Turn ps self.old h taken
            → RingsStand T.Turn ps self.new h (taken ++ result.items) }
        ensures begins { (ps : List T.Plan) (h : List Event) (taken : List ℕ)
            → RingsBeginAnswer T.Turn ps self.old h taken
            → RingsBeginAnswer T.Turn ps self.new h (taken ++ result.items) }
        ensures written { (ps : List T.Plan) (h : List Event) (taken : List ℕ)
            → RingsHaveWritten T.Turn ps self.old h taken
            → RingsHaveWritten T.Turn ps self.new h (taken ++ result.items) }
        ensures spent { rings_spent T.Turn self.new ≡ rings_spent T.Turn self.old }
        ensures ended { rings_ended T.Turn self.new ≡ rings_ended T.Turn self.old }
        ensures count { rings_stage_count T.Turn self.new ≡ rings_stage_count T.Turn self.old }
        ensures room { self.new.room ≡ self.old.room }
    {
        let mut out = Vec::new(self.alloc);
        self.take_output_into(&mut out);
        out
    }

    /// Works off all that waits, on this thread and in steps: each stage takes what lies in the
    /// ring before it, and then what was unsent. What it writes in a step is worked off before its
    /// next one. Every ring is made anew. `Memory` comes also after more steps than a `u64` counts.
    pub fn settle(&mut self) -> Result<(), PipeFault>
        ensures works { OnOk result ((ps : List T.Plan) (h : List Event) (taken : List ℕ)
            → RingsStand T.Turn ps self.old h taken → WorksOff T.Turn ps self.new h taken) }
        ensures new { OnOk result (AreNew T.Turn self.new.seats.items) }
        ensures rings { OnOk result (HaveRings T.Turn self.new.seats.items) }
        ensures begins { OnErr result ((ps : List T.Plan) (h : List Event) (taken : List ℕ)
            → RingsStand T.Turn ps self.old h taken → RingsBeginAnswer T.Turn ps self.new h taken) }
        ensures written { OnErr result ((ps : List T.Plan) (h : List Event) (taken : List ℕ)
            → RingsStand T.Turn ps self.old h taken → RingsHaveWritten T.Turn ps self.new h taken) }
        ensures hand { OnErr result (rings_in_hand T.Turn self.new
            ≡ rings_in_hand T.Turn self.old) }
        ensures spent { (result ≡ Err PipeFault.Spent) ↔ IsTrue (rings_spent T.Turn self.old) }
        ensures unchanged { result ≡ Err PipeFault.Spent → self.new ≡ self.old }
        ensures spends { rings_spent T.Turn self.new ≡ is_err result }
        ensures ended { rings_ended T.Turn self.new ≡ rings_ended T.Turn self.old }
        ensures count { OnOk result (rings_stage_count T.Turn self.new
            ≡ rings_stage_count T.Turn self.old) }
        ensures room { self.new.room ≡ self.old.room }
    {
        if self.spent {
            return Err(PipeFault::Spent);
        }
        let seats = replace(&mut self.seats, Vec::new(self.alloc));
        match settle_all(self.alloc, self.room, seats, &mut self.output) {
            Ok(row) => {
                self.seats = row;
                Ok(())
            }
            Err(Memory) => {
                self.spent = true; // its stages are dropped
                Err(PipeFault::Memory)
            }
        }
    }
}
