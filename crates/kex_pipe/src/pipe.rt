// A pipeline of stages.

ghost use Rattle.std.specs.Prelude.{◌≡◌, ◌≢◌, ◌+◌, ◌<◌, ◌⊎◌, Bool, IsPermutation, OnErr, suc, ◌≤◌};
ghost use Rattle.std.specs.Prelude.{◌^◌, ◌↔◌, ◌++◌, ◌∷◌, [], List, ℕ, true, false, IsTrue, IfOk};
ghost use Rattle.std.specs.Prelude.{OnOk, is_err, None, All, map, length, vec_len};
ghost use Rattle.std.specs.List.{range_with_len};
ghost use Rattle.kex_model.specs.Answers.{Pipeline};
ghost use Rattle.kex_model.specs.Schedules.{Event, give, give_end, turn, Settled};

use crate::inbox::Inbox;
use crate::report::{Rejected, latest};
use crate::seat::Seat;
use crate::staged::Staged;
use crate::turn::Turn;
use crate::turning::{all_usable, carry_all, retire, take_turn};
use kex_code::memory::Memory;
use std::alloc::Global;
use std::mem::replace;
use thiserror::Error;

/// Why a call of a pipe did nothing, or not all.
#[derive(Clone, Copy, Debug, PartialEq, Eq, Drop, Error)]
pub enum PipeFault {
    #[error("out of memory")]
    Memory,
    /// A call before has answered `Memory`.
    #[error("the pipe is spent")]
    Spent,
}

impl From<Memory> for PipeFault {
    ghost use Rattle.std.specs.Prelude.{◌≡◌};
    ghost use Rattle.kex_pipe.specs.declared.pipe.PipeFault.TheVariants.{Memory};

    ghost from_gives = { λ _ r. r ≡ Memory };

    fn from(_: Memory) -> PipeFault {
        PipeFault::Memory
    }
}

/// Stages, each with an inbox before it. What the last one writes is the output.
///
/// What the contracts say of what it was given and has written is a schedule of its calls, which it
/// doesn't store. While a round is open the stages are out in their seats.
#[derive(Drop)]
pub struct Pipe<T: Turn> {
    alloc: Global,
    pub(crate) seats: Vec<Seat<T>>,
    output: Inbox,
    ended: bool,
    spent: bool,
    in_round: bool,
    ghost some: { in_round ≡ false → 0 < vec_len seats },
    ghost few: { vec_len seats < 2 ^ 32 },
    ghost all_usable: { spent ≡ false → All (λ s. IsTrue s.usable) seats.items },
}

impl<T: Turn + Drop> Pipe<T> {
    ghost use Rattle.kex_pipe.specs.Standing.{Stands, BeginsAnswer, HasWritten, in_hand, is_ended};
    ghost use Rattle.kex_pipe.specs.Standing.{is_spent, is_in_round, stage_count, Began, Own};
    ghost use Rattle.kex_pipe.specs.Rounds.{Each, Works, Worked, those, turn_of};
    ghost use Rattle.kex_pipe.specs.Settling.{SettledTo};
    ghost use Rattle.kex_pipe.specs.Reports.{report_as, LastStop};
    ghost use Rattle.kex_pipe.specs.Events.{bytes_given, end_given};

    /// At least one stage, none of which was fed before. `Memory` comes also for more stages than a
    /// `u32` counts.
    pub fn new(alloc: Global, stages: Vec<T>) -> Result<Pipe<T>, Memory>
        requires some { 0 < vec_len stages }
        requires unfed { All (λ s. T.stands s None) stages.items }
        ensures stands { IfOk result (λ pipe. Stands T.Turn (map T.plan stages.items) pipe [] []) }
        ensures count { IfOk result (λ pipe. stage_count T.Turn pipe ≡ vec_len stages) }
        ensures open { IfOk result (λ pipe. is_ended T.Turn pipe ≡ false) }
        ensures going { IfOk result (λ pipe. is_spent T.Turn pipe ≡ false) }
        ensures closed { IfOk result (λ pipe. is_in_round T.Turn pipe ≡ false) }
    {
        if stages.len() > u32::MAX as usize {
            return Err(Memory);
        }
        let mut seats = Vec::new(alloc);
        for stage in stages {
            seats.push(Seat {
                staged: Staged {
                    stage,
                    turned: false,
                },
                inbox: Inbox::new(alloc),
                outbox: Inbox::new(alloc),
                usable: true,
            })?;
        }
        Ok(Pipe {
            alloc,
            seats,
            output: Inbox::new(alloc),
            ended: false,
            spent: false,
            in_round: false,
        })
    }

    /// How many stages there are.
    pub fn count(&self) -> u32
        ensures { result ≡ stage_count T.Turn self.now }
    {
        self.seats.len() as u32
    }

    /// Whether the end was given.
    pub fn ended(&self) -> bool
        ensures { result ≡ is_ended T.Turn self.now }
    {
        self.ended
    }

    /// Whether a round is open.
    pub fn in_round(&self) -> bool
        ensures { result ≡ is_in_round T.Turn self.now }
    {
        self.in_round
    }

    /// Gives bytes to the first stage. After an error the output in hand is as it was, here and at
    /// every other call.
    pub fn give(&mut self, bytes: &[u8]) -> Result<(), PipeFault>
        requires unended { is_ended T.Turn self.old ≡ false }
        requires closed { is_in_round T.Turn self.old ≡ false }
        ensures stands { OnOk result ((ps : List T.Plan) (h : List Event) (taken : List ℕ)
            → Stands T.Turn ps self.old h taken
            → Stands T.Turn ps self.new (h ++ give bytes.now ∷ []) taken) }
        ensures memory { result ≡ Err PipeFault.Memory
            → (ps : List T.Plan) (h : List Event) (taken : List ℕ)
            → Stands T.Turn ps self.old h taken → BeginsAnswer T.Turn ps self.new h taken }
        ensures written { result ≡ Err PipeFault.Memory
            → (ps : List T.Plan) (h : List Event) (taken : List ℕ)
            → Stands T.Turn ps self.old h taken → HasWritten T.Turn ps self.new h taken }
        ensures hand { in_hand T.Turn self.new ≡ in_hand T.Turn self.old }
        ensures spent { (result ≡ Err PipeFault.Spent) ↔ IsTrue (is_spent T.Turn self.old) }
        ensures unchanged { result ≡ Err PipeFault.Spent → self.new ≡ self.old }
        ensures spends { is_spent T.Turn self.new ≡ is_err result }
        ensures ended { is_ended T.Turn self.new ≡ is_ended T.Turn self.old }
        ensures count { stage_count T.Turn self.new ≡ stage_count T.Turn self.old }
        ensures closed { is_in_round T.Turn self.new ≡ is_in_round T.Turn self.old }
    {
        if self.spent {
            return Err(PipeFault::Spent);
        }
        match self.seats[0].inbox.give(bytes) {
            Ok(()) => Ok(()),
            Err(Memory) => {
                self.spent = true;
                Err(PipeFault::Memory)
            }
        }
    }

    /// The input ends here.
    pub fn give_end(&mut self) -> Result<(), PipeFault>
        requires unended { is_ended T.Turn self.old ≡ false }
        requires closed { is_in_round T.Turn self.old ≡ false }
        ensures stands { OnOk result ((ps : List T.Plan) (h : List Event) (taken : List ℕ)
            → Stands T.Turn ps self.old h taken
            → Stands T.Turn ps self.new (h ++ give_end ∷ []) taken) }
        ensures memory { result ≢ Err PipeFault.Memory }
        ensures hand { in_hand T.Turn self.new ≡ in_hand T.Turn self.old }
        ensures spent { (result ≡ Err PipeFault.Spent) ↔ IsTrue (is_spent T.Turn self.old) }
        ensures unchanged { result ≡ Err PipeFault.Spent → self.new ≡ self.old }
        ensures spends { is_spent T.Turn self.new ≡ is_err result }
        ensures ended { OnOk result (IsTrue (is_ended T.Turn self.new)) }
        ensures count { stage_count T.Turn self.new ≡ stage_count T.Turn self.old }
        ensures closed { is_in_round T.Turn self.new ≡ is_in_round T.Turn self.old }
    {
        if self.spent {
            return Err(PipeFault::Spent);
        }
        self.seats[0].inbox.give_end();
        self.ended = true;
        Ok(())
    }

    /// Stage `i`, counted from 1, takes at most this many items of its inbox, the end being one,
    /// and writes into the next inbox. Its first turn, also of no items, writes what it says on
    /// nothing.
    pub fn turn(&mut self, i: u32, at_most: u64) -> Result<(), PipeFault>
        requires from_one { 1 ≤ i }
        requires to_last { i ≤ stage_count T.Turn self.old }
        requires closed { is_in_round T.Turn self.old ≡ false }
        ensures stands { OnOk result ((ps : List T.Plan) (h : List Event) (taken : List ℕ)
            → Stands T.Turn ps self.old h taken
            → Stands T.Turn ps self.new (h ++ turn i at_most ∷ []) taken) }
        ensures memory { result ≡ Err PipeFault.Memory
            → (ps : List T.Plan) (h : List Event) (taken : List ℕ)
            → Stands T.Turn ps self.old h taken → BeginsAnswer T.Turn ps self.new h taken }
        ensures written { result ≡ Err PipeFault.Memory
            → (ps : List T.Plan) (h : List Event) (taken : List ℕ)
            → Stands T.Turn ps self.old h taken → HasWritten T.Turn ps self.new h taken }
        ensures hand { OnErr result (in_hand T.Turn self.new ≡ in_hand T.Turn self.old) }
        ensures spent { (result ≡ Err PipeFault.Spent) ↔ IsTrue (is_spent T.Turn self.old) }
        ensures unchanged { result ≡ Err PipeFault.Spent → self.new ≡ self.old }
        ensures spends { is_spent T.Turn self.new ≡ is_err result }
        ensures ended { is_ended T.Turn self.new ≡ is_ended T.Turn self.old }
        ensures count { stage_count T.Turn self.new ≡ stage_count T.Turn self.old }
        ensures closed { is_in_round T.Turn self.new ≡ is_in_round T.Turn self.old }
    {
        if self.spent {
            return Err(PipeFault::Spent);
        }
        match take_turn(&mut self.seats, &mut self.output, i as usize - 1, at_most) {
            Ok(()) => Ok(()),
            Err(Memory) => {
                self.spent = true; // its stages may only be dropped
                Err(PipeFault::Memory)
            }
        }
    }

    /// Whether every stage had a turn and no inbox before a stage holds an item. Not so of a spent
    /// pipe, nor in a round.
    pub fn settled(&self) -> bool
        ensures settled { (ps : List T.Plan) (h : List Event) (taken : List ℕ)
            (s : Stands T.Turn ps self.now h taken)
            → (IsTrue result ↔ Settled T.gives s.came ps s.seats) }
        ensures spent { IsTrue (is_spent T.Turn self.now) → result ≡ false }
        ensures closed { IsTrue (is_in_round T.Turn self.now) → result ≡ false }
    {
        if self.spent || self.in_round {
            return false;
        }
        for seat in &self.seats {
            if !seat.staged.turned || !seat.inbox.is_empty() {
                return false;
            }
        }
        true
    }

    /// The stop of the last stage, in the order of the pipeline, that has stopped. Of a spent pipe
    /// it says nothing.
    pub fn report(&self) -> Option<Rejected>
        ensures last { (ps : List T.Plan) (h : List Event) (taken : List ℕ)
            (s : Stands T.Turn ps self.now h taken)
            → LastStop T.Turn 1 ps s.seats (report_as result) }
        ensures settled { (ps : List T.Plan) (h : List Event) (taken : List ℕ)
            (s : Stands T.Turn ps self.now h taken) → Settled T.gives s.came ps s.seats
            → Pipeline T.gives 1 ps (bytes_given h) (end_given h) (taken ++ in_hand T.Turn self.now)
            (report_as result) }
    {
        let mut report = None;
        for (i, seat) in self.seats.iter().enumerate() {
            report = latest(i as u32 + 1, seat.staged.stage.stop(), report);
        }
        report
    }

    /// How many bytes of output are in hand.
    pub fn output_length(&self) -> usize
        ensures { result ≡ length (in_hand T.Turn self.now) }
    {
        self.output.byte_count()
    }

    /// Takes the output that is in hand, in the place of what `out` held. The room of that is kept
    /// for the output to come.
    pub fn take_output_into(&mut self, out: &mut Vec<u8>)
        requires { is_in_round T.Turn self.old ≡ false }
        ensures all { out.new.items ≡ in_hand T.Turn self.old }
        ensures none_left { in_hand T.Turn self.new ≡ [] }
        ensures stands { (ps : List T.Plan) (h : List Event) (taken : List ℕ)
            → Stands T.Turn ps self.old h taken
            → Stands T.Turn ps self.new h (taken ++ out.new.items) }
        ensures begins { (ps : List T.Plan) (h : List Event) (taken : List ℕ)
            → BeginsAnswer T.Turn ps self.old h taken
            → BeginsAnswer T.Turn ps self.new h (taken ++ out.new.items) }
        ensures written { (ps : List T.Plan) (h : List Event) (taken : List ℕ)
            → HasWritten T.Turn ps self.old h taken
            → HasWritten T.Turn ps self.new h (taken ++ out.new.items) }
        ensures spent { is_spent T.Turn self.new ≡ is_spent T.Turn self.old }
        ensures ended { is_ended T.Turn self.new ≡ is_ended T.Turn self.old }
        ensures count { stage_count T.Turn self.new ≡ stage_count T.Turn self.old }
        ensures closed { is_in_round T.Turn self.new ≡ is_in_round T.Turn self.old }
    {
        self.output.take_bytes_into(out);
    }

    /// Takes the output that is in hand.
    pub fn take_output(&mut self) -> Vec<u8>
        requires { is_in_round T.Turn self.old ≡ false }
        ensures all { result.items ≡ in_hand T.Turn self.old }
        ensures none_left { in_hand T.Turn self.new ≡ [] }
        ensures stands { (ps : List T.Plan) (h : List Event) (taken : List ℕ)
            → Stands T.Turn ps self.old h taken
            → Stands T.Turn ps self.new h (taken ++ result.items) }
        ensures begins { (ps : List T.Plan) (h : List Event) (taken : List ℕ)
            → BeginsAnswer T.Turn ps self.old h taken
            → BeginsAnswer T.Turn ps self.new h (taken ++ result.items) }
        ensures written { (ps : List T.Plan) (h : List Event) (taken : List ℕ)
            → HasWritten T.Turn ps self.old h taken
            → HasWritten T.Turn ps self.new h (taken ++ result.items) }
        ensures spent { is_spent T.Turn self.new ≡ is_spent T.Turn self.old }
        ensures ended { is_ended T.Turn self.new ≡ is_ended T.Turn self.old }
        ensures count { stage_count T.Turn self.new ≡ stage_count T.Turn self.old }
        ensures closed { is_in_round T.Turn self.new ≡ is_in_round T.Turn self.old }
    {
        let mut out = Vec::new(self.alloc);
        self.take_output_into(&mut out);
        out
    }

    /// Opens a round, and hands the stages out. The seats of a spent pipe take nothing.
    pub fn begin_round(&mut self) -> Vec<Seat<T>>
        requires { is_in_round T.Turn self.old ≡ false }
        ensures opens { Began T.Turn self.old self.new }
        ensures own { Own T.Turn self.new result.items }
        ensures all { is_spent T.Turn self.old ≡ false → result.items ≡ self.old.seats.items }
        ensures usable { is_spent T.Turn self.old ≡ false
            → All (λ s. IsTrue s.usable) result.items }
        ensures idle { IsTrue (is_spent T.Turn self.old)
            → All (λ s. s.usable ≡ false) result.items }
        ensures count { vec_len result ≡ stage_count T.Turn self.old }
    {
        let mut seats = replace(&mut self.seats, Vec::new(self.alloc));
        self.in_round = true;
        if self.spent {
            retire(&mut seats);
        }
        seats
    }

    /// Takes the seats back, hands on what was written, and closes the round: each seat that has
    /// worked took the items that lay before it when the round began.
    pub fn end_round(&mut self, seats: Vec<Seat<T>>) -> Result<(), PipeFault>
        requires opened { IsTrue (is_in_round T.Turn self.old) }
        requires own { Own T.Turn self.old seats.items }
        ensures stands { OnOk result ((before : Pipe T T.Turn) (ps : List T.Plan) (h : List Event)
            (taken : List ℕ) (worked : List Bool) (order : List ℕ)
            → Began T.Turn before self.old → Stands T.Turn ps before h taken
            → Worked T.Turn worked before.seats.items seats.items
            → IsPermutation (those 0 worked) order
            → Stands T.Turn ps self.new
            (h ++ map (turn_of T.Turn before.seats.items) order) taken) }
        ensures settles { OnOk result ((before : Pipe T T.Turn) (ps : List T.Plan) (h : List Event)
            (taken : List ℕ) (order : List ℕ) (k : ℕ) (s : Stands T.Turn ps before h taken)
            → Began T.Turn before self.old → Each (Works T.Turn) before.seats.items seats.items
            → IsPermutation (range_with_len 0 (stage_count T.Turn before)) order
            → SettledTo T.gives k s.came ps s.seats
            → (now : Stands T.Turn ps self.new (h ++ map (turn_of T.Turn before.seats.items) order)
            taken) × SettledTo T.gives (suc k) now.came ps now.seats) }
        ensures begins { OnErr result ((before : Pipe T T.Turn) (ps : List T.Plan) (h : List Event)
            (taken : List ℕ)
            → Began T.Turn before self.old → Stands T.Turn ps before h taken
            → BeginsAnswer T.Turn ps self.new h taken) }
        ensures written { OnErr result ((before : Pipe T T.Turn) (ps : List T.Plan) (h : List Event)
            (taken : List ℕ)
            → Began T.Turn before self.old → Stands T.Turn ps before h taken
            → HasWritten T.Turn ps self.new h taken) }
        ensures hand { OnErr result (in_hand T.Turn self.new ≡ in_hand T.Turn self.old) }
        ensures spent { (result ≡ Err PipeFault.Spent)
            ↔ (IsTrue (is_spent T.Turn self.old) ⊎ (All (λ s. IsTrue s.usable) seats.items → ⊥)) }
        ensures spends { is_spent T.Turn self.new ≡ is_err result }
        ensures ended { is_ended T.Turn self.new ≡ is_ended T.Turn self.old }
        ensures count { stage_count T.Turn self.new ≡ vec_len seats }
        ensures closes { is_in_round T.Turn self.new ≡ false }
    {
        self.seats = seats;
        self.in_round = false;
        if self.spent || !all_usable(&self.seats) {
            self.spent = true;
            return Err(PipeFault::Spent);
        }
        match carry_all(&mut self.seats, &mut self.output) {
            Ok(()) => Ok(()),
            Err(Memory) => {
                self.spent = true;
                Err(PipeFault::Memory)
            }
        }
    }
}
