// A pipe whose stages hand out their desks.

ghost use Rattle.std.specs.Prelude.{◌≡◌, ◌<◌, ◌≤◌, ◌-◌, List, ℕ, IsTrue, All};
ghost use Rattle.std.specs.Prelude.{false, length, vec_len, slice_index_or};
ghost use Rattle.kex_model.specs.Schedules.{Event, Progress, StreamItem};
ghost use Rattle.kex_pipe.specs.Standing.{Line, Stands, in_hand, is_ended, is_spent, is_in_round};
ghost use Rattle.kex_pipe.specs.Standing.{stage_count};
ghost use Rattle.kex_pipe.specs.Parting.{AreDesksOf, SeatStays};
ghost use Rattle.kex_pipe.specs.Rounds.{waits_at};
ghost use Rattle.kex_pipe.specs.Waiting.{unread_bytes};

use crate::inbox::Inbox;
use crate::parted::{PartDesk, Parted};
use crate::pipe::Pipe;
use crate::seat::Seat;
use crate::turn::Turn;

// The stage of a seat hands out its desks.
fn hand_out_of<D: PartDesk, T: Parted<D>>(seat: &mut Seat<T>) -> Vec<D>
    ensures stays { SeatStays T.Turn seat.old seat.new }
    ensures own { All (λ d. T.owns seat.new.staged.stage d) result.items }
    ensures few { vec_len result ≤ 64 }
{
    seat.staged.stage.hand_out()
}

// The stage of a seat takes its desks back.
fn take_back_to<D: PartDesk, T: Parted<D>>(seat: &mut Seat<T>, desks: Vec<D>)
    requires own { All (λ d. T.owns seat.old.staged.stage d) desks.items }
    requires few { vec_len desks ≤ 64 }
    ensures stays { SeatStays T.Turn seat.old seat.new }
{
    seat.staged.stage.take_back(desks);
}

// The stage with this number, counted from 0, hands out its desks.
fn hand_out_at<D: PartDesk, T: Parted<D>>(seats: &mut [Seat<T>], i: usize) -> Vec<D>
    requires seat { i < length seats.old }
    ensures usable { All (λ s. IsTrue s.usable) seats.old → All (λ s. IsTrue s.usable) seats.new }
    ensures count { length seats.new ≡ length seats.old }
    ensures line { (ps : List T.Plan) (xs : List Progress) (came : List StreamItem) (b : Inbox)
        (taken : List ℕ) → Line T.Turn came ps seats.old xs b taken
        → Line T.Turn came ps seats.new xs b taken }
    ensures own { (s : Seat T T.Turn)
        → All (λ d. T.owns (slice_index_or seats.new i s).staged.stage d) result.items }
    ensures few { vec_len result ≤ 64 }
{
    hand_out_of(&mut seats[i])
}

// The stage with this number, counted from 0, takes its desks back.
fn take_back_at<D: PartDesk, T: Parted<D>>(seats: &mut [Seat<T>], i: usize, desks: Vec<D>)
    requires seat { i < length seats.old }
    requires own { (s : Seat T T.Turn)
        → All (λ d. T.owns (slice_index_or seats.old i s).staged.stage d) desks.items }
    requires few { vec_len desks ≤ 64 }
    ensures usable { All (λ s. IsTrue s.usable) seats.old → All (λ s. IsTrue s.usable) seats.new }
    ensures count { length seats.new ≡ length seats.old }
    ensures line { (ps : List T.Plan) (xs : List Progress) (came : List StreamItem) (b : Inbox)
        (taken : List ℕ) → Line T.Turn came ps seats.old xs b taken
        → Line T.Turn came ps seats.new xs b taken }
{
    take_back_to(&mut seats[i], desks);
}

impl<T: Turn + Drop> Pipe<T> {
    /// How many items wait before stage `i`, counted from 1.
    pub fn count_waiting(&self, i: u32) -> u64
        requires from_one { 1 ≤ i }
        requires to_last { i ≤ stage_count T.Turn self.now }
        ensures { result ≡ waits_at T.Turn self.now.seats.items (i - 1) }
    {
        self.seats[i as usize - 1].inbox.count()
    }

    /// The bytes that wait before stage `i`, counted from 1.
    pub fn waiting(&self, i: u32) -> &[u8]
        requires from_one { 1 ≤ i }
        requires to_last { i ≤ stage_count T.Turn self.now }
        ensures { (s : Seat T T.Turn)
            → result.now ≡ unread_bytes (slice_index_or self.now.seats.items (i - 1) s).inbox }
    {
        self.seats[i as usize - 1].inbox.bytes()
    }
}

/// Stage `i`, counted from 1, hands out its desks.
pub fn hand_out<D: PartDesk, T: Parted<D>>(pipe: &mut Pipe<T>, i: u32) -> Vec<D>
    requires from_one { 1 ≤ i }
    requires to_last { i ≤ stage_count T.Turn pipe.old }
    requires closed { is_in_round T.Turn pipe.old ≡ false }
    ensures stands { (ps : List T.Plan) (h : List Event) (taken : List ℕ)
        → Stands T.Turn ps pipe.old h taken → Stands T.Turn ps pipe.new h taken }
    ensures own { AreDesksOf T.Turn T.owns i pipe.new result.items }
    ensures few { vec_len result ≤ 64 }
    ensures hand { in_hand T.Turn pipe.new ≡ in_hand T.Turn pipe.old }
    ensures spent { is_spent T.Turn pipe.new ≡ is_spent T.Turn pipe.old }
    ensures ended { is_ended T.Turn pipe.new ≡ is_ended T.Turn pipe.old }
    ensures count { stage_count T.Turn pipe.new ≡ stage_count T.Turn pipe.old }
    ensures closed { is_in_round T.Turn pipe.new ≡ is_in_round T.Turn pipe.old }
{
    hand_out_at(&mut pipe.seats, i as usize - 1)
}

/// Stage `i`, counted from 1, takes its desks back.
pub fn take_back<D: PartDesk, T: Parted<D>>(pipe: &mut Pipe<T>, i: u32, desks: Vec<D>)
    requires from_one { 1 ≤ i }
    requires to_last { i ≤ stage_count T.Turn pipe.old }
    requires closed { is_in_round T.Turn pipe.old ≡ false }
    requires own { AreDesksOf T.Turn T.owns i pipe.old desks.items }
    requires few { vec_len desks ≤ 64 }
    ensures stands { (ps : List T.Plan) (h : List Event) (taken : List ℕ)
        → Stands T.Turn ps pipe.old h taken → Stands T.Turn ps pipe.new h taken }
    ensures hand { in_hand T.Turn pipe.new ≡ in_hand T.Turn pipe.old }
    ensures spent { is_spent T.Turn pipe.new ≡ is_spent T.Turn pipe.old }
    ensures ended { is_ended T.Turn pipe.new ≡ is_ended T.Turn pipe.old }
    ensures count { stage_count T.Turn pipe.new ≡ stage_count T.Turn pipe.old }
    ensures closed { is_in_round T.Turn pipe.new ≡ is_in_round T.Turn pipe.old }
{
    take_back_at(&mut pipe.seats, i as usize - 1, desks);
}
