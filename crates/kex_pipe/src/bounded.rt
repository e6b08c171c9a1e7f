// A worker within a limit, as a stage.

ghost use Rattle.std.specs.Prelude.{◌≡◌, ◌≤◌, ◌||◌, not, true, false, IfOk, OnOk, IsTrue, Option};
ghost use Rattle.std.specs.Prelude.{All, None, length, min, take, vec_len};
ghost use Rattle.kex_pipe.specs.Histories.{StageFed};
ghost use Rattle.kex_pipe.specs.Bounds.{StandsAs, end_stop, fate_of, stop_after};

use crate::parted::{PartDesk, Parted, PartedWorker};
use crate::turn::{Fate, Stop, Turn, Why};
use crate::worker::{BeginsAnew, Worker};
use kex_code::memory::Memory;
use std::alloc::Global;

/// A worker that takes at most `limit` bytes, as a stage: it stops where the worker does, or at the
/// end where that finds no parse, or past the limit. What comes after a stop is dropped.
#[derive(Drop)]
pub struct Bounded<W: Worker> {
    worker: W,
    limit: u64,
    count: u64,
    stop: Option<Stop>,
    over: bool,
    usable: bool,
    ghost within: { count ≤ limit },
    ghost counted: { W.counted worker ≤ count },
    ghost wanted: { usable ≡ false → IsTrue W.may_want },
    ghost ready: { usable ≡ true → stop ≡ None → over ≡ false → IsTrue (W.is_ready worker) },
}

impl<W: Worker> Bounded<W> {
    /// A stage that has read nothing, and takes at most `max_input` bytes.
    pub fn new(alloc: Global, basis: W::Basis, max_input: u64) -> Result<Bounded<W>, Memory>
        ensures plan { IfOk result (λ s. ⟦<Bounded<W> as Turn>⟧.plan s
            ≡ record { machine = W.machine_in basis; limit = max_input }) }
        ensures stands { IfOk result (λ s. ⟦<Bounded<W> as Turn>⟧.stands s None) }
        ensures usable { IfOk result (λ s. IsTrue (⟦<Bounded<W> as Turn>⟧.is_usable s)) }
    {
        let worker = W::start(alloc, basis)?;
        Ok(Bounded {
            worker,
            limit: max_input,
            count: 0,
            stop: None,
            over: false,
            usable: true,
        })
    }
}

impl<W: BeginsAnew> Bounded<W> {
    /// Is as a new stage of the same worker and limit: it has read nothing.
    ///
    /// After `Memory` the stage may only be dropped.
    pub fn begin_anew(&mut self) -> Result<(), Memory>
        ensures plan { ⟦<Bounded<W> as Turn>⟧.plan self.new
            ≡ ⟦<Bounded<W> as Turn>⟧.plan self.old }
        ensures stands { OnOk result (⟦<Bounded<W> as Turn>⟧.stands self.new None) }
        ensures usable { OnOk result (IsTrue (⟦<Bounded<W> as Turn>⟧.is_usable self.new)) }
    {
        self.usable = false;
        self.worker.begin_anew()?;
        self.count = 0;
        self.stop = None;
        self.over = false;
        self.usable = true;
        Ok(())
    }
}

impl<W: Worker> Turn for Bounded<W> {
    ghost use Rattle.kex_pipe.specs.Working.{BoundedPlan};

    ghost Plan = { BoundedPlan W.Machine };

    ghost plan = { λ s. record { machine = W.machine s.worker; limit = s.limit } };

    ghost gives = { λ p w e a. W.gives p.machine p.limit w e a };

    ghost stands = { λ s h. StandsAs (λ w e a. W.gives (W.machine s.worker) s.limit w e a)
        (λ w text. W.follows s.worker w text × (s.count ≡ length w)) s.stop s.over h
        × IsTrue (not W.may_want || s.usable) };

    ghost is_usable = { λ s. not W.may_want || s.usable };

    ghost stands_usable = { λ s h x. x.1 };

    ghost one = { λ p w e a b h k. (W.answers p.machine).one p.limit w e a b h k };

    ghost grows = { λ p w v e a b h k. (W.answers p.machine).grows p.limit w v e a b h k };

    ghost stays = { λ p w v e a b h k some.
        (W.answers p.machine).stays p.limit w v e a b h k some };

    ghost ends = { λ p w e a h. (W.answers p.machine).ends p.limit w e a h };

    fn usable(&self) -> bool {
        self.usable
    }

    fn feed(&mut self, piece: &[u8], out: &mut Vec<u8>) -> Result<Fate, Memory> {
        if self.over {
            return Ok(fate_of(self.stop));
        }
        if let Some(_) = self.stop {
            return Ok(Fate::Stopped);
        }
        self.usable = false;
        let front = front_of(piece, self.limit - self.count);
        self.count += front.len() as u64;
        let at = self.worker.go_on(front, out)?;
        self.stop = stop_after(at, self.count, front.len() < piece.len());
        self.usable = true;
        Ok(fate_of(self.stop))
    }

    fn end(&mut self, out: &mut Vec<u8>) -> Result<Fate, Memory> {
        if self.over {
            return Ok(fate_of(self.stop));
        }
        self.over = true;
        if let Some(_) = self.stop {
            return Ok(Fate::Stopped);
        }
        self.usable = false;
        let parsed = self.worker.finish(out)?;
        self.stop = end_stop(parsed, self.count);
        self.usable = true;
        Ok(fate_of(self.stop))
    }

    fn stop(&self) -> Option<Stop> {
        self.stop
    }
}

impl<W: Worker> Bounded<W> {
    /// The worker.
    pub fn worker(&self) -> &W
        ensures { result.now ≡ self.now.worker }
    {
        &self.worker
    }
}

impl<D: PartDesk, W: PartedWorker<D>> Parted<D> for Bounded<W> {
    ghost owns = { λ s d. W.owns s.worker d };

    fn hand_out(&mut self) -> Vec<D> {
        self.worker.hand_out()
    }

    fn take_back(&mut self, desks: Vec<D>)
        requires own { All (λ d. W.owns self.old.worker d) desks.items }
        requires few { vec_len desks ≤ 64 }
        ensures plan { ⟦<Bounded<W> as Turn>⟧.plan self.new
            ≡ ⟦<Bounded<W> as Turn>⟧.plan self.old }
        ensures usable { ⟦<Bounded<W> as Turn>⟧.is_usable self.new
            ≡ ⟦<Bounded<W> as Turn>⟧.is_usable self.old }
        ensures stands { (h : Option StageFed) → ⟦<Bounded<W> as Turn>⟧.stands self.old h
            → ⟦<Bounded<W> as Turn>⟧.stands self.new h }
    {
        self.worker.take_back(desks);
    }

    ghost stays_own = { λ s a b e h. W.stays_own s.worker a b e h };
}

// The front of a piece that there is room for.
fn front_of(piece: &[u8], room: u64) -> &[u8]
    ensures { result.now ≡ take (min room (length piece.now)) piece.now }
{
    if room < piece.len() as u64 {
        &piece[..room as usize]
    } else {
        piece
    }
}

// A stop says that the stage has stopped.
fn fate_of(stop: Option<Stop>) -> Fate
    ensures { result ≡ fate_of stop }
{
    match stop {
        None => Fate::On,
        Some(_) => Fate::Stopped,
    }
}

// Where a stage stops after `count` bytes: at one that was refused, or where a piece goes past the
// limit.
fn stop_after(at: Option<u64>, count: u64, past: bool) -> Option<Stop>
    ensures { result ≡ stop_after at count past }
{
    match at {
        Some(at) => Some(Stop { at, why: Why::Byte }),
        None if past => Some(Stop {
            at: count,
            why: Why::Limit,
        }),
        None => None,
    }
}

// Where a stage stops at the end of its input.
fn end_stop(parsed: bool, count: u64) -> Option<Stop>
    ensures { result ≡ end_stop parsed count }
{
    if parsed {
        None
    } else {
        Some(Stop {
            at: count,
            why: Why::End,
        })
    }
}
