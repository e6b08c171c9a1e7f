// A stage between two rings.

ghost use Rattle.std.specs.Prelude.{◌≡◌, ◌≤◌, ◌+◌, ◌<◌, ◌*◌, ◌^◌, ◌↔◌, [], true, IsTrue};
ghost use Rattle.std.specs.Prelude.{IfOk, OnOk};

use crate::item::Item;
use crate::passing::{pull, send};
use kex_code::memory::Memory;
use kex_pipe::seat::Seat;
use kex_pipe::turn::Turn;
use rtrb::{Consumer, Producer};

/// A stage, the end of the ring before it that gives, and the end of the ring after it that takes.
/// What the ring after it didn't take lies in the outbox. The first stage takes from its inbox, and
/// what the last one writes stays in its outbox.
#[derive(Drop)]
pub struct RingSeat<T: Turn> {
    pub(crate) seat: Seat<T>,
    pub(crate) from: Option<Consumer<Item>>,
    pub(crate) to: Option<Producer<Item>>,
    /// How many items it took in the last round.
    pub(crate) took: u64,
}

impl<T: Turn> RingSeat<T> {
    ghost use Rattle.kex_rings.specs.Ends.{seen_in};
    ghost use Rattle.kex_rings.specs.Looking.{Looks, SendsOn, FindsIn, TakesIn, IsIdle};
    ghost use Rattle.kex_rings.specs.Looking.{unsent_items};

    // Sends what is unsent, as far as the ring takes it, and tells whether that was all.
    fn send_on(&mut self) -> bool
        ensures usable { self.new.seat.usable ≡ self.old.seat.usable }
        ensures sends { SendsOn T.Turn self.old self.new }
        ensures all { IsTrue result ↔ (unsent_items T.Turn self.new ≡ []) }
    {
        let Some(ring) = &mut self.to else {
            return true;
        };
        send(&mut self.seat.outbox, ring);
        self.seat.outbox.is_empty()
    }

    // What comes out of the ring goes into the inbox. Tells how much is to be taken, within the
    // room.
    fn find(&mut self, room: u64) -> Result<u64, Memory>
        ensures usable { self.new.seat.usable ≡ self.old.seat.usable }
        ensures within { IfOk result (λ count. count ≤ room) }
        ensures finds { IfOk result (λ count. FindsIn T.Turn room self.old self.new count) }
    {
        let Some(ring) = &mut self.from else {
            return Ok(self.seat.inbox.count().min(room));
        };
        pull(ring, &mut self.seat.inbox, room)
    }

    // Takes what it finds, within the room, and feeds it to the stage.
    fn take_in(&mut self, room: u64) -> Result<u64, Memory>
        requires { IsTrue self.old.seat.usable }
        ensures usable { OnOk result (IsTrue self.new.seat.usable) }
        ensures within { IfOk result (λ count. count ≤ room) }
        ensures takes { IfOk result (λ count. TakesIn T.Turn room self.old self.new count) }
    {
        let count = self.find(room)?;
        self.seat.take(count)?;
        Ok(count)
    }

    /// Sends what is unsent, as far as the ring takes it; if all was sent takes what it finds,
    /// within the room.
    fn look(&mut self, room: u64) -> Result<u64, Memory>
        requires { IsTrue self.old.seat.usable }
        ensures usable { OnOk result (IsTrue self.new.seat.usable) }
        ensures within { IfOk result (λ count. count ≤ room) }
        ensures looks { IfOk result (λ count. Looks T.Turn room self.old self.new count) }
    {
        if !self.send_on() {
            return Ok(0);
        }
        self.take_in(room)
    }

    // Whether it sees nothing in the ring before it.
    fn sees_none(&self) -> bool
        ensures { IsTrue result ↔ (seen_in self.now.from ≡ []) }
    {
        match &self.from {
            None => true,
            Some(ring) => ring.cached_slots() == 0,
        }
    }

    /// Whether it had a turn, and nothing lies before it or is unsent.
    pub(crate) fn is_idle(&self) -> bool
        ensures { IsTrue result ↔ IsIdle T.Turn self.now }
    {
        self.seat.staged.turned
            && self.seat.inbox.is_empty()
            && self.sees_none()
            && self.seat.outbox.is_empty()
    }

    /// Makes `looks` looks, and tells how many items the stage took in them.
    pub(crate) fn work(&mut self, looks: u32, room: u64) -> Result<u64, Memory>
        requires usable { IsTrue self.old.seat.usable }
        requires some { 0 < looks }
        requires small { looks * room < 2 ^ 64 }
        ensures usable { OnOk result (IsTrue self.new.seat.usable) }
        ensures looks { IfOk result (λ count. Looks T.Turn room self.old self.new count) }
    {
        let mut count = self.look(room)?;
        'more: for _look in 1..looks {
            count += self.look(room)?;
        }
        Ok(count)
    }
}
