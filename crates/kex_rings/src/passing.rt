// Into a ring, and out of one.

ghost use Rattle.std.specs.Prelude.{◌≡◌, ◌<◌, ◌≤◌, ◌+◌, ◌++◌, IfOk, OnOk, length};
ghost use Rattle.std.specs.Prelude.{map, take, min};
ghost use Rattle.rtrb.specs.Ring.{known_items};
ghost use Rattle.kex_pipe.specs.Seats.{IsWhole};
ghost use Rattle.kex_pipe.specs.Waiting.{unread_bytes, waiting_items};
ghost use Rattle.kex_rings.specs.declared.passing.TheConstants.{RUN};
ghost use Rattle.kex_rings.specs.Items.{items_as, byte_of};
ghost use Rattle.kex_rings.specs.Passing.{Sends, Pulls, ComesOut};

use crate::item::Item;
use kex_code::memory::Memory;
use kex_pipe::inbox::Inbox;
use rtrb::{Consumer, Producer};

// How many items go into a ring or come out of it at once.
const RUN: usize = 64;

// Writes the first items that wait to the run, as many as it has room for, and tells how many.
fn offer(inbox: &Inbox, run: &mut [Item]) -> usize
    ensures within { result ≤ length run.old }
    ensures items { items_as (take result run.new)
        ≡ take (length run.old) (waiting_items inbox.now) }
{
    let room = run.len() as u64;
    let bytes = inbox.front(room);
    'bytes: for i in 0..bytes.len() {
        run[i] = Item::Byte(bytes[i]);
    }
    if inbox.reaches_end(room) {
        run[bytes.len()] = Item::End;
        return bytes.len() + 1;
    }
    bytes.len()
}

/// Sends what waits while the ring takes it.
pub(crate) fn send(unsent: &mut Inbox, ring: &mut Producer<Item>)
    ensures { Sends unsent.old unsent.new ring.old ring.new }
{
    let mut run = [Item::End; RUN];
    'runs: while !unsent.is_empty() {
        let offered = offer(unsent, &mut run);
        let (went, left) = ring.push_partial_slice(&run[..offered]);
        unsent.remove(went.len() as u64);
        if !left.is_empty() {
            return; // what the ring doesn't take stays
        }
    }
}

// Adds the bytes of the items.
fn give_bytes(inbox: &mut Inbox, items: &[Item]) -> Result<(), Memory>
    requires { length items.now ≤ RUN }
    ensures bytes { OnOk result (unread_bytes inbox.new
        ≡ unread_bytes inbox.old ++ map byte_of items.now) }
    ensures same_end { inbox.new.ended ≡ inbox.old.ended }
{
    let mut bytes = [0; RUN];
    'items: for i in 0..items.len() {
        bytes[i] = items[i].byte();
    }
    inbox.give(&bytes[..items.len()])
}

// Items come, where the end hasn't come.
fn put(inbox: &mut Inbox, items: &[Item]) -> Result<(), Memory>
    requires { length items.now ≤ RUN }
    ensures { OnOk result (IsWhole (waiting_items inbox.old ++ items_as items.now)
        → waiting_items inbox.new ≡ waiting_items inbox.old ++ items_as items.now) }
{
    let [front @ .., Item::End] = items else {
        return give_bytes(inbox, items);
    };
    give_bytes(inbox, front)?;
    inbox.give_end();
    Ok(())
}

// Takes at most a run of items out of the ring, within the room, and tells how many.
fn pull_run(ring: &mut Consumer<Item>, inbox: &mut Inbox, room: u64) -> Result<u64, Memory>
    ensures within { IfOk result (λ count. count ≤ min RUN room) }
    ensures comes { IfOk result (λ count. ComesOut inbox.old inbox.new ring.old ring.new count) }
    ensures most { IfOk result (λ count. count < min RUN room → length (known_items ring.new) ≡ 0) }
{
    let mut run = [Item::End; RUN];
    let most = room.min(RUN as u64) as usize;
    let count = ring.pop_partial_slice(&mut run[..most]);
    put(inbox, &run[..count])?;
    Ok(count as u64)
}

/// Takes at most `room` items out of the ring, and tells how many.
pub(crate) fn pull(ring: &mut Consumer<Item>, inbox: &mut Inbox, room: u64) -> Result<u64, Memory>
    ensures { IfOk result (λ count. Pulls room inbox.old inbox.new ring.old ring.new count) }
{
    let mut count = 0;
    'runs: while count < room {
        let came = pull_run(ring, inbox, room - count)?;
        if came == 0 {
            return Ok(count);
        }
        count += came;
    }
    Ok(count)
}

/// Takes all that is seen in the ring.
pub(crate) fn pull_all(ring: &mut Consumer<Item>, inbox: &mut Inbox) -> Result<(), Memory>
    ensures { OnOk result (IsWhole (waiting_items inbox.old ++ items_as (known_items ring.old))
        → waiting_items inbox.new ≡ waiting_items inbox.old ++ items_as (known_items ring.old)) }
{
    let all = ring.cached_slots() as u64;
    let mut count = 0;
    'runs: while count < all {
        count += pull_run(ring, inbox, all - count)?;
    }
    Ok(())
}
