// Seats that are joined by new rings.

ghost use Rattle.std.specs.Prelude.{◌≡◌, [], false, None, IfOk, IsSome, IsTrue};
ghost use Rattle.kex_pipe.specs.Rounds.{Each};
ghost use Rattle.kex_rings.specs.Ends.{AreBeside, sent_to, taken_from};
ghost use Rattle.kex_rings.specs.Lines.{Joined, AreNew, HaveRings};

use crate::item::Item;
use crate::ring_seat::RingSeat;
use kex_code::memory::Memory;
use kex_pipe::seat::Seat;
use kex_pipe::turn::Turn;
use rtrb::{Consumer, Producer, RingBuffer};
use std::alloc::Global;
use std::mem::replace;

// The ends of a new ring, where one is wanted.
fn new_ring(
    alloc: Global,
    room: u32,
    wanted: bool,
) -> Result<(Option<Producer<Item>>, Option<Consumer<Item>>), Memory>
    ensures beside { IfOk result (λ r. AreBeside room r.0 r.1) }
    ensures new { IfOk result (λ r. (sent_to r.0 ≡ []) × (taken_from r.1 ≡ [])) }
    ensures none { IfOk result (λ r. wanted ≡ false → r.0 ≡ None) }
    ensures some { IfOk result (λ r. IsTrue wanted → IsSome r.0) }
{
    if !wanted {
        return Ok((None, None));
    }
    let (to, from) = RingBuffer::new(alloc, room as usize)?;
    Ok((Some(to), Some(from)))
}

/// Each seat with a new ring to the one after it.
pub(crate) fn join_all<T: Turn + Drop>(
    alloc: Global,
    room: u32,
    seats: Vec<Seat<T>>,
) -> Result<Vec<RingSeat<T>>, Memory>
    ensures joined { IfOk result (λ row. Joined T.Turn (AreBeside room) None row.items) }
    ensures same { IfOk result (λ row. Each (λ s r. r.seat ≡ s) seats.items row.items) }
    ensures new { IfOk result (λ row. AreNew T.Turn row.items) }
    ensures rings { IfOk result (λ row. HaveRings T.Turn row.items) }
{
    let mut left = seats.len();
    let mut row = Vec::new(alloc);
    let mut from = None;
    for seat in seats {
        left -= 1;
        let (to, next) = new_ring(alloc, room, left > 0)?;
        row.push(RingSeat {
            seat,
            from: replace(&mut from, next),
            to,
            took: 0,
        })?;
    }
    Ok(row)
}
