// Leaps along which the table holds text back, from a row on.

ghost use Rattle.std.specs.Prelude.{◌≡◌, ◌≤◌, IfOk, OnOk, IsTrue, length, take};
ghost use Rattle.kex_action.specs.Sheets.{IsSheet, IsAsLong};
ghost use Rattle.kex_moves.specs.declared.along.TheConstants.{ROOM};
ghost use Rattle.kex_moves.specs.declared.edges.Pair.{Pair};
ghost use Rattle.kex_moves.specs.Known.{IsPairRow, IsKnown};
ghost use Rattle.kex_moves.specs.Along.{ReachedOn};

use crate::along::{Logbook, RowStride};
use kex_action::actor::Actor;
use kex_code::memory::Memory;

/// How many bytes of a piece are looked at for a leap, where nothing is known of them.
pub const LONGEST: usize = 65_536;

// The part of a piece in which a leap has to end.
fn front_of(piece: &[u8], reach: usize) -> &[u8]
    ensures front { result.now ≡ take reach piece.now }
    ensures few { length result.now ≤ reach }
{
    if piece.len() > reach {
        &piece[..reach]
    } else {
        piece
    }
}

/// Goes along a leap of a piece from a row, if it can be gone along and ends in the piece.
pub fn leap_at(
    book: &mut Logbook,
    row: usize,
    actor: &mut Actor,
    piece: &[u8],
    out: &mut Vec<u8>,
) -> Result<RowStride, Memory>
    requires usable { IsTrue actor.old.usable }
    requires machine { actor.old.machine ≡ book.old.leaps.machine }
    requires known { IsKnown book.old.leaps.table book.old.leaps.machine book.old.edges }
    requires row { (p : Pair) × IsPairRow book.old.edges row p }
    requires sheet { IsSheet book.old.sheet }
    requires room { length book.old.sheet.bytes.items ≡ ROOM }
    ensures known { IfOk result (λ s.
        IsKnown book.old.leaps.table book.old.leaps.machine book.new.edges) }
    ensures within { IfOk result (λ s. s.count ≤ length piece.now) }
    ensures reached { IfOk result (λ s. ReachedOn book.old.leaps.table book.old.edges
        book.new.edges actor.old actor.new book.old.sheet book.new.sheet row s.row
        (take s.count piece.now) out.old.items out.new.items) }
    ensures sheet { OnOk result (IsSheet book.new.sheet × IsAsLong book.old.sheet book.new.sheet) }
    ensures same { book.new.leaps.table ≡ book.old.leaps.table }
    ensures rows { book.new.leaps.machine ≡ book.old.leaps.machine }
    ensures machine { actor.new.machine ≡ actor.old.machine }
    ensures usable { OnOk result (IsTrue actor.new.usable) }
{
    let none = RowStride {
        count: 0,
        row,
        stops: true,
    };
    let front = front_of(piece, book.reach);
    let pair = book.edges.pair_at(row);
    let Some(leap) = book.leaps.scan(pair.state, pair.node, front)? else {
        return Ok(none);
    };
    let Some(next) = book.edges.row_of(leap.state, leap.node)? else {
        return Ok(none);
    };
    book.leaps
        .perform(leap.node, front, actor, &mut book.sheet, out)?;
    Ok(RowStride {
        count: leap.count,
        row: next,
        stops: false,
    })
}
