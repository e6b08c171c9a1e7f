// The hot loop over pieces: from row to row by the numbers of their words, with all that changes in
// locals.

ghost use Rattle.std.specs.Prelude.{◌≡◌, ◌≢◌, ℕ, ◌+◌, ◌*◌, ◌-◌, ◌≤◌, List, IfSome, length, take};
ghost use Rattle.std.specs.Prelude.{drop, slice_get};
ghost use Rattle.kex_moves.specs.declared.edge.Edge.{Edge};
ghost use Rattle.kex_moves.specs.Edges.{HasRoom};
ghost use Rattle.kex_moves.specs.Runs.{HasRoomBelow};
ghost use Rattle.kex_moves.specs.Trails.{EdgesLeadBelow, IsWrittenEdge, IsTrail, IsTrailOver};

use crate::edge::Edge;
use crate::put::put;
use crate::run::{SheetPoint, SheetStart};
use kex_script::piece::ByteWord;

// Writes an edge that leads back to its own row again for each piece with the word of the one
// before, up to another word: the edge is the same, so nothing is looked up. Tells how many pieces.
#[inline(always)]
fn stay(
    e: Edge,
    text: &[u8],
    before: ByteWord,
    pieces: &[ByteWord],
    buffer: &mut [u8],
    used: usize,
) -> usize
    requires edge { HasRoom (length text.now) e }
    requires room { used + 17 * length pieces.now + 17 ≤ length buffer.old }
    ensures count { result ≤ length pieces.now }
    ensures room { used + result * e.adds + 17 * (length pieces.now - result) + 17
        ≤ length buffer.old }
    ensures len { length buffer.new ≡ length buffer.old }
    ensures trail { (edges : List Edge) (width : ℕ) → IsWrittenEdge edges width e.next before e
        → IsTrail edges text.now width (take result pieces.now)
        (record { row = e.next; writes = take used buffer.old })
        (record { row = e.next; writes = take (used + result * e.adds) buffer.new }) }
    ensures other { IfSome (slice_get pieces.now result) (λ p. p.word ≢ before.word) }
{
    let mut count = 0;
    let mut used = used;
    while count < pieces.len() {
        let next = pieces[count];
        if next.word != before.word {
            break;
        }
        put(buffer, used, next.byte, text, e);
        used += e.adds as usize;
        count += 1;
    }
    count
}

/// Goes along edges while they are written. A row has as many edges as its width.
/// Not inlined: within a long caller what the loop reads for each piece would be kept in memory.
#[inline(never)]
pub fn follow(
    edges: &[Edge],
    width: usize,
    text: &[u8],
    pieces: &[ByteWord],
    buffer: &mut [u8],
    from: SheetStart,
) -> SheetPoint
    requires next { EdgesLeadBelow width edges.now }
    requires text { HasRoomBelow (length text.now) edges.now }
    requires row { from.row + width ≤ length edges.now }
    requires room { from.used + 17 * length pieces.now + 17 ≤ length buffer.old }
    ensures at { result.at ≤ length pieces.now }
    ensures used { result.used ≤ length buffer.new }
    ensures trail { IsTrail edges.now text.now width (take result.at pieces.now)
        (record { row = from.row; writes = take from.used buffer.old })
        (record { row = result.row; writes = take result.used buffer.new }) }
    ensures stops { IsTrailOver edges.now width result.row (drop result.at pieces.now) }
{
    let mut at = 0;
    let mut row = from.row;
    let mut used = from.used;
    while at < pieces.len() {
        let piece = pieces[at];
        if piece.word as usize >= width {
            break;
        }
        let e = edges[row + piece.word as usize];
        if !e.kind.is_written() {
            break;
        }
        put(buffer, used, piece.byte, text, e);
        used += e.adds as usize;
        at += 1;
        if e.next == row {
            let count = stay(e, text, piece, &pieces[at..], buffer, used);
            at += count;
            used += count * e.adds as usize;
        } else {
            row = e.next;
        }
    }
    SheetPoint { at, row, used }
}
