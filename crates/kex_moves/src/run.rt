// The hot loop: functions over slices and numbers by value, so that all that changes is in locals.

ghost use Rattle.std.specs.Prelude.{◌≡◌, ℕ, ◌+◌, ◌*◌, ◌-◌, ◌<◌, ◌≤◌, ◌++◌, List, All, IfSome};
ghost use Rattle.std.specs.Prelude.{IsNone, length, take, drop};
ghost use Rattle.kex_moves.specs.declared.edge.EdgeKind.{EdgeKind};
ghost use Rattle.kex_moves.specs.Runs.{HasEdgeRow, LeadsBack, HasKind, AreEdgesWithin, StopsAt};
ghost use Rattle.kex_moves.specs.Runs.{run_from, CopiesAlong};

use crate::edge::Edge;
use crate::put::put;

/// How far a run has come: in the piece, in the rows, and in the buffer.
#[derive(Clone, Copy)]
pub struct SheetPoint {
    pub at: usize,
    pub row: usize,
    pub used: usize,
}

/// Where a run begins: at a row, after what is used of a buffer.
#[derive(Clone, Copy)]
pub struct SheetStart {
    pub row: usize,
    pub used: usize,
}

/// How many bytes of a run are copied at once. For that many it is asked once if they are there.
const EIGHT: usize = 8;

/// How many bytes or pieces were taken, and the row to which they lead.
#[derive(Clone, Copy)]
pub struct RowPoint {
    pub count: usize,
    pub row: usize,
}

// Copies eight bytes of a piece from `at` on over those of a buffer from `to` on. Of what is copied
// as many bytes count as the caller says.
#[inline(always)]
fn copy_eight(piece: &[u8], to: &mut [u8], at: usize)
    requires from { at + 8 ≤ length piece.now }
    requires to { at + 8 ≤ length to.old }
    ensures copied { (n : ℕ) → n ≤ 8
        → take (at + n) to.new ≡ take at to.old ++ take n (drop at piece.now) }
    ensures len { length to.new ≡ length to.old }
{
    // By a copy between, so that nothing asks whether the two overlap.
    let mut copy = [0; EIGHT];
    copy.copy_from_slice(&piece[at..at + EIGHT]);
    to[at..at + EIGHT].copy_from_slice(&copy);
}

// How many of the eight bytes from `at` on are written alone along the edges from a row on, and
// where they lead. The loop has a fixed end, so that it is unrolled. While the row stays nothing
// waits for the edge that was read.
#[inline(always)]
fn copied_of_eight(
    classes: &[u8; 256],
    edges: &[Edge],
    piece: &[u8],
    at: usize,
    from: usize,
) -> RowPoint
    requires rows { (text : List ℕ) × AreEdgesWithin
        (record { classes = classes.now; edges = edges.now; text = text }) }
    requires row { HasEdgeRow classes.now edges.now from }
    requires back { LeadsBack classes.now edges.now from }
    requires eight { at + 8 ≤ length piece.now }
    ensures within { result.count ≤ 8 }
    ensures row { HasEdgeRow classes.now edges.now result.row }
    ensures back { LeadsBack classes.now edges.now result.row }
    ensures ran { (text : List ℕ)
        → AreEdgesWithin (record { classes = classes.now; edges = edges.now; text = text })
        → CopiesAlong (record { classes = classes.now; edges = edges.now; text = text }) piece.now
        from at result.row result.count }
{
    let mut row = from;
    let mut count = 0;
    while count < EIGHT {
        let byte = piece[at + count];
        let e = &edges[row + classes[byte as usize] as usize];
        if !e.kind.is_keep() {
            if !e.alone {
                break;
            }
            row = e.next;
        }
        count += 1;
    }
    RowPoint { count, row }
}

// Copies bytes as long as each is written alone. The first one is, and leads to the row `next`.
// Tells how many, and where they lead. It may stop before that, where fewer than eight are left.
#[inline(always)]
fn copy_alone(
    classes: &[u8; 256],
    edges: &[Edge],
    piece: &[u8],
    to: &mut [u8],
    next: usize,
) -> RowPoint
    requires rows { (text : List ℕ) × AreEdgesWithin
        (record { classes = classes.now; edges = edges.now; text = text }) }
    requires row { HasEdgeRow classes.now edges.now next }
    requires back { LeadsBack classes.now edges.now next }
    requires some { 0 < length piece.now }
    requires room { length piece.now ≤ length to.old }
    ensures some { 0 < result.count }
    ensures within { result.count ≤ length piece.now }
    ensures row { HasEdgeRow classes.now edges.now result.row }
    ensures back { LeadsBack classes.now edges.now result.row }
    ensures copied { take result.count to.new ≡ take result.count piece.now }
    ensures ran { (text : List ℕ)
        → AreEdgesWithin (record { classes = classes.now; edges = edges.now; text = text })
        → CopiesAlong (record { classes = classes.now; edges = edges.now; text = text }) piece.now
        next 1 result.row (result.count - 1) }
{
    to[0] = piece[0];
    let mut row = next;
    let mut count = 1;
    while count + EIGHT <= piece.len() {
        copy_eight(piece, to, count);
        let more = copied_of_eight(classes, edges, piece, count, row);
        count += more.count;
        row = more.row;
        if more.count < EIGHT {
            break;
        }
    }
    RowPoint { count, row }
}

// How many of the eight bytes from `at` on the edges of a row drop, up to another one.
#[inline(always)]
fn dropped_of_eight(classes: &[u8; 256], edges: &[Edge], piece: &[u8], at: usize) -> usize
    requires row { All (λ c. c < length edges.now) classes.now }
    requires from { at + 8 ≤ length piece.now }
    requires dropped { All (HasKind classes.now edges.now EdgeKind.Drop) (take at piece.now) }
    ensures within { result ≤ 8 }
    ensures dropped { All (HasKind classes.now edges.now EdgeKind.Drop)
        (take (at + result) piece.now) }
{
    let mut count = 0;
    while count < EIGHT {
        let byte = piece[at + count];
        if !edges[classes[byte as usize] as usize].kind.is_drop() {
            break;
        }
        count += 1;
    }
    count
}

// Passes over bytes as long as the edges of a row drop them, as that of the first does. Tells how
// many. It may stop before that, where fewer than eight are left.
#[inline(always)]
fn skip(classes: &[u8; 256], edges: &[Edge], piece: &[u8]) -> usize
    requires row { All (λ c. c < length edges.now) classes.now }
    requires some { 0 < length piece.now }
    requires first { All (HasKind classes.now edges.now EdgeKind.Drop) (take 1 piece.now) }
    ensures some { 0 < result }
    ensures within { result ≤ length piece.now }
    ensures dropped { All (HasKind classes.now edges.now EdgeKind.Drop) (take result piece.now) }
{
    let mut count = 1;
    while count + EIGHT <= piece.len() {
        let more = dropped_of_eight(classes, edges, piece, count);
        count += more;
        if more < EIGHT {
            break;
        }
    }
    count
}

/// The same where a run has stopped, with the edge of the byte that is next, if there is one.
#[derive(Clone, Copy)]
pub struct Halt {
    pub at: usize,
    pub row: usize,
    pub used: usize,
    pub edge: Option<Edge>,
}

/// Goes along edges while they are written.
#[inline(always)]
pub fn run(
    classes: &[u8; 256],
    edges: &[Edge],
    text: &[u8],
    piece: &[u8],
    buffer: &mut [u8],
    from: SheetPoint,
) -> Halt
    requires rows { AreEdgesWithin
        (record { classes = classes.now; edges = edges.now; text = text.now }) }
    requires row { HasEdgeRow classes.now edges.now from.row }
    requires back { LeadsBack classes.now edges.now from.row }
    requires at { from.at ≤ length piece.now }
    requires room { from.used + 17 * (length piece.now - from.at) + 17 ≤ length buffer.old }
    ensures at { result.at ≤ length piece.now }
    ensures edge { IfSome result.edge
        (StopsAt classes.now edges.now result.row result.at piece.now) }
    ensures told { IsNone result.edge → result.at ≡ length piece.now }
    ensures row { HasEdgeRow classes.now edges.now result.row }
    ensures used { result.used ≤ length buffer.new }
    ensures room { result.used + 17 * (length piece.now - result.at) + 17 ≤ length buffer.new }
    ensures ran { record {
      written = take result.used buffer.new;
      row = result.row;
      left = drop result.at piece.now;
    }
        ≡ run_from (record { classes = classes.now; edges = edges.now; text = text.now }) piece.now
        (take from.used buffer.old) from.row from.at }
{
    let mut at = from.at;
    let mut row = from.row;
    let mut used = from.used;
    while at < piece.len() {
        let byte = piece[at];
        let e = edges[row + classes[byte as usize] as usize];
        if e.alone {
            let copied = copy_alone(classes, edges, &piece[at..], &mut buffer[used..], e.next);
            at += copied.count;
            used += copied.count;
            row = copied.row;
        } else if e.kind.is_text() {
            put(buffer, used, byte, text, e);
            used += e.adds as usize;
            at += 1;
            row = e.next;
        } else if e.kind.is_drop() {
            at += skip(classes, &edges[row..], &piece[at..]);
        } else {
            return Halt {
                at,
                row,
                used,
                edge: Some(e),
            };
        }
    }
    Halt {
        at,
        row,
        used,
        edge: None,
    }
}
