// How a worker goes along a piece of which its desks have made drafts.

ghost use Rattle.std.specs.Prelude.{◌≡◌, ◌≤◌, ◌<◌, ◌+◌, ◌-◌, ◌^◌, None, IsTrue, IfOk, All};
ghost use Rattle.std.specs.Prelude.{length, take, drop};
ghost use Rattle.kex_desks.specs.Drafts.{ComesTo, ReadsPiece};

use crate::desk::PieceDesk;
use crate::parts::whole_lines;
use crate::place::KnowsPlace;
use kex_code::memory::Memory;

// How many bytes of a piece were read, up to a stop if there was one, and how many parts of them
// were taken over.
#[derive(Clone, Copy)]
struct AllJoined {
    count: usize,
    stop: Option<u64>,
    taken: u64,
}

/// A worker goes along a piece as far as drafts of it go that desks have made, and takes over those
/// that it would make itself.
fn join_all<W: KnowsPlace>(
    worker: &mut W,
    desks: &mut [PieceDesk<W>],
    piece: &[u8],
    out: &mut Vec<u8>,
) -> Result<AllJoined, Memory>
    requires ready { IsTrue (W.is_ready worker.old) }
    requires same { All (λ d. W.machine d ≡ W.machine worker.old) desks.old }
    requires few { length desks.old ≤ 64 }
    requires room { W.counted worker.old + length piece.now < 2 ^ 64 }
    ensures comes { IfOk result (λ j. ComesTo (W.says (W.machine worker.old))
        (W.follows worker.old) (W.follows worker.new) (take j.count piece.now) j.stop
        out.old.items out.new.items) }
    ensures count { IfOk result (λ j. j.count ≤ length piece.now) }
    ensures ready { IfOk result (λ j. j.stop ≡ None → IsTrue (W.is_ready worker.new)) }
    ensures counted { IfOk result (λ j. W.counted worker.new ≤ W.counted worker.old + j.count) }
    ensures within { W.counted worker.new ≤ W.counted worker.old + length piece.now }
    ensures machine { W.machine worker.new ≡ W.machine worker.old }
    ensures desks { All (λ d. W.machine d ≡ W.machine worker.new) desks.new }
    ensures number { length desks.new ≡ length desks.old }
{
    let mut at = 0;
    let mut taken: u64 = 0;
    for k in 0..desks.len() {
        let joined = desks[k].join(worker, at, &piece[at..], out)?;
        at += joined.count;
        taken = taken.saturating_add(u64::from(joined.taken));
        if joined.stop.is_some() {
            return Ok(AllJoined {
                count: at,
                stop: joined.stop,
                taken,
            });
        }
    }
    Ok(AllJoined {
        count: at,
        stop: None,
        taken,
    })
}

/// The desks note where a worker is after a line, if it has read one.
pub fn sample_all<W: KnowsPlace>(worker: &W, desks: &mut [PieceDesk<W>], lines: bool)
    requires { All (λ d. W.machine d ≡ W.machine worker.now) desks.old }
    ensures { desks.new ≡ desks.old }
{
    if !lines {
        return;
    }
    for k in 0..desks.len() {
        desks[k].sample(worker);
    }
}

/// A worker reads a piece from a place on. Its desks note where it is after the last line, if that
/// ends near the end of the piece.
fn read_on<W: KnowsPlace>(
    worker: &mut W,
    desks: &mut [PieceDesk<W>],
    piece: &[u8],
    at: usize,
    out: &mut Vec<u8>,
) -> Result<Option<u64>, Memory>
    requires ready { IsTrue (W.is_ready worker.old) }
    requires same { All (λ d. W.machine d ≡ W.machine worker.old) desks.old }
    requires at { at ≤ length piece.now }
    requires room { W.counted worker.old + (length piece.now - at) < 2 ^ 64 }
    ensures reads { IfOk result (λ stop. ReadsPiece (W.says (W.machine worker.old))
        (W.follows worker.old) (W.follows worker.new) (drop at piece.now) stop
        out.old.items out.new.items) }
    ensures ready { IfOk result (λ stop. stop ≡ None → IsTrue (W.is_ready worker.new)) }
    ensures within { W.counted worker.new ≤ W.counted worker.old + (length piece.now - at) }
    ensures machine { W.machine worker.new ≡ W.machine worker.old }
    ensures desks { desks.new ≡ desks.old }
{
    let lines = whole_lines(piece).max(at);
    let stop = worker.go_on(&piece[at..lines], out)?;
    if stop.is_some() {
        return Ok(stop);
    }
    sample_all(worker, desks, lines > 0);
    let last = worker.go_on(&piece[lines..], out)?;
    Ok(last)
}

/// What came of a piece: the byte that has stopped the worker, if one did, and how many parts it
/// has taken over.
#[derive(Clone, Copy)]
pub struct PieceRead {
    pub stop: Option<u64>,
    pub taken: u64,
}

/// A worker reads a piece of which its desks may have made drafts.
pub fn read_piece<W: KnowsPlace>(
    worker: &mut W,
    desks: &mut [PieceDesk<W>],
    piece: &[u8],
    out: &mut Vec<u8>,
) -> Result<PieceRead, Memory>
    requires ready { IsTrue (W.is_ready worker.old) }
    requires same { All (λ d. W.machine d ≡ W.machine worker.old) desks.old }
    requires few { length desks.old ≤ 64 }
    requires room { W.counted worker.old + length piece.now < 2 ^ 64 }
    ensures reads { IfOk result (λ r. ReadsPiece (W.says (W.machine worker.old))
        (W.follows worker.old) (W.follows worker.new) piece.now r.stop
        out.old.items out.new.items) }
    ensures ready { IfOk result (λ r. r.stop ≡ None → IsTrue (W.is_ready worker.new)) }
    ensures within { W.counted worker.new ≤ W.counted worker.old + length piece.now }
    ensures machine { W.machine worker.new ≡ W.machine worker.old }
    ensures desks { All (λ d. W.machine d ≡ W.machine worker.new) desks.new }
    ensures number { length desks.new ≡ length desks.old }
{
    let joined = join_all(worker, desks, piece, out)?;
    if joined.stop.is_some() {
        return Ok(PieceRead {
            stop: joined.stop,
            taken: joined.taken,
        });
    }
    let stop = read_on(worker, desks, piece, joined.count, out)?;
    Ok(PieceRead {
        stop,
        taken: joined.taken,
    })
}
