// The parts of a piece: each begins after a line end, and ends after one.

ghost use Rattle.std.specs.Prelude.{◌≡◌, ◌≤◌, ◌<◌, ◌-◌, ◌+◌, ℕ, IfSome, length, slice_index_or};
ghost use Rattle.kex_desks.specs.PartCuts.{IsAfterNext, even_cut};

use memchr::{memchr, memrchr};

// The byte at which lines end.
const LINE_END: u8 = b'\n';

// The least bytes that are worked on or searched for nothing, where there are as many.
const TRIAL: usize = 4_096;

/// A part of a piece, and where the line before it begins.
#[derive(Clone, Copy)]
pub struct PartBounds {
    pub before: usize,
    pub from: usize,
    pub to: usize,
}

// The place after the first line end from a place on. No more bytes than the reach are looked at.
fn after_next(piece: &[u8], from: usize, reach: usize) -> Option<usize>
    requires { from ≤ length piece.now }
    ensures { IfSome result (λ at. IsAfterNext piece.now from at) }
{
    let to = from + reach.min(piece.len() - from);
    match memchr(LINE_END, &piece[from..to]) {
        None => None,
        Some(at) => Some(from + at + 1),
    }
}

// The place after the last line end before a place. No more bytes than the reach are looked at.
fn after_last(piece: &[u8], end: usize, reach: usize) -> Option<usize>
    requires { end ≤ length piece.now }
    ensures within { IfSome result (λ at. (0 < at) × (at ≤ end)) }
    ensures line { IfSome result (λ at. slice_index_or piece.now (at - 1) 0 ≡ 10) }
{
    let from = end.saturating_sub(reach);
    match memrchr(LINE_END, &piece[from..end]) {
        None => None,
        Some(at) => Some(from + at + 1),
    }
}

// Where part k ends, counted from 1, of parts that are of even length.
fn cut_of(bytes: usize, k: u32, of: u32) -> usize
    requires { (0 < of) × (k ≤ of) }
    ensures within { result ≤ bytes }
    ensures even { result ≡ even_cut bytes k of }
{
    bytes / of as usize * k as usize + (k as usize).min(bytes % of as usize)
}

// How much of some bytes is worked on, or searched, where it isn't known to be for something.
fn trial_of(bytes: usize) -> usize
    ensures { result ≤ bytes }
{
    (bytes / 8).max(TRIAL).min(bytes)
}

/// How much of a piece is before its last line end, and with it. Only the last eighth of a piece is
/// looked at, or some thousand bytes of a short one: 0 where no line ends there.
pub fn whole_lines(piece: &[u8]) -> usize
    ensures { result ≤ length piece.now }
{
    match after_last(piece, piece.len(), trial_of(piece.len())) {
        None => 0,
        Some(at) => at,
    }
}

// Where a part ends that is cut at a place: after the line there, or at the cut if that is long.
fn end_of(piece: &[u8], cut: usize, reach: usize) -> usize
    requires { cut ≤ length piece.now }
    ensures within { result ≤ length piece.now }
    ensures next { (at : ℕ) → IsAfterNext piece.now cut at → result ≤ at }
{
    match after_next(piece, cut, reach) {
        None => cut,
        Some(at) => at,
    }
}

/// Part k of a piece, counted from 1, and the line before it: the whole part, or a few lines of a
/// long one. There is none where lines are too long: then more would be read before a part than in
/// it. So line ends are looked for no further from an even cut than what is worked on is long.
pub fn part_bounds(piece: &[u8], k: u32, of: u32, whole: bool) -> Option<PartBounds>
    requires { (1 ≤ k) × (k ≤ of) }
    ensures within { IfSome result (λ p. (p.before ≤ p.from) × (p.from < p.to)
        × (p.to ≤ length piece.now)) }
    // The parts are as even as lines let them be.
    ensures begins { IfSome result (λ p. 1 < k
        → IsAfterNext piece.now (even_cut (length piece.now) (k - 1) of) p.from) }
    ensures ends { IfSome result (λ p. k < of → (at : ℕ)
        → IsAfterNext piece.now (even_cut (length piece.now) k of) at → p.to ≤ at) }
{
    let even = piece.len() / of as usize;
    let reach = if whole { even } else { trial_of(even) };
    let cut = cut_of(piece.len(), k - 1, of);
    let before = if k == 1 {
        after_next(piece, 0, reach)?
    } else {
        after_last(piece, cut, reach)?
    };
    let from = after_next(piece, cut.max(before), reach)?;
    let end = if k == of {
        piece.len()
    } else {
        end_of(piece, cut_of(piece.len(), k, of), reach)
    };
    let long = end.saturating_sub(from);
    let worked = if whole { long } else { trial_of(long) };
    let to = after_last(piece, end - (long - worked), reach)?;
    if from < to && from - before <= to - from {
        Some(PartBounds { before, from, to })
    } else {
        None
    }
}
