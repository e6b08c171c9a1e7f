// How the input is cut into pieces that stages work off, one after the other.
ghost use Rattle.std.specs.Prelude.{◌≡◌, ◌≢◌, ◌<◌, ◌≤◌, ◌*◌, ◌/◌, ◌⊎◌, max, min};
ghost use Rattle.kex_pipeline.specs.declared.piece_length.TheConstants.{FIRST};
ghost use Rattle.kex_pipeline.specs.declared.rounds.TheConstants.{MUCH};

use crate::rounds::MUCH;

// A piece has this many bytes at first.
const FIRST: usize = 16_384;

/// How many bytes a piece has at most. They are more as long as what stages make of one isn't
/// much.
#[derive(Clone, Copy)]
pub struct PieceLength {
    bytes: usize,
    longest: usize,
    ghost some: { 0 < bytes },
    ghost few: { bytes ≤ longest },
    ghost first: { 16384 ≤ longest },
    ghost most: { longest ≤ 1048576 },
}

impl PieceLength {
    /// Pieces of at most this many bytes.
    pub(crate) fn new(longest: usize) -> PieceLength
        requires first { 16384 ≤ longest }
        requires most { longest ≤ 1048576 }
        ensures bytes { result.bytes ≡ FIRST }
        ensures longest { result.longest ≡ longest }
    {
        PieceLength {
            bytes: FIRST,
            longest,
        }
    }

    /// The most bytes that are given at once.
    pub(crate) fn bytes(&self) -> usize
        ensures value { result ≡ self.now.bytes }
        ensures some { 0 < result }
        ensures few { result ≤ 1048576 }
    {
        self.bytes
    }

    /// Learns how many bytes were given, and how many at most lay before a stage for them or are
    /// output.
    pub(crate) fn learn(&mut self, given: usize, most: usize)
        ensures shorter { MUCH < most → self.new.bytes ≡ max (self.old.bytes / 2) FIRST }
        ensures longer { most ≤ MUCH / 2 → given ≡ self.old.bytes
            → self.new.bytes ≡ min (self.old.bytes * 2) self.old.longest }
        ensures same { most ≤ MUCH → (MUCH / 2 < most) ⊎ (given ≢ self.old.bytes)
            → self.new.bytes ≡ self.old.bytes }
        ensures longest { self.new.longest ≡ self.old.longest }
    {
        if most > MUCH {
            self.bytes = (self.bytes / 2).max(FIRST);
        } else if given == self.bytes && most <= MUCH / 2 {
            self.bytes = (self.bytes * 2).min(self.longest);
        }
    }
}
