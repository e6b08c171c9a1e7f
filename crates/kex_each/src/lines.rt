// The lines of a text that comes in pieces.

ghost use Rattle.std.specs.Prelude.{◌≡◌, ◌++◌, ◌∷◌, ◌||◌, [], List, ℕ, OnOk, false, map, take};
ghost use Rattle.kex_each.specs.Lines.{IsBegunBehind, ReadsLines, begun_behind, fronts_of};
ghost use Rattle.kex_each.specs.Lines.{has_some, line_if_some};

use crate::texts::Texts;
use kex_code::memory::Memory;
use memchr::memchr;
use std::alloc::Global;
use std::marker::Model;

/// Finds the lines of a text that comes in pieces. A line ends at a line feed, which it hasn't. Of
/// each at most `keep` bytes are kept, from its front; the others are dropped.
///
/// Once a call has answered `Memory` it may only be dropped.
#[derive(Drop)]
pub struct Lines {
    alloc: Global,
    keep: u64,
    // What is kept of the unfinished line.
    line: Vec<u8>,
    // Whether that has a byte, kept or not.
    begun: bool,
}

impl Model for Lines {
    ghost use Rattle.std.specs.Prelude.{◌≤◌, length};
    ghost use Rattle.kex_each.specs.Lines.{BegunLine};

    ghost Value = { BegunLine };

    ghost view = { λ l. record { keep = l.keep; kept = l.line.items; begun = l.begun } };

    ghost invariant = { λ l. length l.line.items ≤ l.keep };
}

impl Lines {
    /// Nothing was read. Of each line at most `keep` bytes are kept.
    pub fn new(alloc: Global, keep: u64) -> Lines
        ensures begins { IsBegunBehind [] result }
        ensures keep { result.keep ≡ keep }
    {
        Lines {
            alloc,
            keep,
            line: Vec::new(alloc),
            begun: false,
        }
    }

    // Reads bytes among which there is no line feed.
    fn go_on(&mut self, bytes: &[u8]) -> Result<(), Memory>
        ensures kept { OnOk result
            (self.new.kept ≡ take self.old.keep (self.old.kept ++ bytes.now)) }
        ensures begun { OnOk result (self.new.begun ≡ (self.old.begun || has_some bytes.now)) }
        ensures keep { self.new.keep ≡ self.old.keep }
    {
        let room = self.keep - self.line.len() as u64;
        let front = if room < bytes.len() as u64 {
            &bytes[..room as usize]
        } else {
            bytes
        };
        self.line.extend_from_slice(front)?;
        self.begun = self.begun || !bytes.is_empty();
        Ok(())
    }

    // The unfinished line ends here.
    fn end_line(&mut self, out: &mut Texts) -> Result<(), Memory>
        ensures ended { OnOk result (out.new ≡ out.old ++ self.old.kept ∷ []) }
        ensures none { OnOk result ((self.new.kept ≡ []) × (self.new.begun ≡ false)) }
        ensures keep { self.new.keep ≡ self.old.keep }
    {
        out.push(&self.line)?;
        self.line.clear();
        self.begun = false;
        Ok(())
    }

    /// Reads a piece, and adds the lines that it ends.
    pub fn read(&mut self, piece: &[u8], out: &mut Texts) -> Result<(), Memory>
        ensures reads { OnOk result ((w : List ℕ) → IsBegunBehind w self.old
            → ReadsLines w piece.now self.new out.old out.new) }
        ensures keep { self.new.keep ≡ self.old.keep }
    {
        let mut rest = piece;
        'lines: while let Some(at) = memchr(b'\n', rest) {
            self.go_on(&rest[..at])?;
            self.end_line(out)?;
            rest = &rest[at + 1..];
        }
        self.go_on(rest)
    }

    /// The text ends here: an unfinished line that isn't empty is added.
    pub fn finish(&mut self, out: &mut Texts) -> Result<(), Memory>
        ensures ended { OnOk result ((w : List ℕ) → IsBegunBehind w self.old
            → out.new ≡ out.old ++ fronts_of self.old.keep (line_if_some (begun_behind [] w))) }
        ensures keep { self.new.keep ≡ self.old.keep }
    {
        if self.begun {
            self.end_line(out)?;
        }
        Ok(())
    }

    /// Reads a piece, and adds the lines that it ends, each with room of its own.
    pub fn feed(&mut self, piece: &[u8], out: &mut Vec<Vec<u8>>) -> Result<(), Memory>
        ensures reads { OnOk result ((w : List ℕ) → IsBegunBehind w self.old
            → ReadsLines w piece.now self.new
            (map (λ v. v.items) out.old.items) (map (λ v. v.items) out.new.items)) }
        ensures keep { self.new.keep ≡ self.old.keep }
    {
        let mut ended = Texts::new(self.alloc);
        self.read(piece, &mut ended)?;
        ended.unpack_into(self.alloc, out)
    }

    /// The text ends here: an unfinished line that isn't empty is added.
    pub fn end(&mut self, out: &mut Vec<Vec<u8>>) -> Result<(), Memory>
        ensures ended { OnOk result ((w : List ℕ) → IsBegunBehind w self.old
            → map (λ v. v.items) out.new.items ≡ map (λ v. v.items) out.old.items
            ++ fronts_of self.old.keep (line_if_some (begun_behind [] w))) }
    {
        let mut ended = Texts::new(self.alloc);
        self.finish(&mut ended)?;
        ended.unpack_into(self.alloc, out)
    }
}
