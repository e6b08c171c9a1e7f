// Rows of bits, one a place.

ghost use Rattle.std.specs.Prelude.{◌≡◌, ℕ, ◌<◌, ◌+◌, ◌*◌, ◌/◌, ◌∷◌, [], length, IfOk, IfSome};
ghost use Rattle.std.specs.Prelude.{IfNone, false};
ghost use Rattle.kex_frontier.specs.Rows.{AlsoMarks, Unmarks, has_mark, IsHighestBelow, IsTop};

use kex_code::memory::Memory;
use std::alloc::Global;
use std::marker::Model;

/// Which places are marked: place n where bit n % 64 of word n / 64 is set. It never grows.
#[derive(Drop)]
pub struct Row {
    words: Vec<u64>,
}

impl Model for Row {
    ghost use Rattle.std.specs.Prelude.{ℕ, List};

    ghost Value = { List ℕ };

    ghost view = { λ r. r.words.items };
}

// The place of a word's highest bit.
fn top_of(word: u64) -> usize
    requires { 0 < word }
    ensures { IsTop word result }
{
    63 - word.leading_zeros() as usize
}

impl Row {
    /// A row with room for this many places and at least one more, none of them marked.
    pub fn new(alloc: Global, count: usize) -> Result<Row, Memory>
        ensures room { IfOk result (λ r. length r ≡ count / 64 + 1) }
        ensures none { IfOk result (λ r. (n : ℕ) → has_mark r n ≡ false) }
    {
        let words = vec![in alloc; 0; count / 64 + 1]?;
        Ok(Row { words })
    }

    /// Takes all marks away.
    pub fn clear(&mut self)
        ensures room { length self.new ≡ length self.old }
        ensures none { (n : ℕ) → has_mark self.new n ≡ false }
    {
        self.words.fill(0);
    }

    /// Marks a place, and tells whether it was marked.
    pub fn mark(&mut self, place: usize) -> bool
        requires { place / 64 < length self.old }
        ensures known { result ≡ has_mark self.old place }
        ensures marked { AlsoMarks (place ∷ []) self.old self.new }
    {
        let known = self.words[place / 64] >> (place % 64) & 1 == 1;
        self.words[place / 64] |= 1 << (place % 64);
        known
    }

    /// Takes a place's mark away.
    pub fn unmark(&mut self, place: usize)
        requires { place / 64 < length self.old }
        ensures { Unmarks place self.old self.new }
    {
        self.words[place / 64] &= !(1 << (place % 64));
    }

    /// The same marks as those of another row.
    pub fn copy_from(&mut self, other: &Row)
        requires { length self.old ≡ length other.now }
        ensures { self.new ≡ other.now }
    {
        self.words.copy_from_slice(&other.words);
    }

    /// The words.
    pub fn words(&self) -> &[u64]
        ensures { result.now ≡ self.now }
    {
        &self.words
    }

    /// The marks of words as another row has them.
    pub fn copy_words(&mut self, words: &[u64])
        requires { length self.old ≡ length words.now }
        ensures { self.new ≡ words.now }
    {
        self.words.copy_from_slice(words);
    }

    /// The highest place below `end` that is marked.
    pub fn highest_below(&self, end: usize) -> Option<usize>
        requires { end / 64 < length self.now }
        ensures some { IfSome result (λ n. IsHighestBelow self.now end n) }
        ensures none { IfNone result ((n : ℕ) → n < end → has_mark self.now n ≡ false) }
    {
        let mut word = end / 64;
        let mut bits = self.words[word] & ((1 << (end % 64)) - 1);
        'words: while bits == 0 {
            if word == 0 {
                return None;
            }
            word -= 1;
            bits = self.words[word];
        }
        Some(64 * word + top_of(bits))
    }
}
