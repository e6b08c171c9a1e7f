//! Sets of bytes, and the classes of bytes that sets do not tell apart.
//!
//! Uses no other crate. A set is kept as four words, one bit a byte, and seen as 256 flags; each
//! call's contract says which bytes its answer has. A partition is seen as the 256 classes;
//! `refine` says of which sets.
#![tactic(auto)]

ghost use Rattle.std.specs.Prelude.{◌≡◌, ◌≤◌, ◌==◌, ◌&&◌, ◌||◌, Bool, List, set, replicate};
ghost use Rattle.std.specs.Prelude.{false, true, not, nat_le, count_by};
ghost use Rattle.std.specs.List.{list_any};
ghost use Rattle.kex_byteset.specs.Sets.{HasExactly, has};

mod classes;

pub use classes::Partition;
use std::marker::Model;

/// A set of bytes: byte b is in it where bit b % 64 of word b / 64 is set.
#[derive(Drop)]
pub struct ByteSet {
    words: [u64; 4],
}

impl Model for ByteSet {
    ghost use Rattle.std.specs.Prelude.{◌≡◌, Bool, List, length};
    ghost use Rattle.kex_byteset.specs.Words.{flags, AreWords};

    ghost Value = { List Bool };

    ghost view = { λ s. flags s.words };

    // A caller sees 256 flags, whatever made the set.
    ghost invariant = { λ s. (length (flags s.words) ≡ 256) × AreWords s.words };
}

impl ByteSet {
    /// The set that has no byte.
    #[tactic(auto, using(crate::proofs::Words::none_words))]
    pub fn empty() -> ByteSet
        ensures { HasExactly result (λ _. false) }
    {
        ByteSet { words: [0; 4] }
    }

    /// The set that has one byte.
    pub fn single(byte: u8) -> ByteSet
        ensures flags { result ≡ set (replicate 256 false) byte true }
        ensures bytes { HasExactly result (λ b. b == byte) }
    {
        let mut one = ByteSet::empty();
        one.insert(byte);
        one
    }

    /// The set of the bytes from `lo` to `hi`, both included.
    pub fn range(lo: u8, hi: u8) -> ByteSet
        requires { lo ≤ hi }
        ensures { HasExactly result (λ b. nat_le lo b && nat_le b hi) }
    {
        let mut set = ByteSet::empty();
        for byte in lo..=hi {
            set.insert(byte);
        }
        set
    }

    /// The same set again.
    pub fn copy(&self) -> ByteSet
        ensures { result ≡ self.now }
    {
        ByteSet { words: self.words }
    }

    /// Puts a byte into the set.
    pub fn insert(&mut self, byte: u8)
        ensures { HasExactly self.new (λ b. has self.old b || b == byte) }
    {
        self.words[usize::from(byte / 64)] |= 1 << (byte % 64);
    }

    /// The bytes that are in one of the two sets, or in both.
    pub fn union(&self, other: &ByteSet) -> ByteSet
        ensures { HasExactly result (λ b. has self.now b || has other.now b) }
    {
        let [a, b, c, d] = self.words;
        let [e, f, g, h] = other.words;
        ByteSet {
            words: [a | e, b | f, c | g, d | h],
        }
    }

    /// The bytes that are not in the set.
    pub fn complement(&self) -> ByteSet
        ensures { HasExactly result (λ b. not (has self.now b)) }
    {
        let [a, b, c, d] = self.words;
        ByteSet {
            words: [!a, !b, !c, !d],
        }
    }

    /// Whether some byte is in the set.
    pub fn has_any(&self) -> bool
        ensures { result ≡ list_any (λ b. b) self.now }
    {
        self.words.iter().any(|word| *word != 0)
    }

    /// Whether a byte is in the set.
    pub fn has(&self, byte: u8) -> bool
        ensures { result ≡ has self.now byte }
    {
        self.words[usize::from(byte / 64)] >> (byte % 64) & 1 == 1
    }

    /// How many bytes are in the set.
    pub fn len(&self) -> u64
        ensures { result ≡ count_by (λ b. b) self.now }
    {
        let [a, b, c, d] = self.words;
        u64::from(a.count_ones() + b.count_ones() + c.count_ones() + d.count_ones())
    }
}
