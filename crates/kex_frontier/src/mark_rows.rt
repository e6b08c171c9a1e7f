// Rows of bits that are kept, each once, in room that is made once.

ghost use Rattle.std.specs.Prelude.{◌≡◌, ◌<◌, ◌≤◌, ◌+◌, ◌*◌, ◌++◌, ◌∷◌, [], length, get_or};
ghost use Rattle.std.specs.Prelude.{IfOk, IfNone, IfSome, IsTrue, take, drop};

use crate::row::Row;
use kex_code::memory::Memory;
use std::alloc::Global;
use std::marker::Model;

/// The factor of a sum for each word more, so that all bits before move the high ones.
const MULTIPLIER: u64 = 0x517c_c1b7_2722_0a95;

// A sum that rows which differ seldom share.
fn sum_of(words: &[u64]) -> usize {
    let mut sum: u64 = 0;
    for word in words {
        sum = (sum.rotate_left(5) ^ *word).wrapping_mul(MULTIPLIER);
    }
    (sum >> 32) as usize
}

// As many of the words as a row has, from a place on.
fn part(words: &[u64], from: usize, width: usize) -> &[u64]
    requires { from + width ≤ length words.now }
    ensures { result.now ≡ take width (drop from words.now) }
{
    &words[from..from + width]
}

// Puts a number into a slot, if there is that slot.
fn note(slots: &mut [Option<u32>], slot: usize, number: u32) {
    if let Some(noted) = slots.get_mut(slot) {
        *noted = Some(number);
    }
}

/// Rows of one width, by number. They are stored side by side.
///
/// A row is looked for in the slot that the sum of its words says, and in those after it up to the
/// first that has no number. What slots say is only a hint: the words decide.
#[derive(Drop)]
pub struct MarkRows {
    width: usize,
    count: usize,
    words: Vec<u64>,
    slots: Vec<Option<u32>>,
}

impl Model for MarkRows {
    ghost use Rattle.std.specs.Prelude.{◌≡◌, ◌*◌, length};
    ghost use Rattle.kex_frontier.specs.Caches.{RowList, cut_rows};

    ghost Value = { RowList };

    ghost view = { λ r.
        record { width = r.width; rows = cut_rows r.width r.count r.words.items } };

    ghost invariant = { λ r. length r.words.items ≡ r.count * r.width };
}

impl MarkRows {
    /// With room for `most` rows.
    pub fn new(alloc: Global, width: usize, most: usize) -> Result<MarkRows, Memory>
        requires few { most ≤ 4096 }
        requires room { most * width ≤ 524288 }
        ensures { IfOk result (λ r. r ≡ record { width = width; rows = [] }) }
    {
        let words = Vec::with_capacity(alloc, most * width)?;
        let mut slots = Vec::new(alloc);
        slots.resize(2 * most + 1, None)?;
        Ok(MarkRows {
            width,
            count: 0,
            words,
            slots,
        })
    }

    /// How many rows there are.
    pub fn len(&self) -> usize
        ensures { result ≡ length self.now.rows }
    {
        self.count
    }

    /// The words of a row.
    pub fn words_at(&self, number: usize) -> &[u64]
        requires { number < length self.now.rows }
        ensures words { result.now ≡ get_or self.now.rows number [] }
        ensures width { length result.now ≡ self.now.width }
    {
        let words = self.words.as_slice();
        part(words, number * self.width, self.width)
    }

    // Whether a number is that of a row with these words.
    fn is_row(&self, number: usize, words: &[u64]) -> bool
        ensures { IsTrue result → (number < length self.now.rows)
            × (get_or self.now.rows number [] ≡ words.now) }
    {
        number < self.len() && *self.words_at(number) == *words
    }

    /// The number of a row that is there; else the slot where that number may be put.
    pub fn find(&self, row: &Row) -> Result<usize, usize>
        ensures { IfOk result (λ n. (n < length self.now.rows)
            × (get_or self.now.rows n [] ≡ row.now)) }
    {
        let count = self.slots.len();
        let mut slot = sum_of(row.words());
        for _ in 0..count {
            slot = slot.wrapping_add(1) % count;
            let Some(number) = self.slots[slot] else {
                return Err(slot);
            };
            if self.is_row(number as usize, row.words()) {
                return Ok(number as usize);
            }
        }
        Err(count)
    }

    /// Adds a row, whose number may be put into a slot. Gives the number; nothing where there is no
    /// room.
    pub fn add(&mut self, row: &Row, slot: usize) -> Option<usize>
        requires { length row.now ≡ self.old.width }
        ensures some { IfSome result (λ n. (n ≡ length self.old.rows)
            × (self.new ≡ record self.old { rows = self.old.rows ++ row.now ∷ [] })) }
        ensures none { IfNone result (self.new ≡ self.old) }
    {
        let number = self.count;
        let noted = u32::try_from(number).ok()?;
        if self.words.extend_from_slice(row.words()).is_err() {
            return None;
        }
        note(&mut self.slots, slot, noted);
        self.count += 1;
        Some(number)
    }

    /// Takes all rows away.
    pub fn clear(&mut self)
        ensures { self.new ≡ record self.old { rows = [] } }
    {
        self.count = 0;
        self.words.clear();
        self.slots.fill(None);
    }
}
