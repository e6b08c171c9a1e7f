// Rows that a text came to, and where they lead by classes of bytes, in room that is made once.

ghost use Rattle.std.specs.Prelude.{◌≡◌, ℕ, ◌<◌, ◌≤◌, ◌+◌, ◌*◌, ◌⊎◌, List, [], All, length, take};
ghost use Rattle.std.specs.Prelude.{◌^◌, IfOk, IfSome, None};
ghost use Rattle.kex_byteset.specs.Classes.{class_count};
ghost use Rattle.kex_machine.specs.declared.MNode.{MNode};
ghost use Rattle.kex_machine.specs.Nodes.{HasClasses};
ghost use Rattle.kex_frontier.specs.Rows.{HasSomeMark, IsByteStep, AreByteSteps};
ghost use Rattle.kex_frontier.specs.Caches.{AreWays, IsKeptAt, IsKeptNow, KnowsSteps, with_row};

use crate::mark_rows::MarkRows;
use crate::row::Row;
use kex_byteset::Partition;
use kex_code::memory::Memory;
use std::alloc::Global;
use std::marker::Model;

/// How many rows there may be.
const MOST_ROWS: usize = 4_096;

/// How many words of 64 bits the rows, where they lead and what they are found by may take.
const MOST_WORDS: usize = 524_288;

/// How many bytes go by bare rows, for each that was learnt, where that didn't pay.
const PATIENCE: usize = 8;

// How many rows there may be, of a width and with ways for `count` classes.
fn most_rows(width: usize, count: usize) -> usize
    requires { width + count < 2 ^ 63 }
    ensures few { result ≤ 4096 }
    ensures room { result * (width + count + 2) ≤ 524288 }
{
    MOST_ROWS.min(MOST_WORDS / (width + count + 2))
}

/// How far a piece has been gone along, and at which row.
#[derive(Clone, Copy)]
struct Trail {
    taken: usize,
    at: u32,
}

// Goes along ways from a row while they are known.
#[inline(always)]
fn go_along(classes: &Partition, ways: &[Option<u32>], from: u32, piece: &[u8]) -> Trail
    requires from { from + class_count classes.now ≤ length ways.now }
    requires ways { All (λ w. IfSome w (λ at. at + class_count classes.now ≤ length ways.now))
        ways.now }
    ensures taken { result.taken ≤ length piece.now }
    ensures along { AreWays classes.now ways.now from (take result.taken piece.now) result.at }
{
    let mut taken = 0;
    let mut at = from;
    while taken < piece.len() {
        let class = classes.class_of(piece[taken]);
        let Some(next) = ways[at as usize + class as usize] else {
            break;
        };
        at = next;
        taken += 1;
    }
    Trail { taken, at }
}

/// Rows that were met, and where each leads by each class of bytes, so far as that was learnt. A
/// row is named by where its ways begin.
///
/// It never grows. Where it is full all is forgotten; and where fewer bytes went along what was
/// known than were learnt, nothing is learnt for a while, since rows that don't come back aren't
/// worth it.
#[derive(Drop)]
pub struct StepCache {
    classes: Partition,
    count: usize,
    most: usize,
    rows: MarkRows,
    ways: Vec<Option<u32>>,
    at: Option<u32>,
    known: usize,
    learnt: usize,
    bare: usize,
}

impl Model for StepCache {
    ghost use Rattle.std.specs.Prelude.{◌≡◌, ◌≤◌, ◌*◌, length, vec_capacity};
    ghost use Rattle.kex_byteset.specs.Classes.{class_count};
    ghost use Rattle.kex_frontier.specs.Caches.{KeptSteps, AreWaysInOrder};

    ghost Value = { KeptSteps };

    ghost view = { λ c. record {
      classes = c.classes;
      width = c.rows.width;
      rows = c.rows.rows;
      ways = c.ways.items;
      at = c.at;
    } };

    ghost invariant = { λ c. (c.count ≡ class_count c.classes) × (length c.rows.rows ≤ c.most)
        × (c.most * c.count ≤ vec_capacity c.ways)
        × AreWaysInOrder (record {
          classes = c.classes;
          width = c.rows.width;
          rows = c.rows.rows;
          ways = c.ways.items;
          at = c.at;
        }) };
}

impl StepCache {
    /// With no row, and with room for rows of `width` words, up to 4,096 rows and 4 MiB.
    pub fn new(alloc: Global, classes: Partition, width: usize) -> Result<StepCache, Memory>
        requires { width < 2 ^ 32 }
        ensures { IfOk result (λ c. c
            ≡ record { classes = classes; width = width; rows = []; ways = []; at = None }) }
    {
        let count = usize::from(classes.classes());
        let most = most_rows(width, count);
        Ok(StepCache {
            classes,
            count,
            most,
            rows: MarkRows::new(alloc, width, most)?,
            ways: Vec::with_capacity(alloc, most * count)?,
            at: None,
            known: 0,
            learnt: 0,
            bare: 0,
        })
    }

    /// Goes along ways while they are known, from the row to the one that they lead to. Gives how
    /// many bytes that takes.
    pub fn follow(&mut self, piece: &[u8], row: &mut Row) -> usize
        requires width { length row.old ≡ self.old.width }
        requires now { IsKeptNow self.old row.old }
        ensures taken { result ≤ length piece.now }
        ensures width { length row.new ≡ length row.old }
        ensures same { self.new ≡ record self.old { at = self.new.at } }
        ensures now { IsKeptNow self.new row.new }
        ensures steps { (nodes : List MNode) → KnowsSteps nodes self.old
            → AreByteSteps nodes row.old (take result piece.now) row.new }
        ensures marked { (nodes : List MNode) → KnowsSteps nodes self.old → 0 < result
            → HasSomeMark row.new }
    {
        let Some(from) = self.at else {
            return 0;
        };
        let trail = go_along(&self.classes, &self.ways, from, piece);
        if trail.taken == 0 {
            return 0;
        }
        row.copy_words(self.rows.words_at(trail.at as usize / self.count));
        self.at = Some(trail.at);
        self.known = self.known.saturating_add(trail.taken);
        trail.taken
    }

    /// The row of now isn't one that is kept.
    pub fn leave(&mut self)
        ensures { self.new ≡ record self.old { at = None } }
    {
        self.at = None;
    }

    // Forgets all that was learnt.
    fn forget(&mut self)
        ensures { self.new ≡ record self.old { rows = []; ways = []; at = None } }
    {
        if self.known < self.learnt {
            self.bare = self.learnt.saturating_mul(PATIENCE);
        }
        self.rows.clear();
        self.ways.clear();
        self.at = None;
        self.known = 0;
        self.learnt = 0;
    }

    // Adds a row that isn't there, if there is room. Nothing is known of where it leads.
    fn add(&mut self, row: &Row, slot: usize) -> Option<u32>
        requires { length row.now ≡ self.old.width }
        ensures some { IfSome result (λ at. IsKeptAt self.new at row.now) }
        ensures more { (self.new ≡ self.old) ⊎ (self.new ≡ with_row self.old row.now) }
    {
        let at = u32::try_from(self.ways.len()).ok()?;
        if self.rows.len() == self.most {
            return None;
        }
        self.rows.add(row, slot)?;
        if self
            .ways
            .resize(self.ways.len() + self.count, None)
            .is_err()
        {
            return None;
        }
        Some(at)
    }

    // Where the ways of a row begin. The row is added if it isn't there, and if there is room.
    fn keep(&mut self, row: &Row) -> Option<u32>
        requires { length row.now ≡ self.old.width }
        ensures some { IfSome result (λ at. IsKeptAt self.new at row.now) }
        ensures more { (self.new ≡ self.old) ⊎ (self.new ≡ with_row self.old row.now) }
    {
        match self.rows.find(row) {
            Ok(number) => u32::try_from(number * self.count).ok(),
            Err(slot) => self.add(row, slot),
        }
    }

    // Notes where a row leads by the class of a byte.
    fn note(&mut self, from: u32, byte: u8, to: u32)
        requires from { (row : List ℕ) × IsKeptAt self.old from row }
        requires to { (row : List ℕ) × IsKeptAt self.old to row }
        ensures same { self.new ≡ record self.old { ways = self.new.ways } }
        ensures knows { (nodes : List MNode) (was row : List ℕ) → HasClasses nodes self.old.classes
            → KnowsSteps nodes self.old → IsKeptAt self.old from was → IsKeptAt self.old to row
            → IsByteStep nodes byte was row → KnowsSteps nodes self.new }
    {
        let class = self.classes.class_of(byte);
        self.ways[from as usize + class as usize] = Some(to);
    }

    /// Learns that the row before leads to this one by the class of a byte, if there is room and it
    /// is worth it. This is the row from now on.
    pub fn learn(&mut self, byte: u8, row: &Row)
        requires width { length row.now ≡ self.old.width }
        ensures width { self.new.width ≡ self.old.width }
        ensures classes { self.new.classes ≡ self.old.classes }
        ensures now { IsKeptNow self.new row.now }
        ensures knows { (nodes : List MNode) (was : List ℕ) → HasClasses nodes self.old.classes
            → KnowsSteps nodes self.old → IsKeptNow self.old was → HasSomeMark row.now
            → IsByteStep nodes byte was row.now → KnowsSteps nodes self.new }
    {
        if self.bare > 0 {
            self.bare -= 1;
            self.at = None;
            return;
        }
        self.learnt = self.learnt.saturating_add(1);
        let from = self.at;
        let Some(to) = self.keep(row) else {
            self.forget();
            return;
        };
        if let Some(from) = from {
            self.note(from, byte, to);
        }
        self.at = Some(to);
    }
}
