// Whether a text can be parsed, in memory that is made once.

ghost use Rattle.std.specs.Prelude.{◌≡◌, ℕ, ◌<◌, ◌≤◌, ◌+◌, ◌/◌, ◌^◌, ◌++◌, ◌∷◌, [], List, length};
ghost use Rattle.std.specs.Prelude.{IfOk, IsTrue, ◌↔◌, take, true, false};
ghost use Rattle.kex_model.specs.Moves.{accept, quiet};
ghost use Rattle.kex_machine.specs.Nodes.{StaysWithin, MoveBelow, move_of, node_moves};
ghost use Rattle.kex_machine.specs.Answers.{HasRun};
ghost use Rattle.kex_frontier.specs.Rows.{AlsoMarks, Opens, byte_ways, has_mark, IsClosureOf};
ghost use Rattle.kex_frontier.specs.Rows.{IsByteStep};
ghost use Rattle.kex_frontier.specs.Matchers.{IsAnswer, WasFed};

use crate::row::Row;
use crate::step_cache::StepCache;
use kex_code::memory::Memory;
use kex_machine::{MNode, Trimmed, node_at};
use std::alloc::Global;
use std::marker::Model;
use std::mem;

/// What the bytes are so far.
#[derive(Clone, Copy, Debug, PartialEq, Eq)]
pub enum Matched {
    /// Some text that begins with them has a parse.
    On,
    /// No such text has; the longest front of which one has is this many bytes long.
    Dead(u64),
}

// Marks a place; one that wasn't marked is fresh too. Gives the end, or what is past the place if
// that is more.
fn mark_way(row: &mut Row, fresh: &mut Row, place: u32, end: usize, count: usize) -> usize
    requires row { count / 64 < length row.old }
    requires fresh { count / 64 < length fresh.old }
    requires within { place < count }
    requires end { end ≤ count }
    ensures opens { Opens (place ∷ []) end row.old fresh.old row.new fresh.new result }
    ensures within { result ≤ count }
{
    if row.mark(place as usize) {
        return end;
    }
    fresh.mark(place as usize);
    if end <= place as usize {
        return place as usize + 1;
    }
    end
}

// Marks where a node leads without a byte, and what of that wasn't marked is fresh. No place from
// the end on that is given is fresh by that.
fn mark_ways(row: &mut Row, fresh: &mut Row, node: &MNode, end: usize, count: usize) -> usize
    requires row { count / 64 < length row.old }
    requires fresh { count / 64 < length fresh.old }
    requires within { MoveBelow count (move_of (Some node.now)) }
    requires end { end ≤ count }
    ensures opens { Opens
        (quiet (move_of (Some node.now))) end row.old fresh.old row.new fresh.new result }
    ensures within { result ≤ count }
{
    match node {
        MNode::Accept | MNode::Read(_, _) => end,
        MNode::Choice(left, right) => {
            let middle = mark_way(row, fresh, *right, end, count);
            mark_way(row, fresh, *left, middle, count)
        }
        MNode::Forced(_, next) | MNode::Do(_, next) | MNode::Skip(next) => {
            mark_way(row, fresh, *next, end, count)
        }
    }
}

// Marks what is reached without a byte from the places that are marked. Each of these is gone
// through once, whatever loops there are: those that still have to be are in the second row, which
// is only room.
fn close(nodes: &[MNode], row: &mut Row, fresh: &mut Row)
    requires row { length nodes.now / 64 < length row.old }
    requires fresh { length fresh.old ≡ length row.old }
    requires within { StaysWithin nodes.now }
    ensures closure { IsClosureOf nodes.now row.old row.new }
    ensures room { length fresh.new ≡ length fresh.old }
{
    fresh.copy_from(row);
    let mut end = nodes.len();
    'places: while let Some(n) = fresh.highest_below(end) {
        fresh.unmark(n);
        end = mark_ways(row, fresh, node_at(nodes, n), n, nodes.len());
    }
}

// Marks where a node leads by a byte.
fn enter(row: &mut Row, node: &MNode, byte: u8, count: usize)
    requires room { count / 64 < length row.old }
    requires within { MoveBelow count (move_of (Some node.now)) }
    ensures { AlsoMarks (byte_ways (move_of (Some node.now)) byte) row.old row.new }
{
    if let MNode::Read(set, next) = node {
        if set.has(byte) {
            row.mark(*next as usize);
        }
    }
}

/// Marks the places that are reached with one byte more from those that are marked. The row of
/// those before is only room then.
pub fn step(nodes: &[MNode], byte: u8, now: &mut Row, next: &mut Row)
    requires now { length nodes.now / 64 < length now.old }
    requires next { length next.old ≡ length now.old }
    requires within { StaysWithin nodes.now }
    ensures now { length now.new ≡ length now.old }
    ensures next { length next.new ≡ length next.old }
    ensures row { IsByteStep nodes.now byte now.old next.new }
{
    next.clear();
    let mut left = nodes.len();
    'places: while let Some(n) = now.highest_below(left) {
        enter(next, node_at(nodes, n), byte, nodes.len());
        left = n;
    }
    close(nodes, next, now);
}

// Whether a marked place is the end.
fn accepts(nodes: &[MNode], row: &Row) -> bool
    requires { length nodes.now / 64 < length row.now }
    ensures { IsTrue result ↔ ((n : ℕ) × (n < length nodes.now) × (has_mark row.now n ≡ true)
        × (node_moves nodes.now n ≡ accept)) }
{
    let mut left = nodes.len();
    'places: while let Some(n) = row.highest_below(left) {
        if let MNode::Accept = node_at(nodes, n) {
            return true;
        }
        left = n;
    }
    false
}

/// Whether texts are parsed by a stage, and no more: it keeps which places the bytes lead to, as a
/// row of bits.
///
/// Rows that it came to and the steps between them are kept too, so that a byte whose step is known
/// costs one look-up. All room is made by `Matcher::new`: two rows, and at most 4 MiB for what is
/// kept. Where rows don't come back the steps are made anew.
///
/// It stores no history: `WasFed` relates it to the bytes that it was fed.
#[derive(Drop)]
pub struct Matcher<'m> {
    machine: &'m Trimmed,
    row: Row,
    spare: Row,
    cache: StepCache,
    good: u64,
    dead: bool,
}

impl<'m> Model for Matcher<'m> {
    ghost use Rattle.std.specs.Prelude.{◌≡◌, ◌<◌, ◌/◌, length};
    ghost use Rattle.kex_frontier.specs.Matchers.{Match};
    ghost use Rattle.kex_frontier.specs.Caches.{IsCacheOf};
    ghost use Rattle.kex_machine.specs.Nodes.{IsTrimmed};

    ghost Value = { Match };

    ghost view = { λ m.
        record { machine = m.machine.now; row = m.row; good = m.good; dead = m.dead } };

    ghost invariant = { λ m. (length m.machine.now.nodes / 64 < length m.row)
        × (length m.spare ≡ length m.row) × IsCacheOf m.machine.now.nodes m.row m.cache
        × IsTrimmed m.machine.now };
}

impl<'m> Matcher<'m> {
    /// The matcher of the empty text.
    pub fn new(alloc: Global, machine: &'m Trimmed) -> Result<Matcher<'m>, Memory>
        ensures machine { IfOk result (λ m. m.machine ≡ machine.now) }
        ensures begins { IfOk result (λ m. WasFed m []) }
        ensures count { IfOk result (λ m. m.good ≡ 0) }
    {
        let nodes = machine.nodes();
        let mut row = Row::new(alloc, nodes.len())?;
        let mut spare = Row::new(alloc, nodes.len())?;
        let cache = StepCache::new(alloc, machine.partition().copy(), row.words().len())?;
        row.mark(machine.start() as usize);
        close(nodes, &mut row, &mut spare);
        Ok(Matcher {
            machine,
            row,
            spare,
            cache,
            good: 0,
            dead: false,
        })
    }

    // Takes bytes whose steps are known. Gives how many.
    fn follow(&mut self, piece: &[u8]) -> usize
        requires { self.old.good + length piece.now < 2 ^ 64 }
        ensures taken { result ≤ length piece.now }
        ensures fed { (w : List ℕ) → WasFed self.old w
            → WasFed self.new (w ++ take result piece.now) }
        ensures machine { self.new.machine ≡ self.old.machine }
        ensures count { self.new.good ≤ self.old.good + result }
    {
        if self.dead {
            return 0;
        }
        let taken = self.cache.follow(piece, &mut self.row);
        self.good += taken as u64;
        taken
    }

    // Takes a byte by a step.
    fn take(&mut self, byte: u8)
        requires { self.old.good + 1 < 2 ^ 64 }
        ensures fed { (w : List ℕ) → WasFed self.old w → WasFed self.new (w ++ byte ∷ []) }
        ensures machine { self.new.machine ≡ self.old.machine }
        ensures count { self.new.good ≤ self.old.good + 1 }
    {
        let nodes = self.machine.nodes();
        if self.dead {
            return;
        }
        step(nodes, byte, &mut self.row, &mut self.spare);
        mem::swap(&mut self.row, &mut self.spare);
        if self.row.highest_below(nodes.len()).is_none() {
            self.cache.leave();
            self.dead = true;
        } else {
            self.cache.learn(byte, &self.row);
            self.good += 1;
        }
    }

    /// Takes a piece of the text. `Dead` exactly where no parse begins with all bytes, and then for
    /// good.
    ///
    /// A byte whose step is known costs one look-up. Another costs time in the words of a row, and
    /// in the places that are marked. Where a step without a byte leads to a higher place, the
    /// words between are looked through again.
    pub fn feed(&mut self, piece: &[u8]) -> Matched
        requires { self.old.good + length piece.now < 2 ^ 64 }
        ensures fed { (w : List ℕ) → WasFed self.old w → WasFed self.new (w ++ piece.now)
            × IsAnswer result self.new.machine (w ++ piece.now) }
        ensures machine { self.new.machine ≡ self.old.machine }
        ensures count { self.new.good ≤ self.old.good + length piece.now }
    {
        let mut taken = self.follow(piece);
        while taken < piece.len() {
            self.take(piece[taken]);
            taken += 1;
            taken += self.follow(&piece[taken..]);
        }
        if self.dead {
            Matched::Dead(self.good)
        } else {
            Matched::On
        }
    }

    /// Whether the bytes have a parse.
    pub fn end(&self) -> bool
        ensures { (w : List ℕ) → WasFed self.now w → (IsTrue result ↔ HasRun self.now.machine w) }
    {
        accepts(self.machine.nodes(), &self.row)
    }
}
