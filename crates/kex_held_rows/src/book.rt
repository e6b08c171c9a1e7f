// Rows by number.

ghost use Rattle.std.specs.Prelude.{◌≡◌, ◌<◌, ◌++◌, ◌∷◌, [], Some, IfOk, IfSome, OnOk, OnErr};
ghost use Rattle.std.specs.Prelude.{IsTrue, length, slice_get, slice_set, replicate};
ghost use Rattle.kex_byteset.specs.Classes.{class_count};
ghost use Rattle.kex_held.specs.HeldRows.{HeldRow};
ghost use Rattle.kex_held.specs.LearntEdges.{IsRowWithin};
ghost use Rattle.kex_held.specs.RowEnds.{IsRightEnd};
ghost use Rattle.kex_held_rows.specs.declared.note.RowNote.TheVariants.{Unknown};
ghost use Rattle.kex_held_rows.specs.Books.{RowNotes, rows_in, bare_row, IsNoteOf, IsNoteRight};
ghost use Rattle.kex_held_rows.specs.Books.{KeepsRows};

use crate::note::{KnownEdge, KnownRow, RowNote};
use crate::same::is_same_row;
use kex_code::memory::Memory;
use kex_held::end::{LearntEnd, learn_end};
use kex_held::learn::learn_edge;
use kex_held::row::TextRow;
use kex_machine::Trimmed;
use kex_sst::table::Table;
use std::alloc::Global;
use std::marker::Model;
use std::mem;

/// No row.
const NO_ROW: u32 = 4_294_967_295;

/// How many rows there may be.
const MOST_ROWS: usize = 65_536;

/// How many notes there may be in all rows, before one more row.
const MOST_NOTES: usize = 262_144;

/// How many rows of one state are looked at, and there may be.
const LOOKS: u32 = 64;

/// Rows of a table and a machine by number, each with what is known of it at each class of bytes.
/// It is learnt when it is asked for.
///
/// There are bounds on all rows, and on those of one state. Past them no more rows are made, and
/// what would lead to one is noted as plain.
#[derive(Drop)]
pub struct RowLedger<'p> {
    alloc: Global,
    table: &'p Table,
    machine: &'p Trimmed,
    heads: Vec<u32>,
    rows: Vec<KnownRow>,
}

impl<'p> Model for RowLedger<'p> {
    ghost use Rattle.kex_held_rows.specs.Books.{RowBook, IsBook};

    ghost Value = { RowBook };

    ghost view = { λ b.
        record { table = b.table.now; machine = b.machine.now; rows = b.rows.items } };

    ghost invariant = { λ b.
        IsBook (record { table = b.table.now; machine = b.machine.now; rows = b.rows.items }) };
}

// The number of a row, if it is there and found soon.
fn find(rows: &[KnownRow], heads: &[u32], row: &TextRow) -> Option<u32>
    ensures { IfSome result (λ i. slice_get (rows_in rows.now) i ≡ Some row.now) }
{
    let mut number = *heads.get(row.state() as usize)?;
    'looks: for _ in 0..LOOKS {
        if number as usize >= rows.len() {
            return None;
        }
        let known = &rows[number as usize];
        if is_same_row(known.row(), row) {
            return Some(number);
        }
        number = known.earlier();
    }
    None
}

// Whether a row is that of a state and a node where nothing is held.
fn is_bare_row(row: &TextRow, state: u32, node: u32) -> bool
    ensures { IsTrue result → row.now ≡ bare_row state node }
{
    row.state() == state && row.node() == node && row.marks() == 0 && row.texts().is_empty()
}

// The number of the row of a state and a node where nothing is held, if it is the latest of its
// state.
fn find_bare(rows: &[KnownRow], heads: &[u32], state: u32, node: u32) -> Option<u32>
    ensures { IfSome result (λ i. slice_get (rows_in rows.now) i ≡ Some (bare_row state node)) }
{
    let number = *heads.get(state as usize)?;
    if number as usize >= rows.len() {
        return None;
    }
    if !is_bare_row(rows[number as usize].row(), state, node) {
        return None;
    }
    Some(number)
}

// Whether as many rows of a state are there as are looked at.
fn is_crowded(rows: &[KnownRow], heads: &[u32], state: u32) -> bool {
    let Some(head) = heads.get(state as usize) else {
        return true;
    };
    let mut number = *head;
    'looks: for _ in 0..LOOKS {
        let Some(known) = rows.get(number as usize) else {
            return false;
        };
        number = known.earlier();
    }
    true
}

// The number of the row after the first `count`, if it is one.
fn number_of(count: usize) -> Option<u32>
    ensures { IfSome result (λ number. number ≡ count) }
{
    u32::try_from(count).ok()
}

// The head of the rows of a state, in whose place the number is put.
fn head_of(heads: &mut [u32], state: u32, number: u32) -> u32 {
    match heads.get_mut(state as usize) {
        Some(head) => mem::replace(head, number),
        None => NO_ROW,
    }
}

// Puts a row of which nothing is learnt after others.
fn push_row(
    alloc: Global,
    rows: &mut Vec<KnownRow>,
    row: TextRow,
    earlier: u32,
    classes: usize,
) -> Result<(), Memory>
    ensures ok { OnOk result (rows.new.items ≡ rows.old.items
        ++ (record { row = row; notes = replicate classes Unknown }) ∷ []) }
    ensures err { OnErr result (rows.new.items ≡ rows.old.items) }
{
    let known = KnownRow::new(alloc, row, earlier, classes)?;
    rows.push(known)?;
    Ok(())
}

// Notes of a row what is known at a class.
fn put_note(rows: &mut Vec<KnownRow>, number: usize, class: usize, note: RowNote)
    requires number { number < length rows.old.items }
    requires class { (x : RowNotes) → slice_get rows.old.items number ≡ Some x
        → class < length x.notes }
    ensures { (x : RowNotes) → slice_get rows.old.items number ≡ Some x → rows.new.items ≡ slice_set
        rows.old.items number (record { row = x.row; notes = slice_set x.notes class note }) }
{
    let known = &mut rows[number];
    known.note(class, note);
}

// What is to be noted of an edge, of the row of a number with that many marks.
fn note_of(number: usize, marks: u8, edge: KnownEdge) -> RowNote
    ensures { IsNoteOf number marks edge result }
{
    let stays = edge.to() as usize == number;
    if stays && marks == 1 && edge.hands_on() {
        return RowNote::HandsOn;
    }
    if !edge.is_silent() {
        return RowNote::Goes(edge);
    }
    if stays {
        return RowNote::Stays;
    }
    if edge.keep().len() == marks as usize + 1 {
        return RowNote::Marks(edge.to());
    }
    RowNote::Goes(edge)
}

impl<'p> RowLedger<'p> {
    /// No rows.
    pub fn new(
        alloc: Global,
        table: &'p Table,
        machine: &'p Trimmed,
    ) -> Result<RowLedger<'p>, Memory>
        ensures { IfOk result (λ b.
            b ≡ record { table = table.now; machine = machine.now; rows = [] }) }
    {
        let mut heads = Vec::new(alloc);
        heads.resize(table.states().len(), NO_ROW)?;
        Ok(RowLedger {
            alloc,
            table,
            machine,
            heads,
            rows: Vec::new(alloc),
        })
    }

    // Whether there may be no more rows.
    fn is_full(&self) -> bool {
        let classes = self.table.partition().classes() as usize;
        self.rows.len() >= MOST_ROWS || self.rows.len() >= MOST_NOTES / (classes + 1)
    }

    /// The number of a row: its own, or the next. `None` where there are too many rows.
    pub fn row_of(&mut self, row: TextRow) -> Result<Option<u32>, Memory>
        requires { IsRowWithin self.old.table self.old.machine row }
        ensures at { IfOk result (λ o.
            IfSome o (λ i. slice_get (rows_in self.new.rows) i ≡ Some row)) }
        ensures keeps { KeepsRows self.old self.new }
    {
        if let Some(number) = find(&self.rows, &self.heads, &row) {
            return Ok(Some(number));
        }
        if self.is_full() || is_crowded(&self.rows, &self.heads, row.state()) {
            return Ok(None);
        }
        let Some(number) = number_of(self.rows.len()) else {
            return Ok(None);
        };
        let earlier = head_of(&mut self.heads, row.state(), number);
        let classes = self.table.partition().classes() as usize;
        push_row(self.alloc, &mut self.rows, row, earlier, classes)?;
        Ok(Some(number))
    }

    /// The number of the row of a state and a node where nothing is held: its own, or the next.
    /// `None` where there are too many rows.
    pub fn bare_row_of(&mut self, state: u32, node: u32) -> Result<Option<u32>, Memory>
        requires state { state < length self.old.table.states }
        requires node { node < length self.old.machine.nodes }
        ensures at { IfOk result (λ o.
            IfSome o (λ i. slice_get (rows_in self.new.rows) i ≡ Some (bare_row state node))) }
        ensures keeps { KeepsRows self.old self.new }
    {
        if let Some(number) = find_bare(&self.rows, &self.heads, state, node) {
            return Ok(Some(number));
        }
        let row = TextRow::new(state, node, 0, Vec::new(self.alloc));
        self.row_of(row)
    }

    /// The row of a number.
    pub fn row_at(&self, number: usize) -> &TextRow
        requires { number < length self.now.rows }
        ensures row { slice_get (rows_in self.now.rows) number ≡ Some result.now }
        ensures within { IsRowWithin self.now.table self.now.machine result.now }
    {
        let known = &self.rows[number];
        known.row()
    }

    /// What is known of a row at a class.
    pub fn note_at(&self, number: usize, class: u8) -> &RowNote
        requires number { number < length self.now.rows }
        requires class { class < class_count self.now.table.classes }
        ensures { (r : HeldRow) → slice_get (rows_in self.now.rows) number ≡ Some r → IsNoteRight
            self.now.table self.now.machine.nodes (rows_in self.now.rows) r class result.now }
    {
        let known = &self.rows[number];
        &known.notes()[class as usize]
    }

    // What is to be noted of a row at a class.
    fn note_for(&mut self, number: usize, class: u8) -> Result<RowNote, Memory>
        requires number { number < length self.old.rows }
        requires class { class < class_count self.old.table.classes }
        ensures right { IfOk result (λ n. (r : HeldRow) → slice_get (rows_in self.old.rows) number
            ≡ Some r → IsNoteRight self.old.table self.old.machine.nodes (rows_in self.new.rows) r
            class n) }
        ensures keeps { KeepsRows self.old self.new }
    {
        let from = self.row_at(number);
        let marks = from.marks();
        let learnt = learn_edge(self.alloc, self.table, self.machine, from, class)?;
        let Some(edge) = learnt else {
            return Ok(RowNote::Plain);
        };
        let (row, outs, keep) = edge.into_parts();
        let bare = row.texts().is_empty();
        let Some(to) = self.row_of(row)? else {
            return Ok(RowNote::Plain);
        };
        let known = KnownEdge::new(to, bare, outs, keep);
        Ok(note_of(number, marks, known))
    }

    /// Learns what a row does at a class.
    pub fn learn(&mut self, number: usize, class: u8) -> Result<(), Memory>
        requires number { number < length self.old.rows }
        requires class { class < class_count self.old.table.classes }
        ensures { KeepsRows self.old self.new }
    {
        let note = self.note_for(number, class)?;
        put_note(&mut self.rows, number, class as usize, note);
        Ok(())
    }

    /// What the end of the input does at a row. It is learnt each time it is asked for.
    pub fn end_of(&self, number: usize) -> Result<Option<LearntEnd>, Memory>
        requires number { number < length self.now.rows }
        ensures right { IfOk result (λ o. IfSome o (λ e. (r : HeldRow)
            → slice_get (rows_in self.now.rows) number ≡ Some r
            → IsRightEnd self.now.table self.now.machine.nodes r e)) }
        ensures node { IfOk result (λ o. IfSome o (λ e. e.node < length self.now.machine.nodes)) }
    {
        let row = self.row_at(number);
        learn_end(self.alloc, self.table, self.machine, row)
    }
}
