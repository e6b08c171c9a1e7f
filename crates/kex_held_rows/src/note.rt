// What is known of a row.

ghost use Rattle.std.specs.Prelude.{◌≡◌, ◌<◌, [], ◌∷◌, IfOk, IsTrue, length, replicate};
ghost use Rattle.std.specs.Prelude.{slice_set, true};
ghost use Rattle.kex_held.specs.declared.item.HeldItem.TheVariants.{Slice};
ghost use Rattle.kex_held_rows.specs.NumberedEdges.{HasFirsts};
ghost use Rattle.kex_held_rows.specs.declared.note.RowNote.TheVariants.{Unknown};

use crate::same::are_same_items;
use kex_code::memory::Memory;
use kex_held::item::HeldItem;
use kex_held::row::TextRow;
use std::alloc::Global;
use std::marker::Model;

/// An edge to a row, by its number, with items for the output and the points that stay marks.
#[derive(Drop)]
pub struct KnownEdge {
    to: u32,
    bare: bool,
    outs: Vec<HeldItem>,
    keep: Vec<u8>,
    firsts: usize,
}

impl Model for KnownEdge {
    ghost use Rattle.kex_held_rows.specs.NumberedEdges.{NumberedEdge, HasFirsts};

    ghost Value = { NumberedEdge };

    ghost view = { λ e.
        record { to = e.to; bare = e.bare; outs = e.outs.items; keep = e.keep.items } };

    ghost invariant = { λ e. HasFirsts e.firsts e.keep.items };
}

// How many of the points that stay are the first ones, in their order.
fn count_firsts(keep: &[u8]) -> usize
    ensures { HasFirsts result keep.now }
{
    for (i, point) in keep.iter().enumerate() {
        if *point as usize != i {
            return i;
        }
    }
    keep.len()
}

// Whether two lists of points are the same.
fn are_same_points(left: &[u8], right: &[u8]) -> bool
    ensures { result ≡ true → left.now ≡ right.now }
{
    left == right
}

impl KnownEdge {
    /// The edge of these parts, which are moved.
    pub fn new(to: u32, bare: bool, outs: Vec<HeldItem>, keep: Vec<u8>) -> KnownEdge
        ensures { result
            ≡ record { to = to; bare = bare; outs = outs.items; keep = keep.items } }
    {
        let firsts = count_firsts(&keep);
        KnownEdge {
            to,
            bare,
            outs,
            keep,
            firsts,
        }
    }

    /// The number of the row to which it leads.
    pub fn to(&self) -> u32
        ensures { result ≡ self.now.to }
    {
        self.to
    }

    /// Whether that row holds nothing.
    pub fn is_bare(&self) -> bool
        ensures { result ≡ self.now.bare }
    {
        self.bare
    }

    /// What goes to the output.
    pub fn outs(&self) -> &[HeldItem]
        ensures { result.now ≡ self.now.outs }
    {
        &self.outs
    }

    /// Which points stay marks, by their numbers.
    pub fn keep(&self) -> &[u8]
        ensures { result.now ≡ self.now.keep }
    {
        &self.keep
    }

    /// How many of these are the first ones, in their order.
    pub fn firsts(&self) -> usize
        ensures { HasFirsts result self.now.keep }
    {
        self.firsts
    }

    /// Whether nothing goes to the output, and the points that stay are the first ones.
    pub fn is_silent(&self) -> bool
        ensures { IsTrue result → (self.now.outs ≡ []) × HasFirsts (length self.now.keep)
            self.now.keep }
    {
        self.outs.is_empty() && self.firsts == self.keep.len()
    }

    /// Whether the bytes from the first point to the second go to the output, and the second is the
    /// one that stays.
    pub fn hands_on(&self) -> bool
        ensures { IsTrue result → (self.now.outs ≡ Slice 0 1 ∷ []) × (self.now.keep ≡ 1 ∷ []) }
    {
        are_same_items(&self.outs, &[HeldItem::Slice(0, 1)]) && are_same_points(&self.keep, &[1])
    }
}

/// What is known of a row at a class of bytes.
#[derive(Drop)]
pub enum RowNote {
    /// Nothing is learnt yet.
    Unknown,
    /// No edge: the byte is taken in another way.
    Plain,
    /// The row stays: nothing goes to the output, and the marks stay.
    Stays,
    /// The row stays, with one mark: the bytes from there up to this one go to the output, and this
    /// one is marked.
    HandsOn,
    /// It goes to the row of this number: nothing goes to the output, the marks stay, and the byte
    /// is one mark more.
    Marks(u32),
    /// It goes along an edge.
    Goes(KnownEdge),
}

/// A row with what is known of it at each class, and the number of an earlier row of its state.
#[derive(Drop)]
pub struct KnownRow {
    row: TextRow,
    earlier: u32,
    notes: Vec<RowNote>,
}

impl Model for KnownRow {
    ghost use Rattle.kex_held_rows.specs.Books.{RowNotes};

    ghost Value = { RowNotes };

    ghost view = { λ x. record { row = x.row; notes = x.notes.items } };
}

// A note for each class that nothing is learnt.
fn unknown(alloc: Global, classes: usize) -> Result<Vec<RowNote>, Memory>
    ensures { IfOk result (λ notes. notes.items ≡ replicate classes Unknown) }
{
    let mut notes = Vec::new(alloc);
    for _ in 0..classes {
        notes.push(RowNote::Unknown)?;
    }
    Ok(notes)
}

impl KnownRow {
    /// A row of which nothing is learnt at any of its classes.
    pub fn new(
        alloc: Global,
        row: TextRow,
        earlier: u32,
        classes: usize,
    ) -> Result<KnownRow, Memory>
        ensures { IfOk result (λ x.
            x ≡ record { row = row; notes = replicate classes Unknown }) }
    {
        let notes = unknown(alloc, classes)?;
        Ok(KnownRow {
            row,
            earlier,
            notes,
        })
    }

    /// The row.
    pub fn row(&self) -> &TextRow
        ensures { result.now ≡ self.now.row }
    {
        &self.row
    }

    /// The number of an earlier row of its state.
    pub fn earlier(&self) -> u32 {
        self.earlier
    }

    /// What is known of it, by class.
    pub fn notes(&self) -> &[RowNote]
        ensures { result.now ≡ self.now.notes }
    {
        &self.notes
    }

    /// Notes what is known at a class.
    pub fn note(&mut self, class: usize, note: RowNote)
        requires { class < length self.old.notes }
        ensures { self.new
            ≡ record { row = self.old.row; notes = slice_set self.old.notes class note } }
    {
        self.notes[class] = note;
    }
}
