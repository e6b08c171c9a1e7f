// Rows and the edges between them.

ghost use Rattle.std.specs.Prelude.{◌≡◌};

use crate::item::{HeldItem, RegisterText};
use std::marker::Model;

/// A state of the table, the node where the actor is, how many marks there are in the window, and
/// what each table register holds.
#[derive(Drop)]
pub struct TextRow {
    state: u32,
    node: u32,
    marks: u8,
    texts: Vec<RegisterText>,
}

impl Model for TextRow {
    ghost use Rattle.kex_held.specs.HeldRows.{HeldRow};

    ghost Value = { HeldRow };

    ghost view = { λ r.
        record { state = r.state; node = r.node; marks = r.marks; lists = r.texts.items } };
}

impl TextRow {
    /// The row of these parts, which are moved.
    pub fn new(state: u32, node: u32, marks: u8, texts: Vec<RegisterText>) -> TextRow
        ensures { result
            ≡ record { state = state; node = node; marks = marks; lists = texts.items } }
    {
        TextRow {
            state,
            node,
            marks,
            texts,
        }
    }

    /// The state of the table.
    pub fn state(&self) -> u32
        ensures { result ≡ self.now.state }
    {
        self.state
    }

    /// The node where the actor is.
    pub fn node(&self) -> u32
        ensures { result ≡ self.now.node }
    {
        self.node
    }

    /// How many marks there are.
    pub fn marks(&self) -> u8
        ensures { result ≡ self.now.marks }
    {
        self.marks
    }

    /// What each table register holds.
    pub fn texts(&self) -> &[RegisterText]
        ensures { result.now ≡ self.now.lists }
    {
        &self.texts
    }
}

/// Where a row goes on a class of bytes: to another row, with items for the output, and which
/// points of the edge stay marks.
#[derive(Drop)]
pub struct LearntEdge {
    to: TextRow,
    outs: Vec<HeldItem>,
    keep: Vec<u8>,
}

impl Model for LearntEdge {
    ghost use Rattle.kex_held.specs.HeldRows.{RowEdge};

    ghost Value = { RowEdge };

    ghost view = { λ e. record { to = e.to; outs = e.outs.items; keep = e.keep.items } };
}

impl LearntEdge {
    /// The edge of these parts, which are moved.
    pub fn new(to: TextRow, outs: Vec<HeldItem>, keep: Vec<u8>) -> LearntEdge
        ensures { result ≡ record { to = to; outs = outs.items; keep = keep.items } }
    {
        LearntEdge { to, outs, keep }
    }

    /// The row to which it leads, what goes to the output, and which points stay marks: they are
    /// moved.
    pub fn into_parts(self) -> (TextRow, Vec<HeldItem>, Vec<u8>)
        ensures row { result.0 ≡ self.to }
        ensures outs { result.1.items ≡ self.outs }
        ensures keep { result.2.items ≡ self.keep }
    {
        (self.to, self.outs, self.keep)
    }

    /// The row to which it leads.
    pub fn to(&self) -> &TextRow
        ensures { result.now ≡ self.now.to }
    {
        &self.to
    }

    /// What goes to the output.
    pub fn outs(&self) -> &[HeldItem]
        ensures { result.now ≡ self.now.outs }
    {
        &self.outs
    }

    /// Which points stay marks, by their numbers.
    pub fn keep(&self) -> &[u8]
        ensures { result.now ≡ self.now.keep }
    {
        &self.keep
    }
}
