// A window of input bytes, with marks in it.

ghost use Rattle.std.specs.Prelude.{◌≡◌, ◌<◌, ◌≤◌, ◌+◌, ◌^◌, ◌++◌, [], ℕ, OnOk, length};
ghost use Rattle.std.specs.Prelude.{get_or, slice_get, drop};
ghost use Rattle.kex_held.specs.Slices.{slice_between, AreRising, AreKept, IsItemWithin};
ghost use Rattle.kex_held.specs.Slices.{marks_by, shifted_marks};
ghost use Rattle.kex_held.specs.declared.item.HeldItem.TheVariants.{Slice};
ghost use Rattle.kex_held.specs.Windows.{text_with_next, points_at, HasNoMarkBelow, LeavesBehind};

use kex_code::memory::Memory;
use std::alloc::Global;
use std::marker::Model;
use std::mem;

/// Bytes, of which some were read, and marks among those.
#[derive(Drop)]
pub struct Window {
    bytes: Vec<u8>,
    at: usize,
    marks: Vec<usize>,
    spare: Vec<usize>,
}

impl Model for Window {
    ghost use Rattle.kex_held.specs.Windows.{MarkedText, IsMarkedText};

    ghost Value = { MarkedText };

    ghost view = { λ w. record { bytes = w.bytes.items; at = w.at; marks = w.marks.items } };

    ghost invariant = { λ w.
        IsMarkedText (record { bytes = w.bytes.items; at = w.at; marks = w.marks.items }) };
}

// Leaves `count` bytes behind, and shifts the marks.
fn shift(marks: &mut Vec<usize>, count: usize)
    requires { (i : ℕ) → i < length marks.old.items → count ≤ get_or marks.old.items i 0 }
    ensures { marks.new.items ≡ shifted_marks count marks.old.items }
{
    'marks: for i in 0..marks.len() {
        marks[i] -= count;
    }
}

// The first mark, or where there is none, the place after all that was read.
fn lowest(marks: &[usize], at: usize) -> usize
    requires { AreRising at marks.now }
    ensures { HasNoMarkBelow at marks.now result }
{
    if marks.is_empty() {
        return at;
    }
    marks[0]
}

// How many bytes are left behind: those before the first mark, or none where more would stay than
// go. So each byte is moved a few times at most.
fn left_front(marks: &[usize], at: usize, length: usize) -> usize
    requires { AreRising at marks.now }
    ensures { HasNoMarkBelow at marks.now result }
{
    let count = lowest(marks, at);
    if count < length / 2 {
        return 0;
    }
    count
}

// Leaves `count` bytes behind.
fn leave(bytes: &mut Vec<u8>, count: usize)
    requires { count ≤ length bytes.old.items }
    ensures { bytes.new.items ≡ drop count bytes.old.items }
{
    bytes.drain(..count);
}

// Where a point of an edge lies at the byte after the first `at`.
#[inline(always)]
fn point_of(marks: &[usize], at: usize, number: u8) -> usize
    requires fits { at + 1 < 2 ^ 64 }
    requires within { number < length marks.now + 2 }
    ensures { result ≡ get_or (points_at at marks.now) number 0 }
{
    let number = number as usize;
    let count = marks.len();
    if number < count {
        return marks[number];
    }
    at + (number - count)
}

// Puts points of an edge one after another.
fn put_points(marks: &[usize], at: usize, keep: &[u8], out: &mut Vec<usize>) -> Result<(), Memory>
    requires fits { at + 1 < 2 ^ 64 }
    requires kept { AreKept (length marks.now + 2) keep.now }
    requires none { out.old.items ≡ [] }
    ensures { OnOk result (out.new.items ≡ marks_by (points_at at marks.now) keep.now) }
{
    'points: for number in keep {
        let point = point_of(marks, at, *number);
        out.push(point)?;
    }
    Ok(())
}

impl Window {
    /// Nothing is read, and there are no marks.
    pub fn new(alloc: Global) -> Window
        ensures { result ≡ record { bytes = []; at = 0; marks = [] } }
    {
        Window {
            bytes: Vec::new(alloc),
            at: 0,
            marks: Vec::new(alloc),
            spare: Vec::new(alloc),
        }
    }

    /// Puts a piece after the bytes.
    pub fn give(&mut self, piece: &[u8]) -> Result<(), Memory>
        ensures { OnOk result (self.new ≡ record self.old { bytes = self.old.bytes ++ piece.now }) }
    {
        self.bytes.extend_from_slice(piece)?;
        Ok(())
    }

    /// The next byte, if there is one.
    pub fn next(&self) -> Option<u8>
        ensures { result ≡ slice_get self.now.bytes self.now.at }
    {
        self.bytes.get(self.at).copied()
    }

    /// Writes a slice between two points of an edge at the next byte.
    pub fn write(&self, from: u8, to: u8, out: &mut Vec<u8>) -> Result<(), Memory>
        requires more { self.now.at < length self.now.bytes }
        requires within { IsItemWithin (length self.now.marks + 2) (Slice from to) }
        ensures { let points = points_at self.now.at self.now.marks in
            OnOk result (out.new.items ≡ out.old.items ++ slice_between (text_with_next self.now)
            (get_or points from 0) (get_or points to 0)) }
    {
        let start = point_of(&self.marks, self.at, from);
        let end = point_of(&self.marks, self.at, to);
        out.extend_from_slice(&self.bytes[start..end])?;
        Ok(())
    }

    /// Reads the next byte, and keeps some points as marks.
    pub fn step(&mut self, keep: &[u8]) -> Result<(), Memory>
        requires more { self.old.at < length self.old.bytes }
        requires kept { AreKept (length self.old.marks + 2) keep.now }
        ensures { OnOk result (self.new ≡ record {
          bytes = self.old.bytes;
          at = self.old.at + 1;
          marks = marks_by (points_at self.old.at self.old.marks) keep.now;
        }) }
    {
        self.spare.clear();
        put_points(&self.marks, self.at, keep, &mut self.spare)?;
        mem::swap(&mut self.marks, &mut self.spare);
        self.at += 1;
        Ok(())
    }

    /// Leaves behind what comes before the first mark, or all that was read where there is none;
    /// or nothing, where more would have to be moved.
    pub fn carry(&mut self)
        ensures { LeavesBehind self.old self.new }
    {
        let count = left_front(&self.marks, self.at, self.bytes.len());
        leave(&mut self.bytes, count);
        shift(&mut self.marks, count);
        self.at -= count;
    }
}
