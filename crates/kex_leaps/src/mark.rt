// Marks in a piece, and what is to be done along it.

ghost use Rattle.std.specs.Prelude.{◌≡◌, ◌<◌, ◌≤◌, ◌+◌, ◌^◌, ◌++◌, ◌∷◌, ℕ, [], false, IsTrue};
ghost use Rattle.std.specs.Prelude.{IfOk, OnOk, length, get_or};
ghost use Rattle.kex_held.specs.Slices.{IsItemWithin, AreItemsWithin, AreKept, marks_by};
ghost use Rattle.kex_held.specs.Windows.{points_at};
ghost use Rattle.kex_leaps.specs.declared.act.LeapAct.TheVariants.{Text};
ghost use Rattle.kex_leaps.specs.Leaps.{leap_act, leap_acts};

use crate::act::LeapAct;
use kex_action::push::push;
use kex_code::memory::Memory;
use kex_held::item::HeldItem;
use kex_held_rows::note::KnownEdge;
use std::alloc::Global;
use std::mem;

/// The places of the marks in a piece, and what is to be done for what was read of it.
#[derive(Drop)]
pub struct Trace {
    pub marks: Vec<usize>,
    pub acts: Vec<LeapAct>,
    pub spare: Vec<usize>,
}

// Where a point of an edge lies at the byte after the first `at`.
#[inline(always)]
fn point_of(marks: &[usize], at: usize, number: u8) -> usize
    requires fits { at + 1 < 2 ^ 64 }
    requires within { number < length marks.now + 2 }
    ensures { result ≡ get_or (points_at at marks.now) number 0 }
{
    let number = number as usize;
    let count = marks.len();
    if number < count {
        return marks[number];
    }
    at + (number - count)
}

// What an item is at the byte after the first `at`.
#[inline(always)]
fn place(marks: &[usize], at: usize, item: HeldItem) -> LeapAct
    requires fits { at + 1 < 2 ^ 64 }
    requires within { IsItemWithin (length marks.now + 2) item }
    ensures { result ≡ leap_act at marks.now item }
{
    match item {
        HeldItem::Slice(from, to) => LeapAct::Text {
            from: point_of(marks, at, from),
            to: point_of(marks, at, to),
        },
        HeldItem::Effect(node) => LeapAct::Effect(node),
    }
}

// Puts items after acts.
#[inline(always)]
pub(crate) fn put_acts(
    marks: &[usize],
    at: usize,
    items: &[HeldItem],
    acts: &mut Vec<LeapAct>,
) -> Result<(), Memory>
    requires fits { at + 1 < 2 ^ 64 }
    requires within { AreItemsWithin (length marks.now + 2) items.now }
    ensures { OnOk result (acts.new.items ≡ acts.old.items ++ leap_acts at marks.now items.now) }
{
    'items: for item in items {
        let act = place(marks, at, *item);
        push(acts, act)?;
    }
    Ok(())
}

// Puts points of an edge one after another.
#[inline(never)]
fn put_points(marks: &[usize], at: usize, keep: &[u8], out: &mut Vec<usize>) -> Result<(), Memory>
    requires fits { at + 1 < 2 ^ 64 }
    requires kept { AreKept (length marks.now + 2) keep.now }
    requires none { out.old.items ≡ [] }
    ensures { OnOk result (out.new.items ≡ marks_by (points_at at marks.now) keep.now) }
{
    'points: for number in keep {
        let point = point_of(marks, at, *number);
        push(out, point)?;
    }
    Ok(())
}

// Whether one point alone comes after the first `front`, and is that of the byte after the marks.
#[inline(always)]
fn ends_at_byte(keep: &[u8], front: usize, marks: usize) -> bool
    requires { front ≤ length keep.now }
    ensures { IsTrue result → (length keep.now ≡ front + 1) × (get_or keep.now front 0 ≡ marks) }
{
    keep.len() == front + 1 && keep[front] as usize == marks
}

// Keeps points as marks where those are the first marks alone, or these and then the place of the
// byte. Tells whether it is so.
#[inline(always)]
fn keep_front(marks: &mut Vec<usize>, at: usize, edge: &KnownEdge) -> Result<bool, Memory>
    ensures kept { IfOk result (λ b. IsTrue b
        → marks.new.items ≡ marks_by (points_at at marks.old.items) edge.now.keep) }
    ensures same { IfOk result (λ b. b ≡ false → marks.new.items ≡ marks.old.items) }
{
    let keep = edge.keep();
    let firsts = edge.firsts();
    // All marks and the place of the byte, as at most edges that write.
    if firsts == keep.len() && firsts == marks.len() + 1 {
        push(marks, at)?;
        return Ok(true);
    }
    let front = firsts.min(marks.len());
    if front == keep.len() {
        marks.truncate(front);
        return Ok(true);
    }
    if ends_at_byte(keep, front, marks.len()) {
        marks.truncate(front);
        push(marks, at)?;
        return Ok(true);
    }
    Ok(false)
}

// Keeps some points as marks.
#[inline(always)]
fn keep_points(
    marks: &mut Vec<usize>,
    spare: &mut Vec<usize>,
    at: usize,
    edge: &KnownEdge,
) -> Result<(), Memory>
    requires fits { at + 1 < 2 ^ 64 }
    requires kept { AreKept (length marks.old.items + 2) edge.now.keep }
    ensures { OnOk result (marks.new.items
        ≡ marks_by (points_at at marks.old.items) edge.now.keep) }
{
    if keep_front(marks, at, edge)? {
        return Ok(());
    }
    spare.clear();
    put_points(marks, at, edge.keep(), spare)?;
    mem::swap(marks, spare);
    Ok(())
}

impl Trace {
    /// No marks, and nothing to do.
    pub fn new(alloc: Global) -> Trace {
        Trace {
            marks: Vec::new(alloc),
            acts: Vec::new(alloc),
            spare: Vec::new(alloc),
        }
    }

    /// There are no marks any more, and nothing to do.
    pub fn clear(&mut self)
        ensures marks { self.new.marks.items ≡ [] }
        ensures acts { self.new.acts.items ≡ [] }
    {
        self.marks.clear();
        self.acts.clear();
    }

    /// One mark more.
    #[inline(always)]
    pub fn mark(&mut self, at: usize) -> Result<(), Memory>
        ensures marks { OnOk result (self.new.marks.items ≡ self.old.marks.items ++ at ∷ []) }
        ensures acts { self.new.acts.items ≡ self.old.acts.items }
    {
        push(&mut self.marks, at)
    }

    /// The bytes from the one mark up to a place go to the output, and that is marked.
    #[inline(always)]
    pub fn hand_on(&mut self, to: usize) -> Result<(), Memory>
        requires { length self.old.marks.items ≡ 1 }
        ensures { OnOk result ((m : ℕ) → self.old.marks.items ≡ m ∷ []
            → (self.new.acts.items ≡ self.old.acts.items ++ Text m to ∷ [])
            × (self.new.marks.items ≡ to ∷ [])) }
    {
        let from = self.marks[0];
        push(&mut self.acts, LeapAct::Text { from, to })?;
        self.marks[0] = to;
        Ok(())
    }

    /// Notes what goes to the output at the byte after `at` others, and keeps some points as marks.
    #[inline(always)]
    pub fn take(&mut self, edge: &KnownEdge, at: usize) -> Result<(), Memory>
        requires fits { at + 1 < 2 ^ 64 }
        requires outs { AreItemsWithin (length self.old.marks.items + 2) edge.now.outs }
        requires kept { AreKept (length self.old.marks.items + 2) edge.now.keep }
        ensures acts { OnOk result (self.new.acts.items
            ≡ self.old.acts.items ++ leap_acts at self.old.marks.items edge.now.outs) }
        ensures marks { OnOk result (self.new.marks.items
            ≡ marks_by (points_at at self.old.marks.items) edge.now.keep) }
    {
        if !edge.outs().is_empty() {
            put_acts(&self.marks, at, edge.outs(), &mut self.acts)?;
        }
        keep_points(&mut self.marks, &mut self.spare, at, edge)
    }
}
