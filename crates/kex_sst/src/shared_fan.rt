// The transitions of a state of many classes, each that is different once.

ghost use Rattle.std.specs.Prelude.{◌≡◌, ◌<◌, ◌≤◌, ◌+◌, ℕ, true, [], ◌∷◌, ◌++◌, None, Some};
ghost use Rattle.std.specs.Prelude.{OnErr, OnOk, IfOk, IfSome, get_or, length, slice_get};
ghost use Rattle.kex_sst.specs.Fans.{IsFan, fan};

use crate::table::Transition;
use kex_code::memory::Memory;
use std::alloc::Global;
use std::marker::Model;

/// Transitions by class. Classes that lead on alike share one.
#[derive(Drop)]
pub(crate) struct SharedFan {
    classes: u16,
    // By class, the number of its transition. A class past the last number has the first.
    numbers: Vec<u8>,
    different: Vec<Option<Transition>>,
}

impl Model for SharedFan {
    ghost use Rattle.std.specs.Prelude.{List, Option};
    ghost use Rattle.kex_sst.specs.declared.table.Transition.{Transition};
    ghost use Rattle.kex_sst.specs.Fans.{IsFan, fan};

    ghost Value = { List (Option Transition) };

    ghost view = { λ f. fan f.classes f.numbers.items f.different.items };

    ghost invariant = { λ f. IsFan f.classes f.numbers.items f.different.items };
}

// The number of a class.
fn number_at(numbers: &[u8], class: usize) -> u8
    ensures { result ≡ get_or numbers.now class 0 }
{
    match numbers.get(class) {
        Some(number) => *number,
        None => 0,
    }
}

// One more class has a number.
fn put_number(numbers: &mut Vec<u8>, class: usize, number: u8) -> Result<(), Memory>
    requires { length numbers.old.items ≤ class }
    ensures put { OnOk result (get_or numbers.new.items class 0 ≡ number) }
    ensures kept { (k : ℕ) → k < class
        → get_or numbers.new.items k 0 ≡ get_or numbers.old.items k 0 }
    ensures short { OnOk result (length numbers.new.items ≤ class + 1) }
    ensures within { OnErr result (length numbers.new.items ≤ class) }
{
    if number > 0 {
        numbers.resize(class, 0)?;
        numbers.push(number)?;
    }
    Ok(())
}

// Whether two transitions are the same.
fn is_same(left: &Option<Transition>, right: &Option<Transition>) -> bool
    ensures { result ≡ true → left.now ≡ right.now }
{
    match (left, right) {
        (None, None) => true,
        (Some(left), Some(right)) => {
            left.target == right.target && left.update.get().is_same(right.update.get())
        }
        _ => false,
    }
}

// Where a transition is, if it is there.
fn find(all: &[Option<Transition>], transition: &Option<Transition>) -> Option<usize>
    ensures { IfSome result (λ at. slice_get all.now at ≡ Some transition.now) }
{
    for (at, other) in all.iter().enumerate() {
        if is_same(other, transition) {
            return Some(at);
        }
    }
    None
}

// The number of a transition: that of an equal one, or the next.
fn number_of(
    different: &mut Vec<Option<Transition>>,
    transition: Option<Transition>,
) -> Result<u8, Memory>
    requires { length different.old.items < 256 }
    ensures at { IfOk result (λ n. slice_get different.new.items n ≡ Some transition) }
    ensures kept { (k : ℕ) → k < length different.old.items
        → get_or different.new.items k None ≡ get_or different.old.items k None }
    ensures longer { length different.old.items ≤ length different.new.items }
    ensures one { length different.new.items ≤ length different.old.items + 1 }
    ensures none { OnErr result (length different.new.items ≤ length different.old.items) }
{
    if let Some(number) = find(different, &transition) {
        return Ok(number as u8);
    }
    let number = different.len() as u8;
    different.push(transition)?;
    Ok(number)
}

impl SharedFan {
    /// No classes.
    pub(crate) fn new(alloc: Global) -> SharedFan
        ensures { result ≡ [] }
    {
        SharedFan {
            classes: 0,
            numbers: Vec::new(alloc),
            different: Vec::new(alloc),
        }
    }

    /// The transitions of these parts: each class has the transition of its number, and a class
    /// past the last number has the first.
    pub(crate) fn from_parts(
        classes: u16,
        numbers: Vec<u8>,
        different: Vec<Option<Transition>>,
    ) -> SharedFan
        requires { IsFan classes numbers.items different.items }
        ensures { result ≡ fan classes numbers.items different.items }
    {
        SharedFan {
            classes,
            numbers,
            different,
        }
    }

    /// The numbers by class, as far as they aren't that of the first, and the transitions that are
    /// different.
    pub(crate) fn parts(&self) -> (&[u8], &[Option<Transition>])
        ensures same { self.now ≡ fan (length self.now) result.0.now result.1.now }
        ensures fan { IsFan (length self.now) result.0.now result.1.now }
    {
        (&self.numbers, &self.different)
    }

    /// How many classes there are.
    pub(crate) fn len(&self) -> u16
        ensures long { result ≡ length self.now }
        ensures few { result ≤ 256 }
    {
        self.classes
    }

    /// The transition on a class, if a byte of the class can come.
    pub(crate) fn at(&self, class: u8) -> &Option<Transition>
        requires { class < length self.now }
        ensures { result.now ≡ get_or self.now class None }
    {
        let number = number_at(&self.numbers, usize::from(class));
        &self.different[usize::from(number)]
    }

    /// The next class has this transition. An equal one that is there is shared.
    pub(crate) fn push(&mut self, transition: Option<Transition>) -> Result<(), Memory>
        requires { length self.old < 256 }
        ensures { OnOk result (self.new ≡ self.old ++ transition ∷ []) }
    {
        let class = usize::from(self.classes);
        let number = number_of(&mut self.different, transition)?;
        if let Err(full) = put_number(&mut self.numbers, class, number) {
            // There are no more transitions than classes.
            self.different.truncate(class);
            return Err(full);
        }
        self.classes += 1;
        Ok(())
    }

    /// The next class has the transition of one before it.
    pub(crate) fn repeat(&mut self, class: u8) -> Result<(), Memory>
        requires few { length self.old < 256 }
        requires before { class < length self.old }
        ensures { OnOk result (self.new ≡ self.old ++ get_or self.old class None ∷ []) }
    {
        let number = number_at(&self.numbers, usize::from(class));
        put_number(&mut self.numbers, usize::from(self.classes), number)?;
        self.classes += 1;
        Ok(())
    }

    /// Gives back room that isn't used.
    pub(crate) fn shrink_to_fit(&mut self)
        ensures { self.new ≡ self.old }
    {
        self.numbers.shrink_to_fit();
        self.different.shrink_to_fit();
    }
}
