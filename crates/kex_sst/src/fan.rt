// The transitions of a state.

ghost use Rattle.std.specs.Prelude.{◌≡◌, ◌<◌, ◌≤◌, ◌++◌, ℕ, [], ◌∷◌, None, true};
ghost use Rattle.std.specs.Prelude.{OnOk, IfOk, get_or, length};
ghost use Rattle.kex_sst.specs.Fanned.{IsFanned, fan_of};
ghost use Rattle.kex_sst.specs.Fans.{IsFan, fan};

use crate::shared_fan::SharedFan;
use crate::table::Transition;
use kex_code::memory::Memory;
use std::alloc::Global;
use std::marker::Model;
use std::mem;

/// With no more classes than this, each has its own transition. Numbers would take more than they
/// save.
const FEW: usize = 8;

// The numbers of few classes.
static OWN: [u8; FEW] = [0, 1, 2, 3, 4, 5, 6, 7];

/// The transitions of a state: for each class of bytes one, or none where no byte of the class can
/// come. Where there are many classes, those that lead on alike share one.
#[derive(Drop)]
pub struct Fan {
    alloc: Global,
    kind: Fanned,
}

#[derive(Drop)]
enum Fanned {
    Each(Vec<Option<Transition>>),
    Shared(Box<SharedFan>),
}

impl Model for Fan {
    ghost use Rattle.std.specs.Prelude.{List, Option};
    ghost use Rattle.kex_sst.specs.declared.table.Transition.{Transition};
    ghost use Rattle.kex_sst.specs.Fanned.{IsFanned, fan_of};

    ghost Value = { List (Option Transition) };

    ghost view = { λ f. fan_of f.kind };

    ghost invariant = { λ f. IsFanned f.kind };
}

// The same transition again.
fn copy_of(transition: &Option<Transition>) -> Result<Option<Transition>, Memory>
    ensures { IfOk result (λ t. t ≡ transition.now) }
{
    let Some(Transition { target, update }) = transition else {
        return Ok(None);
    };
    let update = update.copy()?;
    Ok(Some(Transition {
        target: *target,
        update,
    }))
}

// Whether each class has its own number.
fn are_own(numbers: &[u8]) -> bool
    ensures { result ≡ true → (k : ℕ) → k < length numbers.now → get_or numbers.now k 0 ≡ k }
{
    for (class, number) in numbers.iter().enumerate() {
        if usize::from(*number) != class {
            return false;
        }
    }
    true
}

// These transitions, those that are alike shared.
fn share(alloc: Global, each: Vec<Option<Transition>>) -> Result<SharedFan, Memory>
    requires { length each.items ≤ 256 }
    ensures { IfOk result (λ s. s ≡ each.items) }
{
    let mut shared = SharedFan::new(alloc);
    for transition in each {
        shared.push(transition)?;
    }
    Ok(shared)
}

impl Fanned {
    // Transitions that are shared, in a place of their own.
    fn shared(alloc: Global, fan: SharedFan) -> Result<Fanned, Memory>
        ensures kind { IfOk result (λ k. IsFanned k) }
        ensures same { IfOk result (λ k. fan_of k ≡ fan) }
    {
        match Box::new(alloc, fan) {
            Ok(fan) => Ok(Fanned::Shared(fan)),
            Err(_) => Err(Memory),
        }
    }
}

impl Fan {
    /// No classes yet, with room for `classes` if they are few.
    pub fn with_capacity(alloc: Global, classes: u16) -> Result<Fan, Memory>
        ensures { IfOk result (λ f. f ≡ []) }
    {
        let each = Vec::with_capacity(alloc, usize::from(classes).min(FEW))?;
        Ok(Fan {
            alloc,
            kind: Fanned::Each(each),
        })
    }

    /// The transitions of these parts: each class has the transition of its number, and a class
    /// past the last number has the first.
    pub fn from_parts(
        alloc: Global,
        classes: u16,
        numbers: &[u8],
        different: Vec<Option<Transition>>,
    ) -> Result<Fan, Memory>
        requires { IsFan classes numbers.now different.items }
        ensures { IfOk result (λ f. f ≡ fan classes numbers.now different.items) }
    {
        let count = usize::from(classes);
        if count <= FEW && numbers.len() == count && different.len() == count && are_own(numbers) {
            return Ok(Fan {
                alloc,
                kind: Fanned::Each(different),
            });
        }
        let mut own = Vec::with_capacity(alloc, numbers.len())?;
        own.extend_from_slice(numbers)?;
        let kind = Fanned::shared(alloc, SharedFan::from_parts(classes, own, different))?;
        Ok(Fan { alloc, kind })
    }

    /// The numbers by class, as far as they aren't that of the first, and the transitions that have
    /// them.
    pub fn parts(&self) -> (&[u8], &[Option<Transition>])
        ensures same { self.now ≡ fan (length self.now) result.0.now result.1.now }
        ensures fan { IsFan (length self.now) result.0.now result.1.now }
    {
        match &self.kind {
            Fanned::Each(each) => (&OWN[..each.len()], each),
            Fanned::Shared(shared) => shared.parts(),
        }
    }

    /// How many classes there are.
    pub fn len(&self) -> u16
        ensures long { result ≡ length self.now }
        ensures few { result ≤ 256 }
    {
        match &self.kind {
            Fanned::Each(each) => each.len() as u16,
            Fanned::Shared(shared) => shared.len(),
        }
    }

    /// The transition on a class, if a byte of the class can come.
    pub fn at(&self, class: u8) -> &Option<Transition>
        requires { class < length self.now }
        ensures { result.now ≡ get_or self.now class None }
    {
        match &self.kind {
            Fanned::Each(each) => &each[usize::from(class)],
            Fanned::Shared(shared) => shared.at(class),
        }
    }

    /// The next class has this transition.
    pub fn push(&mut self, transition: Option<Transition>) -> Result<(), Memory>
        requires { length self.old < 256 }
        ensures { OnOk result (self.new ≡ self.old ++ transition ∷ []) }
    {
        match &mut self.kind {
            Fanned::Each(each) => {
                if each.len() < FEW {
                    each.push(transition)?;
                    return Ok(());
                }
                let each = mem::replace(each, Vec::new(self.alloc));
                let mut shared = share(self.alloc, each)?;
                shared.push(transition)?;
                self.kind = Fanned::shared(self.alloc, shared)?;
                Ok(())
            }
            Fanned::Shared(shared) => shared.push(transition),
        }
    }

    /// The next class has the transition of one before it.
    pub fn repeat(&mut self, class: u8) -> Result<(), Memory>
        requires few { length self.old < 256 }
        requires before { class < length self.old }
        ensures { OnOk result (self.new ≡ self.old ++ get_or self.old class None ∷ []) }
    {
        if let Fanned::Shared(shared) = &mut self.kind {
            return shared.repeat(class);
        }
        let transition = copy_of(self.at(class))?;
        self.push(transition)
    }

    /// Gives back room that isn't used.
    pub fn shrink_to_fit(&mut self)
        ensures { self.new ≡ self.old }
    {
        match &mut self.kind {
            Fanned::Each(each) => each.shrink_to_fit(),
            Fanned::Shared(shared) => shared.shrink_to_fit(),
        }
    }
}
