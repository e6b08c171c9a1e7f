// A clerk with what it has answered.

ghost use Rattle.std.specs.Prelude.{◌≡◌, [], IfOk};
ghost use Rattle.kex_each.specs.Answers.{plans_within};

use crate::clerk::Clerk;
use crate::texts::Texts;
use kex_code::memory::Memory;
use kex_plan::plan::Plan;
use std::alloc::Global;
use std::marker::Model;

/// What works on lines at a place of its own, and keeps its answers.
///
/// Threads are started by functions over a type parameter: where the type has a lifetime of its
/// own, what a borrow of it comes back with isn't known.
pub trait LineDesk {
    ghost use Rattle.std.specs.Prelude.{◌≡◌, ◌≤◌, [], OnOk, length};
    ghost use Rattle.kex_each.specs.Answers.{PlansAnswerLines};
    ghost use Rattle.kex_each.specs.Desks.{DeskState, lines_between};

    ghost state: { Self → DeskState };

    /// Lets its answers go.
    fn clear(&mut self)
        ensures { state self.new ≡ record (state self.old) { answers = [] } };

    /// Answers some of these lines, in the place of what it had answered.
    fn work(&mut self, lines: &Texts, from: usize, to: usize) -> Result<(), Memory>
        requires { (from ≤ to) × (to ≤ length lines.now) }
        ensures plans { (state self.new).plans ≡ (state self.old).plans }
        ensures answers { OnOk result (PlansAnswerLines (state self.old).plans
            (lines_between from to lines.now) (state self.new).answers) };
}

/// A clerk at a desk of its own, with what it has answered.
#[derive(Drop)]
pub struct Desk<'p> {
    clerk: Clerk<'p>,
    answers: Texts,
}

impl<'p> Model for Desk<'p> {
    ghost use Rattle.kex_each.specs.Desks.{DeskState};

    ghost Value = { DeskState };

    ghost view = { λ d. record { plans = d.clerk; answers = d.answers } };
}

impl<'p> Desk<'p> {
    /// For lines through these stages, each within the limit. It has no answers yet.
    pub fn new(alloc: Global, plans: &'p [Plan], max_input: u64) -> Result<Desk<'p>, Memory>
        ensures { IfOk result (λ desk.
            desk ≡ record { plans = plans_within max_input plans.now; answers = [] }) }
    {
        Ok(Desk {
            clerk: Clerk::new(alloc, plans, max_input)?,
            answers: Texts::new(alloc),
        })
    }

    /// What it has answered.
    pub fn answers(&self) -> &Texts
        ensures { result.now ≡ self.now.answers }
    {
        &self.answers
    }
}

impl<'p> LineDesk for Desk<'p> {
    ghost state = { λ d. d };

    fn clear(&mut self) {
        self.answers.clear();
    }

    fn work(&mut self, lines: &Texts, from: usize, to: usize) -> Result<(), Memory> {
        self.answers.clear();
        'lines: for i in from..to {
            self.clerk.answer(lines.get(i), &mut self.answers)?;
        }
        Ok(())
    }
}
