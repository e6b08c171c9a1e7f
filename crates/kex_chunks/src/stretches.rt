// What a table does along a text from its states.

ghost use Rattle.std.specs.Prelude.{◌≡◌, ◌<◌, ◌+◌, ◌^◌, IfOk, Some, length};
ghost use Rattle.kex_sst.specs.Tables.{IsTable};
ghost use Rattle.kex_sst.specs.Summaries.{IsCourseOf, courses_from, then_by, then_of};
ghost use Rattle.kex_chunks.specs.Stretches.{IsStretch, StopsBefore, course_in};

use crate::drafts::UpdateDraft;
use kex_code::memory::Memory;
use kex_sst::series::Series;
use kex_sst::shared::SharedUpdate;
use kex_sst::summary::Course;
use kex_sst::table::Table;
use std::alloc::Global;
use std::marker::Model;

/// A text is left after a number of bytes, or leads to a state by an update, which courses share.
#[derive(Drop)]
pub enum Stretch {
    Stops(u64),
    Leads(u32, SharedUpdate),
}

impl Stretch {
    // The same again.
    fn copy(&self) -> Result<Stretch, Memory>
        ensures { IfOk result (λ s. s ≡ self.now) }
    {
        match self {
            Stretch::Stops(count) => Ok(Stretch::Stops(*count)),
            Stretch::Leads(target, update) => Ok(Stretch::Leads(*target, update.copy()?)),
        }
    }

    /// The course that this is.
    pub fn into_course(self, alloc: Global) -> Course
        ensures { result ≡ course_in self }
    {
        match self {
            Stretch::Stops(count) => Course::Gone(count),
            Stretch::Leads(target, update) => Course::Goes(target, Series::new(alloc, update)),
        }
    }
}

/// Goes along a text from a state.
pub fn go_along(alloc: Global, table: &Table, state: u32, text: &[u8]) -> Result<Stretch, Memory>
    requires { state < length table.now.states }
    ensures { IfOk result (λ s. IsStretch table.now text.now state s) }
{
    let registers = table.states()[state as usize].registers();
    let mut draft = UpdateDraft::new(alloc, registers)?;
    let mut now = state;
    for i in 0..text.len() {
        let class = table.partition().class_of(text[i]);
        let Some((target, update)) = table.next(now, class) else {
            return Ok(Stretch::Stops(i as u64));
        };
        draft.push(update, text[i])?;
        now = target;
    }
    let update = SharedUpdate::new(alloc, draft.finish())?;
    Ok(Stretch::Leads(now, update))
}

/// What a table does along a text from the states that were asked for. Courses that have met go on
/// from their state once.
#[derive(Drop)]
pub struct Stretches<'t> {
    alloc: Global,
    table: &'t Table,
    text: &'t [u8],
    // By state.
    met: Vec<Option<Stretch>>,
}

impl<'t> Model for Stretches<'t> {
    ghost use Rattle.kex_chunks.specs.Stretches.{AreStretches, Stretched};

    ghost Value = { Stretched };

    ghost view = { λ s. record { table = s.table.now; text = s.text.now } };

    ghost invariant = { λ s. AreStretches s.table.now s.text.now s.met.items };
}

impl<'t> Stretches<'t> {
    /// No state was asked for.
    pub fn new(alloc: Global, table: &'t Table, text: &'t [u8]) -> Result<Stretches<'t>, Memory>
        ensures { IfOk result (λ s. s ≡ record { table = table.now; text = text.now }) }
    {
        let mut met = Vec::new(alloc);
        let states = table.states().len();
        'states: for _state in 0..states {
            met.push(None)?;
        }
        Ok(Stretches {
            alloc,
            table,
            text,
            met,
        })
    }

    // The stretch from a state.
    fn from(&mut self, state: u32) -> Result<Stretch, Memory>
        requires { state < length self.old.table.states }
        ensures stretch { IfOk result (λ s. IsStretch self.old.table self.old.text state s) }
        ensures table { IsTable self.old.table }
        ensures same { self.new ≡ self.old }
    {
        if let Some(stretch) = &self.met[state as usize] {
            return stretch.copy();
        }
        let stretch = go_along(self.alloc, self.table, state, self.text)?;
        self.met[state as usize] = Some(stretch.copy()?);
        Ok(stretch)
    }

    /// A course of `done` bytes, and after them the text.
    pub fn behind(&mut self, done: u64, course: Course) -> Result<Course, Memory>
        requires range { IsCourseOf done (length self.old.table.states) course }
        requires room { done + length self.old.text < 2 ^ 64 }
        ensures course { IfOk result (λ c. c ≡ then_of done
            (courses_from self.old.table self.old.table.states 0 self.old.text) course) }
        ensures same { self.new ≡ self.old }
    {
        match course {
            Course::Gone(count) => Ok(Course::Gone(count)),
            Course::Goes(state, series) => {
                let stretch = self.from(state)?;
                then_stretch(series, done, stretch)
            }
        }
    }
}

// A course of `done` bytes that goes, and after them a stretch.
fn then_stretch(series: Series, done: u64, stretch: Stretch) -> Result<Course, Memory>
    requires { StopsBefore (2 ^ 64) done (course_in stretch) }
    ensures { IfOk result (λ c. c ≡ then_by (Some (course_in stretch)) done series) }
{
    let mut all = series;
    match stretch {
        Stretch::Stops(count) => Ok(Course::Gone(done + count)),
        Stretch::Leads(target, update) => {
            all.push(update)?;
            Ok(Course::Goes(target, all))
        }
    }
}
