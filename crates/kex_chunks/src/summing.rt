// Summaries of texts.

ghost use Rattle.std.specs.Prelude.{◌≡◌, ◌<◌, ◌+◌, ◌^◌, ◌++◌, ℕ, List, IfOk, OnOk, Some};
ghost use Rattle.std.specs.Prelude.{length, map, slice_get};
ghost use Rattle.kex_sst.specs.Tables.{IsTable, Transducer};
ghost use Rattle.kex_sst.specs.Summaries.{IsCourseOf, courses_from, sum_of, then_by, then_of};
ghost use Rattle.kex_sst.specs.Summaries.{then_sum};
ghost use Rattle.kex_chunks.specs.Stretches.{StopsBefore};

use crate::stretches::{Stretches, go_along};
use kex_code::memory::Memory;
use kex_sst::series::Series;
use kex_sst::summary::{Course, Summary};
use kex_sst::table::Table;
use std::alloc::Global;
use std::mem;

// The course of a text from each state.
fn courses_of(alloc: Global, table: &Table, text: &[u8]) -> Result<Vec<Course>, Memory>
    ensures courses { IfOk result (λ all. all.items
        ≡ courses_from table.now table.now.states 0 text.now) }
    ensures table { IsTable table.now }
{
    let mut all = Vec::new(alloc);
    let states = table.states().len();
    'states: for state in 0..states {
        let stretch = go_along(alloc, table, state as u32, text)?;
        all.push(stretch.into_course(alloc))?;
    }
    Ok(all)
}

// Each course, of `done` bytes, goes on along a text.
fn go_on(
    alloc: Global,
    table: &Table,
    text: &[u8],
    done: u64,
    courses: &mut [Course],
) -> Result<(), Memory>
    requires range { (q : ℕ) (c : Course) → slice_get courses.old q ≡ Some c
        → IsCourseOf done (length table.now.states) c }
    requires room { done + length text.now < 2 ^ 64 }
    ensures { OnOk result (courses.new ≡ map (λ c. then_of done
        (courses_from table.now table.now.states 0 text.now) c) courses.old) }
{
    let mut stretches = Stretches::new(alloc, table, text)?;
    for i in 0..courses.len() {
        let course = mem::replace(&mut courses[i], Course::Gone(0));
        courses[i] = stretches.behind(done, course)?;
    }
    Ok(())
}

/// What a table does along a text, from each of its states.
///
/// Each stretch of the text is as long as what comes before it, and courses that have met by its
/// begin go along it once. So a course has about as many updates as the length has binary digits.
pub fn chunk(alloc: Global, table: &Table, piece: &[u8]) -> Result<Summary, Memory>
    ensures { IfOk result (λ s. s ≡ sum_of table.now piece.now) }
{
    let mut done = piece.len().min(1);
    let mut courses = courses_of(alloc, table, &piece[..done])?;
    'stretches: while done < piece.len() {
        let next = done + done.min(piece.len() - done);
        go_on(alloc, table, &piece[done..next], done as u64, &mut courses)?;
        done = next;
    }
    Ok(Summary::new(piece.len() as u64, courses))
}

// Bytes and their updates, and after them the course of another text.
fn joined(alloc: Global, bytes: u64, series: &Series, other: &Course) -> Result<Course, Memory>
    requires { StopsBefore (2 ^ 64) bytes other.now }
    ensures { IfOk result (λ c. c ≡ then_by (Some other.now) bytes series.now) }
{
    match other {
        Course::Gone(count) => Ok(Course::Gone(bytes + *count)),
        Course::Goes(target, more) => Ok(Course::Goes(*target, series.then(alloc, more)?)),
    }
}

// A course of `bytes` bytes, and after it what another text does from its state.
fn composed(alloc: Global, bytes: u64, course: &Course, other: &Summary) -> Result<Course, Memory>
    requires range { IsCourseOf bytes (length other.now.entries) course.now }
    requires room { bytes + other.now.bytes < 2 ^ 64 }
    ensures { IfOk result (λ c. c ≡ then_of bytes other.now.entries course.now) }
{
    match course {
        Course::Gone(count) => Ok(Course::Gone(*count)),
        Course::Goes(state, series) => {
            let others = other.entries();
            joined(alloc, bytes, series, &others[*state as usize])
        }
    }
}

/// The summary of two texts, one after the other, from theirs.
///
/// The two are of one table: they have as many entries.
pub fn compose(alloc: Global, one: &Summary, other: &Summary) -> Result<Summary, Memory>
    requires states { length one.now.entries ≡ length other.now.entries }
    requires room { one.now.bytes + other.now.bytes < 2 ^ 64 }
    ensures joined { IfOk result (λ s. s ≡ then_sum one.now other.now) }
    ensures text { IfOk result (λ s. (t : Transducer) (x y : List ℕ) → IsTable t
        → one.now ≡ sum_of t x → other.now ≡ sum_of t y → s ≡ sum_of t (x ++ y)) }
{
    let bytes = one.length();
    let entries = one.entries();
    let mut all = Vec::new(alloc);
    'entries: for course in entries {
        all.push(composed(alloc, bytes, course, other)?)?;
    }
    Ok(Summary::new(bytes + other.length(), all))
}
