//! Summaries of texts, and what feeds by them. No clause says that two are made at once, and that
//! there is memory for one.
ghost use Rattle.std.specs.Prelude.{◌≡◌, ℕ, List, IsTrue, false};
ghost use Rattle.kex_sst.specs.Summaries.{sum_of};

use crate::made::ANY;
use kex_chunks::{chunk, compose, feed_many};
use kex_code::code::Code;
use kex_compile::compile;
use kex_plan::plan::Plan;
use kex_ports::{MeetGate, OpenGate};
use kex_runner::runner::Runner;
use kex_runner::{Applied, Fed};
use kex_sst::summary::{Course, Summary};
use kex_sst::table::Table;
use std::alloc::{AllocError, Global};
use std::test::Fail;
use std::thread::Threads;

// The course from each state.
fn shown(alloc: Global, summary: &Summary) -> Result<String, AllocError> {
    let mut all = String::new(alloc);
    for course in summary.entries() {
        let text = match course {
            Course::Gone(count) => format!(in alloc; " gone {}", *count)?,
            Course::Goes(state, _) => format!(in alloc; " to {}", *state)?,
        };
        all.push_str(text.as_str())?;
    }
    Ok(all)
}

// The summary of two texts, one after the other, by theirs.
fn composed(alloc: Global, table: &Table, one: &str, other: &str) -> Result<String, Fail> {
    let one = chunk(alloc, table, one.as_bytes())?;
    let other = chunk(alloc, table, other.as_bytes())?;
    if one.entries().len() != other.entries().len() || one.length().max(other.length()) > 99 {
        return Err(Fail::from("no summaries of one table"));
    }
    let both = compose(alloc, &one, &other)?;
    Ok(shown(alloc, &both)?)
}

// Two texts, and the courses of one after the other from the three states of a table, which are
// numbered as they are met.
const COURSES: &str = r#"
b x => gone 0 gone 1 gone 0
b b => gone 0 to 1 gone 0
ab bc => to 2 gone 0 gone 0
bb bcx => gone 0 gone 4 gone 0
"#;

#[test]
fn courses_are_those_of_the_rows(rt: HostRuntime) -> Result<(), Fail> {
    let alloc = rt.alloc();
    let compiled = compile(alloc, b"main := /ab*c/", &ANY)?;
    let table = compiled
        .stages()
        .first()
        .and_then(Plan::table)
        .ok_or("no table")?;
    for row in COURSES.trim().lines() {
        let (texts, want) = row.split_once(" =>").ok_or("no courses")?;
        let (one, other) = texts.split_once(' ').ok_or("no text")?;
        let got = composed(alloc, table, one, other)?;
        assert_eq!(rt; got.as_str(), want, "{texts}");
        let text = format!(in alloc; "{one}{other}")?;
        let whole = shown(alloc, &chunk(alloc, table, text.as_str().as_bytes())?)?;
        assert_eq!(rt; whole.as_str(), want, "{texts}");
    }
    Ok(())
}

// Whether the first part and the second are worked on at once.
fn meet<R: Threads + Sync>(rt: &R, alloc: Global, table: &Table) -> Result<bool, Fail> {
    let gate = MeetGate::default();
    let mut code = Code::new(alloc);
    let mut runner = Runner::new(alloc, table)?;
    if feed_many(rt, alloc, &mut runner, b"a", 1, &OpenGate, &mut code)? != Fed::On {
        return Ok(false);
    }
    let fed = feed_many(rt, alloc, &mut runner, b"bb", 2, &gate, &mut code)?;
    Ok(fed == Fed::On && gate.saw(1) && gate.saw(2))
}

#[test]
fn gate_meets_chunks(rt: HostRuntime) -> Result<(), Fail> {
    let alloc = rt.alloc();
    let compiled = compile(alloc, b"main := /ab*c/", &ANY)?;
    let table = compiled
        .stages()
        .first()
        .and_then(Plan::table)
        .ok_or("no table")?;
    assert!(&rt; meet(&rt, alloc, table)?);
    Ok(())
}

// What comes of the second of two texts, by their summaries.
fn apply_both<'t>(
    runner: &mut Runner<'t>,
    one: &Summary,
    other: &Summary,
    code: &mut Code,
) -> Result<Option<Applied>, Fail>
    requires one { (x : List ℕ) × (one.now ≡ sum_of runner.old.table x) }
    requires other { (x : List ℕ) × (other.now ≡ sum_of runner.old.table x) }
    requires usable { IsTrue runner.old.usable }
    requires open { runner.old.ended ≡ false }
    requires read { runner.old.read ≡ 0 }
{
    if runner.is_dead() || one.length().max(other.length()) > 99 {
        return Ok(None);
    }
    match runner.apply(one, code)? {
        Applied::On => Ok(Some(runner.apply(other, code)?)),
        Applied::Gone(_) => Ok(None),
    }
}

// A text by its summary after `a`.
fn applied(alloc: Global, table: &Table, text: &[u8]) -> Result<Option<Applied>, Fail> {
    let first = chunk(alloc, table, b"a")?;
    let summary = chunk(alloc, table, text)?;
    let mut code = Code::new(alloc);
    let mut runner = Runner::new(alloc, table)?;
    apply_both(&mut runner, &first, &summary, &mut code)
}

#[test]
fn summaries_are_gone_along_or_not_at_all(rt: HostRuntime) -> Result<(), Fail> {
    let alloc = rt.alloc();
    let compiled = compile(alloc, b"main := /ab*c/", &ANY)?;
    let table = compiled
        .stages()
        .first()
        .and_then(Plan::table)
        .ok_or("no table")?;
    assert!(rt; applied(alloc, table, b"bx")? == Some(Applied::Gone(1)));
    assert!(rt; applied(alloc, table, b"bb")? == Some(Applied::On));
    Ok(())
}
