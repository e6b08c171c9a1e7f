// A chain of stages, which answers one line after another.

ghost use Rattle.std.specs.Prelude.{◌≡◌, ◌&&◌, ◌<◌, ◌^◌, ◌++◌, ◌∷◌, [], true, List, ℕ, IfOk, OnOk};
ghost use Rattle.std.specs.Prelude.{is_none, length};
ghost use Rattle.kex_model.specs.Answers.{Pipeline};
ghost use Rattle.kex_pipe.specs.Histories.{stop_as, why_as};
ghost use Rattle.kex_pipe.specs.Reports.{latest_report, report_as};
ghost use Rattle.kex_stage.specs.Stages.{Gives};
ghost use Rattle.kex_words.specs.Lines.{line_of};
ghost use Rattle.kex_each.specs.Answers.{AnswersLine, answer_text, plans_within, told_of_stop};
ghost use Rattle.kex_each.specs.Chains.{IsStageAnswer, chain_plans};

use crate::texts::Texts;
use kex_code::memory::Memory;
use kex_pipe::report::Rejected;
use kex_pipe::turn::{Stop, Turn, Why};
use kex_plan::plan::Plan;
use kex_stage::stage::Stage;
use kex_words::{Note, push_line};
use std::alloc::Global;
use std::marker::Model;
use std::mem;

/// The stages of a program without a pipe, each with a limit to what it takes. They answer one
/// line after another: each stage begins anew with a line, and none is made anew.
#[derive(Drop)]
pub struct Clerk<'p> {
    alloc: Global,
    stages: Vec<Stage<'p>>,
    // What a stage reads, and what it writes.
    text: Vec<u8>,
    next: Vec<u8>,
}

impl<'p> Model for Clerk<'p> {
    ghost use Rattle.std.specs.Prelude.{◌<◌, ◌^◌, List, length};
    ghost use Rattle.kex_each.specs.Chains.{chain_plans};
    ghost use Rattle.kex_stage.specs.Stages.{StagePlan};

    ghost Value = { List StagePlan };

    ghost view = { λ c. chain_plans c.stages.items };

    ghost invariant = { λ c. length c.stages.items < 2 ^ 32 };
}

// A stage's answer on an input, open or ended, in the place of what `out` held. Tells where it
// stops, if it does.
fn answer_by<'p>(
    stage: &mut Stage<'p>,
    input: &[u8],
    ended: bool,
    out: &mut Vec<u8>,
) -> Result<Option<Stop>, Memory>
    ensures same { ⟦<Stage<'p> as Turn>⟧.plan stage.new ≡ ⟦<Stage<'p> as Turn>⟧.plan stage.old }
    ensures answers { IfOk result (λ stop.
        IsStageAnswer (⟦<Stage<'p> as Turn>⟧.plan stage.old) input.now ended out.new.items stop) }
{
    out.clear();
    stage.begin_anew()?;
    stage.feed(input, out)?;
    if ended {
        stage.end(out)?;
    }
    Ok(stage.stop())
}

// The stop of this stage, or else the report of those before it.
fn latest(stage: u32, stop: Option<Stop>, before: Option<Rejected>) -> Option<Rejected>
    ensures { report_as result ≡ latest_report stage (stop_as stop) (report_as before) }
{
    match stop {
        None => before,
        Some(Stop { at, why }) => Some(Rejected { stage, at, why }),
    }
}

// An answer is ended where its input is, and it has no stop.
fn is_ended(ended: bool, stop: Option<Stop>) -> bool
    ensures { result ≡ (ended && is_none stop) }
{
    match stop {
        None => ended,
        Some(_) => false,
    }
}

// What the stages answer on a text that is their whole input, in its place. Tells what they report.
fn answer_in_turn<'p>(
    stages: &mut [Stage<'p>],
    text: &mut Vec<u8>,
    next: &mut Vec<u8>,
) -> Result<Option<Rejected>, Memory>
    requires { length stages.old < 2 ^ 32 }
    ensures same { chain_plans stages.new ≡ chain_plans stages.old }
    ensures answers { IfOk result (λ report. Pipeline (λ p w e a. Gives p w e a) 1
        (chain_plans stages.old) text.old.items true text.new.items (report_as report)) }
{
    let mut ended = true;
    let mut report = None;
    'stages: for i in 0..stages.len() {
        let stop = answer_by(&mut stages[i], text, ended, next)?;
        mem::swap(text, next);
        ended = is_ended(ended, stop);
        report = latest(i as u32 + 1, stop, report);
    }
    Ok(report)
}

// The note of a report.
fn note_of(report: Rejected) -> Note
    ensures { line_of result ≡ told_of_stop (why_as report.why) report.stage report.at }
{
    let Rejected { stage, at, why } = report;
    match why {
        Why::Byte => Note::Rejected {
            stage,
            at,
            at_end: false,
        },
        Why::End => Note::Rejected {
            stage,
            at,
            at_end: true,
        },
        Why::Limit => Note::TooLong { stage, at },
    }
}

// What was said gets its line feed, or goes, where there is a report, for the line of that.
fn close(alloc: Global, text: &mut Vec<u8>, report: Option<Rejected>) -> Result<(), Memory>
    ensures { OnOk result (text.new.items ≡ answer_text text.old.items (report_as report)) }
{
    match report {
        None => text.push(b'\n')?,
        Some(report) => {
            text.clear();
            push_line(alloc, note_of(report), text)?;
        }
    }
    Ok(())
}

impl<'p> Clerk<'p> {
    /// The stages with these plans, each of which takes at most `max_input` bytes.
    pub fn new(alloc: Global, plans: &'p [Plan], max_input: u64) -> Result<Clerk<'p>, Memory>
        ensures { IfOk result (λ clerk. clerk ≡ plans_within max_input plans.now) }
    {
        if plans.len() > u32::MAX as usize {
            return Err(Memory);
        }
        let mut stages = Vec::new(alloc);
        'plans: for plan in plans {
            stages.push(Stage::new(alloc, plan, max_input)?)?;
        }
        Ok(Clerk {
            alloc,
            stages,
            text: Vec::new(alloc),
            next: Vec::new(alloc),
        })
    }

    /// Adds the answer to a line, with its line feed.
    ///
    /// After `Memory` the clerk may only be dropped.
    pub fn answer(&mut self, line: &[u8], out: &mut Texts) -> Result<(), Memory>
        ensures same { self.new ≡ self.old }
        ensures answers { OnOk result ((text : List ℕ)
            × AnswersLine (λ p w e a. Gives p w e a) self.old line.now text
            × (out.new ≡ out.old ++ text ∷ [])) }
    {
        self.text.clear();
        self.text.extend_from_slice(line)?;
        let report = answer_in_turn(&mut self.stages, &mut self.text, &mut self.next)?;
        close(self.alloc, &mut self.text, report)?;
        out.push(&self.text)
    }
}
