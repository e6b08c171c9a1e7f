// The answers to lines that are at hand.

ghost use Rattle.std.specs.Prelude.{◌≤◌, IfOk, map};
ghost use Rattle.kex_plan.specs.Plans.{AllTell};
ghost use Rattle.kex_stage.specs.Stages.{Gives};
ghost use Rattle.kex_plan.specs.declared.plan.Telling.TheVariants as telling;
ghost use Rattle.kex_each.specs.Answers.{AnswersLine, PlansAnswerLines, plans_within};

use crate::clerk::Clerk;
use crate::desks::Desks;
use crate::texts::Texts;
use kex_code::memory::Memory;
use kex_plan::plan::Plan;
use kex_ports::Gate;
use std::alloc::Global;
use std::thread::Threads;

/// The answer to a line, with its line feed: what the stages of these plans write for it as their
/// whole input, of which each takes at most `max_input` bytes; or the line of what they report.
pub fn answer(alloc: Global, plans: &[Plan], line: &[u8], max_input: u64) -> Result<Vec<u8>, Memory>
    requires { AllTell telling.Agreed plans.now }
    ensures { IfOk result (λ text. AnswersLine (λ p w e a. Gives p w e a)
        (plans_within max_input plans.now) line.now text.items) }
{
    let mut clerk = Clerk::new(alloc, plans, max_input)?;
    let mut answers = Texts::new(alloc);
    clerk.answer(line, &mut answers)?;
    Ok(Vec::from_slice(alloc, answers.get(0))?)
}

/// The answers to lines, in their order. `workers` workers share the lines out, or as many as there
/// are lines. Part k of the lines, counted from 1, enters the gate as k before its first line, and
/// leaves it after its last.
pub fn batch<R: Threads + Sync, G: Gate + Sync>(
    rt: &R,
    alloc: Global,
    plans: &[Plan],
    lines: &[Vec<u8>],
    max_input: u64,
    workers: u32,
    gate: &G,
) -> Result<Vec<Vec<u8>>, Memory>
    requires told { AllTell telling.Agreed plans.now }
    requires workers { (1 ≤ workers) × (workers ≤ 64) }
    ensures { IfOk result (λ answers. PlansAnswerLines (plans_within max_input plans.now)
        (map (λ v. v.items) lines.now) (map (λ v. v.items) answers.items)) }
{
    let mut packed = Texts::new(alloc);
    'lines: for line in lines {
        packed.push(line)?;
    }
    let mut desks = Desks::new(alloc, plans, max_input, workers)?;
    desks.answer_all(rt, gate, &packed)?;
    let mut answers = Vec::new(alloc);
    desks.unpack_into(alloc, &mut answers)?;
    Ok(answers)
}
