// Desks that share lines out among threads.

ghost use Rattle.std.specs.Prelude.{◌≡◌, ◌+◌, ◌-◌, ◌*◌, ◌/◌, ◌%◌, ◌≤◌, ◌<◌, ◌^◌, ◌++◌, []};
ghost use Rattle.std.specs.Prelude.{IfOk, OnOk, is_ok, length, map, min};
ghost use Rattle.std.specs.List.{concat};
ghost use Rattle.std.specs.Thread.{IsSync};
ghost use Rattle.kex_each.specs.Answers.{PlansAnswerLines, plans_within};
ghost use Rattle.kex_each.specs.Desks.{AllWorked, lines_between, without_answers};

use crate::desk::{Desk, LineDesk};
use crate::texts::Texts;
use kex_code::memory::Memory;
use kex_plan::plan::Plan;
use kex_ports::Gate;
use std::alloc::Global;
use std::marker::Model;
use std::thread::{Threads, join_mut};

/// Desks of the same stages, which share lines out among threads.
#[derive(Drop)]
pub struct Desks<'p> {
    desks: Vec<Desk<'p>>,
}

// One desk's work on a line or more, between its entering the gate and its leaving it.
fn work_one<D: LineDesk, G: Gate>(
    gate: &G,
    part: u32,
    desk: &mut D,
    lines: &Texts,
    from: usize,
    to: usize,
) -> Result<(), Memory>
    requires { (from < to) × (to ≤ length lines.now) }
    ensures plans { (D.state desk.new).plans ≡ (D.state desk.old).plans }
    ensures answers { OnOk result (PlansAnswerLines (D.state desk.old).plans
        (lines_between from to lines.now) (D.state desk.new).answers) }
{
    gate.enter(part);
    let worked = desk.work(lines, from, to);
    gate.leave(part);
    worked
}

// Of `lines` lines the share of the first desks: the shares of any two differ by one line at most,
// and the others have a line each left.
fn share_of(lines: usize, desks: usize, first: usize) -> usize
    requires { (0 < desks) × (desks ≤ lines) × (first ≤ desks) }
    ensures some { (first ≤ result) × (result + (desks - first) ≤ lines) }
    ensures even { result ≡ lines / desks * first + min (lines % desks) first }
{
    lines / desks * first + (lines % desks).min(first)
}

// The work of these desks on some of the lines, in parts of which none is empty; the first part has
// this number.
fn work_all<R: Threads + Sync, D: LineDesk + Send, G: Gate + Sync>(
    rt: &R,
    gate: &G,
    first: u32,
    lines: &Texts,
    from: usize,
    to: usize,
    desks: &mut [D],
) -> Result<(), Memory>
    requires some { 0 < length desks.old }
    requires few { first + length desks.old ≤ 2 ^ 32 }
    requires enough { length desks.old ≤ to - from }
    requires within { (from ≤ to) × (to ≤ length lines.now) }
    ensures { AllWorked (is_ok result) (lines_between from to lines.now)
        (map D.state desks.old) (map D.state desks.new) }
{
    let count = desks.len();
    if count < 2 {
        return match desks.first_mut() {
            None => Ok(()),
            Some(desk) => work_one(gate, first, desk, lines, from, to),
        };
    }
    let half = count / 2;
    let next = first + half as u32;
    let cut = from + share_of(to - from, count, half);
    // Each closure borrows a number of its own: what it was lent is back before the other's is.
    let end = cut;
    let (front, back) = desks.split_at_mut(half);
    let (one, other) = join_mut(
        rt,
        &mut || -> Result<(), Memory>
            requires { IsSync R.row × (0 < length front.now) × (length front.now ≤ end - from)
                × (first + length front.now ≤ 2 ^ 32) × (from ≤ end) × (end ≤ length lines.now) }
            ensures { AllWorked (is_ok result) (lines_between from end lines.entry.now)
                (map D.state front.entry.now) (map D.state front.exit.now) }
        { work_all(rt, gate, first, lines, from, end, front) },
        &mut || -> Result<(), Memory>
            requires { IsSync R.row × (0 < length back.now) × (length back.now ≤ to - cut)
                × (next + length back.now ≤ 2 ^ 32) × (cut ≤ to) × (to ≤ length lines.now) }
            ensures { AllWorked (is_ok result) (lines_between cut to lines.entry.now)
                (map D.state back.entry.now) (map D.state back.exit.now) }
        { work_all(rt, gate, next, lines, cut, to, back) },
    );
    one?;
    other
}

// No desk has answers any more.
fn clear_all<D: LineDesk>(desks: &mut [D])
    ensures { map D.state desks.new ≡ without_answers (map D.state desks.old) }
{
    for i in 0..desks.len() {
        desks[i].clear();
    }
}

// The work of desks on lines, in the place of what they had answered. Of desks beyond the number of
// lines there is none.
fn answer_in_parts<R: Threads + Sync, D: LineDesk + Send, G: Gate + Sync>(
    rt: &R,
    gate: &G,
    lines: &Texts,
    desks: &mut [D],
) -> Result<(), Memory>
    requires { (0 < length desks.old) × (length desks.old ≤ 64) }
    ensures { AllWorked (is_ok result) lines.now (map D.state desks.old) (map D.state desks.new) }
{
    clear_all(desks);
    if lines.len() == 0 {
        return Ok(());
    }
    let parts = desks.len().min(lines.len());
    let (busy, _idle) = desks.split_at_mut(parts);
    work_all(rt, gate, 1, lines, 0, lines.len(), busy)
}

impl<'p> Model for Desks<'p> {
    ghost use Rattle.std.specs.Prelude.{◌<◌, ◌≤◌, length};
    ghost use Rattle.kex_each.specs.Desks.{DeskState, HavePlans, answers_of, first_plans};

    ghost Value = { DeskState };

    ghost view = { λ d.
        record { plans = first_plans d.desks.items; answers = answers_of d.desks.items } };

    ghost invariant = { λ d. (0 < length d.desks.items) × (length d.desks.items ≤ 64)
        × HavePlans (first_plans d.desks.items) d.desks.items };
}

impl<'p> Desks<'p> {
    /// `count` desks, each with the stages of these plans, of which each takes at most `max_input`
    /// bytes.
    pub fn new(
        alloc: Global,
        plans: &'p [Plan],
        max_input: u64,
        count: u32,
    ) -> Result<Desks<'p>, Memory>
        requires { (1 ≤ count) × (count ≤ 64) }
        ensures { IfOk result (λ desks.
            desks ≡ record { plans = plans_within max_input plans.now; answers = [] }) }
    {
        let mut desks = Vec::new(alloc);
        'desks: for _desk in 0..count {
            desks.push(Desk::new(alloc, plans, max_input)?)?;
        }
        Ok(Desks { desks })
    }

    /// Answers lines, in the place of what was answered. They are shared out in as many parts as
    /// there are desks, or lines if those are fewer, and worked on at once. Part k, counted from 1,
    /// enters the gate as k before its first line, and leaves it after its last.
    ///
    /// After `Memory` the desks may only be dropped.
    pub fn answer_all<R: Threads + Sync, G: Gate + Sync>(
        &mut self,
        rt: &R,
        gate: &G,
        lines: &Texts,
    ) -> Result<(), Memory>
        ensures plans { self.new.plans ≡ self.old.plans }
        ensures answers { OnOk result (PlansAnswerLines self.old.plans lines.now self.new.answers) }
    {
        answer_in_parts(rt, gate, lines, &mut self.desks)
    }

    /// Adds the answers to a text.
    pub fn write_into(&self, out: &mut Vec<u8>) -> Result<(), Memory>
        ensures { OnOk result (out.new.items ≡ out.old.items ++ concat self.now.answers) }
    {
        let all = self.desks.as_slice();
        'desks: for desk in all {
            out.extend_from_slice(desk.answers().bytes())?;
        }
        Ok(())
    }

    /// Adds a copy of each answer.
    pub fn unpack_into(&self, alloc: Global, all: &mut Vec<Vec<u8>>) -> Result<(), Memory>
        ensures { OnOk result (map (λ v. v.items) all.new.items
            ≡ map (λ v. v.items) all.old.items ++ self.now.answers) }
    {
        let desks = self.desks.as_slice();
        'desks: for desk in desks {
            desk.answers().unpack_into(alloc, all)?;
        }
        Ok(())
    }
}
