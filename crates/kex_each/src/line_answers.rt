// The answers to the lines of a text that comes in pieces.

ghost use Rattle.std.specs.Prelude.{◌≡◌, ◌+◌, ◌<◌, ◌≤◌, ◌^◌, ◌++◌, [], List, ℕ, IfOk, OnOk, length};
ghost use Rattle.kex_plan.specs.Plans.{AllTell};
ghost use Rattle.kex_plan.specs.declared.plan.Telling.TheVariants as telling;
ghost use Rattle.kex_each.specs.Answers.{plans_within};
ghost use Rattle.kex_each.specs.Lines.{IsBegunBehind, begun_behind, lines_behind, line_if_some};
ghost use Rattle.kex_each.specs.Pieces.{WritesAnswers};

use crate::desks::Desks;
use crate::lines::Lines;
use crate::texts::Texts;
use kex_code::memory::Memory;
use kex_plan::plan::Plan;
use kex_ports::Gate;
use std::alloc::Global;
use std::marker::Model;
use std::thread::Threads;

/// Answers the lines of a text that comes in pieces, each line as an input of its own. Of a line no
/// more is kept than its answer rests on.
///
/// Once a call has answered `Memory` it may only be dropped.
#[derive(Drop)]
pub struct LineAnswers<'p> {
    lines: Lines,
    // The lines that the last piece ended.
    ended: Texts,
    desks: Desks<'p>,
}

impl<'p> Model for LineAnswers<'p> {
    ghost use Rattle.kex_each.specs.Pieces.{IsEnough, LineReader};

    ghost Value = { LineReader };

    ghost view = { λ a. record { plans = a.desks.plans; begun = a.lines } };

    ghost invariant = { λ a. IsEnough a.lines.keep a.desks.plans };
}

impl<'p> LineAnswers<'p> {
    /// Nothing was read. The lines are answered by the stages of these plans, each of which takes
    /// at most `max_input` bytes, and are shared among `workers` workers.
    pub fn new(
        alloc: Global,
        plans: &'p [Plan],
        max_input: u64,
        workers: u32,
    ) -> Result<LineAnswers<'p>, Memory>
        requires some { 0 < length plans.now }
        requires told { AllTell telling.Agreed plans.now }
        requires limit { max_input + 1 < 2 ^ 64 }
        requires workers { (1 ≤ workers) × (workers ≤ 64) }
        ensures plans { IfOk result (λ a. a.plans ≡ plans_within max_input plans.now) }
        ensures begins { IfOk result (λ a. IsBegunBehind [] a.begun) }
    {
        Ok(LineAnswers {
            lines: Lines::new(alloc, max_input + 1),
            ended: Texts::new(alloc),
            desks: Desks::new(alloc, plans, max_input, workers)?,
        })
    }

    /// Reads a piece, and adds the answers to the lines that it ends to a text. Part k of the
    /// lines, counted from 1, enters the gate as k and leaves it.
    pub fn read<R: Threads + Sync, G: Gate + Sync>(
        &mut self,
        rt: &R,
        gate: &G,
        piece: &[u8],
        out: &mut Vec<u8>,
    ) -> Result<(), Memory>
        ensures plans { self.new.plans ≡ self.old.plans }
        ensures reads { OnOk result ((w : List ℕ) → IsBegunBehind w self.old.begun
            → IsBegunBehind (w ++ piece.now) self.new.begun) }
        ensures answers { OnOk result ((w : List ℕ) → IsBegunBehind w self.old.begun
            → WritesAnswers self.old.plans (lines_behind (begun_behind [] w) piece.now)
            out.old.items out.new.items) }
    {
        self.ended.clear();
        self.lines.read(piece, &mut self.ended)?;
        self.desks.answer_all(rt, gate, &self.ended)?;
        self.desks.write_into(out)
    }

    /// The text ends here: the answer to an unfinished line that isn't empty is added to a text.
    pub fn finish<R: Threads + Sync, G: Gate + Sync>(
        &mut self,
        rt: &R,
        gate: &G,
        out: &mut Vec<u8>,
    ) -> Result<(), Memory>
        ensures plans { self.new.plans ≡ self.old.plans }
        ensures answers { OnOk result ((w : List ℕ) → IsBegunBehind w self.old.begun
            → WritesAnswers self.old.plans (line_if_some (begun_behind [] w))
            out.old.items out.new.items) }
    {
        self.ended.clear();
        self.lines.finish(&mut self.ended)?;
        self.desks.answer_all(rt, gate, &self.ended)?;
        self.desks.write_into(out)
    }
}
