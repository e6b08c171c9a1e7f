// A runner is fed a piece by the summaries of its parts.

ghost use Rattle.std.specs.Prelude.{◌≡◌, ◌+◌, ◌-◌, ◌*◌, ◌/◌, ◌%◌, ◌<◌, ◌≤◌, ◌^◌, [], IfOk, OnOk};
ghost use Rattle.std.specs.Prelude.{IsTrue, IsOk, min};
ghost use Rattle.std.specs.Prelude.{Some, ◌∷◌, ◌↔◌, false, length};
ghost use Rattle.std.specs.Thread.{IsSync};
ghost use Rattle.kex_runner.specs.Running.{RunnerFeeds};
ghost use Rattle.kex_chunks.specs.Parts.{AreSummaries};

use crate::summing::chunk;
use kex_code::code::Code;
use kex_code::memory::Memory;
use kex_ports::{Gate, Steps};
use kex_runner::runner::Runner;
use kex_runner::{Applied, Fed};
use kex_sst::summary::Summary;
use kex_sst::table::Table;
use std::alloc::Global;
use std::marker::Brand;
use std::sync::ledger::{Blank, Ledger};
use std::thread::{Threads, join_mut};

// The most states that a table has whose pieces are cut into parts: a summary has a course from
// each.
const MOST_STATES: usize = 64;

// How parts of a piece are summed up, the first of which has this number.
#[derive(Drop)]
struct SumTask<'s, G: Gate> {
    alloc: Global,
    table: &'s Table,
    gate: &'s G,
    first: u32,
}

impl<'s, G: Gate> SumTask<'s, G> {
    // The same for the parts after the first ones, of which there are `count`.
    fn after(&self, count: u32) -> SumTask<'s, G>
        requires { self.now.first + count < 2 ^ 32 }
        ensures first { result.first ≡ self.now.first + count }
        ensures table { result.table.now ≡ self.now.table.now }
    {
        SumTask {
            alloc: self.alloc,
            table: self.table,
            gate: self.gate,
            first: self.first + count,
        }
    }

    // The summary of the first part, which is made between its entering the gate and its leaving
    // it.
    fn work(&self, piece: &[u8], slot: &mut Option<Summary>) -> Result<(), Memory>
        ensures { OnOk result (AreSummaries self.now.table.now piece.now (slot.new ∷ [])) }
    {
        self.gate.enter(self.first);
        let made = chunk(self.alloc, self.table, piece);
        self.gate.leave(self.first);
        *slot = Some(made?);
        Ok(())
    }
}

// The bytes of the first parts: any two parts differ by one byte at most, and none is empty.
fn share_of(bytes: usize, parts: usize, first: usize) -> usize
    requires { (0 < parts) × (parts ≤ bytes) × (first ≤ parts) }
    ensures some { (first ≤ result) × (result + (parts - first) ≤ bytes) }
    ensures even { result ≡ bytes / parts * first + min (bytes % parts) first }
{
    bytes / parts * first + (bytes % parts).min(first)
}

// The summaries of the parts of a piece, as many as there are slots, of which none is empty.
fn work_all<R: Threads + Sync, G: Gate + Sync>(
    rt: &R,
    task: &SumTask<'_, G>,
    piece: &[u8],
    slots: &mut [Option<Summary>],
) -> Result<(), Memory>
    requires some { 0 < length slots.old }
    requires enough { length slots.old ≤ length piece.now }
    requires few { task.now.first + length slots.old ≤ 2 ^ 32 }
    ensures { OnOk result (AreSummaries task.now.table.now piece.now slots.new) }
{
    let count = slots.len();
    if count < 2 {
        return match slots.first_mut() {
            None => Ok(()),
            Some(slot) => task.work(piece, slot),
        };
    }
    let half = count / 2;
    let rest = task.after(half as u32);
    let next = &rest;
    let (here, there) = piece.split_at(share_of(piece.len(), count, half));
    let (front, back) = slots.split_at_mut(half);
    let (one, other) = join_mut(
        rt,
        &mut || -> Result<(), Memory>
            requires { IsSync R.row × (0 < length front.now) × (length front.now ≤ length here.now)
                × (task.now.first + length front.now ≤ 2 ^ 32) }
            ensures { OnOk result
                (AreSummaries task.entry.now.table.now here.entry.now front.exit.now) }
        { work_all(rt, task, here, front) },
        &mut || -> Result<(), Memory>
            requires { IsSync R.row × (0 < length back.now) × (length back.now ≤ length there.now)
                × (next.now.first + length back.now ≤ 2 ^ 32) }
            ensures { OnOk result
                (AreSummaries next.entry.now.table.now there.entry.now back.exit.now) }
        { work_all(rt, next, there, back) },
    );
    one?;
    other
}

// The summaries of this many parts of a piece.
fn summaries_of<R: Threads + Sync, G: Gate + Sync>(
    rt: &R,
    task: &SumTask<'_, G>,
    piece: &[u8],
    parts: usize,
) -> Result<Vec<Option<Summary>>, Memory>
    requires some { 0 < parts }
    requires enough { parts ≤ length piece.now }
    requires few { task.now.first + parts ≤ 2 ^ 32 }
    ensures { IfOk result (λ all. AreSummaries task.now.table.now piece.now all.items) }
{
    let mut all = Vec::new(task.alloc);
    'parts: for _part in 0..parts {
        all.push(None)?;
    }
    work_all(rt, task, piece, &mut all)?;
    Ok(all)
}

// Feeds a piece, with a count of steps of its own.
fn feed_by<L: Ledger>(
    runner: &mut Runner,
    piece: &[u8],
    code: &mut Code,
    blank: Blank,
) -> Result<Fed, Memory>
    requires name { blank.name ≡ L.name }
    requires parts { (blank.parts ≡ L.parts) × (0 < L.parts) }
    requires usable { IsTrue runner.old.usable }
    requires open { runner.old.ended ≡ false }
    requires room { runner.old.read + length piece.now < 2 ^ 64 }
    ensures fed { IfOk result (λ answer.
        RunnerFeeds answer runner.old runner.new piece.now code.old code.new) }
    ensures read { (runner.old.read ≤ runner.new.read)
        × (runner.new.read ≤ runner.old.read + length piece.now) }
    ensures table { runner.new.table ≡ runner.old.table }
    ensures words { runner.new.words ≡ runner.old.words }
    ensures open { runner.new.ended ≡ false }
    ensures usable { IsTrue runner.new.usable ↔ IsOk result }
{
    let mut steps: Steps<L> = Steps::new(blank);
    runner.feed(piece, code, &mut steps)
}

// Feeds a piece in order.
fn feed_plainly(runner: &mut Runner, piece: &[u8], code: &mut Code) -> Result<Fed, Memory>
    requires usable { IsTrue runner.old.usable }
    requires open { runner.old.ended ≡ false }
    requires room { runner.old.read + length piece.now < 2 ^ 64 }
    ensures fed { IfOk result (λ answer.
        RunnerFeeds answer runner.old runner.new piece.now code.old code.new) }
    ensures read { (runner.old.read ≤ runner.new.read)
        × (runner.new.read ≤ runner.old.read + length piece.now) }
    ensures table { runner.new.table ≡ runner.old.table }
    ensures words { runner.new.words ≡ runner.old.words }
    ensures open { runner.new.ended ≡ false }
    ensures usable { IsTrue runner.new.usable ↔ IsOk result }
{
    feed_by::<Brand>(runner, piece, code, Blank::new(1))
}

// Goes along the parts of a piece by their summaries, up to one in which the table stops; from its
// begin on what is left is fed in order.
fn apply_all(
    runner: &mut Runner,
    summaries: &[Option<Summary>],
    piece: &[u8],
    code: &mut Code,
) -> Result<Fed, Memory>
    requires summaries { AreSummaries runner.old.table piece.now summaries.now }
    requires some { 0 < length piece.now }
    requires live { runner.old.dead ≡ false }
    requires usable { IsTrue runner.old.usable }
    requires open { runner.old.ended ≡ false }
    requires room { runner.old.read + length piece.now < 2 ^ 64 }
    ensures fed { IfOk result (λ answer.
        RunnerFeeds answer runner.old runner.new piece.now code.old code.new) }
    ensures read { (runner.old.read ≤ runner.new.read)
        × (runner.new.read ≤ runner.old.read + length piece.now) }
    ensures table { runner.new.table ≡ runner.old.table }
    ensures words { runner.new.words ≡ runner.old.words }
    ensures open { runner.new.ended ≡ false }
    ensures usable { IsTrue runner.new.usable ↔ IsOk result }
{
    let mut at = 0;
    'parts: for slot in summaries {
        let Some(summary) = slot else {
            return feed_plainly(runner, &piece[at..], code);
        };
        match runner.apply(summary, code)? {
            Applied::On => at += summary.length() as usize,
            Applied::Gone(_) => return feed_plainly(runner, &piece[at..], code),
        }
    }
    Ok(Fed::On)
}

/// Feeds a piece as `Runner::feed` does, and counts no steps. The piece is cut into as many parts
/// as there are workers, or bytes if those are fewer. Their summaries are made at once, and the
/// runner goes along them in order; from the begin of a part in which the table stops on it is fed
/// plainly. Part k, counted from 1, enters the gate as k before its work and leaves it after.
///
/// By a table of more than 64 states, or after a byte that was refused, all is fed plainly, and
/// nothing enters the gate. After `Memory` the code may have a part of what the bytes let it pass
/// on, and the runner is only dropped.
pub fn feed_many<R: Threads + Sync, G: Gate + Sync>(
    rt: &R,
    alloc: Global,
    runner: &mut Runner,
    piece: &[u8],
    workers: u32,
    gate: &G,
    code: &mut Code,
) -> Result<Fed, Memory>
    requires workers { (1 ≤ workers) × (workers ≤ 64) }
    requires usable { IsTrue runner.old.usable }
    requires open { runner.old.ended ≡ false }
    requires room { runner.old.read + length piece.now < 2 ^ 64 }
    ensures fed { IfOk result (λ answer.
        RunnerFeeds answer runner.old runner.new piece.now code.old code.new) }
    ensures read { (runner.old.read ≤ runner.new.read)
        × (runner.new.read ≤ runner.old.read + length piece.now) }
    ensures table { runner.new.table ≡ runner.old.table }
    ensures words { runner.new.words ≡ runner.old.words }
    ensures open { runner.new.ended ≡ false }
    ensures usable { IsOk result → IsTrue runner.new.usable }
{
    let table = runner.table();
    if piece.is_empty() || runner.is_dead() || table.states().len() > MOST_STATES {
        return feed_plainly(runner, piece, code);
    }
    let task = SumTask {
        alloc,
        table,
        gate,
        first: 1,
    };
    let parts = piece.len().min(workers as usize);
    let summaries = summaries_of(rt, &task, piece, parts)?;
    apply_all(runner, &summaries, piece, code)
}
