// The oracle of a stage: a frontier of its machine, or a runner of its table.

ghost use Rattle.std.specs.Prelude.{◌≡◌, ◌↔◌, ◌+◌, ◌^◌, ◌<◌, ◌≤◌, [], false, IfErr, IfOk};
ghost use Rattle.std.specs.Prelude.{ℕ, OnOk, IsTrue, length};
ghost use Rattle.kex_machine.specs.Answers.{IsViableFor};
ghost use Rattle.kex_machine.specs.Nodes.{Graph};
ghost use Rattle.kex_plan.specs.declared.plan.Telling.{Telling};
ghost use Rattle.kex_stage.specs.Ahead.{CanWait, CannotEnd, FinishesPast, IsAdvance, IsStill};
ghost use Rattle.kex_stage.specs.Ahead.{PutsNoneOff, SeesAhead, heard_part, good_part};
ghost use Rattle.kex_stage.specs.Oracles.{Hears, IsOracleFor, IsReady, TellsEnd, learnt_of};
ghost use Rattle.kex_stage.specs.Oracles.{read_of, usable_of};
ghost use Rattle.kex_stage.specs.Works.{RefusesNone, StageFinishes, StageWorks};

use crate::advance::{Advance, Approach};
use crate::ahead::Outlook;
use crate::follower::Follower;
use crate::paths::Paths;
use crate::speak::{StageFault, speak};
use kex_action::actor::Actor;
use kex_code::code::Code;
use kex_code::memory::Memory;
use kex_frontier::frontier::Frontier;
use kex_plan::plan::Plan;
use std::alloc::Global;

/// Finds the code that the bytes agree on.
#[derive(Drop)]
pub enum Oracle<'p> {
    Paths(Paths<'p>),
    Table(Follower<'p>),
}

impl<'p> Oracle<'p> {
    /// An oracle that was fed nothing: over the plan's table, or without one over its machine.
    pub fn new(alloc: Global, plan: &'p Plan) -> Result<Oracle<'p>, Memory>
        ensures hears { IfOk result (λ o. Hears plan.now.telling plan.now.machine o [] []) }
        ensures good { IfOk result (λ o. IsViableFor plan.now.machine []) }
        ensures own { IfOk result (λ o. IsOracleFor plan.now.telling plan.now.machine o) }
        ensures learnt { IfOk result (λ o. learnt_of o plan.now.machine ≡ plan.now.machine) }
        ensures ready { IfOk result (λ o. IsReady o × (read_of o ≡ 0)) }
    {
        let machine = plan.machine();
        match plan.route() {
            Some(route) => {
                let follower = Follower::new(alloc, &route, machine)?;
                Ok(Oracle::Table(follower))
            }
            None => {
                let frontier = Frontier::new(alloc, machine)?;
                Ok(Oracle::Paths(Paths { frontier, read: 0 }))
            }
        }
    }

    /// Whether no call has answered `Memory`.
    pub fn usable(&self) -> bool
        ensures { result ≡ usable_of self.now }
    {
        match self {
            Oracle::Paths(paths) => paths.frontier.usable(),
            Oracle::Table(follower) => follower.runner.usable(),
        }
    }

    /// Is as a new oracle: it was fed nothing. What was learnt stays.
    pub fn begin_anew(&mut self) -> Result<(), Memory>
        requires usable { IsTrue (usable_of self.old) }
        ensures hears { OnOk result ((k : Telling) (g : Graph) → IsOracleFor k g self.old
            → Hears k g self.new [] [] × IsViableFor g []) }
        ensures own { (k : Telling) (g : Graph) → IsOracleFor k g self.old
            → IsOracleFor k g self.new }
        ensures learnt { (g : Graph) → learnt_of self.new g ≡ learnt_of self.old g }
        ensures ready { OnOk result (IsReady self.new × (read_of self.new ≡ 0)) }
        ensures read { read_of self.new ≤ read_of self.old }
    {
        match self {
            Oracle::Paths(paths) => paths.begin_anew(),
            Oracle::Table(follower) => follower.runner.begin_anew(),
        }
    }

    /// How many good bytes it has read.
    pub fn read(&self) -> u64
        ensures { result ≡ read_of self.now }
    {
        match self {
            Oracle::Paths(paths) => paths.read,
            Oracle::Table(follower) => follower.runner.read(),
        }
    }

    /// Takes a piece, and writes what is said. Tells whether all bytes are good, or those before
    /// one with which no parse begins; or those before others that are put off, since they can
    /// wait. The oracle isn't given these. What the code held is cleared.
    pub fn go_along(
        &mut self,
        approach: Approach,
        actor: &mut Actor<'p>,
        piece: &[u8],
        code: &mut Code,
        out: &mut Vec<u8>,
    ) -> Result<Advance, StageFault>
        requires ready { IsReady self.old }
        requires actor { IsTrue actor.old.usable }
        requires learnt { learnt_of self.old actor.old.machine ≡ actor.old.machine }
        requires room { read_of self.old + length piece.now < 2 ^ 64 }
        ensures works { IfOk result (λ s. StageWorks self.old self.new actor.old actor.new
            (heard_part s piece.now) (good_part s piece.now) out.old.items out.new.items) }
        ensures refuses { IfErr result (RefusesNone self.old actor.old) }
        ensures ahead { IfOk result (IsAdvance self.new actor.new piece.now) }
        ensures waits { IfOk result (λ s. approach.puts_off ≡ false → PutsNoneOff s) }
        ensures read { IfOk result (λ s.
            read_of self.new ≡ read_of self.old + good_part s piece.now) }
        ensures within { read_of self.new ≤ read_of self.old + length piece.now }
        ensures machine { actor.new.machine ≡ actor.old.machine }
        ensures own { (k : Telling) (g : Graph) → IsOracleFor k g self.old
            → IsOracleFor k g self.new }
        ensures learnt { learnt_of self.new actor.new.machine ≡ actor.new.machine }
        ensures ready { OnOk result (IsReady self.new × IsTrue actor.new.usable) }
    {
        match self {
            Oracle::Paths(paths) => {
                let count = paths.go_on(actor, piece, code, out)?;
                if count < piece.len() {
                    return Ok(Advance::Refused(count));
                }
                Ok(Advance::Whole)
            }
            Oracle::Table(follower) => follower.go_along(approach, actor, piece, out),
        }
    }

    /// What is seen of a piece from a state of the table on. Paths see nothing.
    pub fn outlook(&self, state: u32, piece: &[u8]) -> Outlook
        ensures { SeesAhead self.now state piece.now result }
    {
        match self {
            Oracle::Paths(_) => Outlook::Told,
            Oracle::Table(follower) => follower.outlook(state, piece),
        }
    }

    /// Whether a text may end at a state of the table. Paths are asked at the end.
    pub fn may_end(&self, state: u32) -> bool
        ensures { result ≡ false ↔ CannotEnd self.now state }
    {
        match self {
            Oracle::Paths(_) => true,
            Oracle::Table(follower) => follower.may_end(state),
        }
    }

    // Takes the end, and puts the rest of the code after a code. Tells whether the bytes have a
    // parse.
    fn end(&mut self, code: &mut Code) -> Result<bool, Memory>
        requires ready { IsReady self.old }
        ensures tells { IfOk result (λ parsed. TellsEnd parsed self.old code.old code.new) }
        ensures read { read_of self.new ≡ read_of self.old }
        ensures own { (k : Telling) (g : Graph) → IsOracleFor k g self.old
            → IsOracleFor k g self.new }
        ensures learnt { (m : Graph) → learnt_of self.new m ≡ learnt_of self.old m }
    {
        match self {
            Oracle::Paths(paths) => paths.end(code),
            Oracle::Table(follower) => follower.end(code),
        }
    }

    /// Takes the end, and writes the rest. Tells whether the bytes have a parse. What the code held
    /// is cleared.
    pub fn finish(
        &mut self,
        actor: &mut Actor,
        code: &mut Code,
        out: &mut Vec<u8>,
    ) -> Result<bool, StageFault>
        requires ready { IsReady self.old }
        requires actor { IsTrue actor.old.usable }
        ensures finishes { IfOk result (λ parsed.
            StageFinishes parsed self.old actor.old out.old.items out.new.items) }
        ensures refuses { IfErr result (RefusesNone self.old actor.old) }
        ensures read { read_of self.new ≡ read_of self.old }
        ensures machine { actor.new.machine ≡ actor.old.machine }
        ensures own { (k : Telling) (g : Graph) → IsOracleFor k g self.old
            → IsOracleFor k g self.new }
        ensures learnt { (m : Graph) → learnt_of self.new m ≡ learnt_of self.old m }
    {
        code.clear();
        let parsed = self.end(code)?;
        speak(actor, code.as_slice(), out)?;
        Ok(parsed)
    }

    /// Takes the end after bytes that can wait and that it wasn't given, and writes what they say.
    /// Nothing is done, and the answer is `false`, where there is no parse, or that
    /// can't be learnt.
    pub fn finish_past(
        &mut self,
        actor: &mut Actor<'p>,
        bytes: &[u8],
        out: &mut Vec<u8>,
    ) -> Result<bool, StageFault>
        requires actor { IsTrue actor.old.usable }
        requires learnt { learnt_of self.old actor.old.machine ≡ actor.old.machine }
        requires waits { (q : ℕ) × CanWait self.old actor.old bytes.now q }
        ensures finishes { IfOk result (λ done. IsTrue done → FinishesPast self.old actor.old
            bytes.now out.old.items out.new.items) }
        ensures none { IfOk result (λ done. done ≡ false → IsStill self.old self.new
            × (actor.new ≡ actor.old) × (out.new.items ≡ out.old.items)) }
        ensures refuses { IfErr result (RefusesNone self.old actor.old) }
        ensures read { read_of self.new ≡ read_of self.old }
        ensures machine { actor.new.machine ≡ actor.old.machine }
        ensures own { (k : Telling) (g : Graph) → IsOracleFor k g self.old
            → IsOracleFor k g self.new }
        ensures learnt { (m : Graph) → learnt_of self.new m ≡ learnt_of self.old m }
    {
        match self {
            Oracle::Paths(_) => Ok(false),
            Oracle::Table(follower) => follower.end_past(actor, bytes, out),
        }
    }
}
