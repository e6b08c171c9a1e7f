// An oracle and an actor that work together.

ghost use Rattle.std.specs.Prelude.{◌≡◌, ◌↔◌, ◌+◌, ◌<◌, ◌≤◌, ◌^◌, ◌++◌, [], ℕ, List, false, true};
ghost use Rattle.std.specs.Prelude.{IfOk, IsTrue, OnOk, length};
ghost use Rattle.kex_pipe.specs.Working.{CameToEnd};
ghost use Rattle.kex_stage.specs.Ahead.{CanWait, CannotEnd, IsStill, SeesAhead};
ghost use Rattle.kex_stage.specs.Oracles.{read_of};
ghost use Rattle.kex_plan.specs.Plans.{teller_of};
ghost use Rattle.kex_stage.specs.Stages.{ClosesAs, IsTeamReady, TeamFollows, teller_in};
ghost use Rattle.kex_stage.specs.Hearings.{HasHeard, RefusesNothing, KeepsNone, LeavesWaiting};

use crate::advance::{Advance, Approach};
use crate::ahead::Outlook;
use crate::oracle::Oracle;
use crate::speak::StageFault;
use kex_action::actor::Actor;
use kex_code::code::Code;
use kex_code::memory::Memory;
use kex_plan::plan::{Plan, Telling};
use std::alloc::Global;
use std::marker::Model;

/// The fewest bytes for which it is worth learning what the end does with them. That takes as long
/// as a runner does for some 200.
const LONG: usize = 256;

/// An oracle, and the actor that performs what it tells.
#[derive(Drop)]
pub struct Team<'p> {
    oracle: Oracle<'p>,
    actor: Actor<'p>,
    code: Code,
    telling: Telling,
}

impl<'p> Model for Team<'p> {
    ghost use Rattle.std.specs.Prelude.{◌≡◌};
    ghost use Rattle.kex_stage.specs.Oracles.{IsOracleFor, learnt_of};
    ghost use Rattle.kex_stage.specs.Stages.{TeamState};

    ghost Value = { TeamState };

    ghost view = { λ s. record { oracle = s.oracle; actor = s.actor; telling = s.telling } };

    ghost invariant = { λ s. (learnt_of s.oracle s.actor.machine ≡ s.actor.machine)
        × IsOracleFor s.telling s.actor.machine s.oracle };
}

/// How a piece was answered: all of it was good; or a byte was refused, which has this number in
/// all bytes; or that number of bytes was good, and the others are put off, which lead to this
/// state.
#[derive(Clone, Copy, Debug, PartialEq, Eq)]
pub enum Hearing {
    Whole,
    Refused(u64),
    PutOff { count: usize, state: u32 },
}

impl<'p> Team<'p> {
    /// An oracle and an actor of a plan, which were given nothing.
    pub fn new(alloc: Global, plan: &'p Plan) -> Result<Team<'p>, Memory>
        ensures machine { IfOk result (λ s. teller_in s ≡ teller_of plan.now) }
        ensures follows { IfOk result (λ s. TeamFollows s [] []) }
        ensures ready { IfOk result (λ s. IsTeamReady s × (read_of s.oracle ≡ 0)) }
    {
        let actor = Actor::new(alloc, plan.machine())?;
        let oracle = Oracle::new(alloc, plan)?;
        Ok(Team {
            oracle,
            actor,
            code: Code::new(alloc),
            telling: plan.telling(),
        })
    }

    /// Takes a piece, and writes what is said of it. Bytes at its end that can wait are put off
    /// where they may be: the team isn't given them.
    pub fn hear(
        &mut self,
        approach: Approach,
        piece: &[u8],
        out: &mut Vec<u8>,
    ) -> Result<Hearing, Memory>
        requires ready { IsTeamReady self.old }
        requires room { read_of self.old.oracle + length piece.now < 2 ^ 64 }
        ensures same { teller_in self.new ≡ teller_in self.old }
        ensures heard { IfOk result (λ h. (w text : List ℕ) → TeamFollows self.old w text
            → HasHeard self.old self.new w text piece.now h out.old.items out.new.items) }
        ensures left { IfOk result (LeavesWaiting self.old self.new piece.now) }
        ensures waits { IfOk result (λ h. approach.puts_off ≡ false → KeepsNone h) }
        ensures within { read_of self.new.oracle ≤ read_of self.old.oracle + length piece.now }
        ensures ready { IfOk result (λ h. RefusesNothing h → IsTeamReady self.new) }
    {
        match self
            .oracle
            .go_along(approach, &mut self.actor, piece, &mut self.code, out)
        {
            Ok(Advance::Whole) => Ok(Hearing::Whole),
            Ok(Advance::Refused(_)) => Ok(Hearing::Refused(self.oracle.read())),
            Ok(Advance::PutOff { count, state }) => Ok(Hearing::PutOff { count, state }),
            Err(StageFault::Refused) => Ok(Hearing::Refused(self.oracle.read())),
            Err(StageFault::Memory) => Err(Memory),
        }
    }

    /// How many good bytes the oracle has read.
    pub fn read(&self) -> u64
        ensures { result ≡ read_of self.now.oracle }
    {
        self.oracle.read()
    }

    /// What is seen of a piece from a state of the table on.
    pub fn outlook(&self, state: u32, piece: &[u8]) -> Outlook
        ensures { SeesAhead self.now.oracle state piece.now result }
    {
        self.oracle.outlook(state, piece)
    }

    /// Whether a text may end at a state of the table.
    pub fn may_end(&self, state: u32) -> bool
        ensures { result ≡ false ↔ CannotEnd self.now.oracle state }
    {
        self.oracle.may_end(state)
    }

    /// Takes the end, and writes the rest. Tells whether the bytes have a parse.
    pub fn finish(&mut self, out: &mut Vec<u8>) -> Result<bool, Memory>
        requires ready { IsTeamReady self.old }
        ensures same { teller_in self.new ≡ teller_in self.old }
        ensures ends { IfOk result (λ parsed. (w text : List ℕ) → TeamFollows self.old w text
            → CameToEnd (ClosesAs (teller_in self.old)) w text parsed out.old.items
            out.new.items) }
        ensures read { read_of self.new.oracle ≡ read_of self.old.oracle }
    {
        match self.oracle.finish(&mut self.actor, &mut self.code, out) {
            Ok(parsed) => Ok(parsed),
            Err(StageFault::Refused) => Ok(false),
            Err(StageFault::Memory) => Err(Memory),
        }
    }

    /// Takes the end after bytes that can wait and that the team wasn't given, and writes what they
    /// say. Nothing is done, and the answer is `false`, where they are few,
    /// where there is no parse, and where that can't be learnt.
    pub fn finish_past(&mut self, bytes: &[u8], out: &mut Vec<u8>) -> Result<bool, Memory>
        requires ready { IsTeamReady self.old }
        requires waits { (q : ℕ) × CanWait self.old.oracle self.old.actor bytes.now q }
        ensures same { teller_in self.new ≡ teller_in self.old }
        ensures ends { IfOk result (λ done. IsTrue done → (w text : List ℕ)
            → TeamFollows self.old w text → CameToEnd (ClosesAs (teller_in self.old))
            (w ++ bytes.now) text true out.old.items out.new.items) }
        ensures none { IfOk result (λ done. done ≡ false
            → IsStill self.old.oracle self.new.oracle × (self.new.actor ≡ self.old.actor)
            × (self.new.telling ≡ self.old.telling) × (out.new.items ≡ out.old.items)) }
        ensures read { read_of self.new.oracle ≡ read_of self.old.oracle }
    {
        if bytes.len() < LONG {
            return Ok(false);
        }
        match self.oracle.finish_past(&mut self.actor, bytes, out) {
            Ok(done) => Ok(done),
            Err(StageFault::Refused) => Ok(true),
            Err(StageFault::Memory) => Err(Memory),
        }
    }

    /// Is as when it was given nothing. What was learnt stays. Want of memory comes also where a
    /// call has wanted some before.
    pub fn begin_anew(&mut self) -> Result<(), Memory>
        ensures same { teller_in self.new ≡ teller_in self.old }
        ensures follows { OnOk result (TeamFollows self.new [] []) }
        ensures ready { OnOk result (IsTeamReady self.new × (read_of self.new.oracle ≡ 0)) }
        ensures read { read_of self.new.oracle ≤ read_of self.old.oracle }
    {
        if !self.oracle.usable() || !self.actor.usable() {
            return Err(Memory);
        }
        self.oracle.begin_anew()?;
        self.actor.begin_anew();
        Ok(())
    }
}
