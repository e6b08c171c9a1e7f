// A frontier, and how many good bytes it was fed.

ghost use Rattle.std.specs.Prelude.{◌≡◌, ◌+◌, ◌^◌, ◌<◌, ◌≤◌, [], false, IfErr, IfOk, OnOk, IsTrue};
ghost use Rattle.std.specs.Prelude.{length};
ghost use Rattle.kex_frontier.specs.Frontiers.{IsFed};
ghost use Rattle.kex_stage.specs.Oracles.{OracleReads, Tells, TellsEnd, is_parsed};
ghost use Rattle.kex_stage.specs.Works.{RefusesNone, StageWorks};

use crate::oracle::Oracle;
use crate::speak::{StageFault, speak};
use kex_action::actor::Actor;
use kex_code::code::Code;
use kex_code::memory::Memory;
use kex_frontier::frontier::{Ended, Fed, Frontier};

/// A frontier, and how many good bytes it was fed.
#[derive(Drop)]
pub struct Paths<'p> {
    pub frontier: Frontier<'p>,
    pub read: u64,
}

// Feeds a frontier, up to the byte that it refuses, and tells how many it took.
fn follow(frontier: &mut Frontier, piece: &[u8]) -> Result<usize, Memory>
    requires usable { IsTrue frontier.old.usable }
    requires open { frontier.old.ended ≡ false }
    ensures reads { IfOk result (λ count. OracleReads frontier.old frontier.new piece.now count) }
    ensures within { IfOk result (λ count. count ≤ length piece.now) }
    ensures machine { frontier.new.machine ≡ frontier.old.machine }
    ensures usable { OnOk result (IsTrue frontier.new.usable) }
    ensures open { frontier.new.ended ≡ false }
{
    for i in 0..piece.len() {
        match frontier.feed(piece[i]) {
            Ok(Fed::On) => {}
            Ok(Fed::Dead) => return Ok(i),
            Err(Memory) => return Err(Memory),
        }
    }
    Ok(piece.len())
}

fn is_parsed(ended: Ended) -> bool
    ensures { result ≡ is_parsed ended }
{
    match ended {
        Ended::Parsed => true,
        Ended::Cut => false,
    }
}

impl<'p> Paths<'p> {
    /// Is as when it was fed nothing.
    pub fn begin_anew(&mut self) -> Result<(), Memory>
        ensures begins { OnOk result (IsFed self.new.frontier [] []) }
        ensures same { self.new.frontier.machine ≡ self.old.frontier.machine }
        ensures usable { OnOk result (IsTrue self.new.frontier.usable
            × (self.new.frontier.ended ≡ false)) }
        ensures begun { OnOk result (self.new.read ≡ 0) }
        ensures read { self.new.read ≤ self.old.read }
    {
        self.frontier.begin_anew()?;
        self.read = 0;
        Ok(())
    }

    // Puts what the paths agree on along a piece after a code, and tells how many bytes are good.
    fn hear(&mut self, piece: &[u8], code: &mut Code) -> Result<usize, Memory>
        requires usable { IsTrue self.old.frontier.usable }
        requires open { self.old.frontier.ended ≡ false }
        requires room { self.old.read + length piece.now < 2 ^ 64 }
        ensures tells { IfOk result (λ count. Tells (Oracle.Paths self.old)
            (Oracle.Paths self.new) piece.now count code.old code.new) }
        ensures read { IfOk result (λ count. self.new.read ≡ self.old.read + count) }
        ensures within { self.new.read ≤ self.old.read + length piece.now }
        ensures same { self.new.frontier.machine ≡ self.old.frontier.machine }
        ensures usable { OnOk result (IsTrue self.new.frontier.usable) }
        ensures open { self.new.frontier.ended ≡ false }
    {
        let count = follow(&mut self.frontier, piece)?;
        self.read += count as u64;
        let told = self.frontier.take_code();
        code.append(told.as_slice())?;
        Ok(count)
    }

    /// Tells whether the paths end, and puts what they agree on then after a code.
    pub fn end(&mut self, code: &mut Code) -> Result<bool, Memory>
        requires usable { IsTrue self.old.frontier.usable }
        requires open { self.old.frontier.ended ≡ false }
        ensures tells { IfOk result (λ parsed.
            TellsEnd parsed (Oracle.Paths self.old) code.old code.new) }
        ensures read { self.new.read ≡ self.old.read }
        ensures same { self.new.frontier.machine ≡ self.old.frontier.machine }
    {
        let ended = self.frontier.end()?;
        let told = self.frontier.take_code();
        code.append(told.as_slice())?;
        Ok(is_parsed(ended))
    }

    /// Takes a piece, and writes what is said. Tells how many bytes are good.
    pub fn go_on(
        &mut self,
        actor: &mut Actor,
        piece: &[u8],
        code: &mut Code,
        out: &mut Vec<u8>,
    ) -> Result<usize, StageFault>
        requires usable { IsTrue self.old.frontier.usable }
        requires open { self.old.frontier.ended ≡ false }
        requires actor { IsTrue actor.old.usable }
        requires room { self.old.read + length piece.now < 2 ^ 64 }
        ensures works { IfOk result (λ count. StageWorks (Oracle.Paths self.old) (Oracle.Paths
            self.new) actor.old actor.new piece.now count out.old.items out.new.items) }
        ensures refuses { IfErr result (RefusesNone (Oracle.Paths self.old) actor.old) }
        ensures read { IfOk result (λ count. self.new.read ≡ self.old.read + count) }
        ensures within { self.new.read ≤ self.old.read + length piece.now }
        ensures same { self.new.frontier.machine ≡ self.old.frontier.machine }
        ensures usable { OnOk result (IsTrue self.new.frontier.usable × IsTrue actor.new.usable) }
        ensures open { self.new.frontier.ended ≡ false }
        ensures machine { actor.new.machine ≡ actor.old.machine }
    {
        code.clear();
        let count = self.hear(piece, code)?;
        speak(actor, code.as_slice(), out)?;
        Ok(count)
    }
}
