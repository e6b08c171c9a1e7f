// How a follower goes along a piece.

ghost use Rattle.std.specs.Prelude.{◌≡◌, ◌+◌, ◌^◌, ◌<◌, ◌≤◌, [], false, IfErr, IfOk, OnOk, IsTrue};
ghost use Rattle.std.specs.Prelude.{length, take};
ghost use Rattle.kex_script.specs.Pieces.{code_over};
ghost use Rattle.kex_stage.specs.Ahead.{FinishesPast, IsAdvance, PutsNoneOff, good_part};
ghost use Rattle.kex_stage.specs.Ahead.{heard_part};
ghost use Rattle.kex_stage.specs.Oracles.{Tells, TellsEnd};
ghost use Rattle.kex_stage.specs.Works.{RefusesNone, StageGoes, StageWorks};
ghost use Rattle.kex_stage.specs.Strides.{GoesOnBy, HasStrode, LeavesNone, after_more};
ghost use Rattle.kex_stage.specs.Strides.{strode};

use crate::advance::{Advance, Approach};
use crate::follower::Follower;
use crate::oracle::Oracle;
use crate::speak::{StageFault, speak};
use kex_action::actor::Actor;
use kex_code::code::Code;
use kex_code::memory::Memory;
use kex_runner::Ended;

// How many bytes are read at most by the runner at once.
const HELD: usize = 4096;

// How far a piece was gone along at once: how many bytes are good, and perhaps the one after them
// was refused; or those after them are put off, since they can wait. These lead to a state.
#[derive(Clone, Copy)]
enum Stride {
    On(usize),
    Refused(usize),
    PutOff { count: usize, state: u32 },
}

impl Stride {
    // The same, after more good bytes.
    fn past(self, count: usize) -> Stride
        requires { strode self + count < 2 ^ 64 }
        ensures { result ≡ after_more count self }
    {
        match self {
            Stride::On(more) => Stride::On(count + more),
            Stride::Refused(more) => Stride::Refused(count + more),
            Stride::PutOff { count: more, state } => Stride::PutOff {
                count: count + more,
                state,
            },
        }
    }
}

// How many bytes were taken, and how many of them are good: all, or all but the last.
#[derive(Clone, Copy)]
struct Heard {
    taken: usize,
    good: usize,
}

impl<'p> Follower<'p> {
    // What the table passes on along the front of a piece is put into the pieces.
    fn hear(&mut self, piece: &[u8]) -> Result<Heard, Memory>
        requires usable { IsTrue self.old.runner.usable }
        requires open { self.old.runner.ended ≡ false }
        requires room { self.old.runner.read + length piece.now < 2 ^ 64 }
        ensures tells { IfOk result (λ h.
            Tells (Oracle.Table self.old) (Oracle.Table self.new) (take h.taken piece.now) h.good []
            (code_over self.old.phrases.words self.new.pieces.items)) }
        ensures taken { IfOk result (λ h. h.taken ≤ length piece.now) }
        ensures some { IfOk result (λ h. 0 < length piece.now → 0 < h.taken) }
        ensures read { IfOk result (λ h. self.new.runner.read ≡ self.old.runner.read + h.good) }
        ensures within { self.new.runner.read ≤ self.old.runner.read + length piece.now }
        ensures good { IfOk result (λ h. h.good ≤ h.taken) }
        ensures told { OnOk result (self.new.runner.pending ≡ []) }
        ensures usable { OnOk result (IsTrue self.new.runner.usable) }
        ensures open { self.new.runner.ended ≡ false }
        ensures moves { (self.new.moves ≡ self.old.moves) × (self.new.phrases ≡ self.old.phrases) }
    {
        let before = self.runner.read();
        let held = self.runner.hold(piece, &mut self.pieces)?;
        Ok(Heard {
            taken: held.taken,
            good: (self.runner.read() - before) as usize,
        })
    }

    /// Tells whether the table ends, and puts what is passed on then after a code.
    pub fn end(&mut self, code: &mut Code) -> Result<bool, Memory>
        requires usable { IsTrue self.old.runner.usable }
        requires open { self.old.runner.ended ≡ false }
        ensures tells { IfOk result (λ parsed.
            TellsEnd parsed (Oracle.Table self.old) code.old code.new) }
        ensures read { self.new.runner.read ≡ self.old.runner.read }
        ensures moves { self.new.moves ≡ self.old.moves }
    {
        Ok(match self.runner.end(code)? {
            Ended::Parsed => true,
            Ended::Cut => false,
        })
    }

    /// Takes the end after bytes of which nothing was told yet, and that it wasn't given: what they
    /// say is written, if no register is held before them. Nothing is done, and the answer is
    /// `false`, where a text can't end there, or that can't be learnt.
    pub fn end_past(
        &mut self,
        actor: &mut Actor<'p>,
        bytes: &[u8],
        out: &mut Vec<u8>,
    ) -> Result<bool, StageFault>
        requires actor { IsTrue actor.old.usable }
        requires learnt { actor.old.machine ≡ self.old.moves.machine }
        requires told { self.old.runner.pending ≡ [] }
        ensures finishes { IfOk result (λ done. IsTrue done → FinishesPast
            (Oracle.Table self.old) actor.old bytes.now out.old.items out.new.items) }
        ensures none { IfOk result (λ done. done ≡ false → (actor.new ≡ actor.old)
            × (out.new.items ≡ out.old.items)) }
        ensures refuses { IfErr result (RefusesNone (Oracle.Table self.old) actor.old) }
        ensures same { (self.new.runner ≡ self.old.runner) × (self.new.moves ≡ self.old.moves) }
        ensures machine { actor.new.machine ≡ actor.old.machine }
        ensures usable { OnOk result (IsTrue actor.new.usable) }
    {
        if self.runner.holds_registers() {
            return Ok(false);
        }
        let state = self.runner.state();
        if !self.moves.end(state, actor, bytes, out)? {
            return Ok(false);
        }
        speak(actor, &[], out)?;
        Ok(true)
    }

    // Reads the front of a piece by the runner alone, and writes what is said.
    fn step(
        &mut self,
        actor: &mut Actor<'p>,
        piece: &[u8],
        out: &mut Vec<u8>,
    ) -> Result<Stride, StageFault>
        requires usable { IsTrue self.old.runner.usable }
        requires open { self.old.runner.ended ≡ false }
        requires actor { IsTrue actor.old.usable }
        requires learnt { actor.old.machine ≡ self.old.moves.machine }
        requires room { self.old.runner.read + length piece.now < 2 ^ 64 }
        ensures gone { IfOk result (λ s. HasStrode s (Oracle.Table self.old) (Oracle.Table
            self.new) actor.old actor.new piece.now out.old.items out.new.items) }
        ensures refuses { IfErr result (RefusesNone (Oracle.Table self.old) actor.old) }
        ensures some { IfOk result (λ s. 0 < length piece.now → GoesOnBy s) }
        ensures none { IfOk result LeavesNone }
        ensures read { IfOk result (λ s. self.new.runner.read ≡ self.old.runner.read + strode s) }
        ensures within { self.new.runner.read ≤ self.old.runner.read + length piece.now }
        ensures told { OnOk result (self.new.runner.pending ≡ []) }
        ensures usable { OnOk result (IsTrue self.new.runner.usable × IsTrue actor.new.usable) }
        ensures open { self.new.runner.ended ≡ false }
        ensures moves { self.new.moves ≡ self.old.moves }
        ensures machine { actor.new.machine ≡ actor.old.machine }
    {
        let heard = self.hear(piece)?;
        if !self.phrases.say(actor, &self.pieces, out)? {
            return Err(StageFault::Refused);
        }
        if heard.good < heard.taken {
            speak(actor, &[], out)?;
            return Ok(Stride::Refused(heard.good));
        }
        Ok(Stride::On(heard.good))
    }

    // Reads the front of a piece by what is learnt, where no registers are. The table is at a state
    // of its own then, with none. The first `held` bytes are known to be held back, so nothing is
    // learnt where there are no others.
    fn run(
        &mut self,
        held: usize,
        actor: &mut Actor<'p>,
        piece: &[u8],
        out: &mut Vec<u8>,
    ) -> Result<usize, Memory>
        requires actor { IsTrue actor.old.usable }
        requires learnt { actor.old.machine ≡ self.old.moves.machine }
        requires told { self.old.runner.pending ≡ [] }
        requires room { self.old.runner.read + length piece.now < 2 ^ 64 }
        ensures goes { IfOk result (λ count. StageGoes (Oracle.Table self.old) (Oracle.Table
            self.new) actor.old actor.new (take count piece.now) out.old.items out.new.items) }
        ensures count { IfOk result (λ count. count ≤ length piece.now) }
        ensures read { IfOk result (λ count. self.new.runner.read ≡ self.old.runner.read + count) }
        ensures within { self.new.runner.read ≤ self.old.runner.read + length piece.now }
        ensures told { self.new.runner.pending ≡ [] }
        ensures same { (self.new.runner.usable ≡ self.old.runner.usable)
            × (self.new.runner.ended ≡ self.old.runner.ended) }
        ensures moves { self.new.moves ≡ self.old.moves }
        ensures machine { actor.new.machine ≡ actor.old.machine }
        ensures usable { OnOk result (IsTrue actor.new.usable) }
    {
        if held >= piece.len() {
            return Ok(0);
        }
        if self.runner.holds_registers() {
            return Ok(0);
        }
        let state = self.runner.state();
        let ran = self.moves.run_past(held, state, actor, piece, out)?;
        self.runner.jump(ran.state, ran.count as u64);
        Ok(ran.count)
    }

    // Reads some of a piece: by what is learnt, and then by the runner as far as it goes at once.
    // The runner gets none of the rest if that is put off.
    fn stride(
        &mut self,
        approach: Approach,
        actor: &mut Actor<'p>,
        piece: &[u8],
        out: &mut Vec<u8>,
    ) -> Result<Stride, StageFault>
        requires usable { IsTrue self.old.runner.usable }
        requires open { self.old.runner.ended ≡ false }
        requires actor { IsTrue actor.old.usable }
        requires learnt { actor.old.machine ≡ self.old.moves.machine }
        requires told { self.old.runner.pending ≡ [] }
        requires some { 0 < length piece.now }
        requires room { self.old.runner.read + length piece.now < 2 ^ 64 }
        ensures gone { IfOk result (λ s. HasStrode s (Oracle.Table self.old) (Oracle.Table
            self.new) actor.old actor.new piece.now out.old.items out.new.items) }
        ensures refuses { IfErr result (RefusesNone (Oracle.Table self.old) actor.old) }
        ensures some { IfOk result GoesOnBy }
        ensures waits { IfOk result (λ s. approach.puts_off ≡ false → LeavesNone s) }
        ensures read { IfOk result (λ s. self.new.runner.read ≡ self.old.runner.read + strode s) }
        ensures within { self.new.runner.read ≤ self.old.runner.read + length piece.now }
        ensures told { OnOk result (self.new.runner.pending ≡ []) }
        ensures usable { OnOk result (IsTrue self.new.runner.usable × IsTrue actor.new.usable) }
        ensures open { self.new.runner.ended ≡ false }
        ensures moves { self.new.moves ≡ self.old.moves }
        ensures machine { actor.new.machine ≡ actor.old.machine }
    {
        let ran = self.run(approach.held, actor, piece, out)?;
        let rest = &piece[ran..];
        if let Some(state) = self.look_ahead(approach.look(ran), actor, rest, out)? {
            return Ok(Stride::PutOff { count: ran, state });
        }
        let next = &rest[..rest.len().min(HELD)];
        let stepped = self.step(actor, next, out)?;
        Ok(stepped.past(ran))
    }

    /// Takes a piece, and writes what is said. Bytes at its end that can wait are put off where
    /// they may be: the follower isn't given them.
    pub fn go_along(
        &mut self,
        approach: Approach,
        actor: &mut Actor<'p>,
        piece: &[u8],
        out: &mut Vec<u8>,
    ) -> Result<Advance, StageFault>
        requires usable { IsTrue self.old.runner.usable }
        requires open { self.old.runner.ended ≡ false }
        requires actor { IsTrue actor.old.usable }
        requires learnt { actor.old.machine ≡ self.old.moves.machine }
        requires room { self.old.runner.read + length piece.now < 2 ^ 64 }
        ensures works { IfOk result (λ s. StageWorks (Oracle.Table self.old) (Oracle.Table
            self.new) actor.old actor.new (heard_part s piece.now) (good_part s piece.now)
            out.old.items out.new.items) }
        ensures refuses { IfErr result (RefusesNone (Oracle.Table self.old) actor.old) }
        ensures ahead { IfOk result (IsAdvance (Oracle.Table self.new) actor.new piece.now) }
        ensures waits { IfOk result (λ s. approach.puts_off ≡ false → PutsNoneOff s) }
        ensures read { IfOk result (λ s.
            self.new.runner.read ≡ self.old.runner.read + good_part s piece.now) }
        ensures within { self.new.runner.read ≤ self.old.runner.read + length piece.now }
        ensures usable { OnOk result (IsTrue self.new.runner.usable × IsTrue actor.new.usable) }
        ensures open { self.new.runner.ended ≡ false }
        ensures moves { self.new.moves ≡ self.old.moves }
        ensures machine { actor.new.machine ≡ actor.old.machine }
    {
        speak(actor, &[], out)?;
        let _none = self.step(actor, &piece[..0], out)?;
        let mut at = 0;
        'strides: while at < piece.len() {
            match self.stride(approach.past(at), actor, &piece[at..], out)? {
                Stride::On(count) => at += count,
                Stride::Refused(count) => return Ok(Advance::Refused(at + count)),
                Stride::PutOff { count, state } => {
                    return Ok(Advance::PutOff {
                        count: at + count,
                        state,
                    });
                }
            }
        }
        speak(actor, &[], out)?;
        Ok(Advance::Whole)
    }

    /// Takes a piece, and writes what is said. Tells how many bytes are good.
    pub fn go_on(
        &mut self,
        actor: &mut Actor<'p>,
        piece: &[u8],
        out: &mut Vec<u8>,
    ) -> Result<usize, StageFault>
        requires usable { IsTrue self.old.runner.usable }
        requires open { self.old.runner.ended ≡ false }
        requires actor { IsTrue actor.old.usable }
        requires learnt { actor.old.machine ≡ self.old.moves.machine }
        requires room { self.old.runner.read + length piece.now < 2 ^ 64 }
        ensures works { IfOk result (λ count. StageWorks (Oracle.Table self.old) (Oracle.Table
            self.new) actor.old actor.new piece.now count out.old.items out.new.items) }
        ensures refuses { IfErr result (RefusesNone (Oracle.Table self.old) actor.old) }
        ensures read { IfOk result (λ count. self.new.runner.read ≡ self.old.runner.read + count) }
        ensures within { self.new.runner.read ≤ self.old.runner.read + length piece.now }
        ensures usable { OnOk result (IsTrue self.new.runner.usable × IsTrue actor.new.usable) }
        ensures open { self.new.runner.ended ≡ false }
        ensures moves { self.new.moves ≡ self.old.moves }
        ensures machine { actor.new.machine ≡ actor.old.machine }
    {
        let approach = Approach {
            held: 0,
            puts_off: false,
            begins: true,
        };
        match self.go_along(approach, actor, piece, out)? {
            Advance::Whole => Ok(piece.len()),
            Advance::Refused(count) => Ok(count),
            Advance::PutOff { count, .. } => Ok(count),
        }
    }
}
