// Feeds a table and passes on its code: `feed`, `hold`, `jump`, `end`.

mod applying;
mod places;

ghost use Rattle.std.specs.Prelude.{◌≡◌, ℕ, ◌+◌, ◌^◌, ◌<◌, ◌≤◌, ◌++◌, [], List, IfOk, OnOk};
ghost use Rattle.std.specs.Prelude.{IsTrue, IsOk, ◌↔◌, true, false, Some, length, take};
ghost use Rattle.kex_code.specs.declared.symbol.Symbol.{Symbol};
ghost use Rattle.kex_sst.specs.Passes.{passes};
ghost use Rattle.kex_runner.specs.Running.{RunnerEnds, RunnerFeeds, IsRunOf, items_taken};
ghost use Rattle.kex_script.specs.Pieces.{code_over};
ghost use Rattle.kex_runner.specs.Noting.{contents};
ghost use Rattle.kex_runner.specs.Following.{IsTablePlace, IsRunner, pass_at};
ghost use Rattle.kex_runner.specs.Quiet.{GoesQuietly, IsGuide};
ghost use Rattle.kex_runner.specs.Ways.{AreKnown};

use crate::answers::{Ended, Fed, Glance, answer_of};
use crate::place::{TablePlace, Taken};
use crate::shared_guide::SharedGuide;
use crate::spelling::spell;
use kex_code::code::Code;
use kex_code::memory::Memory;
use kex_ports::Steps;
use kex_script::piece::ByteWord;
use kex_sst::parts::Parts;
use kex_sst::table::Table;
use std::alloc::Global;
use std::marker::Model;
use std::mem;
use std::sync::ledger::Ledger;

/// Runs a table over the bytes that it is fed. What its updates pass on goes to a code at once.
#[derive(Drop)]
pub struct Runner<'t> {
    table: &'t Table,
    guide: SharedGuide,
    place: TablePlace,
    pending: Vec<ByteWord>,
    read: u64,
    dead: bool,
    ended: bool,
    usable: bool,
}

impl<'t> Model for Runner<'t> {
    ghost use Rattle.kex_script.specs.Pieces.{code_over};
    ghost use Rattle.kex_runner.specs.Noting.{contents};
    ghost use Rattle.kex_runner.specs.Running.{Running};
    ghost use Rattle.std.specs.Prelude.{IsTrue};
    ghost use Rattle.kex_runner.specs.Following.{IsRunner};
    ghost use Rattle.kex_runner.specs.Quiet.{IsGuide};
    ghost use Rattle.kex_runner.specs.Ways.{AreKnown};

    ghost Value = { Running };

    ghost view = { λ r.
        record {
          table = r.table.now;
          words = r.guide.script.words;
          state = r.place.state;
          pending =
              code_over r.guide.script.words r.pending.items;
          registers = contents r.guide.script
              r.place.registers;
          read = r.read;
          dead = r.dead;
          ended = r.ended;
          usable = r.usable;
        } };

    ghost invariant = { λ r. IsRunner r.table.now r.guide.script r.place.state r.place.registers
        × IsGuide r.table.now r.guide × (IsTrue r.usable → AreKnown r.guide.script r.place.ways) };
}

// What was pending is put into pieces, and those that were there go. There is seldom some: only
// then are the two exchanged, since what was written in halves is slow to copy whole.
#[inline(always)]
fn hand_over(pending: &mut Vec<ByteWord>, pieces: &mut Vec<ByteWord>)
    ensures pieces { pieces.new.items ≡ pending.old.items }
    ensures none { pending.new.items ≡ [] }
{
    pieces.clear();
    if !pending.is_empty() {
        mem::swap(pieces, pending);
    }
}

/// How many bytes of a piece were taken, and what they leave.
#[derive(Clone, Copy, Debug, PartialEq, Eq)]
pub struct Held {
    pub taken: usize,
    pub fed: Fed,
}

impl<'t> Runner<'t> {
    /// A runner that was fed nothing.
    pub fn new(alloc: Global, table: &'t Table) -> Result<Runner<'t>, Memory>
        ensures table { IfOk result (λ r. r.table ≡ table.now) }
        ensures stands { IfOk result (λ r. IsRunOf r [] []) }
        ensures usable { IfOk result (λ r. (r.usable ≡ true) × (r.ended ≡ false) × (r.read ≡ 0)) }
    {
        let guide = SharedGuide::new(alloc, table)?;
        Runner::over(alloc, table, guide)
    }

    /// The same, by a guide of the table that other runners may have too.
    pub fn over(alloc: Global, table: &'t Table, guide: SharedGuide) -> Result<Runner<'t>, Memory>
        requires guide { IsGuide table.now guide }
        ensures table { IfOk result (λ r. r.table ≡ table.now) }
        ensures stands { IfOk result (λ r. IsRunOf r [] []) }
        ensures usable { IfOk result (λ r. (r.usable ≡ true) × (r.ended ≡ false) × (r.read ≡ 0)) }
    {
        let script = &guide.get().script;
        let (place, pending) = TablePlace::new(alloc, table, script)?;
        Ok(Runner {
            table,
            guide,
            place,
            pending,
            read: 0,
            dead: false,
            ended: false,
            usable: true,
        })
    }

    /// Is as a new runner of its table: it was fed nothing. What was learnt of ways stays.
    ///
    /// After `Memory` the runner is only dropped.
    pub fn begin_anew(&mut self) -> Result<(), Memory>
        requires usable { IsTrue self.old.usable }
        ensures stands { OnOk result (IsRunOf self.new [] []) }
        ensures ready { OnOk result ((self.new.ended ≡ false) × (self.new.read ≡ 0)) }
        ensures read { self.new.read ≤ self.old.read }
        ensures table { self.new.table ≡ self.old.table }
        ensures words { self.new.words ≡ self.old.words }
        ensures usable { IsTrue self.new.usable ↔ IsOk result }
    {
        self.usable = false;
        let script = &self.guide.get().script;
        self.place
            .begin_again(self.table, script, &mut self.pending)?;
        self.read = 0;
        self.dead = false;
        self.ended = false;
        self.usable = true;
        Ok(())
    }

    /// Takes bytes, and puts what they let it pass on after a code. `Dead` exactly where the table
    /// stops at one of them, and then for good. Each item of an update of a byte that is taken is a
    /// step.
    ///
    /// After `Memory` the code may have a part of that, and the runner is only dropped.
    pub fn feed<L: Ledger>(
        &mut self,
        piece: &[u8],
        code: &mut Code,
        steps: &mut Steps<L>,
    ) -> Result<Fed, Memory>
        requires usable { IsTrue self.old.usable }
        requires open { self.old.ended ≡ false }
        requires room { self.old.read + length piece.now < 2 ^ 64 }
        ensures fed { IfOk result (λ answer.
            RunnerFeeds answer self.old self.new piece.now code.old code.new) }
        ensures steps { OnOk result (steps.new ≡ steps.old + items_taken self.old piece.now) }
        ensures read { (self.old.read ≤ self.new.read)
            × (self.new.read ≤ self.old.read + length piece.now) }
        ensures table { self.new.table ≡ self.old.table }
        ensures words { self.new.words ≡ self.old.words }
        ensures open { self.new.ended ≡ false }
        ensures usable { IsTrue self.new.usable ↔ IsOk result }
    {
        self.usable = false;
        let script = &self.guide.get().script;
        if self.dead {
            spell(script.words(), &self.pending, code)?;
            self.pending.clear();
            self.usable = true;
            return Ok(Fed::Dead);
        }
        let count = self
            .place
            .follow(self.table, script, piece, &mut self.pending, steps)?;
        spell(script.words(), &self.pending, code)?;
        self.pending.clear();
        self.read += count as u64;
        self.dead = count < piece.len();
        self.usable = true;
        Ok(answer_of(self.dead))
    }

    /// Takes some bytes of a piece as `feed` does, at least one if there is one, and counts no
    /// steps. The last may be one at which the table stops. What was in `pieces` goes, and what the
    /// bytes let it pass on is left there, in words.
    ///
    /// After `Memory` the pieces may be a part of that, and the runner is only dropped.
    pub fn hold(&mut self, piece: &[u8], pieces: &mut Vec<ByteWord>) -> Result<Held, Memory>
        requires usable { IsTrue self.old.usable }
        requires open { self.old.ended ≡ false }
        requires room { self.old.read + length piece.now < 2 ^ 64 }
        ensures fed { IfOk result (λ h. RunnerFeeds h.fed self.old self.new
            (take h.taken piece.now) [] (code_over self.old.words pieces.new.items)) }
        ensures taken { IfOk result (λ h. h.taken ≤ length piece.now) }
        ensures some { IfOk result (λ h. 0 < length piece.now → 0 < h.taken) }
        ensures read { (self.old.read ≤ self.new.read)
            × (self.new.read ≤ self.old.read + length piece.now) }
        ensures within { IfOk result (λ h. self.new.read ≤ self.old.read + h.taken) }
        ensures table { self.new.table ≡ self.old.table }
        ensures words { self.new.words ≡ self.old.words }
        ensures open { self.new.ended ≡ false }
        ensures usable { IsTrue self.new.usable ↔ IsOk result }
    {
        self.usable = false;
        hand_over(&mut self.pending, pieces);
        if self.dead {
            self.usable = true;
            return Ok(Held {
                taken: piece.len(),
                fed: Fed::Dead,
            });
        }
        let Taken { taken, good } = self
            .place
            .follow_held(self.table, self.guide.get(), piece, pieces)?;
        self.read += good as u64;
        self.dead = good < taken;
        self.usable = true;
        Ok(Held {
            taken,
            fed: answer_of(self.dead),
        })
    }

    /// Takes the end. `Parsed` exactly where the table ends on the bytes; the code is then whole.
    ///
    /// After `Memory` the code may have a part of the rest.
    pub fn end(&mut self, code: &mut Code) -> Result<Ended, Memory>
        requires usable { IsTrue self.old.usable }
        requires open { self.old.ended ≡ false }
        ensures over { IfOk result (λ answer. RunnerEnds answer self.old code.old code.new) }
        ensures table { self.new.table ≡ self.old.table }
        ensures words { self.new.words ≡ self.old.words }
        ensures read { self.new.read ≡ self.old.read }
        ensures ended { self.new.ended ≡ true }
        ensures usable { IsTrue self.new.usable ↔ IsOk result }
    {
        self.ended = true;
        self.usable = false;
        let script = &self.guide.get().script;
        spell(script.words(), &self.pending, code)?;
        self.pending.clear();
        if self.dead {
            self.usable = true;
            return Ok(Ended::Cut);
        }
        let states = self.table.states();
        match states[self.place.state as usize].accepting() {
            None => {
                self.usable = true;
                Ok(Ended::Cut)
            }
            Some(way) => {
                self.place.registers.spell(script, way.as_slice(), code)?;
                self.usable = true;
                Ok(Ended::Parsed)
            }
        }
    }

    /// Whether this is the number of a state of its table that has no registers.
    pub fn is_bare(&self, state: u32) -> bool
        ensures { IsTrue result ↔ IsTablePlace self.now.table state [] }
    {
        match self.table.states().get(state as usize) {
            None => false,
            Some(row) => row.registers() == 0,
        }
    }

    /// Goes on to a state without registers, past bytes whose code was passed on elsewhere.
    pub fn jump(&mut self, state: u32, bytes: u64)
        requires place { IsTablePlace self.old.table state [] }
        requires told { self.old.pending ≡ [] }
        requires room { self.old.read + bytes < 2 ^ 64 }
        ensures jumped { self.new
            ≡ record self.old { state = state; registers = []; read = self.old.read + bytes } }
        ensures stands { (w v : List ℕ) (c d : List Symbol) → IsRunOf self.old w c
            → length v ≡ bytes
            → passes self.old.table (w ++ v) ≡ Some (pass_at state (c ++ d) [])
            → IsRunOf self.new (w ++ v) (c ++ d) }
    {
        self.place.registers.clear();
        self.place.state = state;
        self.read += bytes;
    }

    /// The words that pieces name, by number.
    pub fn words(&self) -> &[Parts]
        ensures { result.now ≡ self.now.words }
    {
        self.guide.get().script.words()
    }

    /// The number of the state that it is in. The runner holds as many registers as that has.
    pub fn state(&self) -> u32
        ensures same { result ≡ self.now.state }
        ensures place { IsTablePlace self.now.table result self.now.registers }
    {
        self.place.state
    }

    /// Whether its state has registers.
    pub fn holds_registers(&self) -> bool
        ensures { IsTrue result ↔ (0 < length self.now.registers) }
    {
        self.place.registers.len() > 0
    }

    /// How far a piece is quiet from a state on: the table passes nothing on, whatever its
    /// registers hold. It ends before a byte that leads to a state without registers. The runner
    /// stays as it is.
    pub fn glance(&self, state: u32, piece: &[u8]) -> Glance
        ensures count { result.count ≤ length piece.now }
        ensures quiet { GoesQuietly self.now.table state result.state
            (take result.count piece.now) }
    {
        self.guide.get().glance(self.table, state, piece)
    }

    /// How many good bytes were read: those before the first at which the table stops.
    pub fn read(&self) -> u64
        ensures { result ≡ self.now.read }
    {
        self.read
    }

    /// Whether no call has answered `Memory`.
    pub fn usable(&self) -> bool
        ensures { result ≡ self.now.usable }
    {
        self.usable
    }
}
