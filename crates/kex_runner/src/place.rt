// Where a table is, and how it goes along a piece.

ghost use Rattle.std.specs.Prelude.{◌≡◌, ◌+◌, ◌<◌, ◌≤◌, IfOk, OnOk, OnErr, length, take};
ghost use Rattle.kex_sst.specs.Passes.{first_pass};
ghost use Rattle.kex_script.specs.Pieces.{code_over};
ghost use Rattle.kex_script.specs.Scripts.{IsScriptOf};
ghost use Rattle.kex_runner.specs.Noting.{contents};
ghost use Rattle.kex_runner.specs.Following.{Follows, IsRunner};
ghost use Rattle.kex_runner.specs.Items.{items_along};
ghost use Rattle.kex_runner.specs.Quiet.{IsGuide};
ghost use Rattle.kex_runner.specs.Ways.{AreKnown};

use crate::quiet::Guide;
use crate::registers::{Registers, count_items};
use crate::ways::Ways;
use kex_code::memory::Memory;
use kex_ports::Steps;
use kex_script::piece::ByteWord;
use kex_script::script::Script;
use kex_sst::table::Table;
use std::alloc::Global;
use std::sync::ledger::Ledger;

// After this many bytes a runner stops as soon as it has no registers.
const PATIENCE: usize = 64;

/// How many bytes of a piece were taken, and how many are good: all, or all but the last, at which
/// the table stops.
#[derive(Clone, Copy)]
pub struct Taken {
    pub taken: usize,
    pub good: usize,
}

/// The state that a table is in, what its registers hold, and what is known of their ways.
#[derive(Drop)]
pub struct TablePlace {
    pub state: u32,
    pub registers: Registers,
    pub ways: Ways,
}

impl TablePlace {
    /// Before the first byte, with what is to be passed on there.
    pub fn new(
        alloc: Global,
        table: &Table,
        script: &Script,
    ) -> Result<(TablePlace, Vec<ByteWord>), Memory>
        requires script { IsScriptOf script.now table.now }
        ensures known { IfOk result (λ made. AreKnown script.now made.0.ways) }
        ensures state { IfOk result (λ made. made.0.state ≡ 0) }
        ensures registers { IfOk result (λ made. contents script.now made.0.registers
            ≡ (first_pass table.now.initial).registers) }
        ensures code { IfOk result (λ made. code_over script.now.words made.1.items
            ≡ (first_pass table.now.initial).code) }
        ensures runner { IfOk result (λ made.
            IsRunner table.now script.now made.0.state made.0.registers) }
    {
        let mut place = TablePlace {
            state: 0,
            registers: Registers::new(alloc),
            ways: Ways::new(alloc, script)?,
        };
        let mut pieces = Vec::new(alloc);
        place.begin_again(table, script, &mut pieces)?;
        Ok((place, pieces))
    }

    /// Goes back before the first byte. What is to be passed on there takes the place of the
    /// pieces. The update before the first byte reads no register.
    pub fn begin_again(
        &mut self,
        table: &Table,
        script: &Script,
        pieces: &mut Vec<ByteWord>,
    ) -> Result<(), Memory>
        requires script { IsScriptOf script.now table.now }
        requires known { AreKnown script.now self.old.ways }
        requires counted { self.old.registers.count
            ≡ length (contents script.now self.old.registers) }
        ensures known { OnOk result (AreKnown script.now self.new.ways) }
        ensures state { OnOk result (self.new.state ≡ 0) }
        ensures registers { OnOk result (contents script.now self.new.registers
            ≡ (first_pass table.now.initial).registers) }
        ensures code { OnOk result (code_over script.now.words pieces.new.items
            ≡ (first_pass table.now.initial).code) }
        ensures runner { OnOk result (IsRunner table.now script.now self.new.state
            self.new.registers) }
        ensures kept { OnErr result ((self.new.state ≡ self.old.state)
            × (contents script.now self.new.registers ≡ contents script.now self.old.registers)) }
        ensures counted { self.new.registers.count
            ≡ length (contents script.now self.new.registers) }
    {
        pieces.clear();
        self.registers
            .take(script, &mut self.ways, script.initial(), 0, pieces)?;
        self.state = 0;
        Ok(())
    }

    /// Follows the table along a piece, as far as it goes on, and tells how many bytes that is.
    /// What is passed on is put after the pieces.
    pub fn follow<L: Ledger>(
        &mut self,
        table: &Table,
        script: &Script,
        piece: &[u8],
        pieces: &mut Vec<ByteWord>,
        steps: &mut Steps<L>,
    ) -> Result<usize, Memory>
        requires runner { IsRunner table.now script.now self.old.state self.old.registers }
        requires known { AreKnown script.now self.old.ways }
        ensures known { OnOk result (AreKnown script.now self.new.ways) }
        ensures follows { IfOk result (λ count. Follows table.now self.old.state
            (contents script.now self.old.registers) piece.now count self.new.state
            (contents script.now self.new.registers) (code_over script.now.words pieces.old.items)
            (code_over script.now.words pieces.new.items)) }
        ensures steps { OnOk result (steps.new
            ≡ steps.old + items_along table.now self.old.state piece.now) }
        ensures runner { IsRunner table.now script.now self.new.state self.new.registers }
    {
        for i in 0..piece.len() {
            let class = table.partition().class_of(piece[i]);
            let Some((_, update)) = table.next(self.state, class) else {
                return Ok(i);
            };
            count_items(update, steps);
            let entry = script.entry(self.state, class);
            self.registers
                .take(script, &mut self.ways, entry, piece[i], pieces)?;
            self.state = entry.target;
        }
        Ok(piece.len())
    }

    /// Follows the table along a piece, up to a byte at which it stops, or one at which there are
    /// no registers: where the next state has none either, or many bytes were taken. What is learnt
    /// goes on faster from there. What is passed on is put after the pieces.
    pub fn follow_held(
        &mut self,
        table: &Table,
        guide: &Guide,
        piece: &[u8],
        pieces: &mut Vec<ByteWord>,
    ) -> Result<Taken, Memory>
        requires runner { IsRunner table.now guide.now.script self.old.state self.old.registers }
        requires guide { IsGuide table.now guide.now }
        requires known { AreKnown guide.now.script self.old.ways }
        ensures known { OnOk result (AreKnown guide.now.script self.new.ways) }
        ensures follows { IfOk result (λ s. Follows table.now self.old.state
            (contents guide.now.script self.old.registers) (take s.taken piece.now) s.good
            self.new.state (contents guide.now.script self.new.registers)
            (code_over guide.now.script.words pieces.old.items)
            (code_over guide.now.script.words pieces.new.items)) }
        ensures taken { IfOk result (λ s. s.taken ≤ length piece.now) }
        ensures some { IfOk result (λ s. 0 < length piece.now → 0 < s.taken) }
        ensures runner { IsRunner table.now guide.now.script self.new.state self.new.registers }
    {
        let script = &guide.script;
        let mut at = 0;
        'bytes: while at < piece.len() {
            let class = table.partition().class_of(piece[at]);
            let entry = script.entry(self.state, class);
            if !entry.goes {
                return Ok(Taken {
                    taken: at + 1,
                    good: at,
                });
            }
            let bare = self.registers.len() == 0;
            if bare && at > 0 && (entry.registers == 0 || at >= PATIENCE) {
                break;
            }
            let rest = &piece[at..];
            let count = self
                .registers
                .go_on_quietly(table, guide, entry, &mut self.state, rest)?;
            at += count;
            if count == 0 {
                self.registers
                    .take(script, &mut self.ways, entry, piece[at], pieces)?;
                self.state = entry.target;
                at += 1;
            }
        }
        Ok(Taken {
            taken: at,
            good: at,
        })
    }
}
