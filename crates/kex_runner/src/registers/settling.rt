// Registers after updates that aren't in the script: they are settled at once.

ghost use Rattle.std.specs.Prelude.{◌≡◌, ◌++◌, ◌∷◌, [], List, OnOk, OnErr, IfOk, length};
ghost use Rattle.kex_sst.specs.declared.parts.Part.{Part};
ghost use Rattle.kex_sst.specs.Parts.{parts_code, value};
ghost use Rattle.kex_script.specs.Pieces.{word_code};
ghost use Rattle.kex_script.specs.Scripts.{AreLetters};
ghost use Rattle.kex_runner.specs.Noting.{contents, next_registers, settled_of, spelled_back};

use crate::history::walking::Scratch;
use crate::history::{History, Settled};
use crate::registers::{LEAST, Registers, pieces_in};
use kex_code::code::Code;
use kex_code::memory::Memory;
use kex_code::symbol::Symbol;
use kex_script::letters::Letters;
use kex_script::piece::ByteWord;
use kex_script::script::Script;
use kex_sst::parts::{Part, Parts, Update};
use kex_sst::series::Series;

// The piece that spells a symbol.
fn piece_of(letters: Letters, symbol: Symbol) -> ByteWord
    ensures { (words : List (List Part)) → AreLetters words letters
        → word_code words result ≡ symbol ∷ [] }
{
    match symbol {
        Symbol::L => ByteWord {
            word: letters.left,
            byte: 0,
        },
        Symbol::R => ByteWord {
            word: letters.right,
            byte: 0,
        },
        Symbol::Byte(byte) => ByteWord {
            word: letters.byte,
            byte,
        },
    }
}

// A piece is read.
fn say_piece(piece: ByteWord, back: &mut Vec<ByteWord>) -> Result<(), Memory>
    ensures { OnOk result (back.new.items ≡ back.old.items ++ piece ∷ []) }
{
    back.push(piece)?;
    Ok(())
}

impl Registers {
    // What a part stands for is read.
    fn read_part(
        &mut self,
        script: &Script,
        part: Part,
        back: &mut Vec<ByteWord>,
    ) -> Result<(), Memory>
        ensures read { OnOk result (spelled_back script.now.words back.new.items
            ≡ value (contents script.now self.old) 0 part
            ++ spelled_back script.now.words back.old.items) }
        ensures same { contents script.now self.new ≡ contents script.now self.old }
        ensures count { self.new.count ≡ self.old.count }
    {
        let letters = script.letters();
        match part {
            Part::Put(symbol) => say_piece(piece_of(letters, symbol), back),
            Part::Input => say_piece(piece_of(letters, Symbol::Byte(0)), back),
            Part::Old(register) => {
                let history = History {
                    script,
                    base: &self.base,
                    notes: &self.notes,
                };
                let reading = &mut self.scratch.reading;
                history.read_register(register as usize, reading)?;
                back.extend_from_slice(&reading.back)?;
                Ok(())
            }
        }
    }

    // What parts stand for, in pieces that are kept last first.
    fn read_parts(&mut self, script: &Script, parts: &[Part]) -> Result<Settled, Memory>
        ensures read { IfOk result (λ s. spelled_back script.now.words s
            ≡ parts_code (contents script.now self.old) 0 parts.now) }
        ensures same { contents script.now self.new ≡ contents script.now self.old }
        ensures count { self.new.count ≡ self.old.count }
    {
        let mut pieces = Vec::new(self.alloc);
        let mut left = parts.len();
        'parts: while left > 0 {
            left -= 1;
            self.read_part(script, parts[left], &mut pieces)?;
        }
        Ok(Settled { pieces })
    }

    // What lists stand for.
    fn read_lists(&mut self, script: &Script, lists: &[Parts]) -> Result<Vec<Settled>, Memory>
        ensures read { IfOk result (λ all. settled_of script.now all.items
            ≡ next_registers (record { out = []; regs = lists.now }) 0
            (contents script.now self.old)) }
        ensures same { contents script.now self.new ≡ contents script.now self.old }
        ensures count { self.new.count ≡ self.old.count }
    {
        let mut all = Vec::new(self.alloc);
        'lists: for list in lists {
            let settled = self.read_parts(script, list.as_slice())?;
            all.push(settled)?;
        }
        Ok(all)
    }

    // What an update passes on goes to the end of a code. Tells the registers that it leaves.
    fn behind(
        &mut self,
        script: &Script,
        update: &Update,
        code: &mut Code,
    ) -> Result<Registers, Memory>
        ensures code { OnOk result (code.new
            ≡ code.old ++ parts_code (contents script.now self.old) 0 update.now.out) }
        ensures registers { IfOk result (λ r. contents script.now r
            ≡ next_registers update.now 0 (contents script.now self.old)) }
        ensures counted { IfOk result (λ r. r.count ≡ length (contents script.now r)) }
        ensures same { contents script.now self.new ≡ contents script.now self.old }
        ensures count { self.new.count ≡ self.old.count }
    {
        self.spell(script, update.out().as_slice(), code)?;
        let base = self.read_lists(script, update.regs())?;
        Ok(Registers {
            alloc: self.alloc,
            limit: pieces_in(&base).saturating_mul(2).max(LEAST),
            count: base.len(),
            base,
            notes: Vec::new(self.alloc),
            scratch: Scratch::new(self.alloc),
        })
    }

    /// Does updates that read no byte: what they pass on goes to the end of a code. The registers
    /// that they leave are settled.
    pub fn take_series(
        &mut self,
        script: &Script,
        series: &Series,
        code: &mut Code,
    ) -> Result<(), Memory>
        requires counted { self.old.count ≡ length (contents script.now self.old) }
        ensures code { OnOk result (code.new
            ≡ code.old ++ parts_code (contents script.now self.old) 0 series.now.out) }
        ensures registers { OnOk result (contents script.now self.new
            ≡ next_registers series.now 0 (contents script.now self.old)) }
        ensures kept { OnErr result (contents script.now self.new ≡ contents script.now self.old) }
        ensures counted { self.new.count ≡ length (contents script.now self.new) }
    {
        let (first, more) = series.updates();
        let mut made = self.behind(script, first.get(), code)?;
        'more: for update in more {
            let next = made.behind(script, update.get(), code)?;
            made = next;
        }
        *self = made;
        Ok(())
    }
}
