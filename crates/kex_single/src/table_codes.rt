// The code that a table passes on.

ghost use Rattle.std.specs.Prelude.{◌≡◌, ◌+◌, ◌^◌, ◌<◌, ◌≤◌, ◌++◌, ℕ, List, [], false, IfOk};
ghost use Rattle.std.specs.Prelude.{IfSome, OnOk, IsTrue, length, take};
ghost use Rattle.kex_code.specs.Texts.{text_of};
ghost use Rattle.kex_code.specs.declared.symbol.Symbol.{Symbol};
ghost use Rattle.kex_machine.specs.Answers.{IsViableFor};
ghost use Rattle.kex_machine.specs.Nodes.{Graph, IsTrimmed};
ghost use Rattle.kex_runner.specs.Running.{IsRunOf};
ghost use Rattle.kex_script.specs.Pieces.{code_over, word_code};
ghost use Rattle.kex_sst.specs.Machines.{IsTableOf};
ghost use Rattle.kex_sst.specs.Parts.{parts_code, value};
ghost use Rattle.kex_single.specs.Standing.{is_parsed_run, stopped_at};
ghost use Rattle.kex_single.specs.Told.{TellsLast, TellsMore, WritesFed};
ghost use Rattle.kex_single.specs.declared.code_oracle.CodeOracle.{CodeOracle};

use kex_code::code::Code;
use kex_code::memory::Memory;
use kex_code::symbol::Symbol;
use kex_code::text::write_text;
use kex_runner::runner::Runner;
use kex_runner::{Ended, Fed};
use kex_script::piece::ByteWord;
use kex_sst::parts::{Part, Parts};
use kex_sst::table::Table;
use std::alloc::Global;

/// A runner of a table, and what it has passed on last.
#[derive(Drop)]
pub struct CodeRunner<'m> {
    pub runner: Runner<'m>,
    pieces: Vec<ByteWord>,
}

// How many bytes of a piece were taken, and what they leave.
#[derive(Clone, Copy)]
struct Noted {
    taken: usize,
    fed: Fed,
}

// Writes the text of what a part of a word stands for. A word has no old registers.
fn write_part(part: Part, byte: u8, out: &mut Vec<u8>) -> Result<(), Memory>
    ensures { OnOk result (out.new.items ≡ out.old.items ++ text_of (value [] byte part)) }
{
    match part {
        Part::Put(symbol) => write_text(&[symbol], out),
        Part::Input => write_text(&[Symbol::Byte(byte)], out),
        Part::Old(_) => Ok(()),
    }
}

// Writes the text of what a word stands for.
fn write_word(word: &[Part], byte: u8, out: &mut Vec<u8>) -> Result<(), Memory>
    ensures { OnOk result (out.new.items ≡ out.old.items ++ text_of (parts_code [] byte word.now)) }
{
    for part in word {
        write_part(*part, byte, out)?;
    }
    Ok(())
}

// Writes the text of what a piece stands for.
fn write_piece(words: &[Parts], piece: ByteWord, out: &mut Vec<u8>) -> Result<(), Memory>
    ensures { OnOk result (out.new.items ≡ out.old.items ++ text_of (word_code words.now piece)) }
{
    match words.get(piece.word as usize) {
        None => Ok(()),
        Some(word) => write_word(word.as_slice(), piece.byte, out),
    }
}

// Writes the text of what pieces stand for.
fn write_pieces(words: &[Parts], pieces: &[ByteWord], out: &mut Vec<u8>) -> Result<(), Memory>
    ensures { OnOk result (out.new.items
        ≡ out.old.items ++ text_of (code_over words.now pieces.now)) }
{
    for piece in pieces {
        write_piece(words, *piece, out)?;
    }
    Ok(())
}

// The number in a piece of the byte after its good ones, where that was refused.
fn stopped_at(fed: Fed, good: u64) -> Option<usize>
    requires { good < 2 ^ 64 }
    ensures { result ≡ stopped_at fed good }
{
    match fed {
        Fed::On => None,
        Fed::Dead => Some(good as usize),
    }
}

// Whether the end has found a parse.
fn is_parsed(ended: Ended) -> bool
    ensures { result ≡ is_parsed_run ended }
{
    match ended {
        Ended::Parsed => true,
        Ended::Cut => false,
    }
}

impl<'m> CodeRunner<'m> {
    /// At the start of a table.
    pub fn new(alloc: Global, table: &'m Table) -> Result<CodeRunner<'m>, Memory>
        ensures table { IfOk result (λ t. t.runner.table ≡ table.now) }
        ensures stands { IfOk result (λ t. IsRunOf t.runner [] []) }
        ensures usable { IfOk result (λ t. IsTrue t.runner.usable × (t.runner.ended ≡ false)
            × (t.runner.read ≡ 0)) }
    {
        let runner = Runner::new(alloc, table)?;
        Ok(CodeRunner {
            runner,
            pieces: Vec::new(alloc),
        })
    }

    // Takes the front of a piece, and writes the text of what is passed on.
    fn take(&mut self, piece: &[u8], out: &mut Vec<u8>) -> Result<Noted, Memory>
        requires usable { IsTrue self.old.runner.usable }
        requires open { self.old.runner.ended ≡ false }
        requires room { self.old.runner.read + length piece.now < 2 ^ 64 }
        ensures fed { IfOk result (λ n. WritesFed n.fed self.old.runner self.new.runner
            (take n.taken piece.now) out.old.items out.new.items) }
        ensures taken { IfOk result (λ n. n.taken ≤ length piece.now) }
        ensures some { IfOk result (λ n. 0 < length piece.now → 0 < n.taken) }
        ensures read { (self.old.runner.read ≤ self.new.runner.read)
            × (self.new.runner.read ≤ self.old.runner.read + length piece.now) }
        ensures within { IfOk result (λ n.
            self.new.runner.read ≤ self.old.runner.read + n.taken) }
        ensures table { self.new.runner.table ≡ self.old.runner.table }
        ensures usable { OnOk result (IsTrue self.new.runner.usable) }
        ensures open { self.new.runner.ended ≡ false }
    {
        let held = self.runner.hold(piece, &mut self.pieces)?;
        write_pieces(self.runner.words(), &self.pieces, out)?;
        Ok(Noted {
            taken: held.taken,
            fed: held.fed,
        })
    }

    // Takes a piece, and writes the text of what is passed on.
    fn take_all(&mut self, piece: &[u8], out: &mut Vec<u8>) -> Result<Fed, Memory>
        requires usable { IsTrue self.old.runner.usable }
        requires open { self.old.runner.ended ≡ false }
        requires room { self.old.runner.read + length piece.now < 2 ^ 64 }
        ensures fed { IfOk result (λ fed. WritesFed fed self.old.runner self.new.runner
            piece.now out.old.items out.new.items) }
        ensures read { (self.old.runner.read ≤ self.new.runner.read)
            × (self.new.runner.read ≤ self.old.runner.read + length piece.now) }
        ensures table { self.new.runner.table ≡ self.old.runner.table }
        ensures usable { OnOk result (IsTrue self.new.runner.usable) }
        ensures open { self.new.runner.ended ≡ false }
    {
        let begun = self.take(&piece[..0], out)?;
        let mut fed = begun.fed;
        let mut at = 0;
        'takes: while at < piece.len() {
            let noted = self.take(&piece[at..], out)?;
            at += noted.taken;
            fed = noted.fed;
        }
        Ok(fed)
    }

    /// Takes a piece, and writes the text of what is passed on. Tells the number of the byte with
    /// which no parse begins, if there is one.
    pub fn go_on(&mut self, piece: &[u8], out: &mut Vec<u8>) -> Result<Option<usize>, Memory>
        requires usable { IsTrue self.old.runner.usable }
        requires open { self.old.runner.ended ≡ false }
        requires room { self.old.runner.read + length piece.now < 2 ^ 64 }
        ensures tells { IfOk result (λ bad. (g : Graph) (w : List ℕ) (c : List Symbol)
            → IsTrimmed g → IsTableOf g self.old.runner.table → IsRunOf self.old.runner w c
            → IsViableFor g w → TellsMore g (CodeOracle.Table self.new) w piece.now bad c
            out.old.items out.new.items) }
        ensures within { IfOk result (λ bad. IfSome bad (λ k. k ≤ length piece.now)) }
        ensures read { self.new.runner.read ≤ self.old.runner.read + length piece.now }
        ensures usable { OnOk result (IsTrue self.new.runner.usable
            × (self.new.runner.ended ≡ false)) }
    {
        let before = self.runner.read();
        let fed = self.take_all(piece, out)?;
        Ok(stopped_at(fed, self.runner.read() - before))
    }

    /// Takes the end, and writes the text of the rest. Tells whether the bytes have a parse.
    pub fn finish(&mut self, alloc: Global, out: &mut Vec<u8>) -> Result<bool, Memory>
        requires usable { IsTrue self.old.runner.usable }
        requires open { self.old.runner.ended ≡ false }
        ensures tells { IfOk result (λ parsed. (g : Graph) (w : List ℕ) (c : List Symbol)
            → IsTrimmed g → IsTableOf g self.old.runner.table → IsRunOf self.old.runner w c
            → IsViableFor g w → TellsLast g w parsed c out.old.items out.new.items) }
        ensures read { self.new.runner.read ≡ self.old.runner.read }
    {
        let mut code = Code::new(alloc);
        let ended = self.runner.end(&mut code)?;
        write_text(code.as_slice(), out)?;
        Ok(is_parsed(ended))
    }
}
