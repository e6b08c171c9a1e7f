// Codes from their text, as its bytes come.

ghost use Rattle.std.specs.Prelude.{◌≡◌, ◌<◌, ◌≤◌, ◌+◌, ◌^◌, ◌∷◌, [], ℕ, List, length};
ghost use Rattle.std.specs.Prelude.{IfSome, IfNone, OnOk, IfErr, IsTrue, ◌↔◌, true, false};
ghost use Rattle.std.specs.Char.{digit_char};
ghost use Rattle.kex_code.specs.declared.symbol.Symbol.{Symbol};
ghost use Rattle.kex_code.specs.Texts.{IsText};
ghost use Rattle.kex_code.specs.Begun.{IsPart, StepsTo};
ghost use Rattle.kex_code.specs.Readers.{FaultLeaves, ReaderHasRead, ReadOn};

use crate::code::Code;
use crate::memory::Memory;
use crate::symbol::Symbol;
use std::marker::Model;
use thiserror::Error;

/// Where a text stops to be that of a code.
#[derive(Clone, Copy, Debug, PartialEq, Eq, Drop, Error)]
#[error("no code's text goes on with byte {at}")]
pub struct CodeFault {
    /// How many bytes were fed before it.
    pub at: u64,
}

/// Why a text isn't read.
#[derive(Clone, Copy, Debug, PartialEq, Eq, Drop, Error)]
pub enum CodeError {
    /// The first byte after which no code's text goes on.
    #[error("{0}")]
    Bad(CodeFault),
    /// No contract says when this comes.
    #[error("out of memory")]
    Memory,
}

impl From<Memory> for CodeError {
    ghost use Rattle.std.specs.Prelude.{◌≡◌};
    ghost use Rattle.kex_code.specs.declared.reader.CodeError.TheVariants as faults;

    ghost from_gives = { λ _ e. e ≡ faults.Memory };

    fn from(_: Memory) -> CodeError {
        CodeError::Memory
    }
}

/// What is begun of a symbol's text: nothing, the quote, or the quote and the digit of a value.
#[derive(Clone, Copy)]
pub enum Begun {
    Nothing,
    Quote,
    Digit(u8),
}

/// What a byte makes of it.
#[derive(Clone, Copy)]
pub enum ReaderStep {
    Open(Begun),
    Whole(Symbol),
    Wrong,
}

// The value of a hexadecimal digit in lower case.
fn value_of(digit: u8) -> Option<u8>
    ensures some { IfSome result (λ v. (v < 16) × (digit ≡ digit_char v)) }
    ensures none { IfNone result ((v : ℕ) → v < 16 → digit ≡ digit_char v → ⊥) }
{
    match digit {
        b'0'..=b'9' => Some(digit - b'0'),
        b'a'..=b'f' => Some(digit - b'a' + 10),
        _ => None,
    }
}

fn step_by(begun: Begun, byte: u8) -> ReaderStep
    requires { IsPart begun }
    ensures { StepsTo begun byte result }
{
    match begun {
        Begun::Nothing => match byte {
            b'0' => ReaderStep::Whole(Symbol::L),
            b'1' => ReaderStep::Whole(Symbol::R),
            b'\'' => ReaderStep::Open(Begun::Quote),
            _ => ReaderStep::Wrong,
        },
        Begun::Quote => match value_of(byte) {
            Some(value) => ReaderStep::Open(Begun::Digit(value)),
            None => ReaderStep::Wrong,
        },
        Begun::Digit(high) => match value_of(byte) {
            Some(low) => ReaderStep::Whole(Symbol::Byte(16 * high + low)),
            None => ReaderStep::Wrong,
        },
    }
}

/// Reads codes from their text, which comes in pieces.
///
/// It stores no history: `ReaderHasRead` relates it to the bytes that it was fed and the symbols
/// that it has given, in the clauses of `CodeReader::new`, `CodeReader::feed` and
/// `CodeReader::whole`. Once a call has answered `Memory` it may only be dropped.
#[derive(Drop)]
pub struct CodeReader {
    begun: Begun,
    good: u64,
    bad: bool,
    usable: bool,
}

impl Model for CodeReader {
    ghost use Rattle.kex_code.specs.Begun.{IsPart, text_begun};
    ghost use Rattle.kex_code.specs.Readers.{CodeReading};

    ghost Value = { CodeReading };

    ghost view = { λ r.
        record { begun = text_begun r.begun; good = r.good; bad = r.bad; usable = r.usable } };

    ghost invariant = { λ r. IsPart r.begun };
}

impl CodeReader {
    /// A reader that was fed nothing.
    pub fn new() -> CodeReader
        ensures begins { ReaderHasRead result [] [] }
        ensures usable { result ≡ record { begun = []; good = 0; bad = false; usable = true } }
    {
        CodeReader {
            begun: Begun::Nothing,
            good: 0,
            bad: false,
            usable: true,
        }
    }

    fn fault(&self) -> CodeError
        ensures { result ≡ CodeError.Bad (record { at = self.now.good }) }
    {
        CodeError::Bad(CodeFault { at: self.good })
    }

    // Reads one byte more.
    fn take(&mut self, byte: u8, out: &mut Code) -> Result<(), CodeError>
        requires usable { IsTrue self.old.usable }
        requires good { self.old.bad ≡ false }
        requires fits { self.old.good + 1 < 2 ^ 64 }
        ensures ok { OnOk result (ReadOn self.old self.new (byte ∷ []) out.old out.new
            × (self.new.bad ≡ false) × (self.new.good ≡ self.old.good + 1)) }
        ensures err { IfErr result (λ e.
            FaultLeaves e self.old self.new (byte ∷ []) out.old out.new) }
        ensures count { self.new.good ≤ self.old.good + 1 }
        ensures usable { IsTrue self.new.usable ↔ (¬ (result ≡ Err CodeError.Memory)) }
    {
        match step_by(self.begun, byte) {
            ReaderStep::Open(begun) => self.begun = begun,
            ReaderStep::Whole(symbol) => {
                self.begun = Begun::Nothing;
                if out.push(symbol).is_err() {
                    self.usable = false;
                    return Err(CodeError::Memory);
                }
            }
            ReaderStep::Wrong => {
                self.bad = true;
                return Err(self.fault());
            }
        }
        self.good += 1;
        Ok(())
    }

    /// Reads a piece more. The symbols that are whole by it are added to `out`.
    ///
    /// `Bad` tells the first byte after which no code's text goes on, counted over all pieces; each
    /// later call answers the same.
    pub fn feed(&mut self, piece: &[u8], out: &mut Code) -> Result<(), CodeError>
        requires usable { IsTrue self.old.usable }
        requires fits { self.old.good + length piece.now < 2 ^ 64 }
        ensures ok { OnOk result (ReadOn self.old self.new piece.now out.old out.new
            × (self.new.bad ≡ false)) }
        ensures err { IfErr result (λ e.
            FaultLeaves e self.old self.new piece.now out.old out.new) }
        ensures count { self.new.good ≤ self.old.good + length piece.now }
        ensures usable { IsTrue self.new.usable ↔ (¬ (result ≡ Err CodeError.Memory)) }
    {
        if self.bad {
            return Err(self.fault());
        }
        for byte in piece {
            self.take(*byte, out)?;
        }
        Ok(())
    }

    /// Whether all that was fed is the text of whole symbols.
    pub fn whole(&self) -> bool
        requires { IsTrue self.now.usable }
        ensures state { IsTrue result ↔ ((self.now.bad ≡ false) × (self.now.begun ≡ [])) }
        ensures text { (w : List ℕ) (c : List Symbol) → ReaderHasRead self.now w c
            → (IsTrue result ↔ IsText w) }
    {
        !self.bad && matches!(self.begun, Begun::Nothing)
    }

    /// Whether no call has answered `Memory`.
    pub fn usable(&self) -> bool
        ensures { result ≡ self.now.usable }
    {
        self.usable
    }
}
