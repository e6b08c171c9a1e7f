// A word symbol by symbol, where no edge is known.

ghost use Rattle.std.specs.Prelude.{◌≡◌, ◌++◌, [], false, IfOk, OnOk, IsTrue, take};
ghost use Rattle.kex_sst.specs.Parts.{value};
ghost use Rattle.kex_script.specs.Pieces.{word_code};
ghost use Rattle.kex_action.specs.Actors.{TookAll};
ghost use Rattle.kex_moves.specs.Speech.{RefusesCode};

use kex_action::actor::Actor;
use kex_action::fault::ActFault;
use kex_code::memory::Memory;
use kex_code::symbol::Symbol;
use kex_script::piece::ByteWord;
use kex_sst::parts::{Part, Parts};

// Adds the symbol that a part is, where a byte is read. A word has no old registers.
fn push_part(symbols: &mut Vec<Symbol>, part: Part, byte: u8) -> Result<(), Memory>
    ensures { OnOk result (symbols.new.items ≡ symbols.old.items ++ value [] byte part) }
{
    match part {
        Part::Put(symbol) => symbols.push(symbol)?,
        Part::Input => symbols.push(Symbol::Byte(byte))?,
        Part::Old(_) => {}
    }
    Ok(())
}

// Adds the symbols of a piece.
fn spell(words: &[Parts], piece: ByteWord, symbols: &mut Vec<Symbol>) -> Result<(), Memory>
    ensures { OnOk result (symbols.new.items ≡ symbols.old.items ++ word_code words.now piece) }
{
    let Some(parts) = words.get(piece.word as usize) else {
        return Ok(());
    };
    for part in parts.as_slice() {
        push_part(symbols, *part, piece.byte)?;
    }
    Ok(())
}

/// Performs a piece symbol by symbol, and tells whether no symbol was refused. `symbols` is a
/// buffer that is used again.
pub fn take_word(
    words: &[Parts],
    piece: ByteWord,
    symbols: &mut Vec<Symbol>,
    actor: &mut Actor,
    out: &mut Vec<u8>,
) -> Result<bool, Memory>
    requires { IsTrue actor.old.usable }
    ensures took { IfOk result (λ all. IsTrue all
        → TookAll actor.old actor.new (word_code words.now piece) out.old.items out.new.items) }
    ensures refused { IfOk result (λ all. all ≡ false
        → RefusesCode actor.old (word_code words.now piece)) }
    ensures machine { actor.new.machine ≡ actor.old.machine }
    ensures usable { OnOk result (IsTrue actor.new.usable) }
{
    symbols.clear();
    spell(words, piece, symbols)?;
    match actor.take(symbols, out) {
        Ok(()) => Ok(true),
        Err(ActFault::NotACode(_)) => Ok(false),
        Err(ActFault::Memory) => Err(Memory),
    }
}
