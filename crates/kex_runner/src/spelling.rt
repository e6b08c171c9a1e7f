// Byte words into codes.

ghost use Rattle.std.specs.Prelude.{◌≡◌, ◌++◌, [], OnOk};
ghost use Rattle.kex_sst.specs.Parts.{parts_code, value};
ghost use Rattle.kex_script.specs.Pieces.{code_over, word_code};

use kex_code::code::Code;
use kex_code::memory::Memory;
use kex_code::symbol::Symbol;
use kex_script::piece::ByteWord;
use kex_sst::parts::{Part, Parts};

// What a part of a word stands for goes to the end of a code. A word has no old registers.
fn spell_part(part: Part, byte: u8, code: &mut Code) -> Result<(), Memory>
    ensures { OnOk result (code.new ≡ code.old ++ value [] byte part) }
{
    match part {
        Part::Put(symbol) => code.push(symbol),
        Part::Input => code.push(Symbol::Byte(byte)),
        Part::Old(_) => Ok(()),
    }
}

// What a word stands for goes to the end of a code.
fn spell_word(word: &[Part], byte: u8, code: &mut Code) -> Result<(), Memory>
    ensures { OnOk result (code.new ≡ code.old ++ parts_code [] byte word.now) }
{
    for part in word {
        spell_part(*part, byte, code)?;
    }
    Ok(())
}

// What a piece stands for goes to the end of a code.
fn spell_piece(words: &[Parts], piece: ByteWord, code: &mut Code) -> Result<(), Memory>
    ensures { OnOk result (code.new ≡ code.old ++ word_code words.now piece) }
{
    match words.get(piece.word as usize) {
        None => Ok(()),
        Some(word) => spell_word(word.as_slice(), piece.byte, code),
    }
}

/// What pieces stand for goes to the end of a code.
pub fn spell(words: &[Parts], pieces: &[ByteWord], code: &mut Code) -> Result<(), Memory>
    ensures { OnOk result (code.new ≡ code.old ++ code_over words.now pieces.now) }
{
    for piece in pieces {
        spell_piece(words, *piece, code)?;
    }
    Ok(())
}
