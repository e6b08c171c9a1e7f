// The text of a code.

ghost use Rattle.std.specs.Prelude.{◌≡◌, ℕ, ◌<◌, ◌++◌, ◌∷◌, [], take, OnOk, OnErr};
ghost use Rattle.std.specs.Char.{digit_char};
ghost use Rattle.kex_code.specs.Texts.{text_of};

use crate::memory::Memory;
use crate::symbol::Symbol;

// The hexadecimal digit of this value, in lower case.
fn hexadecimal(value: u8) -> u8
    requires { value < 16 }
    ensures { result ≡ digit_char value }
{
    if value < 10 {
        b'0' + value
    } else {
        b'a' - 10 + value
    }
}

fn write_symbol(symbol: Symbol, out: &mut Vec<u8>) -> Result<(), Memory>
    ensures ok { OnOk result (out.new.items ≡ out.old.items ++ text_of (symbol ∷ [])) }
    ensures err { OnErr result (out.new.items ≡ out.old.items) }
{
    match symbol {
        Symbol::L => out.push(b'0')?,
        Symbol::R => out.push(b'1')?,
        Symbol::Byte(b) => {
            let text = [b'\'', hexadecimal(b / 16), hexadecimal(b % 16)];
            out.extend_from_slice(&text)?;
        }
    }
    Ok(())
}

/// Adds the text of the symbols: `0` for L, `1` for R, and `'` with two lower-case hexadecimal
/// digits for a byte.
///
/// Without memory the text of the first ones is added, of each whole.
pub fn write_text(symbols: &[Symbol], out: &mut Vec<u8>) -> Result<(), Memory>
    ensures ok { OnOk result (out.new.items ≡ out.old.items ++ text_of symbols.now) }
    ensures err { OnErr result ((n : ℕ)
        × (out.new.items ≡ out.old.items ++ text_of (take n symbols.now))) }
{
    for symbol in symbols {
        write_symbol(*symbol, out)?;
    }
    Ok(())
}
