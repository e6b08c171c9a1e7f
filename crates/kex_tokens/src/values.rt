// What literals and numbers stand for.

ghost use Rattle.std.specs.Prelude.{◌≡◌, ◌<◌, ◌≤◌, ◌++◌, IfOk, MatchOption};
ghost use Rattle.kex_tokens.specs.Lexemes.{IsToken};
ghost use Rattle.kex_tokens.specs.Values.{StandsFor, hex_value, item_end, decimal_value};
ghost use Rattle.kex_tokens.specs.Values.{or_nothing, short_value};

use crate::closing::ClosingStep;
use crate::literals::{InLiteral, literal_step};
use crate::token::TokenKind;
use std::alloc::{AllocError, Global};

/// What a hexadecimal digit counts.
fn hex_value(byte: u8) -> u8
    ensures value { result ≡ hex_value byte }
    ensures small { result < 16 }
{
    if byte.is_ascii_digit() {
        byte - b'0'
    } else if byte >= b'A' && byte <= b'F' {
        byte - b'A' + 10
    } else if byte >= b'a' && byte <= b'f' {
        byte - b'a' + 10
    } else {
        0
    }
}

/// What the escape of a backslash and this byte stands for.
fn short_value(byte: u8) -> u8
    ensures { result ≡ short_value byte }
{
    if byte == b'n' {
        b'\n'
    } else if byte == b't' {
        b'\t'
    } else if byte == b'r' {
        b'\r'
    } else {
        byte
    }
}

/// What an item stands for, at its last byte.
#[tactic(auto, unfolding(crate::specs::Values::item_end))]
fn item_end(state: InLiteral, byte: u8) -> Option<u8>
    ensures { result ≡ item_end state byte }
{
    match state {
        InLiteral::Between => { if byte == b'\\' { None } else { Some(byte) } }
        InLiteral::Backslash => {
            if byte == b'x' {
                None
            } else {
                Some(short_value(byte))
            }
        }
        InLiteral::HexBegun => None,
        InLiteral::HexOne(high) => Some(16 * hex_value(high) + hex_value(byte)),
    }
}

/// Adds the byte, if there is one.
fn push_some(bytes: &mut Vec<u8>, byte: Option<u8>) -> Result<(), AllocError>
    ensures { IfOk result (λ _. bytes.new.items ≡ bytes.old.items ++ or_nothing byte) }
{
    if let Some(byte) = byte {
        bytes.push(byte)?;
    }
    Ok(())
}

/// The bytes that a literal stands for, where `spelling` is the whole token with its quotes.
pub fn literal_bytes(alloc: Global, spelling: &[u8]) -> Result<Vec<u8>, AllocError>
    requires { IsToken TokenKind.Literal spelling.now }
    ensures { IfOk result (λ bytes. StandsFor spelling.now bytes.items) }
{
    let mut bytes = Vec::new(alloc);
    let mut state = InLiteral::Between;
    for i in 1..spelling.len() {
        let byte = spelling[i];
        let ClosingStep::On(next) = literal_step(state, byte) else {
            return Ok(bytes);
        };
        push_some(&mut bytes, item_end(state, byte))?;
        state = next;
    }
    Ok(bytes)
}

/// The number that these decimal digits write, if it is at most `most`, however many there are.
pub fn number_value(digits: &[u8], most: u32) -> Option<u32>
    ensures { MatchOption result (most
        < decimal_value digits.now) (λ n. (n ≡ decimal_value digits.now) × (n ≤ most)) }
{
    let mut value = 0;
    for i in 0..digits.len() {
        let longer = 10 * value as u64 + digits[i].saturating_sub(b'0') as u64;
        if longer > most as u64 {
            return None;
        }
        value = longer as u32;
    }
    Some(value)
}
