// Literals.

ghost use Rattle.std.specs.Prelude.{◌≡◌, ◌+◌, ◌≤◌, length, drop, IfSome};
ghost use Rattle.kex_tokens.specs.Scanning.{literal, literal_step};

use crate::bytes::is_short;
use crate::closing::ClosingStep;

/// Where in an item of a literal the next byte comes.
#[derive(Clone, Copy, Drop)]
pub enum InLiteral {
    Between,
    Backslash,
    HexBegun,
    HexOne(u8),
}

/// What a byte does in a literal.
#[tactic(auto, unfolding(crate::specs::Scanning::literal_step))]
pub fn literal_step(state: InLiteral, byte: u8) -> ClosingStep<InLiteral>
    ensures { result ≡ literal_step state byte }
{
    match state {
        InLiteral::Between => {
            if byte == b'"' {
                ClosingStep::Closed
            } else if byte == b'\\' {
                ClosingStep::On(InLiteral::Backslash)
            } else if byte == b'\n' {
                ClosingStep::Wrong
            } else {
                ClosingStep::On(InLiteral::Between)
            }
        }
        InLiteral::Backslash => {
            if byte == b'x' {
                ClosingStep::On(InLiteral::HexBegun)
            } else if is_short(byte) {
                ClosingStep::On(InLiteral::Between)
            } else {
                ClosingStep::Wrong
            }
        }
        InLiteral::HexBegun => {
            if byte.is_ascii_hexdigit() {
                ClosingStep::On(InLiteral::HexOne(byte))
            } else {
                ClosingStep::Wrong
            }
        }
        InLiteral::HexOne(_) => {
            if byte.is_ascii_hexdigit() {
                ClosingStep::On(InLiteral::Between)
            } else {
                ClosingStep::Wrong
            }
        }
    }
}

/// The bytes from here on up to and with the quote that closes.
pub fn literal_length(text: &[u8], from: usize) -> Option<usize>
    requires { from ≤ length text.now }
    ensures length { result ≡ literal InLiteral.Between (drop from text.now) }
    ensures inside { IfSome result (λ n. from + n ≤ length text.now) }
{
    let mut state = InLiteral::Between;
    for i in from..text.len() {
        match literal_step(state, text[i]) {
            ClosingStep::On(next) => state = next,
            ClosingStep::Closed => return Some(i + 1 - from),
            ClosingStep::Wrong => return None,
        }
    }
    None
}
