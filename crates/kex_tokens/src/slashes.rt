// Regexes and block comments.

ghost use Rattle.std.specs.Prelude.{◌≡◌, ◌+◌, ◌≤◌, length, drop, false, IfSome};
ghost use Rattle.kex_tokens.specs.Scanning.{block, block_step, regex, regex_step};

use crate::closing::ClosingStep;

/// What a byte does in a regex, where the byte before is a backslash that escapes it, or not.
#[tactic(auto, unfolding(crate::specs::Scanning::regex_step))]
fn regex_step(escaped: bool, byte: u8) -> ClosingStep<bool>
    ensures { result ≡ regex_step escaped byte }
{
    if escaped {
        if byte == b'\n' {
            ClosingStep::Wrong
        } else {
            ClosingStep::On(false)
        }
    } else if byte == b'/' {
        ClosingStep::Closed
    } else if byte == b'\\' {
        ClosingStep::On(true)
    } else if byte == b'\n' {
        ClosingStep::Wrong
    } else {
        ClosingStep::On(false)
    }
}

/// What a byte does in a block comment, where the byte before is a star, or not.
#[tactic(auto, unfolding(crate::specs::Scanning::block_step))]
fn block_step(star: bool, byte: u8) -> ClosingStep<bool>
    ensures { result ≡ block_step star byte }
{
    if star && byte == b'/' {
        ClosingStep::Closed
    } else {
        ClosingStep::On(byte == b'*')
    }
}

/// The bytes from here on up to and with the slash that closes.
pub fn regex_length(text: &[u8], from: usize) -> Option<usize>
    requires { from ≤ length text.now }
    ensures length { result ≡ regex false (drop from text.now) }
    ensures inside { IfSome result (λ n. from + n ≤ length text.now) }
{
    let mut escaped = false;
    for i in from..text.len() {
        match regex_step(escaped, text[i]) {
            ClosingStep::On(next) => escaped = next,
            ClosingStep::Closed => return Some(i + 1 - from),
            ClosingStep::Wrong => return None,
        }
    }
    None
}

/// The bytes from here on up to and with the `*/` that closes.
pub fn block_length(text: &[u8], from: usize) -> Option<usize>
    requires { from ≤ length text.now }
    ensures length { result ≡ block false (drop from text.now) }
    ensures inside { IfSome result (λ n. from + n ≤ length text.now) }
{
    let mut star = false;
    for i in from..text.len() {
        match block_step(star, text[i]) {
            ClosingStep::On(next) => star = next,
            ClosingStep::Closed => return Some(i + 1 - from),
            ClosingStep::Wrong => return None,
        }
    }
    None
}
