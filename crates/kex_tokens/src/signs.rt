// Signs.

ghost use Rattle.std.specs.Prelude.{◌≡◌, ◌≤◌, length, drop, Some};
ghost use Rattle.kex_tokens.specs.Scanning.{begins_with, one_or_two, sign_at, single, two};

use crate::lexeme::{Lexeme, SizedLexeme};
use crate::token::TokenKind;

/// Whether this byte is at this place.
pub fn has_byte(text: &[u8], at: usize, byte: u8) -> bool
    requires { at ≤ length text.now }
    ensures { result ≡ begins_with byte (drop at text.now) }
{
    at < text.len() && text[at] == byte
}

/// The kind of a sign of one byte that begins no longer one.
#[tactic(auto, unfolding(crate::specs::Scanning::single))]
fn single(byte: u8) -> Option<TokenKind>
    ensures { result ≡ single byte }
{
    match byte {
        b'|' => Some(TokenKind::Bar),
        b'~' => Some(TokenKind::Tilde),
        b'@' => Some(TokenKind::At),
        b'*' => Some(TokenKind::Star),
        b'?' => Some(TokenKind::Question),
        b'{' => Some(TokenKind::OpenBrace),
        b'}' => Some(TokenKind::CloseBrace),
        b',' => Some(TokenKind::Comma),
        b'!' => Some(TokenKind::Bang),
        b'[' => Some(TokenKind::OpenBracket),
        b']' => Some(TokenKind::CloseBracket),
        b'(' => Some(TokenKind::OpenParen),
        b')' => Some(TokenKind::CloseParen),
        _ => None,
    }
}

fn piece(kind: TokenKind, long: usize) -> SizedLexeme
    ensures { result ≡ record { lexeme = Lexeme.Kept kind; long = long } }
{
    SizedLexeme {
        lexeme: Lexeme::Kept(kind),
        long,
    }
}

/// The long sign where its second byte comes next, else the short one.
#[tactic(auto, unfolding(crate::specs::Scanning::one_or_two))]
fn one_or_two(
    text: &[u8],
    next: usize,
    second: u8,
    long: TokenKind,
    short: TokenKind,
) -> Option<SizedLexeme>
    requires { next ≤ length text.now }
    ensures { result ≡ one_or_two second long short (drop next text.now) }
{
    if has_byte(text, next, second) {
        Some(piece(long, 2))
    } else {
        Some(piece(short, 1))
    }
}

/// The sign where its second byte comes next.
#[tactic(auto, unfolding(crate::specs::Scanning::two))]
fn two(text: &[u8], next: usize, second: u8, long: TokenKind) -> Option<SizedLexeme>
    requires { next ≤ length text.now }
    ensures { result ≡ two second long (drop next text.now) }
{
    if has_byte(text, next, second) {
        Some(piece(long, 2))
    } else {
        None
    }
}

/// The sign that begins with this byte, where the text goes on at `next`.
#[tactic(auto, unfolding(crate::specs::Scanning::sign_at))]
pub fn sign(first: u8, text: &[u8], next: usize) -> Option<SizedLexeme>
    requires { next ≤ length text.now }
    ensures { result ≡ sign_at first (drop next text.now) }
{
    if first == b':' {
        one_or_two(text, next, b'=', TokenKind::Define, TokenKind::Colon)
    } else if first == b'+' {
        one_or_two(text, next, b'=', TokenKind::PlusEquals, TokenKind::Plus)
    } else if first == b'>' {
        two(text, next, b'>', TokenKind::Pipe)
    } else if first == b'<' {
        two(text, next, b'-', TokenKind::Arrow)
    } else {
        let kind = single(first)?;
        Some(piece(kind, 1))
    }
}
