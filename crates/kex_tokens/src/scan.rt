// The lexeme at a place.

ghost use Rattle.std.specs.Prelude.{◌≡◌, ◌+◌, ◌<◌, ◌≤◌, ◌^◌, ◌∷◌, length, drop, IfSome, IfNone};
ghost use Rattle.kex_tokens.specs.Lexemes.{HasNoLexeme, IsLongest};
ghost use Rattle.kex_tokens.specs.Scanning.{behind_one, lexeme, slash};

use crate::bytes::is_space;
use crate::lexeme::{Lexeme, SizedLexeme};
use crate::literals::literal_length;
use crate::runs::{Run, run_length};
use crate::signs::{has_byte, sign};
use crate::slashes::{block_length, regex_length};
use crate::token::TokenKind;

/// This lexeme, of one byte and what comes after it.
#[tactic(auto, unfolding(crate::specs::Scanning::behind_one))]
fn behind_one(lexeme: Lexeme, long: Option<usize>) -> Option<SizedLexeme>
    requires { IfSome long (λ n. n < 2 ^ 63) }
    ensures { result ≡ behind_one lexeme long }
{
    match long {
        Some(n) => Some(SizedLexeme {
            lexeme,
            long: n + 1,
        }),
        None => None,
    }
}

/// What a slash begins: the byte after it decides.
#[tactic(auto, unfolding(crate::specs::Scanning::slash))]
fn slash(text: &[u8], next: usize) -> Option<SizedLexeme>
    requires { next ≤ length text.now }
    ensures { result ≡ slash (drop next text.now) }
{
    if has_byte(text, next, b'/') {
        let long = 2 + run_length(text, next + 1, Run::Line);
        Some(SizedLexeme {
            lexeme: Lexeme::LineComment,
            long,
        })
    } else if has_byte(text, next, b'*') {
        match block_length(text, next + 1) {
            Some(n) => behind_one(Lexeme::BlockComment, Some(n + 1)),
            None => None,
        }
    } else {
        behind_one(Lexeme::Kept(TokenKind::Regex), regex_length(text, next))
    }
}

/// What this byte begins, where the text goes on at `next`.
#[tactic(auto, unfolding(crate::specs::Scanning::lexeme))]
fn begun(first: u8, text: &[u8], next: usize) -> Option<SizedLexeme>
    requires { next ≤ length text.now }
    ensures { result ≡ lexeme (first ∷ drop next text.now) }
{
    if is_space(first) {
        Some(SizedLexeme {
            lexeme: Lexeme::Space,
            long: 1,
        })
    } else if first.is_ascii_alphabetic() {
        let long = 1 + run_length(text, next, Run::NameBytes);
        Some(SizedLexeme {
            lexeme: Lexeme::Kept(TokenKind::Name),
            long,
        })
    } else if first.is_ascii_digit() {
        let long = 1 + run_length(text, next, Run::Digits);
        Some(SizedLexeme {
            lexeme: Lexeme::Kept(TokenKind::Number),
            long,
        })
    } else if first == b'"' {
        behind_one(Lexeme::Kept(TokenKind::Literal), literal_length(text, next))
    } else if first == b'/' {
        slash(text, next)
    } else {
        sign(first, text, next)
    }
}

/// The longest lexeme at this place, or nothing where none begins there or none is complete.
pub fn longest(text: &[u8], at: usize) -> Option<SizedLexeme>
    requires { at < length text.now }
    ensures found { IfSome result (λ p. IsLongest (drop at text.now) p) }
    ensures none { IfNone result (HasNoLexeme (drop at text.now)) }
    ensures inside { IfSome result (λ p. (0 < p.long) × (at + p.long ≤ length text.now)) }
{
    begun(text[at], text, at + 1)
}
