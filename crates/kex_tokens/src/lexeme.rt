// Lexemes: what a text is cut into.

use crate::token::TokenKind;

/// What a piece of a text is. White space is a byte at a time; tokens are kept, and all else is
/// dropped.
#[derive(Clone, Copy, PartialEq, Eq, Debug)]
pub enum Lexeme {
    Space,
    LineComment,
    BlockComment,
    Kept(TokenKind),
}

/// A lexeme at some place of a text, and how many bytes it has.
#[derive(Clone, Copy, PartialEq, Eq, Debug)]
pub struct SizedLexeme {
    pub lexeme: Lexeme,
    pub long: usize,
}
