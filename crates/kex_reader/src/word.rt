// A token with its spelling, and a name of the text.

use kex_tokens::token::TokenKind;

/// A token: its kind, the bytes that spell it, and its offset.
#[derive(Clone, Copy)]
pub(crate) struct Word<'t> {
    pub(crate) kind: TokenKind,
    pub(crate) spelling: &'t [u8],
    pub(crate) at: u32,
}

/// A name and its offset.
#[derive(Clone, Copy)]
pub(crate) struct Name<'t> {
    pub(crate) bytes: &'t [u8],
    pub(crate) at: u32,
}
