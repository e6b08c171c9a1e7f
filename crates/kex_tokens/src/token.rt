// Tokens, and what may be wrong with a text.

ghost use Rattle.std.specs.Prelude.{◌≡◌};
ghost use Rattle.std.specs.List.{slice_range};
ghost use Rattle.kex_tokens.specs.Lexemes.{IsToken};

use std::alloc::{AllocError, AllocFailed};
use thiserror::Error;

/// What a token is: a name, a number, a literal, a regex, or a sign.
#[derive(Clone, Copy, PartialEq, Eq, Debug)]
pub enum TokenKind {
    Name,
    Number,
    Literal,
    Regex,
    /// `:=`
    Define,
    /// `:`
    Colon,
    /// `>>`
    Pipe,
    /// `|`
    Bar,
    /// `~`
    Tilde,
    /// `@`
    At,
    /// `*`
    Star,
    /// `+`
    Plus,
    /// `+=`
    PlusEquals,
    /// `?`
    Question,
    /// `{`
    OpenBrace,
    /// `}`
    CloseBrace,
    /// `,`
    Comma,
    /// `!`
    Bang,
    /// `[`
    OpenBracket,
    /// `]`
    CloseBracket,
    /// `<-`
    Arrow,
    /// `(`
    OpenParen,
    /// `)`
    CloseParen,
}

/// A token of a text: the bytes from the offset `from` up to, not including, the offset `to`.
#[derive(Clone, Copy, PartialEq, Eq, Debug)]
pub struct Token {
    pub kind: TokenKind,
    pub from: u32,
    pub to: u32,
}

impl Token {
    ghost use Rattle.kex_tokens.specs.Texts.{IsSpan};

    /// The bytes of the token, in the text that it comes from.
    pub fn spelling(self, text: &[u8]) -> &[u8]
        requires { IsSpan text.now self }
        ensures bytes { result.now ≡ slice_range text.now self.from self.to }
        ensures is { IsToken self.kind result.now }
    {
        &text[self.from as usize..self.to as usize]
    }
}

/// Why a text has no tokens.
#[derive(Clone, Copy, PartialEq, Eq, Debug, Drop, Error)]
pub enum TokenFault {
    /// The text has more than `MAX_TEXT` bytes.
    #[error("the text is too long")]
    TextTooLong,
    /// At this offset a token, white space or a comment should begin, and none can be completed.
    #[error("bad token at byte {at}")]
    BadToken { at: u32 },
    /// Memory was wanted, and there was none. No contract says when it comes.
    #[error("out of memory")]
    Memory,
}

/// How many bytes a text may have.
pub const MAX_TEXT: usize = 1_048_576;

impl From<AllocError> for TokenFault {
    ghost use Rattle.kex_tokens.specs.declared.token.TokenFault.TheVariants.{Memory};

    ghost from_gives = { λ _ e. e ≡ Memory };

    fn from(_: AllocError) -> TokenFault {
        TokenFault::Memory
    }
}

impl<T: Drop> From<AllocFailed<T>> for TokenFault {
    ghost use Rattle.kex_tokens.specs.declared.token.TokenFault.TheVariants.{Memory};

    ghost from_gives = { λ _ e. e ≡ Memory };

    fn from(_: AllocFailed<T>) -> TokenFault {
        TokenFault::Memory
    }
}
