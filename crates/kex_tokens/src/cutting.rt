// A text cut into its lexemes, and the tokens among them.

ghost use Rattle.std.specs.Prelude.{◌≡◌, ℕ, ◌<◌, ◌≤◌, ◌++◌, ◌⊎◌, List, Err, length, All, IfOk};
ghost use Rattle.std.specs.Prelude.{IfErr, MatchResult};
ghost use Rattle.kex_tokens.specs.declared.token.Token.{Token};
ghost use Rattle.kex_tokens.specs.Texts.{AreInOrder, AreTokens, IsBadToken, AreTokensRefused};
ghost use Rattle.kex_tokens.specs.Texts.{IsSpan, added_tokens, most_text};

use crate::lexeme::{Lexeme, SizedLexeme};
use crate::scan::longest;
use crate::token::{MAX_TEXT, Token, TokenFault};
use std::alloc::Global;

/// Adds the token that this piece is, if it is one.
fn keep(tokens: &mut Vec<Token>, piece: SizedLexeme, from: u32, to: u32) -> Result<(), TokenFault>
    ensures kept { IfOk result (λ _. tokens.new.items
        ≡ tokens.old.items ++ added_tokens piece.lexeme from to) }
    ensures memory { IfErr result (λ fault. fault ≡ TokenFault.Memory) }
{
    if let Lexeme::Kept(kind) = piece.lexeme {
        tokens.push(Token { kind, from, to })?;
    }
    Ok(())
}

/// The tokens of a text within the limit.
fn cut(alloc: Global, text: &[u8]) -> Result<Vec<Token>, TokenFault>
    requires { length text.now ≤ most_text }
    ensures cut { IfOk result (λ ts. AreTokens text.now ts.items) }
    ensures refused { IfErr result (λ fault. AreTokensRefused fault text.now) }
{
    let mut tokens = Vec::new(alloc);
    let mut at = 0;
    while at < text.len() {
        let Some(piece) = longest(text, at) else {
            return Err(TokenFault::BadToken { at: at as u32 });
        };
        let to = at + piece.long;
        keep(&mut tokens, piece, at as u32, to as u32)?;
        at = to;
    }
    Ok(tokens)
}

/// The tokens of a program text, the longest at each place, in their order; white space and
/// comments are dropped.
///
/// A text of more than `MAX_TEXT` bytes is `TextTooLong`, whatever it holds. `BadToken` names the
/// first byte of the first thing that begins no token, white space or comment, or isn't completed.
/// The time is linear in the text.
pub fn tokens(alloc: Global, text: &[u8]) -> Result<Vec<Token>, TokenFault>
    ensures cut { IfOk result (λ ts. AreTokens text.now ts.items) }
    ensures refused { IfErr result (λ fault. AreTokensRefused fault text.now) }
    ensures too_long { most_text < length text.now → result ≡ Err TokenFault.TextTooLong }
    // a text that is cut is answered with these tokens, if there is memory
    ensures whole { (ts : List Token) → length text.now ≤ most_text → AreTokens text.now ts →
        MatchResult result (λ v. v.items ≡ ts) (λ fault. fault ≡ TokenFault.Memory) }
    // and a text that is cut no further than here with this place
    ensures bad { (at : ℕ) → length text.now ≤ most_text → IsBadToken text.now at →
        MatchResult result (λ _. ⊥) (λ fault. (fault ≡ TokenFault.BadToken at)
        ⊎ (fault ≡ TokenFault.Memory)) }
    ensures spans { IfOk result (λ ts. All (IsSpan text.now) ts.items) }
    ensures order { IfOk result (λ ts. AreInOrder 0 ts.items) }
{
    if text.len() > MAX_TEXT {
        return Err(TokenFault::TextTooLong);
    }
    cut(alloc, text)
}
