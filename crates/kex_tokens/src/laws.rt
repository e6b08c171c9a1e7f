// Laws of cuts: what is at a place, and what a text is cut into, is one thing.

ghost use Rattle.std.specs.Prelude.{◌≡◌, ℕ, List};
ghost use Rattle.kex_tokens.specs.declared.lexeme.SizedLexeme.{SizedLexeme};
ghost use Rattle.kex_tokens.specs.declared.token.Token.{Token};
ghost use Rattle.kex_tokens.specs.Lexemes.{IsLongest};
ghost use Rattle.kex_tokens.specs.Texts.{AreTokens, IsBadToken};
ghost use Rattle.kex_tokens.specs.Values.{StandsFor};

/// A place has at most one longest lexeme, of one kind; a text has one list of tokens or one bad
/// token, and not both.
pub fn one_cut()
    ensures longest { (bytes : List ℕ) (p q : SizedLexeme) → IsLongest bytes p → IsLongest bytes q
        → p ≡ q }
    ensures tokens { (text : List ℕ) (ts us : List Token) → AreTokens text ts → AreTokens text us
        → ts ≡ us }
    ensures bad { (text : List ℕ) (i j : ℕ) → IsBadToken text i → IsBadToken text j → i ≡ j }
    ensures either { (text : List ℕ) (ts : List Token) (i : ℕ) → AreTokens text ts
        → IsBadToken text i → ⊥ }
{}

/// A literal stands for one list of bytes.
pub fn one_value()
    ensures { (spelling a b : List ℕ) → StandsFor spelling a → StandsFor spelling b → a ≡ b }
{}
