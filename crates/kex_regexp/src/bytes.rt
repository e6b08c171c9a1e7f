//! Which bytes are what.

ghost use Rattle.std.specs.Prelude.{◌≡◌};
ghost use Rattle.kex_regexp.specs.Grammar.{is_plain, is_end};

/// A byte that stands for itself.
#[tactic(auto, unfolding(crate::specs::Grammar::is_plain))]
pub fn is_plain(byte: u8) -> bool
    ensures { result ≡ is_plain byte }
{
    !matches!(
        byte,
        b'*' | b'+'
            | b'?'
            | b'{'
            | b'}'
            | b'('
            | b')'
            | b'|'
            | b'['
            | b']'
            | b'\\'
            | b'.'
            | b'/'
            | b'^'
            | b'$'
            | b'\n'
    )
}

/// What may be an end of a member of a set.
#[tactic(auto, unfolding(crate::specs::Grammar::is_end))]
pub fn is_end(byte: u8) -> bool
    ensures { result ≡ is_end byte }
{
    !(byte == b']' || byte == b'\\' || byte == b'-' || byte == b'/' || byte == b'\n')
}
