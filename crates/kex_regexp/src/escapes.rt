// Escapes.

ghost use Rattle.std.specs.Prelude.{◌≡◌, ◌<◌};
ghost use Rattle.kex_regexp.specs.Outcomes.{escape_outcome};
ghost use Rattle.kex_regexp.specs.Values.{hex_value};

/// What is known of an escape, after the backslash.
#[derive(Clone, Copy, Drop)]
pub enum Escaping {
    Begun,
    HexBegun,
    HexOne(u8),
}

/// What comes of an escape by one more byte.
#[derive(Clone, Copy, Drop)]
pub enum EscapeOutcome {
    On(Escaping),
    Read(u8),
    Wrong,
}

/// The value of a hexadecimal digit.
#[tactic(auto, unfolding(crate::specs::Values::hex_value))]
fn hex_value(digit: u8) -> u8
    ensures value { result ≡ hex_value digit }
    ensures below { result < 16 }
{
    if digit >= b'0' && digit <= b'9' {
        digit - b'0'
    } else if digit >= b'A' && digit <= b'F' {
        digit - b'A' + 10
    } else if digit >= b'a' && digit <= b'f' {
        digit - b'a' + 10
    } else {
        0
    }
}

#[tactic(auto, unfolding(crate::specs::Outcomes::escape_outcome, crate::specs::Grammar::is_punctuation))]
fn behind_backslash(byte: u8) -> EscapeOutcome
    ensures { result ≡ escape_outcome Escaping.Begun byte }
{
    if byte == b'n' {
        EscapeOutcome::Read(b'\n')
    } else if byte == b't' {
        EscapeOutcome::Read(b'\t')
    } else if byte == b'r' {
        EscapeOutcome::Read(b'\r')
    } else if byte == b'x' {
        EscapeOutcome::On(Escaping::HexBegun)
    } else if byte.is_ascii_punctuation() {
        EscapeOutcome::Read(byte)
    } else {
        EscapeOutcome::Wrong
    }
}

/// One more byte of an escape.
#[tactic(auto, unfolding(crate::specs::Outcomes::escape_outcome, crate::specs::Grammar::is_hex))]
pub fn escape(escaping: Escaping, byte: u8) -> EscapeOutcome
    ensures { result ≡ escape_outcome escaping byte }
{
    match escaping {
        Escaping::Begun => behind_backslash(byte),
        Escaping::HexBegun => {
            if byte.is_ascii_hexdigit() {
                EscapeOutcome::On(Escaping::HexOne(byte))
            } else {
                EscapeOutcome::Wrong
            }
        }
        Escaping::HexOne(high) => {
            if byte.is_ascii_hexdigit() {
                EscapeOutcome::Read(16 * hex_value(high) + hex_value(byte))
            } else {
                EscapeOutcome::Wrong
            }
        }
    }
}
