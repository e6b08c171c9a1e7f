// Kinds of bytes.

ghost use Rattle.std.specs.Prelude.{◌≡◌};
ghost use Rattle.kex_tokens.specs.Lexemes.{is_name_byte, is_short, is_space};

/// A blank, a tab, a carriage return or a line feed.
pub fn is_space(byte: u8) -> bool
    ensures { result ≡ is_space byte }
{
    byte == b' ' || byte == b'\t' || byte == b'\r' || byte == b'\n'
}

/// A letter, a digit or an underscore.
pub fn is_name_byte(byte: u8) -> bool
    ensures { result ≡ is_name_byte byte }
{
    byte.is_ascii_alphabetic() || byte.is_ascii_digit() || byte == b'_'
}

/// What comes after the backslash of an escape of two bytes.
pub fn is_short(byte: u8) -> bool
    ensures { result ≡ is_short byte }
{
    byte == b'n' || byte == b't' || byte == b'r' || byte == b'\\' || byte == b'"'
}
