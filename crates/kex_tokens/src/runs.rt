// Runs: names, numbers and line comments go on as far as their bytes do.

ghost use Rattle.std.specs.Prelude.{◌≡◌, ◌+◌, ◌≤◌, length, drop};
ghost use Rattle.kex_tokens.specs.Scanning.{belongs, run as run_of};

use crate::bytes::is_name_byte;

/// The bytes of which there may be any number: those in a name, digits, or all but a line feed.
#[derive(Clone, Copy)]
pub enum Run {
    NameBytes,
    Digits,
    Line,
}

fn belongs(run: Run, byte: u8) -> bool
    ensures { result ≡ belongs run byte }
{
    match run {
        Run::NameBytes => is_name_byte(byte),
        Run::Digits => byte.is_ascii_digit(),
        Run::Line => byte != b'\n',
    }
}

/// How many bytes from here on belong to the run.
pub fn run_length(text: &[u8], from: usize, run: Run) -> usize
    requires { from ≤ length text.now }
    ensures run { result ≡ run_of (belongs run) (drop from text.now) }
    ensures inside { from + result ≤ length text.now }
{
    for i in from..text.len() {
        if !belongs(run, text[i]) {
            return i - from;
        }
    }
    text.len() - from
}
