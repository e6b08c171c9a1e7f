// The lines that a trial makes.
ghost use Rattle.std.specs.Prelude.{◌≡◌, ◌<◌, ◌+◌, ◌%◌, ◌++◌, ◌^◌, OnOk};
ghost use Rattle.kex_top.specs.Trials.{drawn_line, next_random};

use itoa::Buffer;
use kex_code::memory::Memory;

/// The state after this one. A state has 32 bits.
pub(crate) fn next(state: u64) -> u64
    requires { state < 2 ^ 32 }
    ensures value { result ≡ next_random state }
    ensures fits { result < 2 ^ 32 }
{
    (state * 1_664_525 + 1_013_904_223) % 4_294_967_296
}

// A letter, by the state without some of its last bits.
fn letter(rest: u64) -> u8
    ensures { result ≡ 97 + rest % 26 }
{
    b'a' + (rest % 26) as u8
}

/// Adds the line of a state: three letters, a blank, a number and a line feed.
pub(crate) fn push_line(state: u64, out: &mut Vec<u8>) -> Result<(), Memory>
    ensures { OnOk result (out.new.items ≡ out.old.items ++ drawn_line state) }
{
    let front = [
        letter(state / 256),
        letter(state / 65_536),
        letter(state / 16_777_216),
        b' ',
    ];
    let mut digits = Buffer::new();
    out.extend_from_slice(&front)?;
    out.extend_from_slice(digits.format(state % 10_000).as_bytes())?;
    out.push(b'\n')?;
    Ok(())
}
