// Lines and columns.

ghost use Rattle.std.specs.Prelude.{◌≡◌, ◌+◌, min, take};
ghost use Rattle.kex_reader.specs.Lines.{behind_feed, feeds};

// A number, or the greatest one below 2^32.
fn capped(n: u64) -> u32
    ensures { result ≡ min n 4294967295 }
{
    match u32::try_from(n) {
        Ok(n) => n,
        Err(_) => u32::MAX,
    }
}

/// The line and the column of an offset, both from 1: a line ends at a line feed, and a column is a
/// byte. Numbers of 2^32 and above are given as 2^32 - 1.
pub fn place(text: &[u8], at: u32) -> (u32, u32)
    ensures line { result.0 ≡ min (feeds (take at text.now) + 1) 4294967295 }
    ensures column { result.1 ≡ min (behind_feed 0 (take at text.now) + 1) 4294967295 }
{
    let mut line = 0;
    let mut column = 0;
    for i in 0..text.len().min(at as usize) {
        if text[i] == b'\n' {
            line += 1;
            column = 0;
        } else {
            column += 1;
        }
    }
    (capped(line + 1), capped(column + 1))
}
