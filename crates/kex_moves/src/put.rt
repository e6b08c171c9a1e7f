// What an edge writes.

ghost use Rattle.std.specs.Prelude.{◌≡◌, ◌+◌, ◌≤◌, ◌++◌, length, take};
ghost use Rattle.kex_moves.specs.Edges.{writes, HasRoom};

use crate::edge::Edge;

/// Writes what the edge writes after the first `used` bytes. What it writes past them doesn't
/// count.
#[inline(always)]
pub fn put(buffer: &mut [u8], used: usize, byte: u8, text: &[u8], e: Edge)
    requires room { used + 17 ≤ length buffer.old }
    requires edge { HasRoom (length text.now) e }
    ensures written { take (used + e.adds) buffer.new
        ≡ take used buffer.old ++ writes text.now e byte }
    ensures len { length buffer.new ≡ length buffer.old }
{
    // Most words are the byte alone.
    if e.alone {
        buffer[used] = byte;
        return;
    }
    let from = e.from as usize;
    // By a copy, so that nothing asks whether text and buffer overlap.
    let mut copy = [0; 16];
    copy.copy_from_slice(&text[from..from + 16]);
    buffer[used..used + 16].copy_from_slice(&copy);
    buffer[used + e.byte_at as usize] = byte;
}
