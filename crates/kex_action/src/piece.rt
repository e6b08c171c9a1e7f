// Copies of a few bytes.

ghost use Rattle.std.specs.Prelude.{◌≡◌, ◌+◌, ◌≤◌, ◌++◌, ℕ, length, take, drop};

/// How many bytes are copied at once. A copy of that many is one load and one store.
pub const PIECE: usize = 16;

/// Copies a piece over what comes after the first `behind` bytes. Of what is copied as many bytes
/// count as the caller says.
#[inline(always)]
pub fn copy_piece(from: &[u8], at: usize, to: &mut [u8], behind: usize)
    requires from { at + 16 ≤ length from.now }
    requires to { behind + 16 ≤ length to.old }
    ensures copied { (n : ℕ) → n ≤ 16
        → take (behind + n) to.new ≡ take behind to.old ++ take n (drop at from.now) }
    ensures len { length to.new ≡ length to.old }
{
    // By a copy between, so that nothing asks whether the two overlap.
    let mut copy = [0; PIECE];
    copy.copy_from_slice(&from[at..at + PIECE]);
    to[behind..behind + PIECE].copy_from_slice(&copy);
}

/// Copies bytes over the first ones.
pub fn copy_front(bytes: &[u8], to: &mut [u8])
    requires { length bytes.now ≤ length to.old }
    ensures copied { take (length bytes.now) to.new ≡ bytes.now }
    ensures len { length to.new ≡ length to.old }
{
    to[..bytes.len()].copy_from_slice(bytes);
}
