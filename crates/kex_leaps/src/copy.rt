// Copies of a few bytes.

ghost use Rattle.std.specs.Prelude.{◌≡◌, ◌+◌, ◌≤◌, ◌++◌, ℕ, length, take, drop};

/// How many bytes are copied at once. A copy of that many is one load and one store.
pub const AT_ONCE: usize = 16;

/// Copies sixteen bytes over what comes after the first `behind`. Of what is copied as many bytes
/// count as the caller says.
#[inline(always)]
pub fn copy_at_once(from: &[u8], at: usize, to: &mut [u8], behind: usize)
    requires from { at + 16 ≤ length from.now }
    requires to { behind + 16 ≤ length to.old }
    ensures copied { (n : ℕ) → n ≤ 16
        → take (behind + n) to.new ≡ take behind to.old ++ take n (drop at from.now) }
    ensures len { length to.new ≡ length to.old }
{
    // By a copy between, so that nothing asks whether the two overlap.
    let mut copy = [0; AT_ONCE];
    copy.copy_from_slice(&from[at..at + AT_ONCE]);
    to[behind..behind + AT_ONCE].copy_from_slice(&copy);
}
