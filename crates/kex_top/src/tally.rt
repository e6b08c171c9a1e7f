// What a trial counts.
ghost use Rattle.std.specs.Prelude.{◌≡◌, ◌+◌, ◌<◌, ◌^◌, length};
ghost use Rattle.kex_top.specs.Trials.{saturated_count, rolling_sum};

/// How many bytes were given and written, and the rolled sum of those that were written.
#[derive(Clone, Copy)]
pub struct Tally {
    pub(crate) made: u64,
    pub(crate) written: u64,
    pub(crate) roll: u64,
    ghost short: { roll < 2 ^ 32 },
}

// The rolled sum goes on over these bytes.
fn rolled(start: u64, bytes: &[u8]) -> u64
    requires { start < 2 ^ 32 }
    ensures value { result ≡ rolling_sum start bytes.now }
    ensures fits { result < 2 ^ 32 }
{
    let mut sum = start;
    'bytes: for byte in bytes {
        sum = (sum * 31 + *byte as u64) % 4_294_967_296;
    }
    sum
}

impl Tally {
    pub(crate) fn new() -> Tally
        ensures made { result.made ≡ 0 }
        ensures written { result.written ≡ 0 }
        ensures roll { result.roll ≡ 0 }
    {
        Tally {
            made: 0,
            written: 0,
            roll: 0,
        }
    }

    /// `made` bytes more were given, and these written for them. A count stays at its last
    /// value.
    pub(crate) fn add(&self, made: usize, written: &[u8]) -> Tally
        ensures made { result.made ≡ saturated_count (self.now.made + made) }
        ensures written { result.written ≡ saturated_count (self.now.written + length written.now) }
        ensures roll { result.roll ≡ rolling_sum self.now.roll written.now }
    {
        Tally {
            made: self.made.saturating_add(made as u64),
            written: self.written.saturating_add(written.len() as u64),
            roll: rolled(self.roll, written),
        }
    }
}
