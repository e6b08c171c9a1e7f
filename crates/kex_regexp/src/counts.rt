// Counts in braces, of bodies and of programs. A count above the greatest is held as one more
// than that.

ghost use Rattle.std.specs.Prelude.{◌≡◌, ◌≤◌};
ghost use Rattle.kex_tokens.specs.Bytes.{close_brace, comma};
ghost use Rattle.kex_regexp.specs.Outcomes.{are_bad, capped_number, count_outcome, number_outcome};

/// The greatest count that is allowed.
pub const MAX_COUNT: u32 = 1000;

/// What is known of a count, after the brace.
#[derive(Clone, Copy, Drop)]
pub enum Count {
    Opened,
    Low(u32),
    LowComma(u32),
    LowHigh { low: u32, high: u32 },
    OnlyComma,
    High(u32),
}

/// How many turns: at least `low`, and at most `high` if there is one.
#[derive(Clone, Copy, Drop)]
pub struct Bounds {
    pub low: u32,
    pub high: Option<u32>,
}

/// What comes of a count at what follows.
#[derive(Clone, Copy, Drop)]
pub enum CountOutcome {
    On(Count),
    Read(Bounds),
    Wrong,
}

// A digit after the digits of a count.
#[tactic(auto, unfolding(crate::specs::Outcomes::capped_number, crate::specs::Grammar::is_digit))]
fn with_digit(value: u32, digit: u8) -> u32
    requires { (48 ≤ digit) × (digit ≤ 57) }
    ensures { result ≡ capped_number value digit }
{
    (10 * value.min(MAX_COUNT + 1) + (digit - b'0') as u32).min(MAX_COUNT + 1)
}

// A digit more.
#[tactic(auto, unfolding(crate::specs::Outcomes::count_outcome, crate::specs::Grammar::is_digit))]
fn at_digit(count: Count, digit: u8) -> CountOutcome
    requires { (48 ≤ digit) × (digit ≤ 57) }
    ensures { result ≡ count_outcome count digit }
{
    CountOutcome::On(match count {
        Count::Opened => Count::Low(with_digit(0, digit)),
        Count::Low(low) => Count::Low(with_digit(low, digit)),
        Count::LowComma(low) => Count::LowHigh {
            low,
            high: with_digit(0, digit),
        },
        Count::LowHigh { low, high } => Count::LowHigh {
            low,
            high: with_digit(high, digit),
        },
        Count::OnlyComma => Count::High(with_digit(0, digit)),
        Count::High(high) => Count::High(with_digit(high, digit)),
    })
}

/// A whole number, held up to one more than the greatest count.
#[tactic(auto, unfolding(crate::specs::Outcomes::number_outcome))]
pub fn at_number(count: Count, number: u32) -> CountOutcome
    ensures { result ≡ number_outcome count number }
{
    match count {
        Count::Opened => CountOutcome::On(Count::Low(number)),
        Count::LowComma(low) => CountOutcome::On(Count::LowHigh { low, high: number }),
        Count::OnlyComma => CountOutcome::On(Count::High(number)),
        _ => CountOutcome::Wrong,
    }
}

/// A comma.
#[tactic(auto, unfolding(crate::specs::Outcomes::count_outcome, crate::specs::Grammar::is_digit))]
pub fn at_comma(count: Count) -> CountOutcome
    ensures { result ≡ count_outcome count comma }
{
    match count {
        Count::Opened => CountOutcome::On(Count::OnlyComma),
        Count::Low(low) => CountOutcome::On(Count::LowComma(low)),
        _ => CountOutcome::Wrong,
    }
}

/// The closing brace.
#[tactic(auto, unfolding(crate::specs::Outcomes::count_outcome, crate::specs::Grammar::is_digit))]
pub fn at_brace(count: Count) -> CountOutcome
    ensures { result ≡ count_outcome count close_brace }
{
    let (low, high) = match count {
        Count::Opened | Count::OnlyComma => return CountOutcome::Wrong,
        Count::Low(low) => (low, Some(low)),
        Count::LowComma(low) => (low, None),
        Count::LowHigh { low, high } => (low, Some(high)),
        Count::High(high) => (0, Some(high)),
    };
    CountOutcome::Read(Bounds { low, high })
}

/// One more byte of a count.
#[tactic(auto, unfolding(crate::specs::Outcomes::count_outcome, crate::specs::Grammar::is_digit))]
pub fn in_count(count: Count, byte: u8) -> CountOutcome
    ensures { result ≡ count_outcome count byte }
{
    if byte.is_ascii_digit() {
        return at_digit(count, byte);
    }
    match byte {
        b',' => at_comma(count),
        b'}' => at_brace(count),
        _ => CountOutcome::Wrong,
    }
}

impl Bounds {
    /// Whether they break the rule of counts.
    #[tactic(auto, unfolding(crate::specs::Outcomes::are_bad))]
    pub fn are_bad(self) -> bool
        ensures { result ≡ are_bad self }
    {
        let low = self.low;
        match self.high {
            None => low > MAX_COUNT,
            Some(high) => low > MAX_COUNT || high > MAX_COUNT || high < low,
        }
    }
}
