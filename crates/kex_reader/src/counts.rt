// Counts in braces, word by word. What is held of a count, and what comes of it, is as in bodies.

ghost use Rattle.std.specs.Prelude.{◌≡◌};
ghost use Rattle.kex_regexp.specs.Holding.{capped_count};
ghost use Rattle.kex_tokens.specs.Values.{decimal_value};
ghost use Rattle.kex_reader.specs.Counts.{count_after};

use kex_regexp::counts::{Count, CountOutcome, MAX_COUNT, at_brace, at_comma, at_number};
use kex_tokens::number_value;
use kex_tokens::token::TokenKind;

// The value of a number, held up to 1,001.
pub(crate) fn held_number(digits: &[u8]) -> u32
    ensures { result ≡ capped_count (decimal_value digits.now) }
{
    match number_value(digits, MAX_COUNT) {
        Some(value) => value,
        None => MAX_COUNT + 1,
    }
}

// A word after what is read of a count, where `number` is its value.
#[tactic(auto, unfolding(crate::specs::Counts::count_after))]
pub(crate) fn count_step(count: Count, kind: TokenKind, number: u32) -> CountOutcome
    ensures { result ≡ count_after count kind number }
{
    match kind {
        TokenKind::Number => at_number(count, number),
        TokenKind::Comma => at_comma(count),
        TokenKind::CloseBrace => at_brace(count),
        _ => CountOutcome::Wrong,
    }
}
