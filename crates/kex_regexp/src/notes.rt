// What a byte breaks, and how deep it leaves the place.

ghost use Rattle.std.specs.Prelude.{◌≡◌, ◌+◌, ◌<◌, ◌^◌};
ghost use Rattle.kex_regexp.specs.Notes.{depth_after, next_depth, count_break, byte_break};
ghost use Rattle.kex_regexp.specs.Notes.{nesting_break};

use crate::breaks::{Break, MAX_DEPTH};
use crate::counts::{CountOutcome, in_count};
use crate::sets::SetSoFar;
use crate::wait::Wait;

// A parenthesis that raises the nesting above the limit.
#[tactic(auto, unfolding(crate::specs::Notes::nesting_break))]
fn opens(depth: u64, at: u32, byte: u8) -> Option<Break>
    ensures { result ≡ nesting_break depth at byte }
{
    if byte == b'(' && depth == MAX_DEPTH {
        Some(Break::OverLimit { at })
    } else {
        None
    }
}

// A count that ends, and breaks its rule.
#[tactic(auto, unfolding(crate::specs::Notes::count_break))]
fn ends_count(outcome: CountOutcome, brace: u32) -> Option<Break>
    ensures { result ≡ count_break outcome brace }
{
    match outcome {
        CountOutcome::On(_) => None,
        CountOutcome::Read(bounds) => {
            if bounds.are_bad() {
                Some(Break::BadCount { at: brace })
            } else {
                None
            }
        }
        CountOutcome::Wrong => None,
    }
}

/// The rule that this byte breaks, if it breaks one; `next` is what is waited for after it.
#[tactic(auto, unfolding(crate::specs::Notes::byte_break))]
pub fn noted(wait: Wait, next: Wait, set: &SetSoFar, depth: u64, at: u32, byte: u8) -> Option<Break>
    ensures { result ≡ byte_break wait next set.now depth at byte }
{
    match wait {
        Wait::Ready => opens(depth, at, byte),
        Wait::After(_) => opens(depth, at, byte),
        Wait::Turned(_) => opens(depth, at, byte),
        Wait::InEscape { .. } => None,
        Wait::InSet { negated, from, .. } => {
            if matches!(next, Wait::After(_)) && set.is_bad(negated) {
                Some(Break::BadSet { at: from })
            } else {
                None
            }
        }
        Wait::InCount { count, brace, .. } => ends_count(in_count(count, byte), brace),
    }
}

// The number of marks after a byte that may open or close one.
#[tactic(auto, unfolding(crate::specs::Notes::depth_after))]
fn beside(depth: u64, byte: u8) -> u64
    requires { depth + 1 < 2 ^ 64 }
    ensures { result ≡ depth_after depth byte }
{
    if byte == b'(' {
        depth + 1
    } else if byte == b')' {
        depth.saturating_sub(1)
    } else {
        depth
    }
}

/// The number of marks that are open after this byte.
#[tactic(auto, unfolding(crate::specs::Notes::next_depth))]
pub fn deeper(wait: Wait, depth: u64, byte: u8) -> u64
    requires { depth + 1 < 2 ^ 64 }
    ensures { result ≡ next_depth wait depth byte }
{
    match wait {
        Wait::Ready => beside(depth, byte),
        Wait::After(_) => beside(depth, byte),
        Wait::Turned(_) => beside(depth, byte),
        _ => depth,
    }
}
