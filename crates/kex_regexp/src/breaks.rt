// The rules that a text may break, and which of two comes first.

ghost use Rattle.std.specs.Prelude.{◌≡◌};
ghost use Rattle.kex_regexp.specs.Bodies.{fault_of};
ghost use Rattle.kex_regexp.specs.Breaks.{offset, rank};
ghost use Rattle.kex_regexp.specs.Notes.{lesser_of};

use crate::fault::RegexFault;

/// How many parentheses and prefixes may be open at a place.
pub const MAX_DEPTH: u64 = 200;

/// A rule that is broken, and the offset in the text.
#[derive(Clone, Copy, PartialEq, Eq, Debug, Drop)]
pub enum Break {
    BadRegex { at: u32 },
    BadCount { at: u32 },
    BadSet { at: u32 },
    OverLimit { at: u32 },
}

impl Break {
    // The number of the rule's refusal.
    fn rank(self) -> u32
        ensures { result ≡ rank self }
    {
        match self {
            Break::BadRegex { at: _ } => 3,
            Break::BadCount { at: _ } => 4,
            Break::BadSet { at: _ } => 5,
            Break::OverLimit { at: _ } => 6,
        }
    }

    // The offset in the text.
    fn offset(self) -> u32
        ensures { result ≡ offset self }
    {
        match self {
            Break::BadRegex { at } => at,
            Break::BadCount { at } => at,
            Break::BadSet { at } => at,
            Break::OverLimit { at } => at,
        }
    }

    /// The refusal for this rule.
    pub fn fault(self) -> RegexFault
        ensures { result ≡ fault_of self }
    {
        match self {
            Break::BadRegex { at } => RegexFault::BadRegex { at },
            Break::BadCount { at } => RegexFault::BadCount { at },
            Break::BadSet { at } => RegexFault::BadSet { at },
            Break::OverLimit { at } => RegexFault::OverLimit { at },
        }
    }
}

/// The one of the lower number, and then of the lower offset.
#[tactic(auto, unfolding(crate::specs::Notes::lesser_of))]
pub fn lesser(least: Option<Break>, new: Option<Break>) -> Option<Break>
    ensures { result ≡ lesser_of least new }
{
    let Some(b) = new else {
        return least;
    };
    let Some(a) = least else {
        return Some(b);
    };
    let (first, second) = (a.rank(), b.rank());
    if second < first {
        Some(b)
    } else if second == first {
        if b.offset() < a.offset() {
            Some(b)
        } else {
            Some(a)
        }
    } else {
        Some(a)
    }
}
