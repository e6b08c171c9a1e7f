// Why a text is refused.

ghost use Rattle.std.specs.Prelude.{◌≡◌};

use kex_code::memory::Memory;
use kex_regexp::breaks::Break;
use kex_tokens::token::TokenFault;
use thiserror::Error;

/// Why a text is no program. Offsets count its bytes from 0.
#[derive(Clone, Copy, PartialEq, Eq, Debug, Drop, Error)]
pub enum ReadRefusal {
    /// The text has more than `MAX_TEXT` bytes.
    #[error("the text is too long")]
    TextTooLong,
    /// Here a token, white space or a comment should begin, and none can be completed.
    #[error("bad token at byte {at}")]
    BadToken { at: u32 },
    /// The tokens before this one begin a program, and those up to and with it begin none; or here
    /// they end, and are none.
    #[error("unexpected token at byte {at}")]
    Unexpected { at: u32 },
    /// The body's bytes before this one begin a body, and those up to and with it begin none; or
    /// here it ends, and is none.
    #[error("bad regex at byte {at}")]
    BadRegex { at: u32 },
    /// At this brace is a count above `MAX_COUNT`, or a least count above the greatest.
    #[error("bad count at byte {at}")]
    BadCount { at: u32 },
    /// At this bracket is a set with a range whose first byte is above its last, or a set without a
    /// byte.
    #[error("bad set at byte {at}")]
    BadSet { at: u32 },
    /// This mark or prefix raises the nesting above `MAX_DEPTH`, or this name is that of the
    /// first stage past `MOST_STAGES`.
    #[error("over a limit at byte {at}")]
    OverLimit { at: u32 },
    /// Memory was wanted, and there was none. No contract says when it comes.
    #[error("out of memory")]
    Memory,
}

impl From<Memory> for ReadRefusal {
    ghost use Rattle.kex_reader.specs.declared.refusal.ReadRefusal.TheVariants as refusals;

    ghost from_gives = { λ _ e. e ≡ refusals.Memory };

    fn from(_: Memory) -> ReadRefusal {
        ReadRefusal::Memory
    }
}
