// Why a body is refused.

use thiserror::Error;

/// Why a body is refused. Offsets are those of the text.
#[derive(Clone, Copy, PartialEq, Eq, Debug, Drop, Error)]
pub enum RegexFault {
    /// The bytes before this one begin a body, and those up to and with it begin none; or here they
    /// end, and are none.
    #[error("bad regex at byte {at}")]
    BadRegex { at: u32 },
    /// At this brace is a count above `MAX_COUNT`, or a least count above the greatest.
    #[error("bad count at byte {at}")]
    BadCount { at: u32 },
    /// At this bracket is a set with a range whose first byte is above its last, or a set without a
    /// byte.
    #[error("bad set at byte {at}")]
    BadSet { at: u32 },
    /// This parenthesis raises the nesting above `MAX_DEPTH`.
    #[error("nesting above the limit at byte {at}")]
    OverLimit { at: u32 },
    /// Memory was wanted, and there was none. No contract says when it comes.
    #[error("out of memory")]
    Memory,
}
