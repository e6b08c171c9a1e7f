//! Texts that are gone along in parts, at once. The program doesn't use this today.
//!
//! Uses tables, whose summaries these are, and the runner. `chunk` makes the summary of a
//! text, `compose` that of two texts, and `feed_many` feeds a runner by the summaries of the parts
//! of a piece, which are made in threads.
//!
//! ```text
//! piece | part 1 | part 2 | part 3 |
//!       chunk    chunk    chunk       each from every state, in threads
//!       apply ─► apply ─► apply       in order, from the state reached
//! ```
#![tactic(auto)]

mod drafts;
mod feeding;
mod stretches;
mod summing;

pub use feeding::feed_many;
pub use summing::{chunk, compose};
