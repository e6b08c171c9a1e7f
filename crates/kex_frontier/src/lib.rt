//! The oracle of a stage: which symbols the surviving paths of a text share, as its bytes come.
//!
//! Uses codes and machines. A `Frontier` stores no history: `IsFed` relates it to the bytes that it
//! was fed and the symbols that were taken; the clauses of `Frontier::feed`, `Frontier::end` and
//! `Frontier::take_code` carry this on. A `Matcher` tells by rows of bits whether a text is parsed:
//! `WasFed` and `IsAnswer`. It keeps rows that it came to, and the steps between them, in room that
//! it is made with: `KnowsSteps`.
#![tactic(auto)]

mod forest;
pub mod frontier;
mod grow;
mod mark_rows;
pub mod matcher;
pub mod row;
mod step_cache;
mod visit;
