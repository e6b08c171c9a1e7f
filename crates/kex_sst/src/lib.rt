//! Tables: the streaming string transducers that stages run on, after the Kleenex paper (POPL
//! 2016).
//!
//! Uses byte sets, codes and the model's trees. A `Table` keeps in its type that no old
//! register is used twice in one update and that all numbers are in range; `specs/Passes` says what
//! it passes on, and `next` reads it. A `Summary` has what a table does along a text from each of
//! its states, as `specs/Summaries` says.
#![tactic(auto)]

pub mod fan;
pub mod laws;
pub mod parts;
pub mod series;
pub mod shared;
mod shared_fan;
pub mod summaries;
pub mod summary;
pub mod table;
pub mod updates;
