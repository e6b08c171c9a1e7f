//! Lists of symbols that are joined by moving blocks, and never symbol by symbol.
//!
//! Uses codes. A `Rope` is seen as the list of its symbols, and each call is the list's.
#![tactic(auto)]

pub mod rope;
