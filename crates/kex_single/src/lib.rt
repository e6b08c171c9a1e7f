//! One stage by itself, as a bounded worker: the code of its input, what a code means, and whether
//! the input has a parse.
//!
//! Uses the oracle, the actor and `kex_pipe`. Each worker's `gives` is its contract: what is
//! written and where it stops.
#![tactic(auto)]

mod code_oracle;
mod coder;
mod path_codes;
mod player;
mod table_codes;
mod tester;

pub use coder::Coder;
pub use player::Player;
pub use tester::Tester;
