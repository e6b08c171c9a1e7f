//! The call `kex`: what each command does with its words, its texts, its input and its output.
//!
//! Uses plans, stages and the outside's traits. The clauses of `kex` are the promise of the
//! whole program.
#![tactic(auto)]

mod call;
mod limits;
mod program;
mod refused;
mod single;
mod start;
mod status;
mod stream;
mod taking;
mod tally;
mod trial_lines;
mod workers;

pub use call::kex;
pub use kex_pipe::report::Rejected;
pub use status::Status;
