//! Tokens of a program text: the longest at each place, with white space and comments dropped.
//!
//! Uses no other crate but `thiserror`. The contract is that of `tokens`: `specs/Texts` says what
//! it answers, and `specs/Lexemes` what a token is spelled.
#![tactic(auto)]

mod bytes;
mod closing;
mod cutting;
pub mod laws;
pub mod lexeme;
mod literals;
mod runs;
mod scan;
mod signs;
mod slashes;
pub mod token;
mod values;

pub use cutting::tokens;
pub use values::{literal_bytes, number_value};
