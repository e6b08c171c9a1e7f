//! Bodies of regular expressions, over bytes: read into nodes, or refused at the first wrong byte
//! or for the least rule that is broken.
//!
//! Uses byte sets, tokens and the model. The contract is that of `regex`. To be cited: trees and
//! what they spell (`specs/Grammar`, `Bodies`), the nodes that show a tree (`Shown`), and the rules
//! that one breaks (`Breaks`).
#![tactic(auto)]

mod body;
pub mod breaks;
mod bytes;
mod constructs;
pub mod counts;
mod escapes;
pub mod fault;
pub mod laws;
mod notes;
mod sets;
mod steps;
mod wait;

pub use body::regex;
