//! Rows of held text by number, and what is known of each at each class of bytes.
//! Uses `kex_held`.
#![tactic(auto)]

pub mod book;
pub mod note;
mod same;
