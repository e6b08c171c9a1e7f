//! Table files: a program's text with the tables of its stages, line by line.
//!
//! Uses path trees, by which each line is made again and compared, and `kex_compile` for
//! the machines of a text. A file that `check_table` takes has the tables of its text's machines;
//! what `write_table` writes is such a file.
#![tactic(auto)]

mod check;
pub mod checked;
mod head;
mod places;
mod reader;
pub mod refusal;
mod rows;
mod spell;
mod stage;
mod state_trees;
mod targets;
mod trees;
mod write;

pub use crate::check::{MOST_BYTES, check_table};
pub use crate::head::text_in;
pub use crate::write::write_table;
