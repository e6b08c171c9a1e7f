//! Program texts into programs: definitions, terms, registers, bodies and the start line.
//!
//! Uses tokens, bodies and the model. The promise is that of `read`: what a text spells is in
//! `specs/Spelling`, over the trees of `specs/Syntax`, the nodes that show them (`Shown`) and the
//! limits (`Checks`).
#![tactic(auto)]

mod counts;
mod draft;
mod inside;
pub mod laws;
mod lines;
mod names;
mod pieces;
mod reader;
mod refusal;
mod stack;
mod terms;
mod text;
mod word;

pub use lines::place;
pub use refusal::ReadRefusal;
pub use text::read;
