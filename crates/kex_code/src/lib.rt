//! Codes: lists of choices and of the bytes that were read; their text; and the small lists that
//! programs are made of.
//!
//! Uses no other crate but `thiserror`. A `Code` is seen as the list of its symbols, and each call
//! is the list's. `write_text` writes what `text_of` says; a `CodeReader` gives the whole symbols
//! that the bytes spell, by `ReaderHasRead`.
#![tactic(auto)]

pub mod code;
pub mod memory;
pub mod piece;
pub mod prefix;
pub mod reader;
pub mod shared;
pub mod symbol;
pub mod text;
