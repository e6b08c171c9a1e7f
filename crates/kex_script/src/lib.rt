//! A table's updates as words, and lists of them: what a runner notes while registers are held,
//! and what it then hands to the actor.
//!
//! Uses tables. A word is a list of parts without old registers; a `ByteWord` is a word with the
//! byte that was read, and `code_over` says which symbols byte words spell. A `Script` has a
//! table's lists of parts by number, and says for each state and class of bytes which update it
//! has; `IsScriptOf` ties it to its table.
//!
//! ```text
//! state, class ─ entry ─► update ─ passed, given ─► list ─ tail ─► list, register, word
//! ```
//!
//! In the table of `main := "1 " /a*b/ | "2 " /a*c/` the update on a gives register 0 the list
//! `0 L ·`: what it held, then L and the byte. Its tail is the empty list, register 0 and the word
//! `L ·`; register 1 is given `1 L ·`, with the same word. README.md has the whole script, and
//! five bytes along it.
#![tactic(auto)]

pub mod entries;
pub mod ids;
pub mod interned;
pub mod letters;
pub mod piece;
mod rows;
pub mod script;
mod writer;
