//! The hot loop of a stage over a table. Where no register is held, table and actor go on at once,
//! by what was learnt of both. Over held text the loop leaps, if the leap ends in the piece.
//!
//! Uses tables and actors. `Moves::run` takes a part of a piece of input; `RunsOn` says what
//! it leaves. `Phrases::say` performs the words that a runner hands on where registers are held,
//! by what was learnt of each word at each node.
//!
//! ```text
//! byte ─ class ─► edge in the row of a state and a node ─► text or deeds, and the next row
//! ```
//!
//! `main := (~/a/ "x" | /b/)*` is fed `abbab`. At a the edge isn't known: the table's update says
//! `LLa`, which at this node writes x and no byte, so the edge is a text. At b it is the byte
//! alone (`Keep`). The other three bytes are one look-up each, and the sheet has `xbbxb`.
//! README.md has this byte by byte, and when what is known is forgotten.
#![tactic(auto)]

mod along;
mod edge;
mod edges;
mod follow;
mod last;
mod leap;
mod learn;
pub mod moves;
pub mod phrases;
mod put;
mod run;
mod settle;
mod spell;
mod tell;
