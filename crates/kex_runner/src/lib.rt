//! Runs a table over bytes, and passes on its code as the bytes come.
//!
//! Uses tables and their scripts. A `Runner` keeps no byte once nothing is held, and no code that
//! it has passed on. `IsRunOf` says which bytes it was fed, and which code it has passed on.
//! `Runner::feed`, `hold`, `apply` and `end` carry this on, and `jump` past bytes whose code was
//! passed on elsewhere.
//!
//! Registers aren't written while bytes come. An update is noted with its byte, and a register is
//! looked up backwards through the notes when it is passed on:
//!
//! ```text
//! base | I | A a | A a | A a | A a |  then b passes on `0 R ·`
//!        ◄─────── looked up ───────   L, L a, L a, L a, L a, R b
//! ```
//!
//! Here `main := "1 " /a*b/ | "2 " /a*c/` is fed `aaaab`. I gives register 0 the symbol L and
//! register 1 the symbol R. A puts `L ·` after both, `·` being the byte. It passes nothing on
//! and is noted four times. On b what register 0 holds is passed on, and then `R ·`. Before
//! the last note, A, the way of register 0 is the same way and the word `L ·`. Before I it is the
//! word `L` alone. So the byte words are `L`, four times `L ·` with a, and `R ·` with b: the code
//! `LLaLaLaLaRb`. README.md has this byte by byte, and what notes, ways and settled registers
//! are.
#![tactic(auto)]

mod answers;
mod history;
mod place;
mod quiet;
mod registers;
pub mod runner;
pub mod shared_guide;
mod spelling;
mod ways;

pub use answers::{Applied, Ended, Fed, Glance};
