//! The stages of a program as one pipeline: what is given to it goes through them by rounds, in
//! turns with desks, or over rings, and what they say goes into a sink.
//!
//! Uses pipes, rounds and rings, and the kinds of stages that there are. `pass` writes what is said
//! of a block, and `pass_end` what is said of the end.
#![tactic(auto)]

pub mod any_pipe;
pub mod feed;
pub mod host;
pub mod limited;
pub mod pass;
mod piece_length;
pub mod plain;
mod rings;
pub mod rounds;
pub mod sharing;
mod turns;
