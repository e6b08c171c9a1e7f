//! A worker whose input is worked on in parts at once, by guess.
//!
//! A *worker* reads what a stage is given, and knows its place. A *desk* has a second worker of the
//! same kind. It works on one part of a piece in a thread of its own, from where it guesses that
//! the worker will be there. Where the guess is right the worker takes over what the desk has made.
//! Where it isn't, the worker reads the part itself.
#![tactic(auto)]

pub mod chunk_worker;
pub mod desk;
mod draft;
mod joining;
mod parts;
pub mod place;
mod trust;
