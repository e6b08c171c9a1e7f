//! The action machine of a stage: it performs the symbols of a code, and writes what they say.
//!
//! Uses codes and machines. An `Actor` stores no history: `HasPerformed` relates it to all
//! symbols that it was given, those that it performed, and all bytes written; the clauses of
//! `Actor::take` carry this on.
#![tactic(auto)]

pub mod action;
pub mod actor;
mod buffer;
pub mod deed;
pub mod fault;
mod piece;
pub mod push;
pub mod sheet;
mod store;
mod walk;
