//! Leaps over text that a table holds back, from a state without registers to the next: they are
//! gone along by rows of held text, and then performed at once. Uses rows of held text and the
//! actor.
#![tactic(auto)]

pub mod act;
mod copy;
mod credit;
mod last;
pub mod leaps;
mod mark;
mod perform;
mod scan;
