//! Stages that run at once, joined by rings.
//!
//! Uses the pipe's seats and `rtrb`. Two neighbours have the two ends of a ring. What
//! passes through it is in the order in which it was sent, and what a full ring doesn't take stays
//! with its stage. A `RingPipe` stands for a schedule of turns, as a `Pipe` does.
#![tactic(auto)]

pub mod item;
mod joining;
mod passing;
pub mod pipe;
pub mod ring_seat;
pub mod round;
mod settling;
