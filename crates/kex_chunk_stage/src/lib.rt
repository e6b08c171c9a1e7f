//! A stage whose input is worked on in parts at once, by guess.
//!
//! Uses the desks of a worker that knows its place, and what a stage is made of. The worker goes
//! by a table. Its place is a state of the table without registers, how many bytes were read, and
//! where its actor is.
#![tactic(auto)]

pub mod chunk_stage;
pub mod stage_desk;
pub mod stage_place;
pub mod table_worker;
