//! Tests of the call `kex` over objects in memory.
//!
//! They are in a crate of their own, which has nothing else but long texts for them: a crate with
//! tests is proved twice. Only what no clause says is tested: that calls answer with ample memory,
//! what worked examples come to, that each call of the outside may fail, that stages meet, and how
//! often they work. Rows are lines of text, so that another row costs no proof.
#![tactic(auto)]

#[cfg(test)]
mod call;
#[cfg(test)]
mod commands;
#[cfg(test)]
mod faults;
#[cfg(test)]
mod gates;
#[cfg(test)]
mod held;
#[cfg(test)]
mod large;
pub mod long;
#[cfg(test)]
mod runs;
#[cfg(test)]
mod tables;
