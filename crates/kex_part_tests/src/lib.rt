//! Tests of the crates below the program, through their public calls.
//!
//! They are in a crate of their own, which has little else but two stages for them: a crate with
//! tests is proved twice. Only what no clause says is tested: that calls answer with ample memory,
//! what a worked example comes to, and what is found, learnt and met.
//!
//! A module tests the crate of its name, and through it those below, which have a module of their
//! own only for what no row there reaches. Its rows are lines of text, so that another row costs no
//! proof.
#![tactic(auto)]

#[cfg(test)]
mod chunk_stage;
#[cfg(test)]
mod chunks;
#[cfg(test)]
mod compile;
#[cfg(test)]
mod constants;
pub mod copier;
#[cfg(test)]
mod cover;
#[cfg(test)]
mod each;
#[cfg(test)]
mod made;
#[cfg(test)]
mod many;
#[cfg(test)]
mod moves;
#[cfg(test)]
mod paths;
#[cfg(test)]
mod pipe;
#[cfg(test)]
mod ports;
#[cfg(test)]
mod reader;
pub mod refusing;
#[cfg(test)]
mod rings;
#[cfg(test)]
mod rope;
#[cfg(test)]
mod rounds;
#[cfg(test)]
mod tabfile;
#[cfg(test)]
mod tokens;
pub mod waiting;
#[cfg(test)]
mod words;
