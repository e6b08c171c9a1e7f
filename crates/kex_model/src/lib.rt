//! What a program is and what it means: trees, codes and meanings; places, paths and survivors; a
//! stage's answer, a pipeline's, and what a schedule of turns comes to.
//!
//! Uses byte sets and codes. The definitions are in `specs/`; `laws` proves what holds of them.
#![tactic(auto)]

pub mod builder;
pub mod frame;
pub mod laws;
pub mod program;
pub mod worked;
