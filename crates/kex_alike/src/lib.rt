//! How many pairs there are to try when it is asked which leaves of a stage's states are covered.
//!
//! Uses that question, which is asked of a machine's nodes, and the passes from places to nodes.
//! Here it is said of the stage's places: a machine has as many pairs as its stage. The laws in
//! `laws` are the crate's promise.
#![tactic(auto)]

pub mod laws;
