//! One stage, from bytes to bytes: the oracle that finds the code, by paths or by a table, and the
//! action machine that performs it.
//!
//! Uses frontiers, runners, what is learnt of a table, actors and `Turn`. `Stage` is a `Turn`
//! whose answer is the stage's over the nodes of its machine.
#![tactic(auto)]

pub mod advance;
pub mod ahead;
pub mod follower;
pub mod laws;
pub mod oracle;
mod paths;
pub mod speak;
pub mod stage;
mod strides;
pub mod team;
pub mod worker;
