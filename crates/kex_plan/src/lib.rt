//! Plans of stages: a machine, perhaps a table of it, and what a stage by them tells.
//!
//! Uses machines, tables, constant registers and runners. `Plan` keeps a table that passes on what
//! the plan tells; `Route` is the way by which stages go along it.
#![tactic(auto)]

pub mod common;
pub mod plan;
pub mod route;
