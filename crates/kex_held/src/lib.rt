//! What a table holds back of a stage, as slices of the input: lists between marks in a window.
//! Uses tables, machines and the actor's actions.
#![tactic(auto)]

pub mod end;
pub mod item;
mod keep;
pub mod learn;
pub mod link;
pub mod list;
pub mod row;
pub mod track;
mod upper;
pub mod walk;
pub mod window;
