//! Path trees: how the tree of a text's survivors goes on with a byte, from its shape and the
//! byte's class alone.
//!
//! Uses machines and the updates of tables. Old registers have the labels of a tree's edges, in
//! preorder; the clauses of `PathTree::start` and `PathTree::advance` say what `IsNext` determines
//! and that it is the tree of the text.
#![tactic(auto)]

mod advance;
mod forest;
pub mod laws;
mod restrict;
pub mod tree;
pub mod updates;
mod walk;
pub mod workspace;
