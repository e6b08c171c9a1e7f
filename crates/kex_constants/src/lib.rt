//! Registers that always hold the same choices, taken out of a table.
//!
//! Uses tables and the sides of choices. Constants are guessed, then checked, and only then put in
//! place of their registers; the clauses of `clear_table` are the contract: the new table passes on
//! the same, so it is of the same machine.
#![tactic(auto)]

mod check;
mod choices;
mod copies;
mod guess;
mod known;
mod rewrite;
mod shared;
mod split;

ghost use Rattle.std.specs.Prelude.{IfOk};
ghost use Rattle.kex_machine.specs.Nodes.{Graph};
ghost use Rattle.kex_sst.specs.Machines.{IsBestTableOf, IsTableOf};
ghost use Rattle.kex_constants.specs.Alike.{PassAlike, SpeakAlike};

use crate::check::checked;
use crate::guess::guessed;
use crate::rewrite::without_constants;
use crate::split::split_table;
use kex_code::memory::Memory;
use kex_sst::table::Table;
use std::alloc::Global;

/// How many choices a constant has at most, for a table that is run. The labels of edges after
/// which no byte was read have one or two choices; without a limit a chain of states whose label
/// grows by a choice a state would take the square of its length. What is longer stays in its
/// register.
pub const LONGEST: usize = 16;

/// The table with each constant in place of its register, as far as constants of at most `longest`
/// choices are found.
pub fn clear_table(alloc: Global, table: &Table, longest: usize) -> Result<Table, Memory>
    ensures alike { IfOk result (λ t. PassAlike table.now t) }
    ensures machine { IfOk result (λ t. (g : Graph) → IsTableOf g table.now → IsTableOf g t) }
    ensures best { IfOk result (λ t. (g : Graph) → IsBestTableOf g table.now → IsBestTableOf g t) }
{
    let guess = guessed(alloc, table, longest)?;
    let constants = checked(alloc, table, guess)?;
    without_constants(alloc, table, &constants)
}

/// The same, after states are split so that more registers are constant: those of which every
/// register is constant on some ways into them. The states have other numbers then.
pub fn shorten_table(alloc: Global, table: &Table, longest: usize) -> Result<Table, Memory>
    ensures alike { IfOk result (λ t. SpeakAlike table.now t) }
    ensures machine { IfOk result (λ t. (g : Graph) → IsTableOf g table.now → IsTableOf g t) }
    ensures best { IfOk result (λ t. (g : Graph) → IsBestTableOf g table.now → IsBestTableOf g t) }
{
    match split_table(alloc, table, longest)? {
        None => clear_table(alloc, table, longest),
        Some(split) => clear_table(alloc, &split, longest),
    }
}
