//! A machine without dead ends.
//!
//! Uses machines. `trim` refuses exactly where there is no text; else it keeps exactly the nodes
//! that lead to the end, with the same codes and effects.
#![tactic(auto)]

ghost use Rattle.std.specs.Prelude.{◌≡◌, IfOk, IfErr};
ghost use Rattle.kex_trim.specs.Trim.{IsTrimCause, IsTrimOf};
ghost use Rattle.kex_trim.specs.declared.TrimRefusal.TheVariants.{Memory};

mod alive;
mod kept;

use crate::alive::alive_nodes;
use crate::kept::{number, shrink};
use kex_machine::{Machine, Trimmed};
use std::alloc::{AllocError, Global};
use thiserror::Error;

/// Why a machine is refused.
#[derive(Clone, Copy, Debug, PartialEq, Eq, Drop, Error)]
pub enum TrimRefusal {
    /// The end isn't reached from the start.
    #[error("no text has a parse")]
    NoText,
    /// Memory was wanted, and there was none.
    #[error("out of memory")]
    Memory,
}

impl From<AllocError> for TrimRefusal {
    ghost from_gives = { λ _ e. e ≡ Memory };

    fn from(_: AllocError) -> TrimRefusal {
        TrimRefusal::Memory
    }
}

/// The machine without dead ends.
pub fn trim(alloc: Global, machine: Machine) -> Result<Trimmed, TrimRefusal>
    ensures trimmed { IfOk result (λ t. IsTrimOf machine t) }
    ensures refused { IfErr result (λ e. IsTrimCause machine e) }
{
    let alive = alive_nodes(alloc, machine.nodes())?;
    if !alive[machine.start() as usize] {
        return Err(TrimRefusal::NoText);
    }
    let numbering = number(alloc, &alive)?;
    let start = numbering.numbers[machine.start() as usize];
    let stage = machine.stage();
    let registers = machine.registers();
    let nodes = shrink(alloc, machine.into_nodes(), &alive, &numbering)?;
    Ok(Trimmed::new(Machine::new(start, nodes, stage, registers)))
}
