//! Program texts into plans.
//!
//! Uses the reader, the rules and the passes. The contract of `compile` is the crate's
//! promise: the plans answer as the program's stages do, and a text is refused for the first rule
//! that it breaks.
#![tactic(auto)]

ghost use Rattle.std.specs.Prelude.{◌≡◌, ◌<◌, ◌^◌, IfOk, IfErr, length, true};
ghost use Rattle.kex_compile.specs.Compiled.{HasMachines, IsCompiled, IsRefused};
ghost use Rattle.kex_compile.specs.declared.limits.Limits.{Limits};

pub mod compiled;
mod firsts;
pub mod laws;
pub mod limits;
mod lowered;
mod lowering;
pub mod refusal;
pub mod stages;
mod tables;

use crate::compiled::Compiled;
use crate::limits::Limits;
use crate::refusal::CompileRefusal;
use crate::stages::{lower_stages, plan_stages};
use kex_machine::Trimmed;
use kex_plan::common::Common;
use kex_reader::read;
use kex_rules::check;
use std::alloc::Global;

/// The plans of a program text.
///
/// Each rule is asked of the whole text before the next. Of the states of a stage, and of the pairs
/// of a leaf's test, one more is counted than are allowed.
pub fn compile(alloc: Global, text: &[u8], limits: &Limits) -> Result<Compiled, CompileRefusal>
    requires states { limits.now.states < 4294967295 }
    requires optimal { limits.now.optimal ≡ true → limits.now.tables ≡ true }
    ensures plans { IfOk result (λ plans. IsCompiled limits.now text.now plans) }
    ensures refused { IfErr result (λ e. IsRefused limits.now text.now e) }
{
    let program = read(alloc, text)?;
    let ruled = check(alloc, &program)?;
    let compiled = plan_stages(alloc, ruled.program(), limits)?;
    Ok(compiled)
}

/// The machines of a program text's stages, in their order: what `compile` makes before tables are
/// asked for. The text is refused as by `compile`, if it breaks a rule of the language.
pub fn machines(alloc: Global, text: &[u8]) -> Result<Vec<Common<Trimmed>>, CompileRefusal>
    ensures machines { IfOk result (λ ms. HasMachines text.now ms.items) }
    ensures few { IfOk result (λ ms. length ms.items < 2 ^ 32) }
    ensures refused { IfErr result (λ e. (limits : Limits) → IsRefused limits text.now e) }
{
    let program = read(alloc, text)?;
    let ruled = check(alloc, &program)?;
    let lowered = lower_stages(alloc, ruled.program())?;
    let machines = lowered.into_machines(alloc)?;
    Ok(machines)
}
