// The plans of a program's stages.

ghost use Rattle.std.specs.Prelude.{◌≡◌, ◌<◌, ◌^◌, IfOk, IfErr, OnOk, length, true};
ghost use Rattle.kex_model.specs.Trees.{root_of};
ghost use Rattle.kex_compile.specs.Stages.{AreMachines, ArePlans, IsUnplanned, KeepsToOneStage};
ghost use Rattle.kex_compile.specs.Stages.{KeepsToPairs, KeepsToStates};

use crate::compiled::Compiled;
use crate::limits::Limits;
use crate::lowered::Lowered;
use crate::lowering::Lowering;
use crate::refusal::PlanRefusal;
use crate::tables::plan_machines;
use kex_model::program::Program;
use std::alloc::Global;

// The node where the definition of a name begins, and node 0 for a name that has none.
fn root_of(program: &Program, name: u32) -> u32
    ensures { result ≡ root_of program.now name }
{
    match program.definitions().iter().find(|d| d.name == name) {
        None => 0,
        Some(definition) => definition.root,
    }
}

/// The machines of a program's stages, or the refusal by the rule of the lowest number, and of the
/// stages that are refused by it the first.
pub(crate) fn lower_stages(alloc: Global, program: &Program) -> Result<Lowered, PlanRefusal>
    requires few { length program.now.stages < 2 ^ 32 }
    ensures machines { IfOk result (λ l. AreMachines program.now l) }
    ensures refused { IfErr result (λ e. (limits : Limits) → IsUnplanned limits program.now e) }
{
    let mut lowering = Lowering::new(alloc);
    'stages: for start in program.stages() {
        let root = root_of(program, start.name);
        lowering.add(alloc, program, root)?;
    }
    match lowering.firsts.least() {
        None => Ok(lowering.lowered),
        Some(refusal) => Err(refusal),
    }
}

/// The plans of a program's stages, in their order.
///
/// Each rule is asked of all stages before the next: the answer is the refusal of the lowest
/// number, and of the stages that are refused by it the first.
pub fn plan_stages(
    alloc: Global,
    program: &Program,
    limits: &Limits,
) -> Result<Compiled, PlanRefusal>
    requires few { length program.now.stages < 2 ^ 32 }
    requires states { limits.now.states < 4294967295 }
    requires optimal { limits.now.optimal ≡ true → limits.now.tables ≡ true }
    ensures plans { IfOk result (λ plans. ArePlans limits.now program.now plans) }
    ensures one_stage { OnOk result (KeepsToOneStage limits.now program.now) }
    ensures states { OnOk result (KeepsToStates limits.now program.now) }
    ensures pairs { OnOk result (KeepsToPairs limits.now program.now) }
    ensures refused { IfErr result (λ e. IsUnplanned limits.now program.now e) }
{
    let lowered = lower_stages(alloc, program)?;
    if limits.one_stage && program.stages().len() > 1 {
        return Err(PlanRefusal::OneStage);
    }
    let compiled = plan_machines(alloc, lowered, limits)?;
    Ok(compiled)
}
