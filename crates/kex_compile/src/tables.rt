// The plans of machines, with their tables where these are asked for.

ghost use Rattle.std.specs.Prelude.{◌≡◌, ◌+◌, ◌^◌, ◌<◌, ◌≤◌, ◌++◌, ◌∷◌, [], suc, List};
ghost use Rattle.std.specs.Prelude.{IfOk, IfErr, OnOk, length, true};
ghost use Rattle.kex_machine.specs.Nodes.{Graph};
ghost use Rattle.kex_code.specs.Codes.{HasNumber};
ghost use Rattle.kex_compile.specs.Stages.{HasEachPlan, HasMoreNodePairs, HasMoreNodes};
ghost use Rattle.kex_compile.specs.Stages.{HasStatesIf, HasTable};
ghost use Rattle.kex_compile.specs.Stages.{HavePlansOrFirst, HaveTheirPlans, IsUntabled};
ghost use Rattle.kex_compile.specs.Stages.{IsUntabledAs, IsUntabledBy, asked_telling};

use crate::compiled::Compiled;
use crate::limits::Limits;
use crate::lowered::Lowered;
use crate::refusal::PlanRefusal;
use kex_code::memory::Memory;
use kex_cover::optimal;
use kex_cover::refusal::CoverRefusal;
use kex_determine::determine;
use kex_determine::refusal::DetRefusal;
use kex_machine::Trimmed;
use kex_plan::common::Common;
use kex_plan::plan::{Plan, Telling};
use std::alloc::Global;

/// How many pairs the test of a leaf may have.
const MOST_PAIRS: u32 = 4_096;

/// A stage's plan, and how many states it has where it has a table.
#[derive(Drop)]
pub(crate) struct Planned {
    pub(crate) plan: Plan,
    pub(crate) states: u32,
}

// What stages are to tell.
fn telling_of(limits: &Limits) -> Telling
    ensures { result ≡ asked_telling limits.now }
{
    if limits.optimal {
        Telling::Best
    } else {
        Telling::Agreed
    }
}

// The plan of a machine: with a table if tables are asked for, which tells what it is to.
fn plan(alloc: Global, machine: Common<Trimmed>, limits: &Limits) -> Result<Planned, CoverRefusal>
    requires states { limits.now.states < 4294967295 }
    requires optimal { limits.now.optimal ≡ true → limits.now.tables ≡ true }
    ensures machine { IfOk result (λ p. p.plan.machine ≡ machine) }
    ensures table { IfOk result (λ p. HasTable limits.now p.plan.machine p.plan.table) }
    ensures told { IfOk result (λ p. p.plan.telling ≡ asked_telling limits.now) }
    ensures states { IfOk result (λ p. HasStatesIf limits.now machine p.states) }
    ensures pairs { OnOk result (HasMoreNodePairs limits.now machine → ⊥) }
    ensures refused { IfErr result (λ e. IsUntabledBy limits.now machine e) }
{
    if !limits.tables {
        return Ok(Planned {
            plan: Plan::sharing(machine, None, Telling::Agreed),
            states: 0,
        });
    }
    if limits.optimal {
        let table = optimal(alloc, machine.get(), limits.states, MOST_PAIRS)?;
        let states = table.states().len() as u32;
        let shared = Common::new(alloc, table)?;
        return Ok(Planned {
            plan: Plan::sharing(machine, Some(shared), Telling::Best),
            states,
        });
    }
    let table = determine(alloc, machine.get(), limits.states)?;
    let states = table.states().len() as u32;
    let shared = Common::new(alloc, table)?;
    Ok(Planned {
        plan: Plan::sharing(machine, Some(shared), Telling::Agreed),
        states,
    })
}

// Whether a machine has no more states than are allowed.
fn keep_to_states(
    alloc: Global,
    machine: &Trimmed,
    stage: u32,
    limits: &Limits,
) -> Result<(), PlanRefusal>
    requires { limits.now.states < 4294967295 }
    ensures few { OnOk result (HasMoreNodes limits.now machine.now → ⊥) }
    ensures refused { limits.now.tables ≡ true
        → IfErr result (λ e. IsUntabledAs limits.now machine.now stage e) }
{
    match determine(alloc, machine, limits.states) {
        Ok(_) => Ok(()),
        Err(DetRefusal::TooManyStates { seen: _ }) => Err(PlanRefusal::TooManyStates(stage)),
        Err(DetRefusal::Memory) => Err(PlanRefusal::Memory),
    }
}

/// The plans of the machines so far; or the first of these that has too many pairs, from which on
/// no plans are made.
#[derive(Drop)]
pub(crate) struct Planning {
    pub(crate) compiled: Compiled,
    pub(crate) too_many_pairs: Option<u32>,
}

impl Planning {
    // One machine more. After one that has too many pairs it is only asked for its states, since
    // that rule comes first.
    fn add(
        &mut self,
        alloc: Global,
        machine: Common<Trimmed>,
        stage: u32,
        limits: &Limits,
    ) -> Result<(), PlanRefusal>
        requires states { limits.now.states < 4294967295 }
        requires optimal { limits.now.optimal ≡ true → limits.now.tables ≡ true }
        requires told { self.old.compiled.telling ≡ asked_telling limits.now }
        requires few { self.old.compiled.states + 2 ^ 32 ≤ 2 ^ 64 }
        requires each { HasEachPlan stage self.old.too_many_pairs self.old.compiled }
        requires number { machine.stage ≡ stage }
        ensures told { OnOk result
            (self.new.compiled.telling ≡ self.old.compiled.telling) }
        ensures places { OnOk result (self.new.compiled.places ≡ self.old.compiled.places) }
        ensures few { OnOk result
            (self.new.compiled.states ≤ self.old.compiled.states + 2 ^ 32) }
        ensures each { OnOk result
            (HasEachPlan (suc stage) self.new.too_many_pairs self.new.compiled) }
        ensures plans { (ms : List Graph) → stage ≡ suc (length ms)
            → HavePlansOrFirst limits.now ms self.old.too_many_pairs self.old.compiled
            → OnOk result (HavePlansOrFirst limits.now (ms ++ machine ∷ [])
            self.new.too_many_pairs self.new.compiled) }
        ensures refused { (ms : List Graph)
            → HavePlansOrFirst limits.now ms self.old.too_many_pairs self.old.compiled
            → IfErr result (λ e. IsUntabledAs limits.now machine stage e) }
    {
        if self.too_many_pairs.is_some() {
            return keep_to_states(alloc, machine.get(), stage, limits);
        }
        match plan(alloc, machine, limits) {
            Ok(planned) => {
                self.compiled.push(planned.plan, planned.states)?;
                Ok(())
            }
            Err(CoverRefusal::TooManyPairs { seen: _ }) => {
                self.too_many_pairs = Some(stage);
                Ok(())
            }
            Err(CoverRefusal::TooManyStates { seen: _ }) => Err(PlanRefusal::TooManyStates(stage)),
            Err(CoverRefusal::Memory) => Err(PlanRefusal::Memory),
        }
    }

    // One machine more, which an earlier stage has too: its stage has that one's plan.
    fn add_again(&mut self, earlier: usize, stage: u32) -> Result<(), Memory>
        requires few { self.old.compiled.states + 2 ^ 32 ≤ 2 ^ 64 }
        requires each { HasEachPlan stage self.old.too_many_pairs self.old.compiled }
        requires earlier { earlier + 1 < stage }
        ensures told { OnOk result
            (self.new.compiled.telling ≡ self.old.compiled.telling) }
        ensures places { OnOk result (self.new.compiled.places ≡ self.old.compiled.places) }
        ensures few { OnOk result
            (self.new.compiled.states ≤ self.old.compiled.states + 2 ^ 32) }
        ensures each { OnOk result
            (HasEachPlan (suc stage) self.new.too_many_pairs self.new.compiled) }
        ensures plans { (limits : Limits) (ms : List Graph) (m : Graph) → HasNumber ms m earlier
            → HavePlansOrFirst limits ms self.old.too_many_pairs self.old.compiled
            → OnOk result (HavePlansOrFirst limits (ms ++ m ∷ []) self.new.too_many_pairs
            self.new.compiled) }
    {
        if self.too_many_pairs.is_some() {
            return Ok(());
        }
        self.compiled.push_again(earlier)
    }
}

/// The plans of machines, in their order; or the first that has too many states, or else the first
/// that has too many pairs, counted from 1.
pub(crate) fn plan_machines(
    alloc: Global,
    lowered: Lowered,
    limits: &Limits,
) -> Result<Compiled, PlanRefusal>
    requires states { limits.now.states < 4294967295 }
    requires optimal { limits.now.optimal ≡ true → limits.now.tables ≡ true }
    ensures places { IfOk result (λ c. c.places ≡ lowered.places) }
    ensures told { IfOk result (λ c. c.telling ≡ asked_telling limits.now) }
    ensures plans { IfOk result (λ c. HaveTheirPlans limits.now lowered.machines c) }
    ensures refused { IfErr result (λ e. IsUntabled limits.now lowered.machines e) }
{
    let mut planning = Planning {
        compiled: Compiled::new(alloc, lowered.places(), telling_of(limits)),
        too_many_pairs: None,
    };
    let machines = lowered.into_machines(alloc)?;
    let mut stage = 0;
    'machines: for machine in machines {
        stage += 1;
        let first = machine.get().machine().stage();
        if first < stage {
            planning.add_again(first as usize - 1, stage)?;
        } else {
            planning.add(alloc, machine, stage, limits)?;
        }
    }
    match planning.too_many_pairs {
        None => Ok(planning.compiled),
        Some(stage) => Err(PlanRefusal::TooManyPairs(stage)),
    }
}
