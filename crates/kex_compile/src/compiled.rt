// What a text is compiled to.

ghost use Rattle.std.specs.Prelude.{◌≡◌, ℕ, suc, ◌+◌, ◌^◌, ◌<◌, ◌≤◌, ◌++◌, ◌∷◌, [], IfOk, OnOk};
ghost use Rattle.std.specs.Prelude.{Option, length, map};
ghost use Rattle.kex_code.specs.Codes.{HasNumber};
ghost use Rattle.kex_machine.specs.Nodes.{Graph};
ghost use Rattle.kex_sst.specs.Tables.{Transducer};
ghost use Rattle.kex_plan.specs.Plans.{AllTell, machine_of, teller_of, tellers};
ghost use Rattle.kex_compile.specs.Stages.{states_if, table_of};

use kex_code::memory::Memory;
use kex_plan::plan::{Plan, Telling};
use std::alloc::Global;
use std::marker::Model;

/// The plans of a program's stages, in their order, what the stages tell, and how many places and
/// states they have in all.
#[derive(Drop)]
pub struct Compiled {
    stages: Vec<Plan>,
    telling: Telling,
    places: u64,
    states: u64,
}

impl Model for Compiled {
    ghost use Rattle.std.specs.Prelude.{◌<◌, ◌^◌, length, map};
    ghost use Rattle.kex_plan.specs.Plans.{AllTell, machine_of};
    ghost use Rattle.kex_compile.specs.Stages.{Plans, StandAtNumbers, stage_in, table_of};

    ghost Value = { Plans };

    ghost view = { λ c. record {
      stages = map machine_of c.stages.items;
      tables = map table_of c.stages.items;
      telling = c.telling;
      places = c.places;
      states = c.states;
    } };

    ghost invariant = { λ c. (length c.stages.items < 2 ^ 32)
        × AllTell c.telling c.stages.items × StandAtNumbers stage_in c.stages.items };
}

// The same plan, of which stages go by a table without constant registers: that of the first stage
// with this machine, if that one is among the shorter plans.
fn shorten_as(alloc: Global, plan: Plan, shorter: &[Plan]) -> Result<Plan, Memory>
    requires first { (n : ℕ) × (plan.machine.stage ≡ suc n)
        × (n < length shorter.now → HasNumber shorter.now plan n) }
    ensures { IfOk result (λ p. p ≡ plan) }
{
    let first = plan.machine().machine().stage() as usize - 1;
    if first < shorter.len() {
        return shorter[first].again();
    }
    plan.shorten(alloc)
}

impl Compiled {
    pub(crate) fn new(alloc: Global, places: u64, telling: Telling) -> Compiled
        ensures { result ≡ record {
          stages = [];
          tables = [];
          telling = telling;
          places = places;
          states = 0;
        } }
    {
        Compiled {
            stages: Vec::new(alloc),
            telling,
            places,
            states: 0,
        }
    }

    /// One stage more, with this many states, whose machine bears its number.
    pub(crate) fn push(&mut self, plan: Plan, states: u32) -> Result<(), Memory>
        requires states { self.old.states + states < 2 ^ 64 }
        requires stages { length self.old.stages + 1 < 2 ^ 32 }
        requires told { plan.telling ≡ self.old.telling }
        requires number { plan.machine.stage ≡ length self.old.stages + 1 }
        ensures pushed { OnOk result (self.new
            ≡ record {
              stages = self.old.stages ++ plan.machine ∷ [];
              tables = self.old.tables
                  ++ plan.table ∷ [];
              telling = self.old.telling;
              places = self.old.places;
              states = self.old.states + states;
            }) }
        ensures few { OnOk result (self.new.states < self.old.states + 2 ^ 32) }
    {
        self.stages.push(plan)?;
        self.states += u64::from(states);
        Ok(())
    }

    /// One stage more, which has the plan of an earlier one.
    pub(crate) fn push_again(&mut self, earlier: usize) -> Result<(), Memory>
        requires states { self.old.states + 2 ^ 32 ≤ 2 ^ 64 }
        requires stages { length self.old.stages + 1 < 2 ^ 32 }
        requires earlier { earlier < length self.old.stages }
        ensures pushed { OnOk result ((m : Graph) (o : Option Transducer)
            → HasNumber self.old.stages m earlier → HasNumber self.old.tables o earlier → self.new
            ≡ record {
              stages = self.old.stages ++ m ∷ [];
              tables = self.old.tables ++ o ∷ [];
              telling = self.old.telling;
              places = self.old.places;
              states = self.old.states + states_if o;
            }) }
        ensures long { OnOk result
            (length self.new.stages ≡ length self.old.stages + 1) }
        ensures told { OnOk result (self.new.telling ≡ self.old.telling) }
        ensures places { OnOk result (self.new.places ≡ self.old.places) }
        ensures few { OnOk result (self.new.states < self.old.states + 2 ^ 32) }
    {
        let plan = self.stages[earlier].again()?;
        let states = match plan.table() {
            None => 0,
            Some(table) => table.states().len() as u32,
        };
        self.stages.push(plan)?;
        self.states += u64::from(states);
        Ok(())
    }

    /// The plans, in the order of their stages.
    pub fn stages(&self) -> &[Plan]
        ensures same { map machine_of result.now ≡ self.now.stages }
        ensures tables { map table_of result.now ≡ self.now.tables }
        ensures tellers { map teller_of result.now
            ≡ tellers self.now.telling self.now.stages }
        ensures told { AllTell self.now.telling result.now }
        ensures count { length result.now ≡ length self.now.stages }
        ensures few { length self.now.stages < 2 ^ 32 }
    {
        &self.stages
    }

    /// The same plans, of which stages go by tables without constant registers. Stages that have
    /// one plan share that table too. A command that only counts has no use for such tables.
    pub fn shorten(self, alloc: Global) -> Result<Compiled, Memory>
        ensures { IfOk result (λ c. c ≡ self) }
    {
        let mut stages = Vec::with_capacity(alloc, self.stages.len())?;
        'plans: for plan in self.stages {
            let short = shorten_as(alloc, plan, &stages)?;
            stages.push(short)?;
        }
        Ok(Compiled {
            stages,
            telling: self.telling,
            places: self.places,
            states: self.states,
        })
    }

    /// How many places the stages have in all, before their machines are trimmed.
    pub fn places(&self) -> u64
        ensures { result ≡ self.now.places }
    {
        self.places
    }

    /// How many states the stages have in all, where tables were asked for.
    pub fn states(&self) -> u64
        ensures { result ≡ self.now.states }
    {
        self.states
    }
}
