// The machines of a program's stages.

ghost use Rattle.std.specs.Prelude.{◌≡◌, ℕ, ◌+◌, ◌*◌, ◌^◌, ◌<◌, ◌++◌, ◌∷◌, [], IfOk, OnOk, length};
ghost use Rattle.kex_code.specs.Codes.{HasNumber};
ghost use Rattle.kex_machine.specs.Nodes.{Graph};
ghost use Rattle.kex_compile.specs.Stages.{StandAtNumbers, stage_of};

use kex_code::memory::Memory;
use kex_machine::Trimmed;
use kex_plan::common::Common;
use std::alloc::Global;
use std::marker::Model;

/// The machine of a stage, which later stages may have too, and how many places the stage has.
#[derive(Drop)]
struct LoweredStage {
    machine: Common<Trimmed>,
    places: u32,
}

/// The machines of a program's stages, in their order, and how many places the stages have in all.
#[derive(Drop)]
pub(crate) struct Lowered {
    stages: Vec<LoweredStage>,
    places: u64,
}

impl Model for Lowered {
    ghost use Rattle.std.specs.Prelude.{◌<◌, ◌≤◌, ◌*◌, ◌^◌, length, map};
    ghost use Rattle.kex_compile.specs.Stages.{Machines, StandAtNumbers, stage_of};

    ghost Value = { Machines };

    ghost view = { λ l. record {
      machines = map (λ s. s.machine) l.stages.items;
      counts = map (λ s. s.places) l.stages.items;
      places = l.places;
    } };

    ghost invariant = { λ l. (length l.stages.items < 2 ^ 32)
        × (l.places ≤ length l.stages.items * 2 ^ 32)
        × StandAtNumbers stage_of (map (λ s. s.machine) l.stages.items) };
}

impl Lowered {
    pub(crate) fn new(alloc: Global) -> Lowered
        ensures { result ≡ record { machines = []; counts = []; places = 0 } }
    {
        Lowered {
            stages: Vec::new(alloc),
            places: 0,
        }
    }

    /// One stage more, with a machine that bears its number.
    pub(crate) fn push(&mut self, machine: Common<Trimmed>, places: u32) -> Result<(), Memory>
        requires few { length self.old.machines + 1 < 2 ^ 32 }
        requires number { machine.stage ≡ length self.old.machines + 1 }
        ensures pushed { OnOk result (self.new ≡ record {
          machines = self.old.machines ++ machine
              ∷ [];
          counts = self.old.counts ++ places ∷ [];
          places = self.old.places + places;
        }) }
    {
        self.stages.push(LoweredStage { machine, places })?;
        self.places += u64::from(places);
        Ok(())
    }

    /// One stage more, which is the same as an earlier one.
    pub(crate) fn push_again(&mut self, earlier: usize) -> Result<(), Memory>
        requires few { length self.old.machines + 1 < 2 ^ 32 }
        requires earlier { earlier < length self.old.machines }
        ensures pushed { OnOk result ((m : Graph) (n : ℕ) → HasNumber self.old.machines m earlier
            → HasNumber self.old.counts n earlier → self.new
            ≡ record {
              machines = self.old.machines ++ m ∷ [];
              counts = self.old.counts ++ n ∷ [];
              places = self.old.places + n;
            }) }
        ensures long { OnOk result
            (length self.new.machines ≡ length self.old.machines + 1) }
    {
        let stage = &self.stages[earlier];
        let places = stage.places;
        let machine = stage.machine.again()?;
        self.stages.push(LoweredStage { machine, places })?;
        self.places += u64::from(places);
        Ok(())
    }

    /// How many places the stages have in all.
    pub(crate) fn places(&self) -> u64
        ensures { result ≡ self.now.places }
    {
        self.places
    }

    /// The machines.
    pub(crate) fn into_machines(self, alloc: Global) -> Result<Vec<Common<Trimmed>>, Memory>
        ensures same { IfOk result (λ ms. ms.items ≡ self.machines) }
        ensures few { length self.machines < 2 ^ 32 }
        ensures stand { StandAtNumbers stage_of self.machines }
    {
        let mut machines = Vec::with_capacity(alloc, self.stages.len())?;
        'stages: for stage in self.stages {
            machines.push(stage.machine)?;
        }
        Ok(machines)
    }
}
