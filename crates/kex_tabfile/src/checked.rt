// What a good table file has.

ghost use Rattle.std.specs.Prelude.{◌≡◌, ◌<◌, ◌^◌, IfOk, length};

use kex_code::memory::Memory;
use kex_plan::plan::Plan;
use std::alloc::Global;
use std::marker::Model;

/// The plans of the stages of a good table file, in their order: their machines are those of the
/// file's text, and their tables are those of its lines.
#[derive(Drop)]
pub struct Checked {
    stages: Vec<Plan>,
}

impl Model for Checked {
    ghost use Rattle.std.specs.Prelude.{◌<◌, ◌^◌, List, length};
    ghost use Rattle.kex_plan.specs.Plans.{Planned};

    ghost Value = { List Planned };

    ghost view = { λ c. c.stages.items };

    ghost invariant = { λ c. length c.stages.items < 2 ^ 32 };
}

impl Checked {
    pub(crate) fn new(stages: Vec<Plan>) -> Checked
        requires { length stages.items < 2 ^ 32 }
        ensures { result ≡ stages.items }
    {
        Checked { stages }
    }

    /// The plans, in the order of their stages.
    pub fn stages(&self) -> &[Plan]
        ensures same { result.now ≡ self.now }
        ensures few { length self.now < 2 ^ 32 }
    {
        &self.stages
    }

    /// The same plans, of which stages go by tables without constant registers.
    pub fn shorten(self, alloc: Global) -> Result<Checked, Memory>
        ensures { IfOk result (λ c. c ≡ self) }
    {
        let mut stages = Vec::with_capacity(alloc, self.stages.len())?;
        'plans: for plan in self.stages {
            let plan = plan.shorten(alloc)?;
            stages.push(plan)?;
        }
        Ok(Checked { stages })
    }
}
