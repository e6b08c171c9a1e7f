// A stage: an oracle finds the code, and an actor performs it.

ghost use Rattle.std.specs.Prelude.{◌≡◌, IfOk, OnOk, IsTrue, None};
ghost use Rattle.kex_plan.specs.Plans.{teller_of};
ghost use Rattle.kex_stage.specs.StageLaws.{answering};
ghost use Rattle.kex_stage.specs.Stages.{Gives};

use crate::worker::StageWorker;
use kex_code::memory::Memory;
use kex_pipe::bounded::Bounded;
use kex_pipe::turn::{Fate, Stop, Turn};
use kex_plan::plan::Plan;
use std::alloc::Global;

/// One stage of a pipeline, over the plan that it borrows: bytes come in pieces, and what the plan
/// tells of them goes out at once, as what the surviving paths agree on.
#[derive(Drop)]
pub struct Stage<'p> {
    within: Bounded<StageWorker<'p>>,
}

impl<'p> Stage<'p> {
    /// A stage that has read nothing, and takes at most `max_input` bytes.
    pub fn new(alloc: Global, plan: &'p Plan, max_input: u64) -> Result<Stage<'p>, Memory>
        ensures plan { IfOk result (λ s. ⟦<Stage<'p> as Turn>⟧.plan s
            ≡ record { machine = teller_of plan.now; limit = max_input }) }
        ensures stands { IfOk result (λ s. ⟦<Stage<'p> as Turn>⟧.stands s None) }
        ensures usable { IfOk result (λ s. IsTrue (⟦<Stage<'p> as Turn>⟧.is_usable s)) }
    {
        let within = Bounded::new(alloc, plan, max_input)?;
        Ok(Stage { within })
    }

    /// Is as a new stage of its plan and limit: it has read nothing. What was learnt of the table
    /// stays, and so does the room that it has.
    ///
    /// After `Memory` the stage may only be dropped.
    pub fn begin_anew(&mut self) -> Result<(), Memory>
        ensures plan { ⟦<Stage<'p> as Turn>⟧.plan self.new ≡ ⟦<Stage<'p> as Turn>⟧.plan self.old }
        ensures stands { OnOk result (⟦<Stage<'p> as Turn>⟧.stands self.new None) }
        ensures usable { OnOk result (IsTrue (⟦<Stage<'p> as Turn>⟧.is_usable self.new)) }
    {
        self.within.begin_anew()
    }
}

impl<'p> Turn for Stage<'p> {
    ghost use Rattle.kex_stage.specs.Stages.{StagePlan};

    ghost Plan = { StagePlan };

    ghost plan = { λ s. ⟦<Bounded<StageWorker<'p>> as Turn>⟧.plan s.within };

    ghost gives = { λ p w e a. Gives p w e a };

    ghost stands = { λ s h. ⟦<Bounded<StageWorker<'p>> as Turn>⟧.stands s.within h };

    ghost is_usable = { λ s. ⟦<Bounded<StageWorker<'p>> as Turn>⟧.is_usable s.within };

    ghost stands_usable = { λ s h x. x.1 };

    ghost one = { λ p w e a b h k. (answering p.machine).one p.limit w e a b h k };

    ghost grows = { λ p w v e a b h k. (answering p.machine).grows p.limit w v e a b h k };

    ghost stays = { λ p w v e a b h k some.
        (answering p.machine).stays p.limit w v e a b h k some };

    ghost ends = { λ p w e a h. (answering p.machine).ends p.limit w e a h };

    fn usable(&self) -> bool {
        self.within.usable()
    }

    fn feed(&mut self, piece: &[u8], out: &mut Vec<u8>) -> Result<Fate, Memory> {
        self.within.feed(piece, out)
    }

    fn end(&mut self, out: &mut Vec<u8>) -> Result<Fate, Memory> {
        self.within.end(out)
    }

    fn stop(&self) -> Option<Stop> {
        self.within.stop()
    }
}
