// A stage with desks.

ghost use Rattle.std.specs.Prelude.{◌≡◌, ◌≤◌, Option, None, IfOk, IsTrue, All, vec_len};
ghost use Rattle.std.proofs.Common.{◌∙◌};
ghost use Rattle.kex_pipe.specs.Histories.{StageFed};
ghost use Rattle.kex_plan.specs.Plans.{teller_of};
ghost use Rattle.kex_stage.specs.StageLaws.{answering};
ghost use Rattle.kex_stage.specs.Stages.{Gives};
ghost use Rattle.kex_chunk_stage.specs.TableWorkers.{stage_plan, table_plan_of};

use crate::stage_desk::{StageDesk, unwrap_all, wrap_all};
use crate::table_worker::{TableBasis, TableWorker};
use kex_code::memory::Memory;
use kex_desks::chunk_worker::{ChunkWorker, Crew};
use kex_pipe::bounded::Bounded;
use kex_pipe::parted::Parted;
use kex_pipe::turn::{Fate, Stop, Turn};
use kex_plan::plan::Plan;
use std::alloc::Global;

/// A stage that hands out desks, which work on parts of what it reads next. It answers as a `Stage`
/// does, whatever they make and however many they are.
#[derive(Drop)]
pub struct ChunkStage<'p> {
    alloc: Global,
    within: Bounded<ChunkWorker<TableWorker<'p>>>,
}

// How many desks there are for `workers` workers: by one alone nothing is gained.
fn desks_for(workers: u32) -> u32
    requires { workers ≤ 64 }
    ensures { result ≤ 64 }
{
    if workers > 1 { workers } else { 0 }
}

impl<'p> ChunkStage<'p> {
    /// A stage that has read nothing, takes at most `max_input` bytes, and has a desk for each
    /// worker.
    pub fn new(
        alloc: Global,
        plan: &'p Plan,
        max_input: u64,
        workers: u32,
    ) -> Result<ChunkStage<'p>, Memory>
        requires workers { (1 ≤ workers) × (workers ≤ 64) }
        requires table { plan.now.table ≡ None → ⊥ }
        ensures plan { IfOk result (λ s. ⟦<ChunkStage<'p> as Turn>⟧.plan s
            ≡ record { machine = teller_of plan.now; limit = max_input }) }
        ensures stands { IfOk result (λ s. ⟦<ChunkStage<'p> as Turn>⟧.stands s None) }
        ensures usable { IfOk result (λ s. IsTrue (⟦<ChunkStage<'p> as Turn>⟧.is_usable s)) }
    {
        let Some(basis) = TableBasis::of(plan) else {
            // The plan has a table, so this doesn't come.
            return Err(Memory);
        };
        let crew = Crew {
            basis,
            desks: desks_for(workers),
        };
        let within = Bounded::new(alloc, crew, max_input)?;
        Ok(ChunkStage { alloc, within })
    }

    /// How many parts it has taken over from its desks.
    pub fn taken(&self) -> u64
        ensures { result ≡ self.now.within.worker.taken }
    {
        self.within.worker().taken()
    }
}

impl<'p> Turn for ChunkStage<'p> {
    ghost use Rattle.kex_stage.specs.Stages.{StagePlan};

    ghost Plan = { StagePlan };

    ghost plan = { λ s. stage_plan
        (⟦<Bounded<ChunkWorker<TableWorker<'p>>> as Turn>⟧.plan s.within) };

    ghost gives = { λ p w e a. Gives p w e a };

    ghost stands = { λ s h.
        ⟦<Bounded<ChunkWorker<TableWorker<'p>>> as Turn>⟧.stands s.within h };

    ghost is_usable = { λ s.
        ⟦<Bounded<ChunkWorker<TableWorker<'p>>> as Turn>⟧.is_usable s.within };

    ghost stands_usable = { λ s h x. x.1 };

    ghost one = { λ p w e a b h k. (answering p.machine).one p.limit w e a b h k };

    ghost grows = { λ p w v e a b h k. (answering p.machine).grows p.limit w v e a b h k };

    ghost stays = { λ p w v e a b h k some.
        (answering p.machine).stays p.limit w v e a b h k some };

    ghost ends = { λ p w e a h. (answering p.machine).ends p.limit w e a h };

    fn usable(&self) -> bool {
        self.within.usable()
    }

    fn feed(&mut self, piece: &[u8], out: &mut Vec<u8>) -> Result<Fate, Memory> {
        self.within.feed(piece, out)
    }

    fn end(&mut self, out: &mut Vec<u8>) -> Result<Fate, Memory> {
        self.within.end(out)
    }

    fn stop(&self) -> Option<Stop> {
        self.within.stop()
    }
}

impl<'p> Parted<StageDesk<'p>> for ChunkStage<'p> {
    ghost owns = { λ s d. table_plan_of d.within ≡ table_plan_of s.within.worker.worker };

    fn hand_out(&mut self) -> Vec<StageDesk<'p>> {
        let desks = self.within.hand_out();
        match wrap_all(self.alloc, desks) {
            Ok(wrapped) => wrapped,
            // They are let go: a stage needs no desk.
            Err(Memory) => Vec::new(self.alloc),
        }
    }

    fn take_back(&mut self, desks: Vec<StageDesk<'p>>)
        requires own { All (λ d. table_plan_of d.within
            ≡ table_plan_of self.old.within.worker.worker) desks.items }
        requires few { vec_len desks ≤ 64 }
        ensures plan { ⟦<ChunkStage<'p> as Turn>⟧.plan self.new
            ≡ ⟦<ChunkStage<'p> as Turn>⟧.plan self.old }
        ensures usable { ⟦<ChunkStage<'p> as Turn>⟧.is_usable self.new
            ≡ ⟦<ChunkStage<'p> as Turn>⟧.is_usable self.old }
        ensures stands { (h : Option StageFed) → ⟦<ChunkStage<'p> as Turn>⟧.stands self.old h
            → ⟦<ChunkStage<'p> as Turn>⟧.stands self.new h }
    {
        if let Ok(bare) = unwrap_all(self.alloc, desks) {
            self.within.take_back(bare);
        }
    }

    ghost stays_own = { λ s a b e h. e ∙ h };
}
