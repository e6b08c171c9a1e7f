// Where a worker that goes by a table stands.

ghost use Rattle.std.specs.Prelude.{◌≡◌};
ghost use Rattle.kex_chunk_stage.specs.PlaceLaws.{alike, stopped};

use crate::table_worker::TableWorker;
use kex_action::actor::Actor;
use kex_code::memory::Memory;
use kex_desks::place::KnowsPlace;
use kex_pipe::worker::Worker;
use std::alloc::Global;

// What is held is noted if no register holds more bytes.
const MOST_HELD: usize = 4096;

/// A state of the table without registers, how many bytes were read, and where the actor stands.
#[derive(Drop)]
pub struct StagePlace<'p> {
    pub state: u32,
    pub read: u64,
    pub actor: Actor<'p>,
}

impl<'p> KnowsPlace for TableWorker<'p> {
    ghost use Rattle.std.proofs.Common.{◌∙◌, ap, sym};
    ghost use Rattle.kex_runner.specs.Places.{StandsAt};

    type Place = StagePlace<'p>;

    ghost fits = { λ s p. p.actor.machine ≡ s.actor.machine };

    ghost stands_at = { λ s p. StandsAt s.follower.runner p.state p.read × (s.actor ≡ p.actor) };

    fn another(&self, alloc: Global) -> Result<TableWorker<'p>, Memory> {
        let other = <TableWorker<'p> as Worker>::start(alloc, self.basis.twin())?;
        Ok(other)
    }

    fn some_place(&self, alloc: Global) -> Result<StagePlace<'p>, Memory> {
        let actor = self.basis.actor(alloc)?;
        Ok(StagePlace {
            state: 0,
            read: 0,
            actor,
        })
    }

    fn note(&self, place: &mut StagePlace<'p>) -> Result<bool, Memory> {
        let runner = &self.follower.runner;
        let state = runner.state();
        let read = runner.read();
        if !runner.stands_at(state, read) {
            return Ok(false);
        }
        if !self.actor.usable() || !self.actor.is_light(MOST_HELD) {
            return Ok(false);
        }
        place.actor.stand_like(&self.actor)?;
        place.state = state;
        place.read = read;
        Ok(true)
    }

    fn begin_at(&mut self, place: &StagePlace<'p>, read: u64) -> Result<(), Memory> {
        if !self.follower.runner.usable() || !place.actor.usable() {
            return Err(Memory);
        }
        if !self.follower.runner.is_bare(place.state) {
            return Err(Memory);
        }
        let follower = &mut self.follower;
        follower.runner.restart(place.state, read);
        self.actor.stand_like(&place.actor)
    }

    fn is_at(&self, place: &StagePlace<'p>) -> bool {
        self.follower.runner.stands_at(place.state, place.read) && self.actor.is_same(&place.actor)
    }

    fn count(&self) -> u64 {
        self.follower.runner.read()
    }

    ghost fits_all = { λ a b p same h. h ∙ sym (ap (λ m. m.machine) same) };

    ghost alike = { λ a b p same there here. alike a b p.state p.read p.actor same there here };

    ghost stopped = { λ m w v at text h. stopped m.telling m.machine w v at text h };
}
