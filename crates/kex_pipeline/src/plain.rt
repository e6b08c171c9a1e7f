// Stages without desks.
ghost use Rattle.std.specs.Prelude.{◌≡◌, ◌≤◌, Option, All, vec_len};
ghost use Rattle.kex_pipe.specs.Histories.{StageFed};

use kex_code::memory::Memory;
use kex_pipe::parted::{PartDesk, Parted};
use kex_pipe::turn::{Fate, Stop, Turn};
use std::alloc::Global;

/// What works for a stage that has no desks.
#[derive(Drop)]
pub struct NoDesk;

impl PartDesk for NoDesk {
    ghost Kind = { Unit {0} };

    ghost kind = { λ d. tt };

    fn work(&mut self, _part: u32, _of: u32, _piece: &[u8]) {}
}

/// A stage that hands out no desks.
#[derive(Drop)]
pub struct Plain<T: Turn> {
    pub alloc: Global,
    pub stage: T,
}

impl<T: Turn> Turn for Plain<T> {
    ghost Plan = { T.Plan };

    ghost plan = { λ s. T.plan s.stage };

    ghost gives = { λ p w e a. T.gives p w e a };

    ghost stands = { λ s h. T.stands s.stage h };

    ghost is_usable = { λ s. T.is_usable s.stage };

    ghost stands_usable = { λ s h x. T.stands_usable s.stage h x };

    ghost one = { λ p w e a b h k. T.one p w e a b h k };

    ghost grows = { λ p w v e a b h k. T.grows p w v e a b h k };

    ghost stays = { λ p w v e a b h k some. T.stays p w v e a b h k some };

    ghost ends = { λ p w e a h. T.ends p w e a h };

    fn usable(&self) -> bool {
        self.stage.usable()
    }

    fn feed(&mut self, piece: &[u8], out: &mut Vec<u8>) -> Result<Fate, Memory> {
        self.stage.feed(piece, out)
    }

    fn end(&mut self, out: &mut Vec<u8>) -> Result<Fate, Memory> {
        self.stage.end(out)
    }

    fn stop(&self) -> Option<Stop> {
        self.stage.stop()
    }
}

impl<T: Turn> Parted<NoDesk> for Plain<T> {
    ghost owns = { λ s d. Unit {0} };

    fn hand_out(&mut self) -> Vec<NoDesk> {
        Vec::new(self.alloc)
    }

    fn take_back(&mut self, _desks: Vec<NoDesk>)
        requires own { All (λ d. Unit {0}) _desks.items }
        requires few { vec_len _desks ≤ 64 }
        ensures plan { ⟦<Plain<T> as Turn>⟧.plan self.new ≡ ⟦<Plain<T> as Turn>⟧.plan self.old }
        ensures usable { ⟦<Plain<T> as Turn>⟧.is_usable self.new
            ≡ ⟦<Plain<T> as Turn>⟧.is_usable self.old }
        ensures stands { (h : Option StageFed) → ⟦<Plain<T> as Turn>⟧.stands self.old h
            → ⟦<Plain<T> as Turn>⟧.stands self.new h }
    {}

    ghost stays_own = { λ s a b e h. tt };
}
