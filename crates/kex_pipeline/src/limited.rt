// Stages that have a limit.
ghost use Rattle.std.specs.Prelude.{◌≡◌, ◌<◌, List, ℕ, IsSome, false, length};
ghost use Rattle.std.proofs.Common.{ap};
ghost use Rattle.kex_model.specs.Answers.{Answer};
ghost use Rattle.kex_single.specs.CodeLaws as code;
ghost use Rattle.kex_single.specs.PlayedLaws as act;
ghost use Rattle.kex_single.specs.TestLaws as test;
ghost use Rattle.kex_stage.specs.StageLaws.{answering};

use crate::plain::{NoDesk, Plain};
use kex_chunk_stage::chunk_stage::ChunkStage;
use kex_chunk_stage::stage_desk::StageDesk;
use kex_pipe::parted::{PartDesk, Parted};
use kex_pipe::turn::Turn;
use kex_single::{Coder, Player, Tester};
use kex_stage::stage::Stage;

/// A stage with a limit to its input, past which it stops.
pub trait Limited: Parted<<Self as Limited>::Desk> {
    /// What works on parts of what it is to read, if anything does.
    type Desk: PartDesk + Drop + Send;

    ghost limit: { Self → ℕ };

    /// Stages that work by the same have the same limit.
    ghost by_plan: { (s t : Self) → Self.plan s ≡ Self.plan t → limit s ≡ limit t };

    ghost past_limit: { (s : Self) (w : List ℕ) (a : Answer) → Self.gives (Self.plan s) w false a
        → limit s < length w → IsSome a.stop };
}

impl<'p> Limited for Plain<Stage<'p>> {
    type Desk = NoDesk;

    ghost limit = { λ s. (⟦<Stage<'p> as Turn>⟧.plan s.stage).limit };

    ghost by_plan = { λ s t e. ap (λ p. p.limit) e };

    ghost past_limit = { λ s w a g lt.
        (answering (⟦<Stage<'p> as Turn>⟧.plan s.stage).machine).past
        (⟦<Stage<'p> as Turn>⟧.plan s.stage).limit w false a g lt };
}

impl<'p> Limited for ChunkStage<'p> {
    type Desk = StageDesk<'p>;

    ghost limit = { λ s. (⟦<ChunkStage<'p> as Turn>⟧.plan s).limit };

    ghost by_plan = { λ s t e. ap (λ p. p.limit) e };

    ghost past_limit = { λ s w a g lt. (answering (⟦<ChunkStage<'p> as Turn>⟧.plan s).machine).past
        (⟦<ChunkStage<'p> as Turn>⟧.plan s).limit w false a g lt };
}

impl<'m> Limited for Plain<Coder<'m>> {
    type Desk = NoDesk;

    ghost limit = { λ s. (⟦<Coder<'m> as Turn>⟧.plan s.stage).limit };

    ghost by_plan = { λ s t e. ap (λ p. p.limit) e };

    ghost past_limit = { λ s w a g lt. code.past (⟦<Coder<'m> as Turn>⟧.plan s.stage).machine
        (⟦<Coder<'m> as Turn>⟧.plan s.stage).limit w a g lt };
}

impl<'m> Limited for Plain<Player<'m>> {
    type Desk = NoDesk;

    ghost limit = { λ s. (⟦<Player<'m> as Turn>⟧.plan s.stage).limit };

    ghost by_plan = { λ s t e. ap (λ p. p.limit) e };

    ghost past_limit = { λ s w a g lt. act.past (⟦<Player<'m> as Turn>⟧.plan s.stage).machine
        (⟦<Player<'m> as Turn>⟧.plan s.stage).limit w a g lt };
}

impl<'m> Limited for Plain<Tester<'m>> {
    type Desk = NoDesk;

    ghost limit = { λ s. (⟦<Tester<'m> as Turn>⟧.plan s.stage).limit };

    ghost by_plan = { λ s t e. ap (λ p. p.limit) e };

    ghost past_limit = { λ s w a g lt. test.past (⟦<Tester<'m> as Turn>⟧.plan s.stage).machine
        (⟦<Tester<'m> as Turn>⟧.plan s.stage).limit w a g lt };
}
