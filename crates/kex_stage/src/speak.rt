// What the oracle tells is performed.

ghost use Rattle.std.specs.Prelude.{◌≡◌, IfErr, OnOk, IsTrue};
ghost use Rattle.kex_action.specs.Actors.{TookAll};
ghost use Rattle.kex_moves.specs.Speech.{RefusesCode};
ghost use Rattle.kex_stage.specs.declared.speak.StageFault.TheVariants as faults;

use kex_action::actor::Actor;
use kex_action::fault::ActFault;
use kex_code::memory::Memory;
use kex_code::symbol::Symbol;
use thiserror::Error;

/// Why an oracle and an actor don't go on.
#[derive(Clone, Copy, Debug, PartialEq, Eq, Drop, Error)]
pub enum StageFault {
    /// The actor refused a symbol that the oracle told. It refuses none where the two have
    /// followed a text that can go on: `RefusesNone`.
    #[error("the actor refused a symbol")]
    Refused,
    /// No contract says when this comes.
    #[error("out of memory")]
    Memory,
}

impl From<Memory> for StageFault {
    ghost use Rattle.std.specs.Prelude.{◌≡◌};
    ghost use Rattle.kex_stage.specs.declared.speak.StageFault.TheVariants as faults;

    ghost from_gives = { λ _ e. e ≡ faults.Memory };

    fn from(_: Memory) -> StageFault {
        StageFault::Memory
    }
}

/// Performs what the oracle told.
pub fn speak(actor: &mut Actor, symbols: &[Symbol], out: &mut Vec<u8>) -> Result<(), StageFault>
    requires { IsTrue actor.old.usable }
    ensures took { OnOk result
        (TookAll actor.old actor.new symbols.now out.old.items out.new.items) }
    ensures refused { IfErr result (λ fault. fault ≡ faults.Refused
        → RefusesCode actor.old symbols.now) }
    ensures machine { actor.new.machine ≡ actor.old.machine }
    ensures usable { OnOk result (IsTrue actor.new.usable) }
{
    match actor.take(symbols, out) {
        Ok(()) => Ok(()),
        Err(ActFault::NotACode(_)) => Err(StageFault::Refused),
        Err(ActFault::Memory) => Err(StageFault::Memory),
    }
}
