//! A stage that copies what it reads, and wants memory after a number of calls.
ghost use Rattle.std.specs.Prelude.{◌≡◌, true, false, Bool, Option};
ghost use Rattle.std.proofs.Common.{sym, ◌∙◌};
ghost use Rattle.kex_pipe.specs.Copying.{copy_answer, Copies, copied-grows, copied-stays};
ghost use Rattle.kex_pipe.specs.Copying.{copied-ends};

use kex_code::memory::Memory;
use kex_pipe::turn::{Fate, Stop, Turn};

/// Copies what it reads, and wants memory after a number of calls.
#[derive(Drop)]
pub struct Copier {
    usable: bool,
    calls: u32,
}

impl Turn for Copier {
    ghost Plan = { Bool };

    ghost plan = { λ s. false };

    ghost gives = { λ p w e a. a ≡ copy_answer p w e };

    ghost stands = { λ s h. (s.usable ≡ true) × Copies false false h };

    ghost is_usable = { λ s. s.usable };

    ghost stands_usable = { λ s h st. st.0 };

    ghost one = { λ p w e a b ga gb. ga ∙ sym gb };

    ghost grows = { copied-grows };

    ghost stays = { copied-stays };

    ghost ends = { copied-ends };

    fn usable(&self) -> bool {
        self.usable
    }

    fn feed(&mut self, piece: &[u8], out: &mut Vec<u8>) -> Result<Fate, Memory> {
        self.usable = false;
        self.calls = self.calls.checked_sub(1).ok_or(Memory)?;
        out.extend_from_slice(piece)?;
        self.usable = true;
        Ok(Fate::On)
    }

    fn end(&mut self, _out: &mut Vec<u8>) -> Result<Fate, Memory> {
        self.usable = false;
        self.calls = self.calls.checked_sub(1).ok_or(Memory)?;
        self.usable = true;
        Ok(Fate::On)
    }

    fn stop(&self) -> Option<Stop> {
        None
    }
}

/// Wants memory after `calls` calls.
pub fn failing(calls: u32) -> Copier
    ensures { result.usable ≡ true }
{
    Copier {
        usable: true,
        calls,
    }
}

/// Never wants memory by itself.
pub fn copy() -> Copier
    ensures { result.usable ≡ true }
{
    failing(u32::MAX)
}
