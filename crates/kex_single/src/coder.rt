// The code of a stage's input.

ghost use Rattle.std.specs.Prelude.{◌≡◌, ◌+◌, ◌<◌, ◌≤◌, ◌^◌, ◌&&◌, not, true, IfOk, IfSome};
ghost use Rattle.std.specs.Prelude.{None, IsTrue};
ghost use Rattle.kex_machine.specs.Answers.{HasRun, IsViableFor};
ghost use Rattle.kex_pipe.specs.Working.{ClosesParsed, SaysViable};
ghost use Rattle.kex_sst.specs.Machines.{IsTableOf};
ghost use Rattle.kex_single.specs.Singles.{MachineCodeAnswers, MeansRunCode, SaysSharedCode};
ghost use Rattle.kex_single.specs.Standing.{place_of};
ghost use Rattle.kex_single.specs.Told.{CodeFollows, has_ended, is_usable, read_by};
ghost use Rattle.kex_single.specs.CodeLaws.{answering};

use crate::code_oracle::{CodeBasis, CodeOracle};
use kex_code::memory::Memory;
use kex_machine::Trimmed;
use kex_pipe::bounded::Bounded;
use kex_pipe::turn::{Fate, Stop, Turn};
use kex_pipe::worker::Worker;
use kex_sst::table::Table;
use std::alloc::Global;

// The number in all bytes of a byte of the piece, which comes after `before` bytes.
fn place_of(bad: Option<usize>, before: u64, length: usize) -> Option<u64>
    requires fits { before + length < 2 ^ 64 }
    requires within { IfSome bad (λ k. k ≤ length) }
    ensures { result ≡ place_of bad before }
{
    match bad {
        Some(k) => Some(before + k as u64),
        None => None,
    }
}

/// Writes the text of the code: what the surviving paths agree on as soon as it is agreed, and at
/// the end the rest of the greedy code.
#[derive(Drop)]
pub struct CodeWorker<'m> {
    alloc: Global,
    machine: &'m Trimmed,
    oracle: CodeOracle<'m>,
    count: u64,
    ghost counts: { read_by oracle ≤ count },
}

impl<'m> Worker for CodeWorker<'m> {
    ghost use Rattle.kex_machine.specs.Nodes.{Graph};

    type Basis = CodeBasis<'m>;

    ghost Machine = { Graph };

    ghost machine_in = { λ basis. basis };

    ghost machine = { λ s. s.machine.now };

    ghost says = { λ g w at text.
        SaysViable (IsViableFor g) (SaysSharedCode g) (HasRun g) (MeansRunCode g) w at text };

    ghost closes = { λ g w parsed text.
        ClosesParsed (IsViableFor g) (SaysSharedCode g) (HasRun g) (MeansRunCode g) w parsed text };

    ghost gives = { λ g n w e a. MachineCodeAnswers g n w e a };

    ghost follows = { λ s w text. CodeFollows s.machine.now s.oracle s.count w text };

    ghost is_ready = { λ s. is_usable s.oracle && not (has_ended s.oracle) };

    ghost counted = { λ s. s.count };

    ghost may_want = { true };

    ghost answers = { λ g. answering g };

    fn start(alloc: Global, basis: CodeBasis<'m>) -> Result<CodeWorker<'m>, Memory> {
        let machine = basis.machine();
        let oracle = CodeOracle::new(alloc, basis)?;
        Ok(CodeWorker {
            alloc,
            machine,
            oracle,
            count: 0,
        })
    }

    fn go_on(&mut self, piece: &[u8], out: &mut Vec<u8>) -> Result<Option<u64>, Memory> {
        let before = self.count;
        self.count += piece.len() as u64;
        let bad = self.oracle.go_on(piece, out)?;
        Ok(place_of(bad, before, piece.len()))
    }

    fn finish(&mut self, out: &mut Vec<u8>) -> Result<bool, Memory> {
        self.oracle.finish(self.alloc, out)
    }
}

/// The code of one stage's input: what the surviving paths agree on goes out as soon as it is
/// agreed, and at the end the rest of the greedy code.
#[derive(Drop)]
pub struct Coder<'m> {
    within: Bounded<CodeWorker<'m>>,
}

impl<'m> Coder<'m> {
    /// A coder that has read nothing, and takes at most `max_input` bytes. It goes by the machine's
    /// table where it is given one.
    pub fn new(
        alloc: Global,
        machine: &'m Trimmed,
        table: Option<&'m Table>,
        max_input: u64,
    ) -> Result<Coder<'m>, Memory>
        requires { IfSome table (λ t. IsTableOf machine.now t.now) }
        ensures plan { IfOk result (λ s. ⟦<Coder<'m> as Turn>⟧.plan s
            ≡ record { machine = machine.now; limit = max_input }) }
        ensures stands { IfOk result (λ s. ⟦<Coder<'m> as Turn>⟧.stands s None) }
        ensures usable { IfOk result (λ s. IsTrue (⟦<Coder<'m> as Turn>⟧.is_usable s)) }
    {
        let basis = CodeBasis::new(machine, table);
        let within = Bounded::new(alloc, basis, max_input)?;
        Ok(Coder { within })
    }
}

impl<'m> Turn for Coder<'m> {
    ghost use Rattle.kex_sst.specs.Machines.{IsTableOf};
    ghost use Rattle.kex_single.specs.Singles.{Single};

    ghost Plan = { Single };

    ghost plan = { λ s. ⟦<Bounded<CodeWorker<'m>> as Turn>⟧.plan s.within };

    ghost gives = { λ p w e a. MachineCodeAnswers p.machine p.limit w e a };

    ghost stands = { λ s h. ⟦<Bounded<CodeWorker<'m>> as Turn>⟧.stands s.within h };

    ghost is_usable = { λ s. ⟦<Bounded<CodeWorker<'m>> as Turn>⟧.is_usable s.within };

    ghost stands_usable = { λ s h x. x.1 };

    ghost one = { λ p w e a b h k. (answering p.machine).one p.limit w e a b h k };

    ghost grows = { λ p w v e a b h k. (answering p.machine).grows p.limit w v e a b h k };

    ghost stays = { λ p w v e a b h k some.
        (answering p.machine).stays p.limit w v e a b h k some };

    ghost ends = { λ p w e a h. (answering p.machine).ends p.limit w e a h };

    fn usable(&self) -> bool {
        self.within.usable()
    }

    fn feed(&mut self, piece: &[u8], out: &mut Vec<u8>) -> Result<Fate, Memory> {
        self.within.feed(piece, out)
    }

    fn end(&mut self, out: &mut Vec<u8>) -> Result<Fate, Memory> {
        self.within.end(out)
    }

    fn stop(&self) -> Option<Stop> {
        self.within.stop()
    }
}
