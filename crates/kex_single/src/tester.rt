// Whether a stage's input has a parse.

ghost use Rattle.std.specs.Prelude.{◌≡◌, [], true, false, None, IfOk, IsTrue};
ghost use Rattle.kex_machine.specs.Answers.{HasRun, IsViableFor};
ghost use Rattle.kex_frontier.specs.Matchers.{WasFed};
ghost use Rattle.kex_pipe.specs.Working.{ClosesParsed, SaysViable};
ghost use Rattle.kex_single.specs.Singles.{HasRunAlone, SaysNoText, MachineTestAnswers};
ghost use Rattle.kex_single.specs.Standing.{dead_at};
ghost use Rattle.kex_single.specs.TestLaws.{answering};

use kex_code::memory::Memory;
use kex_frontier::matcher::{Matched, Matcher};
use kex_machine::Trimmed;
use kex_pipe::bounded::Bounded;
use kex_pipe::turn::{Fate, Stop, Turn};
use kex_pipe::worker::Worker;
use std::alloc::Global;

// The number of the first byte with which no parse begins.
fn dead_at(matched: Matched) -> Option<u64>
    ensures { result ≡ dead_at matched }
{
    match matched {
        Matched::On => None,
        Matched::Dead(at) => Some(at),
    }
}

/// Tells whether the bytes have a parse. It writes nothing, and takes no memory once it is made.
#[derive(Drop)]
pub struct TestWorker<'m> {
    matcher: Matcher<'m>,
}

impl<'m> Worker for TestWorker<'m> {
    ghost use Rattle.kex_machine.specs.Nodes.{Graph};

    type Basis = &'m Trimmed;

    ghost Machine = { Graph };

    ghost machine_in = { λ machine. machine.now };

    ghost machine = { λ s. s.matcher.machine };

    ghost says = { λ g w at text.
        SaysViable (IsViableFor g) (SaysNoText g) (HasRun g) (HasRunAlone g) w at text };

    ghost closes = { λ g w parsed text.
        ClosesParsed (IsViableFor g) (SaysNoText g) (HasRun g) (HasRunAlone g) w parsed text };

    ghost gives = { λ g n w e a. MachineTestAnswers g n w e a };

    ghost follows = { λ s w text. WasFed s.matcher w × IsViableFor s.matcher.machine w
        × (text ≡ []) };

    ghost is_ready = { λ s. true };

    ghost counted = { λ s. s.matcher.good };

    ghost may_want = { false };

    ghost answers = { λ g. answering g };

    fn start(alloc: Global, basis: &'m Trimmed) -> Result<TestWorker<'m>, Memory> {
        let matcher = Matcher::new(alloc, basis)?;
        Ok(TestWorker { matcher })
    }

    fn go_on(&mut self, piece: &[u8], _out: &mut Vec<u8>) -> Result<Option<u64>, Memory> {
        Ok(dead_at(self.matcher.feed(piece)))
    }

    fn finish(&mut self, _out: &mut Vec<u8>) -> Result<bool, Memory> {
        Ok(self.matcher.end())
    }
}

/// Whether one stage's input has a parse. It writes nothing, and takes no memory once it is made.
#[derive(Drop)]
pub struct Tester<'m> {
    within: Bounded<TestWorker<'m>>,
}

impl<'m> Tester<'m> {
    /// A tester that has read nothing, and takes at most `max_input` bytes.
    pub fn new(alloc: Global, machine: &'m Trimmed, max_input: u64) -> Result<Tester<'m>, Memory>
        ensures plan { IfOk result (λ s. ⟦<Tester<'m> as Turn>⟧.plan s
            ≡ record { machine = machine.now; limit = max_input }) }
        ensures stands { IfOk result (λ s. ⟦<Tester<'m> as Turn>⟧.stands s None) }
        ensures usable { IfOk result (λ s. IsTrue (⟦<Tester<'m> as Turn>⟧.is_usable s)) }
    {
        let within = Bounded::new(alloc, machine, max_input)?;
        Ok(Tester { within })
    }
}

impl<'m> Turn for Tester<'m> {
    ghost use Rattle.kex_single.specs.Singles.{Single};

    ghost Plan = { Single };

    ghost plan = { λ s. ⟦<Bounded<TestWorker<'m>> as Turn>⟧.plan s.within };

    ghost gives = { λ p w e a. MachineTestAnswers p.machine p.limit w e a };

    ghost stands = { λ s h. ⟦<Bounded<TestWorker<'m>> as Turn>⟧.stands s.within h };

    ghost is_usable = { λ s. ⟦<Bounded<TestWorker<'m>> as Turn>⟧.is_usable s.within };

    ghost stands_usable = { λ s h x. x.1 };

    ghost one = { λ p w e a b h k. (answering p.machine).one p.limit w e a b h k };

    ghost grows = { λ p w v e a b h k. (answering p.machine).grows p.limit w v e a b h k };

    ghost stays = { λ p w v e a b h k some.
        (answering p.machine).stays p.limit w v e a b h k some };

    ghost ends = { λ p w e a h. (answering p.machine).ends p.limit w e a h };

    fn usable(&self) -> bool {
        self.within.usable()
    }

    fn feed(&mut self, piece: &[u8], out: &mut Vec<u8>) -> Result<Fate, Memory> {
        self.within.feed(piece, out)
    }

    fn end(&mut self, out: &mut Vec<u8>) -> Result<Fate, Memory> {
        self.within.end(out)
    }

    fn stop(&self) -> Option<Stop> {
        self.within.stop()
    }
}
