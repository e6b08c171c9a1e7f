// What the text of a code means.

ghost use Rattle.std.specs.Prelude.{◌≡◌, ◌≤◌, ◌<◌, ◌+◌, ◌-◌, ◌^◌, ◌∷◌, ◌&&◌, []};
ghost use Rattle.std.specs.Prelude.{true, IfOk, IfSome, IsTrue, IsOk, ◌↔◌, min, take, None};
ghost use Rattle.std.specs.Prelude.{length};
ghost use Rattle.kex_code.specs.declared.symbol.Symbol.{Symbol};
ghost use Rattle.kex_code.specs.Texts.{text_of};
ghost use Rattle.kex_action.specs.Actors.{BeginsRun, IsWholeCode};
ghost use Rattle.kex_single.specs.Plays.{MachineActAnswers, ClosesPlayed, SaysPlayed, WritesRun};
ghost use Rattle.kex_single.specs.PlayedLaws.{answering};
ghost use Rattle.kex_single.specs.Playing.{BadAt, IsWholeOf, PlayFollows, RefusesSymbol, TakesText};

use kex_action::actor::Actor;
use kex_action::fault::ActFault;
use kex_code::code::Code;
use kex_code::memory::Memory;
use kex_code::reader::{CodeError, CodeReader};
use kex_code::symbol::Symbol;
use kex_machine::Trimmed;
use kex_pipe::bounded::Bounded;
use kex_pipe::turn::{Fate, Stop, Turn};
use kex_pipe::worker::Worker;
use std::alloc::Global;

// How many bytes the text of a symbol has.
fn size_of(symbol: Symbol) -> u64
    ensures { result ≡ length (text_of (symbol ∷ [])) }
{
    match symbol {
        Symbol::L | Symbol::R => 1,
        Symbol::Byte(_) => 3,
    }
}

// How many bytes the text of some symbols has, on from a count that stays at its last value.
fn size_on(count: u64, symbols: &[Symbol]) -> u64
    ensures { result ≡ min (count + length (text_of symbols.now)) (2 ^ 64 - 1) }
{
    let mut total = count;
    for symbol in symbols {
        total = total.saturating_add(size_of(*symbol));
    }
    total
}

// Reads a piece of the text, up to the byte with which no code's text begins, and tells the number
// of that byte.
fn read(reader: &mut CodeReader, piece: &[u8], code: &mut Code) -> Result<Option<u64>, Memory>
    requires usable { IsTrue reader.old.usable }
    requires fits { reader.old.good + length piece.now < 2 ^ 64 }
    ensures reads { IfOk result (λ bad.
        TakesText bad reader.old reader.new piece.now code.old code.new) }
    ensures count { reader.new.good ≤ reader.old.good + length piece.now }
    ensures usable { IsTrue reader.new.usable ↔ IsOk result }
{
    match reader.feed(piece, code) {
        Ok(()) => Ok(None),
        Err(CodeError::Bad(fault)) => Ok(Some(fault.at)),
        Err(CodeError::Memory) => Err(Memory),
    }
}

// Performs symbols, up to the one with which no tree's code begins, and tells the number of that
// symbol.
fn perform(actor: &mut Actor, symbols: &[Symbol], out: &mut Vec<u8>) -> Result<Option<u64>, Memory>
    requires { IsTrue actor.old.usable }
    ensures performs { IfOk result (λ refused.
        RefusesSymbol refused actor.old actor.new symbols.now out.old.items out.new.items) }
    ensures within { IfOk result (λ refused. IfSome refused (λ i. i < length symbols.now)) }
    ensures machine { actor.new.machine ≡ actor.old.machine }
    ensures usable { IsTrue actor.new.usable ↔ IsOk result }
{
    match actor.take(symbols, out) {
        Ok(()) => Ok(None),
        Err(ActFault::NotACode(at)) => Ok(Some(at)),
        Err(ActFault::Memory) => Err(Memory),
    }
}

// Where it is bad: at the first byte of the symbol that is refused, or else at the byte that is.
fn bad_at(refused: Option<u64>, bad: Option<u64>, size: u64, symbols: &[Symbol]) -> Option<u64>
    requires { IfSome refused (λ i. i < length symbols.now) }
    ensures { BadAt refused bad size symbols.now result }
{
    match refused {
        Some(number) => Some(size_on(size, &symbols[..number as usize])),
        None => bad,
    }
}

/// Writes what the text of a code means: what it says of the symbols that are whole goes out as
/// soon as they are.
///
/// It is stopped at the first byte of the next whole symbol with which the code begins no tree's;
/// or else at the byte with which the text begins no code's.
#[derive(Drop)]
pub struct PlayWorker<'m> {
    alloc: Global,
    reader: CodeReader,
    actor: Actor<'m>,
    size: u64,
}

impl<'m> PlayWorker<'m> {
    // Whether the text is that of a tree's whole code.
    fn is_whole(&self) -> bool
        requires reader { IsTrue self.now.reader.usable }
        requires actor { IsTrue self.now.actor.usable }
        ensures { IsWholeOf self.now.reader self.now.actor result }
    {
        self.reader.whole() && self.actor.at_end()
    }
}

impl<'m> Worker for PlayWorker<'m> {
    ghost use Rattle.kex_machine.specs.Nodes.{Graph};

    type Basis = &'m Trimmed;

    ghost Machine = { Graph };

    ghost machine_in = { λ machine. machine.now };

    ghost machine = { λ s. s.actor.machine };

    ghost says = { λ g u at text.
        SaysPlayed (BeginsRun g) (IsWholeCode g) (WritesRun g) u at text };

    ghost closes = { λ g u parsed text.
        ClosesPlayed (BeginsRun g) (IsWholeCode g) (WritesRun g) u parsed text };

    ghost gives = { λ g n w e a. MachineActAnswers g n w e a };

    ghost follows = { λ s w text. PlayFollows s.actor.machine s.reader s.actor s.size w text };

    ghost is_ready = { λ s. s.reader.usable && s.actor.usable };

    ghost counted = { λ s. s.reader.good };

    ghost may_want = { true };

    ghost answers = { λ g. answering g };

    fn start(alloc: Global, basis: &'m Trimmed) -> Result<PlayWorker<'m>, Memory> {
        let nodes = basis.nodes();
        prove!((basis.start() as usize) < nodes.len());
        let actor = Actor::new(alloc, basis)?;
        Ok(PlayWorker {
            alloc,
            reader: CodeReader::new(),
            actor,
            size: 0,
        })
    }

    fn go_on(&mut self, piece: &[u8], out: &mut Vec<u8>) -> Result<Option<u64>, Memory> {
        let mut code = Code::new(self.alloc);
        let bad = read(&mut self.reader, piece, &mut code)?;
        let refused = perform(&mut self.actor, code.as_slice(), out)?;
        let at = bad_at(refused, bad, self.size, code.as_slice());
        self.size = size_on(self.size, code.as_slice());
        Ok(at)
    }

    fn finish(&mut self, out: &mut Vec<u8>) -> Result<bool, Memory> {
        perform(&mut self.actor, &[], out)?;
        Ok(self.is_whole())
    }
}

/// What the text of a code means in one stage: what it says of the symbols that are whole goes out
/// as soon as they are.
#[derive(Drop)]
pub struct Player<'m> {
    within: Bounded<PlayWorker<'m>>,
}

impl<'m> Player<'m> {
    /// A player that has read nothing, and takes at most `max_input` bytes of text.
    pub fn new(alloc: Global, machine: &'m Trimmed, max_input: u64) -> Result<Player<'m>, Memory>
        ensures plan { IfOk result (λ s. ⟦<Player<'m> as Turn>⟧.plan s
            ≡ record { machine = machine.now; limit = max_input }) }
        ensures stands { IfOk result (λ s. ⟦<Player<'m> as Turn>⟧.stands s None) }
        ensures usable { IfOk result (λ s. IsTrue (⟦<Player<'m> as Turn>⟧.is_usable s)) }
    {
        let within = Bounded::new(alloc, machine, max_input)?;
        Ok(Player { within })
    }
}

impl<'m> Turn for Player<'m> {
    ghost use Rattle.kex_single.specs.Singles.{Single};

    ghost Plan = { Single };

    ghost plan = { λ s. ⟦<Bounded<PlayWorker<'m>> as Turn>⟧.plan s.within };

    ghost gives = { λ p w e a. MachineActAnswers p.machine p.limit w e a };

    ghost stands = { λ s h. ⟦<Bounded<PlayWorker<'m>> as Turn>⟧.stands s.within h };

    ghost is_usable = { λ s. ⟦<Bounded<PlayWorker<'m>> as Turn>⟧.is_usable s.within };

    ghost stands_usable = { λ s h x. x.1 };

    ghost one = { λ p w e a b h k. (answering p.machine).one p.limit w e a b h k };

    ghost grows = { λ p w v e a b h k. (answering p.machine).grows p.limit w v e a b h k };

    ghost stays = { λ p w v e a b h k some.
        (answering p.machine).stays p.limit w v e a b h k some };

    ghost ends = { λ p w e a h. (answering p.machine).ends p.limit w e a h };

    fn usable(&self) -> bool {
        self.within.usable()
    }

    fn feed(&mut self, piece: &[u8], out: &mut Vec<u8>) -> Result<Fate, Memory> {
        self.within.feed(piece, out)
    }

    fn end(&mut self, out: &mut Vec<u8>) -> Result<Fate, Memory> {
        self.within.end(out)
    }

    fn stop(&self) -> Option<Stop> {
        self.within.stop()
    }
}
