// The hot loop of a stage over a table.

ghost use Rattle.std.specs.Prelude.{◌≡◌, ◌≤◌, ◌^◌, false, IsTrue, IfOk, OnOk, length, take};
ghost use Rattle.kex_moves.specs.Along.{EndsOn, RunsOn, IsBareState};

pub use crate::along::Ran;
use crate::along::{Logbook, Primer, ROOM, run_at};
use crate::edges::{By, Edges};
use crate::last::end_at;
use crate::leap::LONGEST;
use kex_action::actor::Actor;
use kex_action::sheet::Sheet;
use kex_code::memory::Memory;
use kex_leaps::leaps::Leaps;
use kex_machine::Trimmed;
use kex_sst::table::Table;
use std::alloc::Global;
use std::marker::Model;

/// What is learnt of a table and a machine, to go along a piece of input with both at once: where a
/// state's update is known to say a code alone, without registers, and what the actor does with it.
/// It is learnt when it is first met.
///
/// Once a call has answered `Memory` the actor may only be dropped, and no later call takes a byte.
#[derive(Drop)]
pub struct Moves<'p> {
    primer: Primer<'p>,
    book: Logbook<'p>,
    usable: bool,
}

impl<'p> Model for Moves<'p> {
    ghost use Rattle.std.specs.Prelude.{◌≡◌, IsTrue, length};
    ghost use Rattle.kex_moves.specs.Known.{IsKnown};
    ghost use Rattle.kex_action.specs.Sheets.{IsBlank};
    ghost use Rattle.kex_moves.specs.Along.{Over};
    ghost use Rattle.kex_moves.specs.declared.along.TheConstants.{ROOM};

    ghost Value = { Over };

    ghost view = { λ m. record { table = m.primer.table.now; machine = m.primer.machine.now } };

    ghost invariant = { λ m. (m.book.leaps.table ≡ m.primer.table.now)
        × (m.book.leaps.machine ≡ m.primer.machine.now) × (IsTrue m.usable
        → IsKnown m.primer.table.now m.primer.machine.now m.book.edges × IsBlank m.book.sheet
        × (length m.book.sheet.bytes.items ≡ ROOM)) };
}

// The classes of all bytes.
fn classes_of(table: &Table) -> [u8; 256]
    ensures { result ≡ table.now.classes }
{
    let partition = table.partition();
    let mut classes = [0; 256];
    for byte in 0..256_usize {
        classes[byte] = partition.class_of(byte as u8);
    }
    classes
}

/// The exponent of the least power of two that is no less than a count.
pub fn shift_of(count: u16) -> u32
    requires { count ≤ 256 }
    ensures within { result ≤ 8 }
    ensures enough { count ≤ 2 ^ result }
{
    let mut shift = 0;
    while shift < 8 && (1_u16 << shift) < count {
        shift += 1;
    }
    shift
}

impl<'p> Moves<'p> {
    /// Nothing is learnt.
    pub fn new(alloc: Global, table: &'p Table, machine: &'p Trimmed) -> Result<Moves<'p>, Memory>
        ensures { IfOk result (λ m. m ≡ record { table = table.now; machine = machine.now }) }
    {
        let shift = shift_of(table.partition().classes());
        let states = table.states().len();
        let edges = Edges::new(alloc, classes_of(table), shift, By::State, states)?;
        let leaps = Leaps::new(alloc, table, machine)?;
        let sheet = Sheet::new(alloc, ROOM)?;
        Ok(Moves {
            primer: Primer {
                alloc,
                table,
                machine,
            },
            book: Logbook {
                edges,
                leaps,
                sheet,
                reach: LONGEST,
            },
            usable: true,
        })
    }

    /// Goes on from a state over a piece, with the actor, up to a byte at which a plain step is to
    /// be taken, or before it. Nothing is taken where the actor doesn't rest.
    pub fn run(
        &mut self,
        state: u32,
        actor: &mut Actor<'p>,
        piece: &[u8],
        out: &mut Vec<u8>,
    ) -> Result<Ran, Memory>
        requires usable { IsTrue actor.old.usable }
        requires machine { actor.old.machine ≡ self.old.machine }
        ensures within { IfOk result (λ ran. ran.count ≤ length piece.now) }
        ensures runs { IfOk result (λ ran. RunsOn self.old.table actor.old actor.new state ran.state
            (take ran.count piece.now) out.old.items out.new.items) }
        ensures bare { IfOk result (λ ran. IsBareState self.old.table state
            → IsBareState self.old.table ran.state) }
        ensures same { self.new ≡ self.old }
        ensures machine { actor.new.machine ≡ actor.old.machine }
        ensures usable { OnOk result (IsTrue actor.new.usable) }
    {
        self.run_past(0, state, actor, piece, out)
    }

    /// The same, where the first bytes of the piece are known to be held back. A leap is looked for
    /// that goes past these, however many they are.
    pub fn run_past(
        &mut self,
        held: usize,
        state: u32,
        actor: &mut Actor<'p>,
        piece: &[u8],
        out: &mut Vec<u8>,
    ) -> Result<Ran, Memory>
        requires usable { IsTrue actor.old.usable }
        requires machine { actor.old.machine ≡ self.old.machine }
        ensures within { IfOk result (λ ran. ran.count ≤ length piece.now) }
        ensures runs { IfOk result (λ ran. RunsOn self.old.table actor.old actor.new state ran.state
            (take ran.count piece.now) out.old.items out.new.items) }
        ensures bare { IfOk result (λ ran. IsBareState self.old.table state
            → IsBareState self.old.table ran.state) }
        ensures same { self.new ≡ self.old }
        ensures machine { actor.new.machine ≡ actor.old.machine }
        ensures usable { OnOk result (IsTrue actor.new.usable) }
    {
        if !self.usable {
            return Ok(Ran { count: 0, state });
        }
        self.usable = false;
        self.book.reach = held.saturating_add(LONGEST);
        let ran = run_at(&self.primer, &mut self.book, state, actor, piece, out)?;
        self.usable = true;
        Ok(ran)
    }

    /// Performs what is said of a text from a state without registers on, and of its end. Nothing
    /// is done, and the answer is `false`, where the text can't end there, and where that can't be
    /// learnt.
    pub fn end(
        &mut self,
        state: u32,
        actor: &mut Actor<'p>,
        text: &[u8],
        out: &mut Vec<u8>,
    ) -> Result<bool, Memory>
        requires usable { IsTrue actor.old.usable }
        requires machine { actor.old.machine ≡ self.old.machine }
        ensures ends { IfOk result (λ done. IsTrue done → EndsOn self.old.table actor.old actor.new
            state text.now out.old.items out.new.items) }
        ensures none { IfOk result (λ done. done ≡ false → (actor.new ≡ actor.old)
            × (out.new.items ≡ out.old.items)) }
        ensures same { self.new ≡ self.old }
        ensures machine { actor.new.machine ≡ actor.old.machine }
        ensures usable { OnOk result (IsTrue actor.new.usable) }
    {
        let states = self.primer.table.states().len();
        let nodes = self.primer.machine.nodes().len();
        if !self.usable || state as usize >= states || actor.node() as usize >= nodes {
            return Ok(false);
        }
        self.usable = false;
        let done = end_at(&mut self.book, state, actor, text, out)?;
        self.usable = true;
        Ok(done)
    }
}
