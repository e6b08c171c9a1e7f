// Looks for a leap in a piece (`scan`), and does it (`perform`).

ghost use Rattle.std.specs.Prelude.{◌≡◌, ◌<◌, ◌≤◌, IfOk, IfSome, OnOk, IsTrue, length, take};
ghost use Rattle.kex_action.specs.Sheets.{IsSheet, IsAsLong, state_with};
ghost use Rattle.kex_held.specs.Acts.{after_acts};
ghost use Rattle.kex_leaps.specs.Leaps.{acts_in, AreActsWithin, IsLeap, IsLastLeap};

use crate::credit::Credit;
use crate::last::scan_to_end;
use crate::mark::Trace;
use crate::perform::perform;
pub use crate::scan::Leap;
use crate::scan::{LeapStart, scan};
use kex_action::actor::Actor;
use kex_action::sheet::Sheet;
use kex_code::memory::Memory;
use kex_held_rows::book::RowLedger;
use kex_machine::Trimmed;
use kex_sst::table::Table;
use std::alloc::Global;
use std::marker::Model;

/// What is learnt of a table and a machine to go along leaps of input: from a state without
/// registers to the next one, where text is held back between them.
///
/// A leap is gone along first, and nothing is written meanwhile. What is to be done for it is
/// kept, and done then at once.
#[derive(Drop)]
pub struct Leaps<'p> {
    table: &'p Table,
    ledger: RowLedger<'p>,
    trace: Trace,
    credit: Credit,
}

impl<'p> Model for Leaps<'p> {
    ghost use Rattle.std.specs.Prelude.{◌≡◌};
    ghost use Rattle.kex_leaps.specs.Scanned.{Scanned};

    ghost Value = { Scanned };

    ghost view = { λ s. record {
      table = s.ledger.table;
      machine = s.ledger.machine;
      acts = s.trace.acts.items;
    } };

    ghost invariant = { λ s. s.table.now ≡ s.ledger.table };
}

impl<'p> Leaps<'p> {
    /// Nothing is learnt.
    pub fn new(alloc: Global, table: &'p Table, machine: &'p Trimmed) -> Result<Leaps<'p>, Memory>
        ensures table { IfOk result (λ s. s.table ≡ table.now) }
        ensures machine { IfOk result (λ s. s.machine ≡ machine.now) }
    {
        let ledger = RowLedger::new(alloc, table, machine)?;
        Ok(Leaps {
            table,
            ledger,
            trace: Trace::new(alloc),
            credit: Credit::new(),
        })
    }

    /// Goes along a piece from a state without registers, where the actor is at a node, up to
    /// another such state: over one leap, and those that follow it at once. `None` where the piece
    /// ends before that, and where it can't be learnt.
    pub fn scan(&mut self, state: u32, node: u32, piece: &[u8]) -> Result<Option<Leap>, Memory>
        requires state { state < length self.old.table.states }
        requires node { node < length self.old.machine.nodes }
        ensures within { IfOk result (λ o. IfSome o (λ s. s.count ≤ length piece.now)) }
        ensures leap { IfOk result (λ o. IfSome o (λ s.
            IsLeap self.old.table self.old.machine.nodes state node (take s.count piece.now)
            (acts_in piece.now self.new.acts) s.state s.node)) }
        ensures acts { IfOk result (λ o.
            IfSome o (λ s. AreActsWithin (length piece.now) self.new.acts)) }
        ensures to { IfOk result (λ o. IfSome o (λ s. (s.state < length self.old.table.states)
            × (s.node < length self.old.machine.nodes))) }
        ensures table { self.new.table ≡ self.old.table }
        ensures machine { self.new.machine ≡ self.old.machine }
    {
        if !self.credit.begin_scan() {
            return Ok(None);
        }
        let found = scan(
            self.table,
            &mut self.ledger,
            &mut self.trace,
            &mut self.credit,
            LeapStart { state, node },
            piece,
        )?;
        self.credit.end_scan(found.is_some());
        Ok(found)
    }

    /// Goes along a text to its end from a state without registers, where the actor is at a node.
    /// Tells to which node what is said at the end leads. `None` where the text can't end there,
    /// and where something can't be learnt.
    pub fn scan_to_end(&mut self, state: u32, node: u32, text: &[u8]) -> Result<Option<u32>, Memory>
        requires state { state < length self.old.table.states }
        requires node { node < length self.old.machine.nodes }
        ensures ends { IfOk result (λ o. IfSome o (λ m.
            IsLastLeap self.old.table self.old.machine.nodes state node text.now
            (acts_in text.now self.new.acts) m)) }
        ensures acts { IfOk result (λ o.
            IfSome o (λ m. AreActsWithin (length text.now) self.new.acts)) }
        ensures to { IfOk result (λ o. IfSome o (λ m. m < length self.old.machine.nodes)) }
        ensures table { self.new.table ≡ self.old.table }
        ensures machine { self.new.machine ≡ self.old.machine }
    {
        let from = LeapStart { state, node };
        scan_to_end(
            self.table,
            &mut self.ledger,
            &mut self.trace,
            &mut self.credit,
            from,
            text,
        )
    }

    /// Does what is to be done for the leaps of a piece along which it has gone last, on a sheet.
    /// Where that has to be handed on meanwhile the actor is at the node.
    pub fn perform(
        &self,
        node: u32,
        piece: &[u8],
        actor: &mut Actor,
        sheet: &mut Sheet,
        out: &mut Vec<u8>,
    ) -> Result<(), Memory>
        requires usable { IsTrue actor.old.usable }
        requires node { node < length actor.old.machine.nodes }
        requires sheet { IsSheet sheet.old }
        requires some { 0 < length sheet.old.bytes.items }
        requires within { AreActsWithin (length piece.now) self.now.acts }
        ensures did { OnOk result (state_with sheet.new out.new.items actor.new.holding
            ≡ after_acts actor.old.machine.nodes (acts_in piece.now self.now.acts)
            (state_with sheet.old out.old.items actor.old.holding)) }
        ensures sheet { OnOk result (IsSheet sheet.new × IsAsLong sheet.old sheet.new) }
        ensures same { (actor.new.machine ≡ actor.old.machine)
            × (actor.new.refused ≡ actor.old.refused) }
        ensures usable { OnOk result (IsTrue actor.new.usable) }
    {
        perform(node, piece, &self.trace.acts, actor, sheet, out)
    }
}
