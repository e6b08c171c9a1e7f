// The action machine.

ghost use Rattle.std.specs.Prelude.{◌≡◌, ◌<◌, ◌≤◌, ◌↔◌, [], List, ℕ, IfOk, IsOk, OnOk, IfErr};
ghost use Rattle.std.specs.Prelude.{All, IsTrue, if◌then◌else◌, false, length, take};
ghost use Rattle.kex_code.specs.Registers.{content_of};
ghost use Rattle.kex_code.specs.declared.symbol.Symbol.{Symbol};
ghost use Rattle.kex_model.specs.Acting.{ActingState};
ghost use Rattle.kex_action.specs.Holdings.{Does, state_of};
ghost use Rattle.kex_action.specs.Actions.{after_action};
ghost use Rattle.kex_action.specs.Deeds.{after_deed, after_deeds};
ghost use Rattle.kex_action.specs.Actors.{HasPerformed, TookAll, WentOn, IsWholeCode};
ghost use Rattle.kex_action.specs.Faults.{AfterFault};
ghost use Rattle.kex_action.specs.Sheets.{IsSheet, IsAsLong, IsBlank, state_with};

use crate::action::Action;
use crate::deed::{Deed, act_all, act_at, act_on, deed_of};
use crate::fault::ActFault;
use crate::sheet::Sheet;
use crate::store::Store;
use crate::walk::{follow, is_end, rest_of};
use kex_code::memory::Memory;
use kex_code::symbol::Symbol;
use kex_machine::Trimmed;
use std::alloc::Global;
use std::marker::Model;

// The symbols that may be performed: none where some were refused before.
fn performable(symbols: &[Symbol], refused: bool) -> &[Symbol]
    ensures { result.now ≡ (if refused then [] else symbols.now) }
{
    if refused { &symbols[..0] } else { symbols }
}

/// A stage's action machine (Kleenex, POPL 2016), over the machine that it borrows: it is given the
/// code of a tree in pieces, and writes what the tree means.
///
/// With c all symbols performed, and at least one call of `take`, the bytes written and the
/// registers are what every tree leaves whose code begins with c. The tree may have turns that read
/// nothing, which no parse has. Once a call has answered `Memory` an actor may only be dropped.
#[derive(Drop)]
pub struct Actor<'m> {
    machine: &'m Trimmed,
    at: u32,
    store: Store,
    refused: bool,
    usable: bool,
}

impl<'m> Model for Actor<'m> {
    ghost use Rattle.kex_action.specs.Holdings.{IsActorSound};
    ghost use Rattle.kex_action.specs.Actors.{Position};

    ghost Value = { Position };

    ghost view = { λ a. record {
      machine = a.machine.now;
      at = a.at;
      holding = a.store;
      refused = a.refused;
      usable = a.usable;
    } };

    ghost invariant = { λ a. IsActorSound a.machine.now a.at a.store a.usable };
}

impl<'m> Actor<'m> {
    /// An actor that has performed and written nothing, with empty registers.
    pub fn new(alloc: Global, machine: &'m Trimmed) -> Result<Actor<'m>, Memory>
        ensures machine { IfOk result (λ a. a.machine ≡ machine.now) }
        ensures begins { IfOk result (λ a. HasPerformed a [] [] []) }
        ensures usable { IfOk result (λ a. IsTrue a.usable) }
    {
        let start = machine.machine().start();
        let nodes = machine.machine().nodes();
        prove!((start as usize) < nodes.len());
        let store = Store::new(alloc, machine.machine().registers())?;
        Ok(Actor {
            machine,
            at: start,
            store,
            refused: false,
            usable: true,
        })
    }

    /// Is as a new actor of its machine. Registers keep their room.
    pub fn begin_anew(&mut self)
        requires { IsTrue self.old.usable }
        ensures begins { HasPerformed self.new [] [] [] }
        ensures machine { self.new.machine ≡ self.old.machine }
        ensures usable { IsTrue self.new.usable }
    {
        self.at = self.machine.machine().start();
        self.store.begin_anew();
        self.refused = false;
    }

    /// Performs the symbols, and then all that needs no symbol. What is written is appended to
    /// `out`.
    ///
    /// After `NotACode(at)` those before number `at` are performed, and every later symbol is
    /// refused.
    pub fn take(&mut self, symbols: &[Symbol], out: &mut Vec<u8>) -> Result<(), ActFault>
        requires { IsTrue self.old.usable }
        ensures ok { OnOk result
            (TookAll self.old self.new symbols.now out.old.items out.new.items) }
        ensures err { IfErr result (λ fault.
            AfterFault fault self.old self.new symbols.now out.old.items out.new.items) }
        ensures machine { self.new.machine ≡ self.old.machine }
        ensures usable { IsTrue self.new.usable ↔ (¬ (result ≡ Err ActFault.Memory)) }
    {
        self.usable = false;
        let allowed = performable(symbols, self.refused);
        let walked = follow(self.machine, self.at, allowed, &mut self.store, out)?;
        self.at = walked.at;
        self.usable = true;
        if walked.count < symbols.len() {
            self.refused = true;
            return Err(ActFault::NotACode(walked.count as u64));
        }
        Ok(())
    }

    /// The node where it is.
    pub fn node(&self) -> u32
        ensures at { result ≡ self.now.at }
        ensures within { IsTrue self.now.usable → result < length self.now.machine.nodes }
    {
        self.at
    }

    /// Goes to a node, and does deeds, where this byte is read. Every code whose steps do just
    /// that, from where it is, is performed then.
    pub fn act(
        &mut self,
        node: u32,
        deeds: &[Deed],
        byte: u8,
        out: &mut Vec<u8>,
    ) -> Result<(), Memory>
        requires usable { IsTrue self.old.usable }
        requires node { node < length self.old.machine.nodes }
        ensures ok { OnOk result ((c : List Symbol) → Does self.old.machine.nodes self.old.at c node
            (after_deeds self.old.machine.nodes byte deeds.now)
            → WentOn self.old self.new c c out.old.items out.new.items) }
        ensures did { OnOk result (state_of out.new.items self.new.holding ≡ after_deeds
            self.old.machine.nodes byte deeds.now (state_of out.old.items self.old.holding)) }
        ensures node { OnOk result (self.new.at ≡ node) }
        ensures machine { self.new.machine ≡ self.old.machine }
        ensures refused { self.new.refused ≡ self.old.refused }
        ensures usable { IsTrue self.new.usable ↔ IsOk result }
    {
        self.usable = false;
        act_all(self.machine, deeds, byte, &mut self.store, out)?;
        self.at = node;
        self.usable = true;
        Ok(())
    }

    /// Does deeds on a sheet, where this byte is read, from the first on. Tells how many were done;
    /// how many those are isn't promised.
    #[inline(always)]
    pub fn act_on(&mut self, deeds: &[Deed], byte: u8, sheet: &mut Sheet) -> Result<usize, Memory>
        requires usable { IsTrue self.old.usable }
        requires sheet { IsSheet sheet.old }
        ensures did { IfOk result (λ n. (out : List ℕ)
            → state_with sheet.new out self.new.holding ≡ after_deeds self.old.machine.nodes byte
            (take n deeds.now) (state_with sheet.old out self.old.holding)) }
        ensures count { IfOk result (λ n. n ≤ length deeds.now) }
        ensures sheet { OnOk result (IsSheet sheet.new × IsAsLong sheet.old sheet.new) }
        ensures same { (self.new.machine ≡ self.old.machine) × (self.new.at ≡ self.old.at)
            × (self.new.refused ≡ self.old.refused) }
        ensures usable { IsTrue self.new.usable ↔ IsOk result }
    {
        self.usable = false;
        let count = act_on(self.machine, deeds, byte, &mut self.store, sheet)?;
        self.usable = true;
        Ok(count)
    }

    /// Does one deed on a sheet, where this byte is read. False where it isn't done there; when
    /// that is isn't promised.
    #[inline(always)]
    pub fn act_at(&mut self, deed: Deed, byte: u8, sheet: &mut Sheet) -> Result<bool, Memory>
        requires usable { IsTrue self.old.usable }
        requires sheet { IsSheet sheet.old }
        ensures did { IfOk result (λ b. IsTrue b → (out : List ℕ)
            → state_with sheet.new out self.new.holding ≡ after_deed self.old.machine.nodes byte
            deed (state_with sheet.old out self.old.holding)) }
        ensures stays { IfOk result (λ b. b ≡ false → (out : List ℕ)
            → state_with sheet.new out self.new.holding
            ≡ state_with sheet.old out self.old.holding) }
        ensures sheet { OnOk result (IsSheet sheet.new × IsAsLong sheet.old sheet.new) }
        ensures same { (self.new.machine ≡ self.old.machine) × (self.new.at ≡ self.old.at)
            × (self.new.refused ≡ self.old.refused) }
        ensures usable { IsTrue self.new.usable ↔ IsOk result }
    {
        self.usable = false;
        let did = act_at(self.machine, deed, byte, &mut self.store, sheet)?;
        self.usable = true;
        Ok(did)
    }

    /// What an action does on its machine.
    #[inline(always)]
    pub fn deed_of(&self, action: Action) -> Deed
        ensures { (b : ℕ) (s : ActingState) → after_deed self.now.machine.nodes b result s
            ≡ after_action self.now.machine.nodes b action s }
    {
        deed_of(self.machine, action)
    }

    /// Goes to a node, and hands on what is on a sheet.
    pub fn hand_on(&mut self, node: u32, sheet: &mut Sheet, out: &mut Vec<u8>) -> Result<(), Memory>
        requires usable { IsTrue self.old.usable }
        requires sheet { IsSheet sheet.old }
        requires node { node < length self.old.machine.nodes }
        ensures did { OnOk result (state_of out.new.items self.new.holding
            ≡ state_with sheet.old out.old.items self.old.holding) }
        ensures none { OnOk result (IsBlank sheet.new) }
        ensures room { IsAsLong sheet.old sheet.new }
        ensures at { OnOk result (self.new.at ≡ node) }
        ensures same { (self.new.machine ≡ self.old.machine)
            × (self.new.refused ≡ self.old.refused) }
        ensures usable { IsTrue self.new.usable ↔ IsOk result }
    {
        self.usable = false;
        self.store.hand_on(sheet, out)?;
        sheet.clear();
        self.at = node;
        self.usable = true;
        Ok(())
    }

    /// Goes to where another actor of its machine is, and holds what that one holds.
    pub fn stand_like(&mut self, other: &Actor) -> Result<(), Memory>
        requires machine { other.now.machine ≡ self.old.machine }
        requires usable { IsTrue other.now.usable }
        ensures same { OnOk result (self.new ≡ other.now) }
        ensures machine { self.new.machine ≡ self.old.machine }
        ensures usable { IsTrue self.new.usable ↔ IsOk result }
    {
        self.usable = false;
        self.store.hold_like(&other.store)?;
        self.at = other.at;
        self.refused = other.refused;
        self.usable = true;
        Ok(())
    }

    /// Whether no open buffer and no register holds more than `most` bytes, so that it is cheap to
    /// copy.
    pub fn is_light(&self, most: usize) -> bool
        ensures { IsTrue result → All (λ b. length b ≤ most) self.now.holding.registers }
    {
        self.store.is_light(most)
    }

    /// Whether another actor of its machine is where it is, and holds the same. One that
    /// isn't usable is like none.
    pub fn is_same(&self, other: &Actor) -> bool
        requires { other.now.machine ≡ self.now.machine }
        ensures same { IsTrue result → self.now ≡ other.now }
        ensures usable { IsTrue result → IsTrue self.now.usable }
    {
        self.usable
            && other.usable
            && self.at == other.at
            && self.refused == other.refused
            && self.store.is_same(&other.store)
    }

    /// Whether what was performed is the whole code of a tree.
    pub fn at_end(&self) -> bool
        requires { IsTrue self.now.usable }
        ensures { (given c : List Symbol) (out : List ℕ) → HasPerformed self.now given c out
            → (IsTrue result ↔ IsWholeCode self.now.machine c) }
    {
        let end = rest_of(self.machine, self.at);
        is_end(&self.machine.machine().nodes()[end as usize])
    }

    /// What register `r` holds.
    pub fn register(&self, r: u32) -> &[u8]
        requires usable { IsTrue self.now.usable }
        requires within { r < self.now.machine.registers }
        ensures { result.now ≡ content_of self.now.holding.registers r }
    {
        self.store.register(r)
    }

    /// Whether no call has answered `Memory`.
    pub fn usable(&self) -> bool
        ensures { result ≡ self.now.usable }
    {
        self.usable
    }
}
