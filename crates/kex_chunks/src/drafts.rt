// Updates that grow.

ghost use Rattle.std.specs.Prelude.{◌≡◌, ◌++◌, ◌∷◌, [], ℕ, IfOk, OnOk, get_or, map};
ghost use Rattle.kex_code.specs.Codes.{Different, IsAmong};
ghost use Rattle.kex_sst.specs.declared.parts.Part.TheVariants.{Put};
ghost use Rattle.kex_sst.specs.Parts.{olds, olds_in};
ghost use Rattle.kex_sst.specs.Series.{identity, read_parts, substitute, then_update, with_read};

use kex_code::memory::Memory;
use kex_code::symbol::Symbol;
use kex_sst::parts::{Part, Parts, Update};
use std::alloc::Global;
use std::marker::Model;
use std::mem;

/// An update that others are put after, each with the byte that it reads.
#[derive(Drop)]
pub struct UpdateDraft {
    alloc: Global,
    out: Parts,
    regs: Vec<Parts>,
    // Room for the registers that are made.
    made: Vec<Parts>,
}

impl Model for UpdateDraft {
    ghost use Rattle.kex_sst.specs.Parts.{Change};

    ghost Value = { Change };

    ghost view = { λ d. record { out = d.out; regs = d.regs.items } };
}

// Parts are put after a list.
fn push_all(list: &mut Parts, parts: &[Part]) -> Result<(), Memory>
    ensures { OnOk result (list.new ≡ list.old ++ parts.now) }
{
    for part in parts {
        list.push(*part)?;
    }
    Ok(())
}

// What a part stands for is put after a list: for an old register, a copy of what it was given.
fn add(list: &mut Parts, regs: &[Parts], part: Part, byte: u8) -> Result<(), Memory>
    ensures { OnOk result (list.new
        ≡ list.old ++ substitute regs.now (read_parts byte (part ∷ []))) }
{
    match part {
        Part::Put(symbol) => list.push(Part::Put(symbol)),
        Part::Input => list.push(Part::Put(Symbol::Byte(byte))),
        Part::Old(register) => match regs.get(register as usize) {
            None => Ok(()),
            Some(given) => push_all(list, given.as_slice()),
        },
    }
}

// What parts stand for is put after a list.
fn add_all(list: &mut Parts, regs: &[Parts], parts: &[Part], byte: u8) -> Result<(), Memory>
    ensures { OnOk result (list.new ≡ list.old ++ substitute regs.now (read_parts byte parts.now)) }
{
    for part in parts {
        add(list, regs, *part, byte)?;
    }
    Ok(())
}

// A list of a symbol.
fn list_of(alloc: Global, symbol: Symbol) -> Result<Parts, Memory>
    ensures { IfOk result (λ list. list ≡ Put symbol ∷ []) }
{
    let mut list = Parts::new(alloc);
    list.push(Part::Put(symbol))?;
    Ok(list)
}

// What a part stands for, as a list: for an old register the list that it was given, which is taken
// away.
fn take(alloc: Global, regs: &mut [Parts], part: Part, byte: u8) -> Result<Parts, Memory>
    ensures list { IfOk result (λ list. list ≡ substitute regs.old (read_parts byte (part ∷ []))) }
    ensures others { (i : ℕ) → (IsAmong (olds (part ∷ [])) i → ⊥)
        → get_or regs.new i [] ≡ get_or regs.old i [] }
{
    match part {
        Part::Put(symbol) => list_of(alloc, symbol),
        Part::Input => list_of(alloc, Symbol::Byte(byte)),
        Part::Old(register) => {
            let at = register as usize;
            if at >= regs.len() {
                return Ok(Parts::new(alloc));
            }
            Ok(mem::replace(&mut regs[at], Parts::new(alloc)))
        }
    }
}

// What parts stand for, as a list. What an old register was given is taken away where it comes
// first, so that a list which only grows is never copied.
fn fill(alloc: Global, regs: &mut [Parts], parts: &[Part], byte: u8) -> Result<Parts, Memory>
    requires { Different (olds parts.now) }
    ensures list { IfOk result (λ list. list ≡ substitute regs.old (read_parts byte parts.now)) }
    ensures others { (i : ℕ) → (IsAmong (olds parts.now) i → ⊥)
        → get_or regs.new i [] ≡ get_or regs.old i [] }
{
    if parts.len() == 0 {
        return Ok(Parts::new(alloc));
    }
    let mut list = take(alloc, regs, parts[0], byte)?;
    add_all(&mut list, regs, &parts[1..], byte)?;
    Ok(list)
}

// What lists stand for. What old registers were given is taken away.
fn fill_all(
    alloc: Global,
    regs: &mut [Parts],
    lists: &[Parts],
    byte: u8,
    made: &mut Vec<Parts>,
) -> Result<(), Memory>
    requires { Different (olds_in lists.now) }
    ensures { OnOk result (made.new.items
        ≡ map (λ xs. substitute regs.old (read_parts byte xs)) lists.now) }
{
    made.clear();
    'lists: for list in lists {
        let filled = fill(alloc, regs, list.as_slice(), byte)?;
        made.push(filled)?;
    }
    Ok(())
}

impl UpdateDraft {
    /// Nothing is passed on, and each register is itself.
    pub fn new(alloc: Global, registers: u32) -> Result<UpdateDraft, Memory>
        ensures { IfOk result (λ d. d ≡ identity registers) }
    {
        let mut regs = Vec::new(alloc);
        'registers: for register in 0..registers {
            let mut parts = Parts::new(alloc);
            parts.push(Part::Old(register))?;
            regs.push(parts)?;
        }
        Ok(UpdateDraft {
            alloc,
            out: Parts::new(alloc),
            regs,
            made: Vec::new(alloc),
        })
    }

    /// Puts an update after it, with the byte that it reads.
    pub fn push(&mut self, update: &Update, byte: u8) -> Result<(), Memory>
        requires { Different (olds_in update.now.regs) }
        ensures { OnOk result (self.new ≡ then_update self.old (with_read byte update.now)) }
    {
        add_all(&mut self.out, &self.regs, update.out().as_slice(), byte)?;
        fill_all(
            self.alloc,
            &mut self.regs,
            update.regs(),
            byte,
            &mut self.made,
        )?;
        mem::swap(&mut self.regs, &mut self.made);
        Ok(())
    }

    /// The update.
    pub fn finish(self) -> Update
        ensures { result ≡ self }
    {
        Update::new(self.out, self.regs)
    }
}
