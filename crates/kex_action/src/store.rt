// The open buffers and the registers, and what each effect does to them.

ghost use Rattle.std.specs.Prelude.{◌≡◌, ◌<◌, ◌↔◌, ◌++◌, [], ◌∷◌, List, ℕ, OnOk, OnErr, IfOk};
ghost use Rattle.std.specs.Prelude.{All, IsTrue, ◌≤◌, length, replicate, reverse, false};
ghost use Rattle.kex_code.specs.Registers.{pieces_text, with_content, content_of};
ghost use Rattle.kex_code.specs.declared.piece.Piece.{Piece};
ghost use Rattle.kex_model.specs.Programs.{HasPieces};
ghost use Rattle.kex_model.specs.Acting.{after_append, after_effect};
ghost use Rattle.kex_machine.specs.Nodes.{effect_of, HasRegisters};
ghost use Rattle.kex_model.specs.Moves.{into, write};
ghost use Rattle.kex_action.specs.Holdings.{state_of, dropped_from, moved_to};
ghost use Rattle.kex_action.specs.Sheets.{IsSheet, IsAsLong, state_with};

use crate::buffer::Buffer;
use crate::sheet::Sheet;
use kex_code::memory::Memory;
use kex_code::piece::Piece;
use kex_machine::Effect;
use std::alloc::Global;
use std::marker::Model;
use std::mem;

/// The open buffers, the innermost last, and the registers. An empty buffer is kept for its room.
#[derive(Drop)]
pub struct Store {
    alloc: Global,
    buffers: Vec<Buffer>,
    registers: Vec<Buffer>,
    spare: Buffer,
}

impl Model for Store {
    ghost use Rattle.std.specs.Prelude.{◌≡◌, [], reverse};
    ghost use Rattle.kex_action.specs.Holdings.{Holding};

    ghost Value = { Holding };

    ghost view = { λ s.
        record { buffers = reverse s.buffers.items; registers = s.registers.items } };

    ghost invariant = { λ s. s.spare ≡ [] };
}

// Bytes go to the innermost open buffer, or to the output where none is open.
fn append_to(buffers: &mut Vec<Buffer>, bytes: &[u8], out: &mut Vec<u8>) -> Result<(), Memory>
    ensures ok { OnOk result ((regs : List (List ℕ))
        → state_of out.new.items (record { buffers = reverse buffers.new.items; registers = regs })
        ≡ after_append bytes.now out.old.items (reverse buffers.old.items) regs) }
    ensures err { OnErr result (out.new.items ≡ out.old.items) }
{
    let count = buffers.len();
    if count == 0 {
        out.extend_from_slice(bytes)?;
        return Ok(());
    }
    buffers[count - 1].append(bytes)
}

// The bytes of a piece.
fn bytes_of<'a>(piece: &'a Piece, registers: &'a [Buffer]) -> &'a [u8]
    requires { HasPieces (length registers.now) (piece.now ∷ []) }
    ensures { result.now ≡ pieces_text (piece.now ∷ []) registers.now }
{
    match piece {
        Piece::Lit(bytes) => bytes.as_slice(),
        Piece::Register(r) => registers[*r as usize].as_slice(),
    }
}

// Whether the first piece is the register.
fn begins_with(pieces: &[Piece], r: u32) -> bool
    ensures { IsTrue result ↔ ((rest : List Piece) × (pieces.now ≡ Piece.Register r ∷ rest)) }
{
    match pieces.first() {
        Some(Piece::Register(first)) => *first == r,
        _ => false,
    }
}

// Adds what the pieces join to.
fn join(pieces: &[Piece], registers: &[Buffer], into: &mut Buffer) -> Result<(), Memory>
    requires { HasPieces (length registers.now) pieces.now }
    ensures { OnOk result (into.new ≡ into.old ++ pieces_text pieces.now registers.now) }
{
    for piece in pieces {
        into.append(bytes_of(piece, registers))?;
    }
    Ok(())
}

// All bytes are taken away, and the room stays.
fn clear_all(all: &mut [Buffer])
    ensures { all.new ≡ replicate (length all.old) [] }
{
    for i in 0..all.len() {
        all[i].clear();
    }
}

// The same buffers again.
fn copies(alloc: Global, all: &[Buffer]) -> Result<Vec<Buffer>, Memory>
    ensures { IfOk result (λ v. v.items ≡ all.now) }
{
    let mut copies = Vec::new(alloc);
    for buffer in all {
        copies.push(buffer.copy(alloc)?)?;
    }
    Ok(copies)
}

// Whether the buffers have the same bytes, each at its place.
fn are_same(left: &[Buffer], right: &[Buffer]) -> bool
    ensures { IsTrue result → left.now ≡ right.now }
{
    if left.len() != right.len() {
        return false;
    }
    for i in 0..left.len() {
        if !left[i].is_same(&right[i]) {
            return false;
        }
    }
    true
}

// Whether none of the buffers has more than `most` bytes.
fn are_short(all: &[Buffer], most: usize) -> bool
    ensures { IsTrue result ↔ All (λ b. length b ≤ most) all.now }
{
    all.iter().all(|buffer| buffer.as_slice().len() <= most)
}

impl Store {
    /// No buffer is open, and all registers are empty.
    pub fn new(alloc: Global, count: u32) -> Result<Store, Memory>
        ensures { IfOk result (λ s. s ≡ record { buffers = []; registers = replicate count [] }) }
    {
        let mut registers = Vec::new(alloc);
        for _ in 0..count {
            registers.push(Buffer::new(alloc))?;
        }
        Ok(Store {
            alloc,
            buffers: Vec::new(alloc),
            registers,
            spare: Buffer::new(alloc),
        })
    }

    /// No buffer is open any more, and all registers are empty. They keep their room.
    pub fn begin_anew(&mut self)
        ensures { self.new ≡ record {
          buffers = [];
          registers = replicate (length self.old.registers) [];
        } }
    {
        self.buffers.clear();
        clear_all(&mut self.registers);
    }

    /// Has the buffers and the registers of another.
    pub fn hold_like(&mut self, other: &Store) -> Result<(), Memory>
        ensures { OnOk result (self.new ≡ other.now) }
    {
        self.buffers = copies(self.alloc, &other.buffers)?;
        self.registers = copies(self.alloc, &other.registers)?;
        Ok(())
    }

    /// Whether no buffer and no register has more than `most` bytes.
    pub fn is_light(&self, most: usize) -> bool
        ensures { IsTrue result → All (λ b. length b ≤ most) self.now.registers }
    {
        are_short(&self.buffers, most) && are_short(&self.registers, most)
    }

    /// Whether another has the same buffers and registers.
    pub fn is_same(&self, other: &Store) -> bool
        ensures { IsTrue result → self.now ≡ other.now }
    {
        are_same(&self.buffers, &other.buffers) && are_same(&self.registers, &other.registers)
    }

    /// What a register has.
    pub fn register(&self, r: u32) -> &[u8]
        requires { r < length self.now.registers }
        ensures { result.now ≡ content_of self.now.registers r }
    {
        self.registers[r as usize].as_slice()
    }

    /// Writes bytes.
    pub fn write(&mut self, bytes: &[u8], out: &mut Vec<u8>) -> Result<(), Memory>
        ensures ok { OnOk result (state_of out.new.items self.new
            ≡ after_append bytes.now out.old.items self.old.buffers self.old.registers) }
        ensures err { OnErr result (out.new.items ≡ out.old.items) }
    {
        append_to(&mut self.buffers, bytes, out)
    }

    /// Writes what a register has.
    pub fn write_register(&mut self, r: u32, out: &mut Vec<u8>) -> Result<(), Memory>
        ensures ok { OnOk result (state_of out.new.items self.new ≡ after_append
            (content_of self.old.registers r) out.old.items self.old.buffers self.old.registers) }
        ensures err { OnErr result (out.new.items ≡ out.old.items) }
    {
        match self.registers.get(r as usize) {
            Some(register) => append_to(&mut self.buffers, register.as_slice(), out),
            None => Ok(()),
        }
    }

    /// Opens a buffer.
    pub fn open(&mut self) -> Result<(), Memory>
        ensures { OnOk result (self.new
            ≡ record { buffers = [] ∷ self.old.buffers; registers = self.old.registers }) }
    {
        let buffer = mem::replace(&mut self.spare, Buffer::new(self.alloc));
        self.buffers.push(buffer)?;
        Ok(())
    }

    // Keeps a buffer's room.
    fn put_by(&mut self, mut buffer: Buffer)
        ensures { self.new ≡ self.old }
    {
        buffer.clear();
        self.spare = buffer;
    }

    /// The innermost buffer goes, if one is open.
    pub fn drop_innermost(&mut self)
        ensures { self.new ≡ dropped_from self.old.buffers self.old.registers }
    {
        if let Some(buffer) = self.buffers.pop() {
            self.put_by(buffer);
        }
    }

    /// The register takes the innermost buffer, which is moved.
    pub fn move_into(&mut self, r: u32)
        ensures { self.new ≡ moved_to r self.old.buffers self.old.registers }
    {
        let Some(buffer) = self.buffers.pop() else {
            return;
        };
        match self.registers.get_mut(r as usize) {
            Some(register) => {
                let old = mem::replace(register, buffer);
                self.put_by(old);
            }
            None => self.put_by(buffer),
        }
    }

    // The register gets the pieces after what it has.
    fn add(&mut self, r: u32, pieces: &[Piece]) -> Result<(), Memory>
        requires in_range { r < length self.old.registers }
        requires pieces_in { HasPieces (length self.old.registers) pieces.now }
        ensures { OnOk result (self.new
            ≡ record {
              buffers = self.old.buffers;
              registers = with_content self.old.registers r
                  (content_of self.old.registers r ++ pieces_text pieces.now self.old.registers);
            }) }
    {
        let mut more = mem::replace(&mut self.spare, Buffer::new(self.alloc));
        join(pieces, &self.registers, &mut more)?;
        self.registers[r as usize].append(more.as_slice())?;
        self.put_by(more);
        Ok(())
    }

    // The register gets the pieces. Where it is the first of them itself, the others are put after
    // it.
    fn set(&mut self, r: u32, pieces: &[Piece]) -> Result<(), Memory>
        requires in_range { r < length self.old.registers }
        requires pieces_in { HasPieces (length self.old.registers) pieces.now }
        ensures { OnOk result (self.new ≡ record {
          buffers = self.old.buffers;
          registers =
              with_content self.old.registers r (pieces_text pieces.now self.old.registers);
        }) }
    {
        if begins_with(pieces, r) {
            return self.add(r, &pieces[1..]);
        }
        let mut all = mem::replace(&mut self.spare, Buffer::new(self.alloc));
        join(pieces, &self.registers, &mut all)?;
        let old = mem::replace(&mut self.registers[r as usize], all);
        self.put_by(old);
        Ok(())
    }

    /// Does an effect.
    pub fn perform(&mut self, effect: &Effect, out: &mut Vec<u8>) -> Result<(), Memory>
        requires { HasRegisters (length self.old.registers) effect.now }
        ensures ok { OnOk result (state_of out.new.items self.new
            ≡ after_effect (effect_of effect.now) (state_of out.old.items self.old)) }
        ensures err { OnErr result (out.new.items ≡ out.old.items) }
    {
        match effect {
            Effect::Lit(bytes) => self.write(bytes.as_slice(), out),
            Effect::Open => self.open(),
            Effect::Drop => {
                self.drop_innermost();
                Ok(())
            }
            Effect::Into(r) => {
                self.move_into(*r);
                Ok(())
            }
            Effect::Write(r) => self.write_register(*r, out),
            Effect::Set(r, pieces) => self.set(*r, pieces.as_slice()),
            Effect::Add(r, pieces) => self.add(*r, pieces.as_slice()),
        }
    }

    /// The register takes the innermost buffer of a sheet, if one was opened there. False where it
    /// can't: nothing is done then.
    #[inline(always)]
    pub fn take_from(&mut self, r: u32, sheet: &mut Sheet) -> Result<bool, Memory>
        requires { IsSheet sheet.old }
        ensures did { IfOk result (λ b. IsTrue b → (out : List ℕ)
            → state_with sheet.new out self.new
            ≡ after_effect (into r) (state_with sheet.old out self.old)) }
        ensures stays { IfOk result (λ b. b ≡ false → (out : List ℕ)
            → state_with sheet.new out self.new ≡ state_with sheet.old out self.old) }
        ensures sheet { OnOk result (IsSheet sheet.new × IsAsLong sheet.old sheet.new) }
    {
        let Some(register) = self.registers.get_mut(r as usize) else {
            return Ok(false);
        };
        let Some(end) = sheet.close() else {
            return Ok(false);
        };
        register.replace(&sheet.bytes, sheet.used, end)?;
        Ok(true)
    }

    /// Writes on a sheet what a register has. False where it can't: nothing is done then.
    #[inline(always)]
    pub fn write_on(&self, r: u32, sheet: &mut Sheet) -> bool
        requires { IsSheet sheet.old }
        ensures did { IsTrue result → (out : List ℕ) → state_with sheet.new out self.now
            ≡ after_effect (write r) (state_with sheet.old out self.now) }
        ensures stays { result ≡ false → (out : List ℕ)
            → state_with sheet.new out self.now ≡ state_with sheet.old out self.now }
        ensures sheet { IsSheet sheet.new × IsAsLong sheet.old sheet.new }
    {
        match self.registers.get(r as usize) {
            Some(register) => sheet.write_buffer(register),
            None => false,
        }
    }

    /// Does on a sheet an effect that is no deed of its own. False where it can't be done there:
    /// nothing is done then.
    pub fn perform_on(&mut self, effect: &Effect, sheet: &mut Sheet) -> Result<bool, Memory>
        requires registers { HasRegisters (length self.old.registers) effect.now }
        requires sheet { IsSheet sheet.old }
        ensures did { IfOk result (λ b. IsTrue b → (out : List ℕ)
            → state_with sheet.new out self.new
            ≡ after_effect (effect_of effect.now) (state_with sheet.old out self.old)) }
        ensures stays { IfOk result (λ b. b ≡ false → (out : List ℕ)
            → state_with sheet.new out self.new ≡ state_with sheet.old out self.old) }
        ensures sheet { OnOk result (IsSheet sheet.new × IsAsLong sheet.old sheet.new) }
    {
        match effect {
            Effect::Lit(bytes) => Ok(sheet.write(bytes.as_slice())),
            Effect::Set(r, pieces) => {
                self.set(*r, pieces.as_slice())?;
                Ok(true)
            }
            Effect::Add(r, pieces) => {
                self.add(*r, pieces.as_slice())?;
                Ok(true)
            }
            Effect::Open | Effect::Drop | Effect::Into(_) | Effect::Write(_) => Ok(false),
        }
    }

    /// Hands on what is on a sheet: its bytes are written, and what was opened there is opened.
    pub fn hand_on(&mut self, sheet: &Sheet, out: &mut Vec<u8>) -> Result<(), Memory>
        requires { IsSheet sheet.now }
        ensures { OnOk result (state_of out.new.items self.new
            ≡ state_with sheet.now out.old.items self.old) }
    {
        let bytes = sheet.bytes.as_slice();
        let mut from = 0;
        for i in 0..sheet.marks.len() {
            let to = sheet.marks[i];
            prove!(from <= to);
            prove!(to <= bytes.len());
            self.write(&bytes[from..to], out)?;
            self.open()?;
            from = to;
        }
        prove!(from <= sheet.used);
        self.write(&bytes[from..sheet.used], out)
    }
}
