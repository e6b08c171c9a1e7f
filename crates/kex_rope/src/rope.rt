// Ropes.

ghost use Rattle.std.specs.Prelude.{◌≡◌, ◌+◌, ◌^◌, ◌<◌, ◌≤◌, [], ◌∷◌, ◌++◌, ◌↔◌, IsTrue, length};
ghost use Rattle.std.specs.Prelude.{OnOk, OnErr, IfOk};
ghost use Rattle.kex_code.specs.Codes.{Begins};
ghost use Rattle.kex_rope.specs.Blocks.{symbols_in, AreFilled, AreBlocks};

use kex_code::code::Code;
use kex_code::memory::Memory;
use kex_code::symbol::Symbol;
use std::alloc::Global;
use std::collections::LinkedList;
use std::marker::Model;
use std::mem;

// How many symbols a block has room for.
const BLOCK: usize = 128;

// The most symbols that a rope grows to by pushes.
const MOST: u64 = 1 << 62;

/// A list of symbols in blocks. It can be put at the end of another without a look at its symbols.
///
/// A rope that was emptied keeps one block for what comes next.
#[derive(Drop)]
pub struct Rope {
    alloc: Global,
    blocks: LinkedList<Vec<Symbol>>,
    count: u64,
}

impl Model for Rope {
    ghost use Rattle.std.specs.Prelude.{List};
    ghost use Rattle.kex_code.specs.declared.symbol.Symbol.{Symbol};
    ghost use Rattle.kex_rope.specs.Blocks.{symbols_in, AreBlocks};

    ghost Value = { List Symbol };

    ghost view = { λ r. symbols_in r.blocks };

    ghost invariant = { λ r. AreBlocks r.blocks r.count };
}

// A symbol is put at the end of the last block, or into a new one where that is full.
fn put(alloc: Global, blocks: &mut LinkedList<Vec<Symbol>>, symbol: Symbol) -> Result<(), Memory>
    ensures added { OnOk result (symbols_in blocks.new ≡ symbols_in blocks.old ++ symbol ∷ []) }
    ensures filled { OnOk result (AreBlocks blocks.old (length (symbols_in blocks.old))
        → AreFilled blocks.new) }
    ensures kept { OnErr result (symbols_in blocks.new ≡ symbols_in blocks.old) }
    ensures count { OnErr result (length blocks.new ≡ length blocks.old) }
    ensures still { OnErr result (AreFilled blocks.old → AreFilled blocks.new) }
{
    if let Some(last) = blocks.back_mut() {
        if last.len() < BLOCK {
            last.push(symbol)?;
            return Ok(());
        }
    }
    let mut block = Vec::with_capacity(alloc, BLOCK)?;
    block.push(symbol)?;
    blocks.push_back(block)?;
    Ok(())
}

// The symbols of the first block are put at the end of a code, and the block goes. Tells how many
// they are.
fn give_front(blocks: &mut LinkedList<Vec<Symbol>>, code: &mut Code) -> Result<usize, Memory>
    requires { 0 < length blocks.old }
    ensures moved { OnOk result (code.new ++ symbols_in blocks.new
        ≡ code.old ++ symbols_in blocks.old) }
    ensures count { IfOk result (λ n. n + length (symbols_in blocks.new)
        ≡ length (symbols_in blocks.old)) }
    ensures fewer { OnOk result (length blocks.new + 1 ≡ length blocks.old) }
    ensures filled { OnOk result (AreFilled blocks.old → AreFilled blocks.new) }
    ensures kept { OnErr result ((blocks.new ≡ blocks.old) × (code.new ≡ code.old)) }
{
    let mut count = 0;
    if let Some(block) = blocks.front() {
        code.append(block)?;
        count = block.len();
    }
    let _ = blocks.pop_front();
    Ok(count)
}

// All blocks but the first go, and the first loses its symbols.
fn empty(blocks: &mut LinkedList<Vec<Symbol>>)
    ensures none { symbols_in blocks.new ≡ [] }
    ensures few { length blocks.new ≤ 1 }
{
    while blocks.len() > 1 {
        let _ = blocks.pop_back();
    }
    if let Some(block) = blocks.back_mut() {
        block.clear();
    }
}

impl Rope {
    /// The empty rope.
    pub fn new(alloc: Global) -> Rope
        ensures { result ≡ [] }
    {
        Rope {
            alloc,
            blocks: LinkedList::new(alloc),
            count: 0,
        }
    }

    /// How many symbols it has.
    pub fn len(&self) -> u64
        ensures { result ≡ length self.now }
    {
        self.count
    }

    /// Whether it has no symbol.
    pub fn is_empty(&self) -> bool
        ensures { IsTrue result ↔ (self.now ≡ []) }
    {
        self.count == 0
    }

    /// Adds a symbol at the end.
    pub fn push(&mut self, symbol: Symbol) -> Result<(), Memory>
        ensures added { OnOk result (self.new ≡ self.old ++ symbol ∷ []) }
        ensures kept { OnErr result (self.new ≡ self.old) }
    {
        if self.count >= MOST {
            return Err(Memory);
        }
        put(self.alloc, &mut self.blocks, symbol)?;
        self.count += 1;
        Ok(())
    }

    /// Puts the symbols of another rope after its own, by moving their blocks, and leaves that one
    /// empty. Takes no memory, and constant time.
    pub fn append(&mut self, other: &mut Rope)
        requires { length self.old + length other.old < 2 ^ 63 }
        ensures joined { self.new ≡ self.old ++ other.old }
        ensures empty { other.new ≡ [] }
    {
        if other.count == 0 {
            return;
        }
        if self.count == 0 {
            mem::swap(&mut self.blocks, &mut other.blocks);
            mem::swap(&mut self.count, &mut other.count);
            return;
        }
        let _ = self.blocks.append(&mut other.blocks);
        self.count += other.count;
        other.count = 0;
    }

    /// All its symbols, as a rope of their own; it is left empty.
    pub fn take(&mut self) -> Rope
        ensures all { result ≡ self.old }
        ensures empty { self.new ≡ [] }
    {
        let alloc = self.alloc;
        mem::replace(self, Rope::new(alloc))
    }

    /// Moves its symbols to the end of a code. Where memory is wanted, those that were not moved
    /// stay.
    pub fn drain_into(&mut self, code: &mut Code) -> Result<(), Memory>
        ensures moved { OnOk result (code.new ≡ code.old ++ self.old) }
        ensures empty { OnOk result (self.new ≡ []) }
        ensures kept { OnErr result (code.new ++ self.new ≡ code.old ++ self.old) }
    {
        while self.blocks.len() > 1 {
            let count = give_front(&mut self.blocks, code)?;
            self.count -= count as u64;
        }
        if let Some(block) = self.blocks.front() {
            code.append(block)?;
        }
        self.clear();
        Ok(())
    }

    /// Copies its symbols to the end of a code. Where memory is wanted, the code may have a front
    /// of them.
    pub fn copy_into(&self, code: &mut Code) -> Result<(), Memory>
        ensures copied { OnOk result (code.new ≡ code.old ++ self.now) }
        ensures front { OnErr result (Begins code.new code.old) }
    {
        for block in &self.blocks {
            code.append(block)?;
        }
        Ok(())
    }

    /// Takes all symbols away, and keeps a block.
    pub fn clear(&mut self)
        ensures { self.new ≡ [] }
    {
        empty(&mut self.blocks);
        self.count = 0;
    }
}
