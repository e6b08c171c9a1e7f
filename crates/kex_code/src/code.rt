// Codes, as lists that grow.

ghost use Rattle.std.specs.Prelude.{◌≡◌, ◌++◌, ◌∷◌, [], OnOk, OnErr};

use crate::memory::Memory;
use crate::symbol::Symbol;
use std::alloc::Global;
use std::marker::Model;

/// A list of symbols.
#[derive(Drop)]
pub struct Code {
    symbols: Vec<Symbol>,
}

impl Model for Code {
    ghost use Rattle.std.specs.Prelude.{List};
    ghost use Rattle.kex_code.specs.declared.symbol.Symbol.{Symbol};

    ghost Value = { List Symbol };

    ghost view = { λ c. c.symbols.items };
}

impl Code {
    /// The empty code.
    pub fn new(alloc: Global) -> Code
        ensures { result ≡ [] }
    {
        Code {
            symbols: Vec::new(alloc),
        }
    }

    /// Adds a symbol at the end.
    pub fn push(&mut self, symbol: Symbol) -> Result<(), Memory>
        ensures added { OnOk result (self.new ≡ self.old ++ symbol ∷ []) }
        ensures kept { OnErr result (self.new ≡ self.old) }
    {
        self.symbols.push(symbol)?;
        Ok(())
    }

    /// Adds symbols at the end, in their order.
    pub fn append(&mut self, symbols: &[Symbol]) -> Result<(), Memory>
        ensures added { OnOk result (self.new ≡ self.old ++ symbols.now) }
        ensures kept { OnErr result (self.new ≡ self.old) }
    {
        self.symbols.extend_from_slice(symbols)?;
        Ok(())
    }

    /// The symbols, in their order.
    pub fn as_slice(&self) -> &[Symbol]
        ensures { result.now ≡ self.now }
    {
        &self.symbols
    }

    /// Takes all symbols away, and keeps the room.
    pub fn clear(&mut self)
        ensures { self.new ≡ [] }
    {
        self.symbols.clear();
    }
}
