// Bytes, and the pieces of which a register is made, as lists of their own.

ghost use Rattle.std.specs.Prelude.{◌≡◌, IfOk};

use crate::memory::Memory;
use crate::shared::Shared;
use std::marker::Model;

/// A list of bytes, which its copies share.
#[derive(Drop)]
pub struct Bytes {
    all: Shared<u8>,
}

impl Model for Bytes {
    ghost use Rattle.std.specs.Prelude.{ℕ, List};
    ghost use Rattle.kex_code.specs.Shared.{shared_items};

    ghost Value = { List ℕ };

    ghost view = { λ b. shared_items b.all };
}

/// A part of what a register is given: bytes, or what a register holds.
#[derive(Drop)]
pub enum Piece {
    Lit(Bytes),
    Register(u32),
}

/// The pieces that are joined, which copies share.
#[derive(Drop)]
pub struct Pieces {
    all: Shared<Piece>,
}

impl Model for Pieces {
    ghost use Rattle.std.specs.Prelude.{List};
    ghost use Rattle.kex_code.specs.Shared.{shared_items};
    ghost use Rattle.kex_code.specs.declared.piece.Piece.{Piece};

    ghost Value = { List Piece };

    ghost view = { λ p. shared_items p.all };
}

impl Bytes {
    /// These bytes, which are moved.
    pub fn new(bytes: Vec<u8>) -> Bytes
        ensures { result ≡ bytes.items }
    {
        Bytes {
            all: Shared::new(bytes),
        }
    }

    /// The bytes, in their order.
    pub fn as_slice(&self) -> &[u8]
        ensures { result.now ≡ self.now }
    {
        self.all.as_slice()
    }

    /// The same bytes again. They are shared: it takes no memory.
    pub fn copy(&self) -> Result<Bytes, Memory>
        ensures { IfOk result (λ b. b ≡ self.now) }
    {
        let all = self.all.copy()?;
        Ok(Bytes { all })
    }
}

impl Pieces {
    /// These pieces, which are moved.
    pub fn new(pieces: Vec<Piece>) -> Pieces
        ensures { result ≡ pieces.items }
    {
        Pieces {
            all: Shared::new(pieces),
        }
    }

    /// The pieces, in their order.
    pub fn as_slice(&self) -> &[Piece]
        ensures { result.now ≡ self.now }
    {
        self.all.as_slice()
    }

    /// The same pieces again. They are shared: it takes no memory.
    pub fn copy(&self) -> Result<Pieces, Memory>
        ensures { IfOk result (λ p. p ≡ self.now) }
    {
        let all = self.all.copy()?;
        Ok(Pieces { all })
    }
}
