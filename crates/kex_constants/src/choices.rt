// Lists of choices.

ghost use Rattle.std.specs.Prelude.{◌≡◌, ◌++◌, ◌∷◌, [], ◌↔◌, IsTrue, IfOk, OnOk};

use kex_code::memory::Memory;
use kex_machine::Bit;
use std::alloc::Global;
use std::marker::Model;

/// What a register holds, if no byte was read after its edge: choices, in their order.
#[derive(Drop)]
pub struct Choices {
    sides: Vec<Bit>,
}

impl Model for Choices {
    ghost use Rattle.std.specs.Prelude.{List};
    ghost use Rattle.kex_machine.specs.declared.Bit.{Bit};

    ghost Value = { List Bit };

    ghost view = { λ c. c.sides.items };
}

impl Choices {
    /// No choices.
    pub fn new(alloc: Global) -> Choices
        ensures { result ≡ [] }
    {
        Choices {
            sides: Vec::new(alloc),
        }
    }

    /// How many choices there are.
    pub fn len(&self) -> usize {
        self.sides.len()
    }

    /// The sides, in their order.
    pub fn as_slice(&self) -> &[Bit]
        ensures { result.now ≡ self.now }
    {
        &self.sides
    }

    /// Adds a choice at the end.
    pub fn push(&mut self, side: Bit) -> Result<(), Memory>
        ensures { OnOk result (self.new ≡ self.old ++ side ∷ []) }
    {
        self.sides.push(side)?;
        Ok(())
    }

    /// Adds choices at the end, in their order.
    pub fn append(&mut self, more: &Choices) -> Result<(), Memory>
        ensures { OnOk result (self.new ≡ self.old ++ more.now) }
    {
        self.sides.extend_from_slice(&more.sides)?;
        Ok(())
    }

    /// Takes all choices away, and keeps the room.
    pub fn clear(&mut self)
        ensures { self.new ≡ [] }
    {
        self.sides.clear();
    }

    /// The same choices again, with no more room than they take.
    pub fn copy(&self, alloc: Global) -> Result<Choices, Memory>
        ensures { IfOk result (λ c. c ≡ self.now) }
    {
        let mut sides = Vec::with_capacity(alloc, self.sides.len())?;
        sides.extend_from_slice(&self.sides)?;
        Ok(Choices { sides })
    }

    /// Whether these are the same choices.
    pub fn is_same(&self, other: &Choices) -> bool
        ensures { IsTrue result ↔ (self.now ≡ other.now) }
    {
        self.sides.as_slice() == other.sides.as_slice()
    }
}
