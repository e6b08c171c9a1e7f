// What held text is made of.

ghost use Rattle.std.specs.Prelude.{◌≡◌};

use std::marker::Model;

/// The bytes from one point of a window to another, by their numbers; or what a node does.
#[derive(Clone, Copy, Debug, PartialEq, Eq)]
pub enum HeldItem {
    Slice(u8, u8),
    Effect(u32),
}

/// What a table register holds: the nodes at the ends of its edge of the path tree, and what is
/// done between them.
#[derive(Drop)]
pub struct RegisterText {
    from: u32,
    to: u32,
    items: Vec<HeldItem>,
}

impl Model for RegisterText {
    ghost use Rattle.kex_held.specs.Tracks.{HeldList};

    ghost Value = { HeldList };

    ghost view = { λ r. record { from = r.from; to = r.to; items = r.items.items } };
}

impl RegisterText {
    /// The list of these parts, which are moved.
    pub fn new(from: u32, to: u32, items: Vec<HeldItem>) -> RegisterText
        ensures { result ≡ record { from = from; to = to; items = items.items } }
    {
        RegisterText { from, to, items }
    }

    /// The node at the upper end.
    pub fn from(&self) -> u32
        ensures { result ≡ self.now.from }
    {
        self.from
    }

    /// The node at the lower end.
    pub fn to(&self) -> u32
        ensures { result ≡ self.now.to }
    {
        self.to
    }

    /// What is done between them.
    pub fn items(&self) -> &[HeldItem]
        ensures { result.now ≡ self.now.items }
    {
        &self.items
    }
}
