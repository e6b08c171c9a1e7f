// A program as its nodes, which name each other by number.

ghost use Rattle.std.specs.Prelude.{◌≡◌};
ghost use Rattle.kex_model.specs.Programs.{Grammar, IsGrammar, IsInOrder, IsInRange};

use kex_byteset::ByteSet;
use kex_code::piece::{Bytes, Pieces};
use std::marker::Model;

/// What a node is. Nodes, names and registers go by number, and counts are of turns.
#[derive(Drop)]
pub enum Kind {
    One,
    Lit(Bytes),
    Class(ByteSet),
    Call(u32),
    Seq(u32, u32),
    Alt(u32, u32),
    Rep {
        body: u32,
        min: u32,
        max: Option<u32>,
        lazy: bool,
    },
    Mute(u32),
    At(u32, u32),
    Write(u32),
    Set(u32, Pieces),
    Add(u32, Pieces),
}

/// A node, and the offset of its first byte in the text.
#[derive(Drop)]
pub struct Node {
    pub kind: Kind,
    pub at: u32,
}

/// What a name stands for: a root, and the offset of the name in the text.
#[derive(Clone, Copy, Debug, PartialEq, Eq)]
pub struct Definition {
    pub name: u32,
    pub at: u32,
    pub root: u32,
}

/// A stage's name, and the offset of its use in the text.
#[derive(Clone, Copy, Debug, PartialEq, Eq)]
pub struct Start {
    pub name: u32,
    pub at: u32,
}

/// A program: nodes, each of which has only nodes below it for children; names; definitions and
/// stages in their order; and how many registers there are.
#[derive(Drop)]
pub struct Program {
    nodes: Vec<Node>,
    names: Vec<Bytes>,
    definitions: Vec<Definition>,
    stages: Vec<Start>,
    registers: u32,
}

impl Model for Program {
    ghost use Rattle.kex_model.specs.Programs.{Grammar, IsGrammar};

    ghost Value = { Grammar };

    ghost view = { λ p. record {
      nodes = p.nodes.items;
      names = p.names.items;
      definitions = p.definitions.items;
      stages = p.stages.items;
      registers = p.registers;
    } };

    ghost invariant = { λ p. IsGrammar (record {
      nodes = p.nodes.items;
      names = p.names.items;
      definitions = p.definitions.items;
      stages = p.stages.items;
      registers = p.registers;
    }) };
}

impl Program {
    // The program of these parts.
    pub(crate) fn new(
        nodes: Vec<Node>,
        names: Vec<Bytes>,
        definitions: Vec<Definition>,
        stages: Vec<Start>,
        registers: u32,
    ) -> Program
        requires order { IsInOrder nodes.items }
        requires range { IsInRange nodes.items names.items definitions.items stages.items
            registers }
        ensures { result ≡ record {
          nodes = nodes.items;
          names = names.items;
          definitions = definitions.items;
          stages = stages.items;
          registers = registers;
        } }
    {
        Program {
            nodes,
            names,
            definitions,
            stages,
            registers,
        }
    }

    /// The nodes, by their numbers.
    pub fn nodes(&self) -> &[Node]
        ensures { result.now ≡ self.now.nodes }
    {
        &self.nodes
    }

    /// The names, by their numbers.
    pub fn names(&self) -> &[Bytes]
        ensures { result.now ≡ self.now.names }
    {
        &self.names
    }

    /// The definitions, in their order.
    pub fn definitions(&self) -> &[Definition]
        ensures { result.now ≡ self.now.definitions }
    {
        &self.definitions
    }

    /// The stages, in their order.
    pub fn stages(&self) -> &[Start]
        ensures { result.now ≡ self.now.stages }
    {
        &self.stages
    }

    /// How many registers there are.
    pub fn registers(&self) -> u32
        ensures same { result ≡ self.now.registers }
        ensures grammar { IsGrammar self.now }
    {
        self.registers
    }
}
