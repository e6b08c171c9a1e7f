// How a program is made: its nodes, one after another, and then the rest.

ghost use Rattle.std.specs.Prelude.{◌≡◌, ◌<◌, ◌++◌, ◌∷◌, [], IfOk, OnErr, length};
ghost use Rattle.kex_model.specs.Programs.{HasBelow, IsInRange};

use crate::program::{Definition, Node, Program, Start};
use kex_code::memory::Memory;
use kex_code::piece::Bytes;
use std::alloc::Global;
use std::marker::Model;

/// The nodes of a program that is being made, by their numbers.
#[derive(Drop)]
pub struct Builder {
    nodes: Vec<Node>,
}

impl Model for Builder {
    ghost use Rattle.std.specs.Prelude.{List};
    ghost use Rattle.kex_model.specs.declared.program.Node.{Node};
    ghost use Rattle.kex_model.specs.Programs.{IsInOrder};

    ghost Value = { List Node };

    ghost view = { λ b. b.nodes.items };

    ghost invariant = { λ b. IsInOrder b.nodes.items };
}

impl Builder {
    /// No nodes yet.
    pub fn new(alloc: Global) -> Builder
        ensures { result ≡ [] }
    {
        Builder {
            nodes: Vec::new(alloc),
        }
    }

    /// Adds a node whose children are there, and answers its number. Past 2^32 nodes there is no
    /// memory.
    pub fn add(&mut self, node: Node) -> Result<u32, Memory>
        requires { HasBelow (length self.old) node.kind }
        ensures added { IfOk result (λ n. self.new ≡ self.old ++ node ∷ []) }
        ensures number { IfOk result (λ n. n ≡ length self.old) }
        ensures kept { OnErr result (self.new ≡ self.old) }
    {
        let Ok(number) = u32::try_from(self.nodes.len()) else {
            return Err(Memory);
        };
        self.nodes.push(node)?;
        Ok(number)
    }

    /// How many nodes there are.
    pub fn len(&self) -> usize
        ensures { result ≡ length self.now }
    {
        self.nodes.len()
    }

    /// The program of these nodes, names, definitions and stages.
    pub fn finish(
        self,
        names: Vec<Bytes>,
        definitions: Vec<Definition>,
        stages: Vec<Start>,
        registers: u32,
    ) -> Program
        requires { IsInRange self names.items definitions.items stages.items registers }
        ensures { result ≡ record {
          nodes = self;
          names = names.items;
          definitions = definitions.items;
          stages = stages.items;
          registers = registers;
        } }
    {
        Program::new(self.nodes, names, definitions, stages, registers)
    }
}
