//! Machines: a stage's places as numbered nodes.
//!
//! Uses byte sets, codes and the model's moves. A `Machine` keeps that all its numbers are in
//! range; a `Trimmed` keeps that the end is reached from every node and that every loop without a
//! byte makes a choice.
#![tactic(auto)]

pub mod best_laws;
pub mod laws;
pub mod marks;

ghost use Rattle.std.specs.Prelude.{◌≡◌, ◌<◌, [], ◌∷◌, ◌++◌, List, Some, length};
ghost use Rattle.kex_model.specs.Moves.{symbol_of};
ghost use Rattle.kex_machine.specs.Nodes.{Graph, IsMachineInRange, IsTrimmed, HasClasses, side_of};
ghost use Rattle.kex_machine.specs.Nodes.{move_of, node_moves};

use kex_byteset::{ByteSet, Partition};
use kex_code::piece::{Bytes, Pieces};
use kex_code::symbol::Symbol;
use std::marker::Model;

/// What a step does to the output, the open buffers and the registers.
#[derive(Drop)]
pub enum Effect {
    Lit(Bytes),
    Open,
    Drop,
    Into(u32),
    Write(u32),
    Set(u32, Pieces),
    Add(u32, Pieces),
}

/// The side of a choice.
#[derive(Clone, Copy, Debug, PartialEq, Eq)]
pub enum Bit {
    L,
    R,
}

impl From<Bit> for Symbol {
    ghost from_gives = { λ side s. s ≡ symbol_of (side_of side) };

    fn from(side: Bit) -> Symbol {
        match side {
            Bit::L => Symbol::L,
            Bit::R => Symbol::R,
        }
    }
}

/// A machine's node, with the numbers of those where it leads. `Forced` gives the symbol of a
/// choice that trimming has left one side of.
#[derive(Drop)]
pub enum MNode {
    Accept,
    Read(ByteSet, u32),
    Choice(u32, u32),
    Forced(Bit, u32),
    Do(Effect, u32),
    Skip(u32),
}

/// The node of a number.
pub fn node_at(nodes: &[MNode], n: usize) -> &MNode
    requires { n < length nodes.now }
    ensures { node_moves nodes.now n ≡ move_of (Some result.now) }
{
    &nodes[n]
}

/// Nodes by number, and the one to start from.
#[derive(Drop)]
pub struct Machine {
    start: u32,
    nodes: Vec<MNode>,
    stage: u32,
    registers: u32,
}

impl Model for Machine {
    ghost use Rattle.kex_machine.specs.Nodes.{Graph, IsMachineInRange};

    ghost Value = { Graph };

    ghost view = { λ m. record {
      start = m.start;
      nodes = m.nodes.items;
      stage = m.stage;
      registers = m.registers;
    } };

    ghost invariant = { λ m. IsMachineInRange m.start m.nodes.items m.registers };
}

impl Machine {
    /// The machine of these nodes.
    pub fn new(start: u32, nodes: Vec<MNode>, stage: u32, registers: u32) -> Machine
        requires { IsMachineInRange start nodes.items registers }
        ensures { result
            ≡ record { start = start; nodes = nodes.items; stage = stage; registers = registers } }
    {
        Machine {
            start,
            nodes,
            stage,
            registers,
        }
    }

    /// The number of the node to start from.
    pub fn start(&self) -> u32
        ensures { result ≡ self.now.start }
    {
        self.start
    }

    /// The nodes, by their numbers.
    pub fn nodes(&self) -> &[MNode]
        ensures same { result.now ≡ self.now.nodes }
        ensures in_range { IsMachineInRange self.now.start self.now.nodes self.now.registers }
    {
        &self.nodes
    }

    /// The nodes, which are moved.
    pub fn into_nodes(self) -> Vec<MNode>
        ensures { result.items ≡ self.nodes }
    {
        self.nodes
    }

    /// The number of the stage, from 1.
    pub fn stage(&self) -> u32
        ensures { result ≡ self.now.stage }
    {
        self.stage
    }

    /// How many registers there are.
    pub fn registers(&self) -> u32
        ensures { result ≡ self.now.registers }
    {
        self.registers
    }
}

/// A machine from whose every node the end is reached, so that every loop without a byte makes a
/// choice, and the classes of the bytes that no node tells apart.
#[derive(Drop)]
pub struct Trimmed {
    machine: Machine,
    partition: Partition,
}

impl Model for Trimmed {
    ghost use Rattle.kex_machine.specs.Nodes.{Graph, IsTrimmed, HasClasses};

    ghost Value = { Graph };

    ghost view = { λ t. t.machine };

    ghost invariant = { λ t. IsTrimmed t.machine × HasClasses t.machine.nodes t.partition };
}

// Refines classes by the set that one node more reads.
fn refine_by(node: &MNode, classes: &mut Partition)
    ensures { (nodes : List MNode) → HasClasses nodes classes.old
        → HasClasses (nodes ++ node.now ∷ []) classes.new }
{
    if let MNode::Read(set, _) = node {
        classes.refine(set);
    }
}

// The classes of the bytes that no node tells apart.
fn classes_of(nodes: &[MNode]) -> Partition
    ensures { HasClasses nodes.now result }
{
    let mut classes = Partition::new();
    for node in nodes {
        refine_by(node, &mut classes);
    }
    classes
}

impl Trimmed {
    /// The machine as one that is trimmed.
    pub fn new(machine: Machine) -> Trimmed
        requires { IsTrimmed machine }
        ensures { result ≡ machine }
    {
        let partition = classes_of(machine.nodes());
        Trimmed { machine, partition }
    }

    /// The machine.
    pub fn machine(&self) -> &Machine
        ensures same { result.now ≡ self.now }
        ensures trimmed { IsTrimmed self.now }
    {
        &self.machine
    }

    /// The number of the node to start from.
    pub fn start(&self) -> u32
        ensures { result ≡ self.now.start }
    {
        self.machine.start()
    }

    /// The nodes, by their numbers.
    pub fn nodes(&self) -> &[MNode]
        ensures same { result.now ≡ self.now.nodes }
        ensures in_range { IsMachineInRange self.now.start self.now.nodes self.now.registers }
        ensures trimmed { IsTrimmed self.now }
    {
        self.machine.nodes()
    }

    /// How many registers there are.
    pub fn registers(&self) -> u32
        ensures { result ≡ self.now.registers }
    {
        self.machine.registers()
    }

    /// The classes of the bytes that no node tells apart.
    pub fn partition(&self) -> &Partition
        ensures { HasClasses self.now.nodes result.now }
    {
        &self.partition
    }
}
