// What the walks of path trees use again and again.

ghost use Rattle.std.specs.Prelude.{◌≡◌, ℕ, ◌<◌, Some, None, Option, IfOk, IfSome};
ghost use Rattle.std.specs.Prelude.{MatchOption, length};
ghost use Rattle.kex_model.specs.Labelled.{Shape};
ghost use Rattle.kex_machine.specs.Nodes.{node_moves, IsTrimmed};
ghost use Rattle.kex_machine.specs.Advancing.{LeadAlike};
ghost use Rattle.kex_paths.specs.Nexts.{IsOfShape, HasClass, IsNext, FollowsTree};
ghost use Rattle.kex_paths.specs.Spellings.{IsTreeSound};
ghost use Rattle.kex_paths.specs.Workspaces.{AreSamples, ReachesTree};

use crate::forest::PathEdge;
use crate::tree::{PathTree, gather, gather_shared, read_tokens};
use crate::updates::MetUpdates;
use crate::walk::{Task, Tools, TreeToken, walk};
use kex_byteset::Partition;
use kex_code::memory::Memory;
use kex_machine::Trimmed;
use kex_sst::parts::Update;
use kex_sst::shared::SharedUpdate;
use std::alloc::Global;
use std::marker::Model;

/// What the walks over a machine's path trees use again and again: a byte of each class, marks by
/// place, and lists that keep their room.
#[derive(Drop)]
pub struct Workspace<'m> {
    alloc: Global,
    machine: &'m Trimmed,
    samples: [Option<u8>; 256],
    tokens: Vec<TreeToken>,
    tools: Tools,
    updates: MetUpdates,
}

impl<'m> Model for Workspace<'m> {
    ghost use Rattle.kex_machine.specs.Nodes.{Graph};
    ghost use Rattle.kex_paths.specs.Workspaces.{IsWorkspaceReady};

    ghost Value = { Graph };

    ghost view = { λ w. w.machine.now };

    ghost invariant = { λ w. IsWorkspaceReady w.machine.now w.samples w.tools.marks };
}

/// A byte of each class.
pub fn samples_of(partition: &Partition) -> [Option<u8>; 256]
    ensures { AreSamples partition.now result }
{
    let mut samples = [None; 256];
    for byte in 0..=255u8 {
        samples[usize::from(partition.class_of(byte))] = Some(byte);
    }
    samples
}

// What a walk over a tree of these lists reaches with a byte: the edge to the root of the tree that
// it goes on to, whose other edges the tools keep.
fn reach(
    machine: &Trimmed,
    shape: &[bool],
    leaves: &[u32],
    byte: u8,
    tokens: &mut Vec<TreeToken>,
    tools: &mut Tools,
) -> Result<Option<PathEdge>, Memory>
    requires sound { IsTreeSound machine.now shape.now leaves.now }
    requires long { length tools.old.marks ≡ length machine.now.nodes }
    ensures next { IfOk result (λ root. (s : Shape ℕ)
        → IsOfShape (record { machine = machine.now; shape = shape.now; leaves = leaves.now }) s
        → ReachesTree machine.now byte s tools.new.forest.edges root) }
    ensures trimmed { IsTrimmed machine.now }
    ensures long { length tools.new.marks ≡ length machine.now.nodes }
{
    let nodes = machine.nodes();
    read_tokens(shape, leaves, tokens)?;
    walk(nodes, tokens, byte, Task::OldTree, tools)?;
    Ok(tools.forest.pop_root())
}

impl<'m> Workspace<'m> {
    /// For the path trees of this machine.
    pub fn new(alloc: Global, machine: &'m Trimmed) -> Result<Workspace<'m>, Memory>
        ensures { IfOk result (λ w. w ≡ machine.now) }
    {
        let samples = samples_of(machine.partition());
        let tools = Tools::new(alloc, machine.nodes().len())?;
        Ok(Workspace {
            alloc,
            machine,
            samples,
            tokens: Vec::new(alloc),
            tools,
            updates: MetUpdates::new(alloc),
        })
    }

    // A byte that leads to the same places as all of a class, if the class has one.
    pub(crate) fn sample(&self, class: u8) -> Option<u8>
        ensures { (b : ℕ) → HasClass self.now class b
            → MatchOption result ⊥ (λ byte. LeadAlike (node_moves self.now.nodes) byte b) }
    {
        self.samples[usize::from(class)]
    }

    // The tree that a tree of these lists goes on to with a byte.
    pub(crate) fn advance(
        &mut self,
        shape: &[bool],
        leaves: &[u32],
        byte: u8,
    ) -> Result<Option<(PathTree<'m>, Update)>, Memory>
        requires { IsTreeSound self.old shape.now leaves.now }
        ensures machine { IfOk result (λ r. IfSome r (λ n. n.0.machine ≡ self.old)) }
        ensures next { IfOk result (λ r. (s : Shape ℕ)
            → IsOfShape (record { machine = self.old; shape = shape.now; leaves = leaves.now }) s
            → MatchOption r (IsNext self.old byte s None) (λ n. FollowsTree n.0 byte s n.1)) }
        ensures trimmed { IsTrimmed self.old }
        ensures same { self.new ≡ self.old }
    {
        let machine = self.machine;
        let tools = &mut self.tools;
        match reach(machine, shape, leaves, byte, &mut self.tokens, tools)? {
            None => Ok(None),
            Some(root) => {
                let next = gather(self.alloc, machine, &root, tools.forest.edges())?;
                Ok(Some(next))
            }
        }
    }

    // The same, with an update that was met before, if there is one.
    pub(crate) fn advance_shared(
        &mut self,
        shape: &[bool],
        leaves: &[u32],
        byte: u8,
    ) -> Result<Option<(PathTree<'m>, SharedUpdate)>, Memory>
        requires { IsTreeSound self.old shape.now leaves.now }
        ensures machine { IfOk result (λ r. IfSome r (λ n. n.0.machine ≡ self.old)) }
        ensures next { IfOk result (λ r. (s : Shape ℕ)
            → IsOfShape (record { machine = self.old; shape = shape.now; leaves = leaves.now }) s
            → MatchOption r (IsNext self.old byte s None) (λ n. FollowsTree n.0 byte s n.1)) }
        ensures trimmed { IsTrimmed self.old }
        ensures same { self.new ≡ self.old }
    {
        let machine = self.machine;
        let tools = &mut self.tools;
        match reach(machine, shape, leaves, byte, &mut self.tokens, tools)? {
            None => Ok(None),
            Some(root) => {
                let edges = tools.forest.edges();
                let next = gather_shared(self.alloc, machine, &root, edges, &mut self.updates)?;
                Ok(Some(next))
            }
        }
    }
}
