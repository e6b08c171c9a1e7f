// How path trees begin, and go on with a byte.

ghost use Rattle.std.specs.Prelude.{◌≡◌, ℕ, None, IfOk, IfSome, MatchOption};
ghost use Rattle.kex_model.specs.Labelled.{Shape};
ghost use Rattle.kex_paths.specs.Nexts.{IsOfShape, HasClass, IsNext, BeginsTree, FollowsTree};
ghost use Rattle.kex_paths.specs.Nexts.{ShowsFirst, ShowsFor};

use crate::tree::{PathTree, gather};
use crate::walk::{Task, Tools, walk};
use crate::workspace::Workspace;
use kex_code::memory::Memory;
use kex_machine::Trimmed;
use kex_sst::parts::Update;
use kex_sst::shared::SharedUpdate;
use std::alloc::Global;

// The most nodes of machines that path trees are made for: such trees have fewer than twice as many
// nodes, and registers have numbers of 32 bits.
const MOST_NODES: usize = 1 << 31;

impl<'m> PathTree<'m> {
    /// The tree of the empty text, and the update before the first byte. `Memory` also where the
    /// machine has more than 2^31 nodes.
    pub fn start(alloc: Global, machine: &'m Trimmed) -> Result<(PathTree<'m>, Update), Memory>
        ensures machine { IfOk result (λ r. r.0.machine ≡ machine.now) }
        ensures first { IfOk result (λ r. BeginsTree r.0 r.1) }
        ensures shows { IfOk result (λ r. ShowsFirst r.0 r.1) }
    {
        let nodes = machine.nodes();
        if nodes.len() > MOST_NODES {
            return Err(Memory);
        }
        let mut tools = Tools::new(alloc, nodes.len())?;
        walk(nodes, &[], 0, Task::Visit(machine.start()), &mut tools)?;
        let root = tools.forest.pop_root().unwrap();
        gather(alloc, machine, &root, tools.forest.edges())
    }

    /// The tree that comes with a byte of a class, and the update; none exactly where no byte of
    /// the class can come. The registers have the labels of the tree's edges, in preorder.
    pub fn advance(
        &self,
        alloc: Global,
        class: u8,
    ) -> Result<Option<(PathTree<'m>, Update)>, Memory>
        ensures machine { IfOk result (λ r. IfSome r (λ n. n.0.machine ≡ self.now.machine)) }
        ensures next { IfOk result (λ r. (s : Shape ℕ) (b : ℕ) → IsOfShape self.now s
            → HasClass self.now.machine class b
            → MatchOption r (IsNext self.now.machine b s None) (λ n. FollowsTree n.0 b s n.1)) }
        ensures shows { IfOk result (λ r. ShowsFor self.now class r) }
    {
        let mut workspace = Workspace::new(alloc, self.machine())?;
        self.advance_with(&mut workspace, class)
    }

    /// The same, in a workspace of the machine. The cost is that of the tree, and of the nodes that
    /// are reached past the byte.
    pub fn advance_with(
        &self,
        workspace: &mut Workspace<'m>,
        class: u8,
    ) -> Result<Option<(PathTree<'m>, Update)>, Memory>
        requires { workspace.old ≡ self.now.machine }
        ensures machine { IfOk result (λ r. IfSome r (λ n. n.0.machine ≡ self.now.machine)) }
        ensures next { IfOk result (λ r. (s : Shape ℕ) (b : ℕ) → IsOfShape self.now s
            → HasClass self.now.machine class b
            → MatchOption r (IsNext self.now.machine b s None) (λ n. FollowsTree n.0 b s n.1)) }
        ensures shows { IfOk result (λ r. ShowsFor self.now class r) }
        ensures same { workspace.new ≡ workspace.old }
    {
        match workspace.sample(class) {
            None => Ok(None),
            Some(byte) => workspace.advance(self.shape(), self.leaves(), byte),
        }
    }

    /// The same, with an update that was met before in the workspace, if there is one.
    pub fn advance_shared(
        &self,
        workspace: &mut Workspace<'m>,
        class: u8,
    ) -> Result<Option<(PathTree<'m>, SharedUpdate)>, Memory>
        requires { workspace.old ≡ self.now.machine }
        ensures machine { IfOk result (λ r. IfSome r (λ n. n.0.machine ≡ self.now.machine)) }
        ensures next { IfOk result (λ r. (s : Shape ℕ) (b : ℕ) → IsOfShape self.now s
            → HasClass self.now.machine class b
            → MatchOption r (IsNext self.now.machine b s None) (λ n. FollowsTree n.0 b s n.1)) }
        ensures shows { IfOk result (λ r. ShowsFor self.now class r) }
        ensures same { workspace.new ≡ workspace.old }
    {
        match workspace.sample(class) {
            None => Ok(None),
            Some(byte) => workspace.advance_shared(self.shape(), self.leaves(), byte),
        }
    }
}
