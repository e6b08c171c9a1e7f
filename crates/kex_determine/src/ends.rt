// Where a text may end: the first leaf of a tree that accepts, and the way to it.

ghost use Rattle.std.specs.Prelude.{◌≡◌, ℕ, ◌<◌, ◌≤◌, IfOk, length, map};
ghost use Rattle.kex_model.specs.Labelled.{Shape};
ghost use Rattle.kex_machine.specs.Nodes.{node_moves};
ghost use Rattle.kex_machine.specs.Advancing.{first_accepting, EachPlace};
ghost use Rattle.kex_sst.specs.declared.parts.Part.TheVariants.{Old};
ghost use Rattle.kex_sst.specs.Parts.{numbered_tree};
ghost use Rattle.kex_paths.specs.Nexts.{inner_of, places_of};
ghost use Rattle.kex_determine.specs.Rows.{is_accepting, way_to};

use kex_code::memory::Memory;
use kex_machine::MNode;
use kex_sst::parts::{Part, Parts};
use std::alloc::Global;

// Whether a text may end at a node.
fn is_end(nodes: &[MNode], place: u32) -> bool
    requires { place < length nodes.now }
    ensures { result ≡ is_accepting (node_moves nodes.now place) }
{
    match &nodes[place as usize] {
        MNode::Accept => true,
        MNode::Read(_, _) => false,
        MNode::Choice(_, _) => false,
        MNode::Forced(_, _) => false,
        MNode::Do(_, _) => false,
        MNode::Skip(_) => false,
    }
}

// The registers of these numbers, joined.
fn registers(alloc: Global, numbers: &[u32]) -> Result<Parts, Memory>
    ensures { IfOk result (λ parts. parts ≡ map (λ i. Old i) numbers.now) }
{
    let mut parts = Parts::new(alloc);
    for number in numbers {
        parts.push(Part::Old(*number))?;
    }
    Ok(parts)
}

/// The registers on the way to the first leaf at which a text may end, if there is one, by the
/// shape of a tree in preorder and its leaves.
pub fn way_to_end(
    alloc: Global,
    nodes: &[MNode],
    shape: &[bool],
    leaves: &[u32],
) -> Result<Option<Parts>, Memory>
    requires short { length shape.now ≤ 4294967296 }
    requires tree { (s : Shape ℕ) × (shape.now ≡ inner_of s) × (leaves.now ≡ places_of s)
        × EachPlace (length nodes.now) s }
    ensures { IfOk result (λ way. (s : Shape ℕ) → shape.now ≡ inner_of s → leaves.now ≡ places_of s
        → EachPlace (length nodes.now) s
        → way ≡ way_to (first_accepting (node_moves nodes.now) (numbered_tree 0 s))) }
{
    let mut way = Vec::new(alloc);
    // How long the way is to each fork whose right side is still to come.
    let mut forks = Vec::new(alloc);
    let mut leaf = 0;
    for (node, inner) in shape.iter().enumerate() {
        if *inner {
            forks.push(way.len())?;
        } else {
            if is_end(nodes, leaves[leaf]) {
                let way = registers(alloc, &way)?;
                return Ok(Some(way));
            }
            leaf += 1;
            let Some(length) = forks.pop() else {
                return Ok(None);
            };
            way.truncate(length);
        }
        // The edge to the next node.
        way.push(node as u32)?;
    }
    Ok(None)
}
