// The nodes that are kept, and their new numbers.

ghost use Rattle.std.specs.Prelude.{◌≡◌, ◌<◌, All, length, Some, IfOk, OnOk, slice_set};
ghost use Rattle.kex_machine.specs.Nodes.{move_of, node_moves};
ghost use Rattle.kex_machine.specs.declared.MNode.TheVariants.{Accept};
ghost use Rattle.kex_trim.specs.Trim.{IsNumbering, IsShrunk, NumbersOne, renumbered_move};
ghost use Rattle.kex_trim.specs.Ways.{LeadsBelow};

use kex_machine::{Bit, MNode};
use std::alloc::{AllocError, Global};

/// The nodes that are kept, in order, and the new number of each.
#[derive(Drop)]
pub struct Numbering {
    pub(crate) kept: Vec<u32>,
    pub(crate) numbers: Vec<u32>,
}

// The number of the next node, if it is kept.
fn number_one(alive: bool, s: u32, numbering: &mut Numbering) -> Result<(), AllocError>
    requires fits { s < length numbering.old.numbers.items }
    requires few { length numbering.old.kept.items < 4294967296 }
    ensures { OnOk result (NumbersOne alive s numbering.old.kept.items numbering.old.numbers.items
        numbering.new.kept.items numbering.new.numbers.items) }
{
    if alive {
        numbering.numbers[s as usize] = numbering.kept.len() as u32;
        numbering.kept.push(s)?;
    }
    Ok(())
}

// The nodes that are alive get numbers, in their order.
pub(crate) fn number(alloc: Global, alive: &[bool]) -> Result<Numbering, AllocError>
    requires few { length alive.now < 4294967296 }
    ensures { IfOk result (λ n. IsNumbering alive.now n.kept.items n.numbers.items) }
{
    let numbers = vec![in alloc; 0; alive.len()]?;
    let mut numbering = Numbering {
        kept: Vec::new(alloc),
        numbers,
    };
    for s in 0..alive.len() {
        number_one(alive[s], s as u32, &mut numbering)?;
    }
    Ok(numbering)
}

// A node by the new numbers.
fn shrunk(node: MNode, alive: &[bool], numbers: &[u32]) -> MNode
    requires below { LeadsBelow (length alive.now) node }
    requires long { length numbers.now ≡ length alive.now }
    ensures { move_of (Some result) ≡ renumbered_move alive.now numbers.now (move_of (Some node)) }
{
    match node {
        MNode::Accept => MNode::Accept,
        MNode::Read(set, next) => MNode::Read(set, numbers[next as usize]),
        MNode::Choice(left, right) => {
            if !alive[left as usize] {
                MNode::Forced(Bit::R, numbers[right as usize])
            } else if !alive[right as usize] {
                MNode::Forced(Bit::L, numbers[left as usize])
            } else {
                MNode::Choice(numbers[left as usize], numbers[right as usize])
            }
        }
        MNode::Forced(bit, next) => MNode::Forced(bit, numbers[next as usize]),
        MNode::Do(effect, next) => MNode::Do(effect, numbers[next as usize]),
        MNode::Skip(next) => MNode::Skip(numbers[next as usize]),
    }
}

// The node of a number, taken out.
fn take_node(nodes: &mut Vec<MNode>, n: u32) -> MNode
    requires { n < length nodes.old.items }
    ensures node { move_of (Some result) ≡ node_moves nodes.old.items n }
    ensures fits { All (LeadsBelow (length nodes.old.items)) nodes.old.items
        → LeadsBelow (length nodes.old.items) result }
    ensures left { nodes.new.items ≡ slice_set nodes.old.items n Accept }
{
    std::mem::replace(&mut nodes[n as usize], MNode::Accept)
}

// The nodes that are kept, by the new numbers.
pub(crate) fn shrink(
    alloc: Global,
    nodes: Vec<MNode>,
    alive: &[bool],
    numbering: &Numbering,
) -> Result<Vec<MNode>, AllocError>
    requires below { All (LeadsBelow (length nodes.items)) nodes.items }
    requires long { length alive.now ≡ length nodes.items }
    requires numbering { IsNumbering alive.now numbering.now.kept.items
        numbering.now.numbers.items }
    ensures { IfOk result (λ made. IsShrunk nodes.items made.items alive.now
        numbering.now.kept.items numbering.now.numbers.items) }
{
    let mut rest = nodes;
    let mut made = Vec::new(alloc);
    for t in 0..numbering.kept.len() {
        let node = take_node(&mut rest, numbering.kept[t]);
        made.push(shrunk(node, alive, &numbering.numbers))?;
    }
    Ok(made)
}
