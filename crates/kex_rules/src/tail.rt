// Calls that are outside tail position and come back.

ghost use Rattle.std.specs.Prelude.{◌<◌, ◌≤◌, ◌∷◌, [], IfOk, length};
ghost use Rattle.kex_model.specs.Programs.{HasBelow, IsGrammar};
ghost use Rattle.kex_rules.specs.Graphs.{AreComponents, vertices, vertex_successors};
ghost use Rattle.kex_rules.specs.Rules.{IsNotTail, last_parts, other_parts};
ghost use Rattle.kex_rules.specs.Tables.{IsLeastOffset};
ghost use Rattle.kex_rules.specs.Tails.{HasApart, MarksParts};

use crate::components::Mark;
use crate::names::lowest;
use kex_code::memory::Memory;
use kex_model::program::{Kind, Program};
use std::alloc::Global;

// A last part of a node in its component is apart if the node is.
fn mark_last(marks: &[Mark], apart: &mut Vec<bool>, node: usize, part: u32)
    requires below { part < node }
    requires fits { node < length apart.old.items }
    requires long { length apart.old.items ≤ length marks.now }
    ensures { MarksParts marks.now node (part ∷ []) [] apart.old.items apart.new.items }
{
    if apart[node] && marks[node] == marks[part as usize] {
        apart[part as usize] = true;
    }
}

// Another part of a node in its component is apart.
fn mark_other(marks: &[Mark], apart: &mut Vec<bool>, node: usize, part: u32)
    requires below { part < node }
    requires fits { node < length apart.old.items }
    requires long { length apart.old.items ≤ length marks.now }
    ensures { MarksParts marks.now node [] (part ∷ []) apart.old.items apart.new.items }
{
    if marks[node] == marks[part as usize] {
        apart[part as usize] = true;
    }
}

// The parts of a node of this kind.
fn mark_parts(marks: &[Mark], apart: &mut Vec<bool>, node: usize, kind: &Kind)
    requires below { HasBelow node kind.now }
    requires fits { node < length apart.old.items }
    requires long { length apart.old.items ≤ length marks.now }
    ensures { MarksParts marks.now node (last_parts kind.now)
        (other_parts kind.now) apart.old.items apart.new.items }
{
    match kind {
        Kind::Seq(first, last) => {
            mark_other(marks, apart, node, *first);
            mark_last(marks, apart, node, *last);
        }
        Kind::Alt(left, right) => {
            mark_last(marks, apart, node, *left);
            mark_last(marks, apart, node, *right);
        }
        Kind::Rep { body, .. } => mark_other(marks, apart, node, *body),
        Kind::Mute(body) | Kind::At(_, body) => mark_other(marks, apart, node, *body),
        _ => {}
    }
}

// Which nodes are outside tail position on a way within their component.
fn apart_nodes(alloc: Global, program: &Program, marks: &[Mark]) -> Result<Vec<bool>, Memory>
    requires grammar { IsGrammar program.now }
    requires long { length program.now.nodes ≤ length marks.now }
    ensures { IfOk result (λ apart. HasApart program.now marks.now 0 apart.items) }
{
    let nodes = program.nodes();
    let mut apart = vec![in alloc; false; nodes.len()]?;
    let mut node = nodes.len();
    'nodes: while node > 0 {
        node -= 1;
        mark_parts(marks, &mut apart, node, &nodes[node].kind);
    }
    Ok(apart)
}

// The lowest offset of a call outside tail position of a name that reaches the definition it is in.
pub(crate) fn lowest_not_tail(
    alloc: Global,
    program: &Program,
    marks: &[Mark],
) -> Result<Option<u32>, Memory>
    requires grammar { IsGrammar program.now }
    requires parted { AreComponents (vertex_successors program.now)
        (vertices program.now) marks.now }
    ensures { IfOk result (λ found. IsLeastOffset (IsNotTail program.now) found) }
{
    let apart = apart_nodes(alloc, program, marks)?;
    let nodes = program.nodes();
    let mut found = None;
    for n in 0..nodes.len() {
        if let Kind::Call(_) = nodes[n].kind {
            if apart[n] {
                found = lowest(found, nodes[n].at);
            }
        }
    }
    Ok(found)
}
