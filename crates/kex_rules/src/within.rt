// Nodes that are in a definition.

ghost use Rattle.std.specs.Prelude.{◌<◌, IfOk, length};
ghost use Rattle.kex_model.specs.Programs.{HasBelow, IsGrammar};
ghost use Rattle.kex_rules.specs.Rules.{last_parts, other_parts};
ghost use Rattle.kex_rules.specs.Within.{FlagsParts, HasWithin};

use kex_code::memory::Memory;
use kex_model::program::{Kind, Program};
use std::alloc::Global;

// Flags the root of each definition, among one flag a node.
fn roots_within(alloc: Global, program: &Program) -> Result<Vec<bool>, Memory>
    requires { IsGrammar program.now }
    ensures { IfOk result (λ within.
        HasWithin program.now (length program.now.nodes) within.items) }
{
    let mut within = vec![in alloc; false; program.nodes().len()]?;
    let definitions = program.definitions();
    for definition in definitions {
        within[definition.root as usize] = true;
    }
    Ok(within)
}

// Flags the parts of a node of this kind.
fn flag_parts(within: &mut Vec<bool>, node: usize, kind: &Kind)
    requires below { HasBelow node kind.now }
    requires fits { node < length within.old.items }
    ensures { FlagsParts node (last_parts kind.now)
        (other_parts kind.now) within.old.items within.new.items }
{
    match kind {
        Kind::Seq(left, right) | Kind::Alt(left, right) => {
            within[*left as usize] = true;
            within[*right as usize] = true;
        }
        Kind::Rep { body, .. } => within[*body as usize] = true,
        Kind::Mute(body) | Kind::At(_, body) => within[*body as usize] = true,
        _ => {}
    }
}

// Which nodes are in a definition: the roots, and the parts of those that do.
pub(crate) fn nodes_within(alloc: Global, program: &Program) -> Result<Vec<bool>, Memory>
    requires { IsGrammar program.now }
    ensures { IfOk result (λ within. HasWithin program.now 0 within.items) }
{
    let mut within = roots_within(alloc, program)?;
    let nodes = program.nodes();
    let mut node = nodes.len();
    'nodes: while node > 0 {
        node -= 1;
        if within[node] {
            flag_parts(&mut within, node, &nodes[node].kind);
        }
    }
    Ok(within)
}
