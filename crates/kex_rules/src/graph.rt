// A program as a graph: its nodes are vertices, and so are its names, which come after the nodes.

ghost use Rattle.std.specs.Prelude.{◌≡◌, ◌<◌, ◌^◌, length};
ghost use Rattle.kex_rules.specs.Graphs.{kind_successors, successor_list, root_successors};
ghost use Rattle.kex_rules.specs.Graphs.{vertices, vertex_successors};
ghost use Rattle.kex_rules.specs.Tables.{HasRoots};

use kex_model::program::{Kind, Program};

/// Where a vertex leads.
#[derive(Clone, Copy)]
pub enum VertexSuccessors {
    NoWay,
    One(usize),
    Two(usize, usize),
}

// Where a node of this kind leads, with this number of nodes before the names.
fn successors_of_kind(nodes: usize, kind: &Kind) -> VertexSuccessors
    requires { nodes < 2 ^ 63 }
    ensures { successor_list result ≡ kind_successors nodes kind.now }
{
    match kind {
        Kind::Call(name) => VertexSuccessors::One(nodes + *name as usize),
        Kind::Seq(left, right) | Kind::Alt(left, right) => {
            VertexSuccessors::Two(*left as usize, *right as usize)
        }
        Kind::Rep { body, .. } => VertexSuccessors::One(*body as usize),
        Kind::Mute(body) | Kind::At(_, body) => VertexSuccessors::One(*body as usize),
        _ => VertexSuccessors::NoWay,
    }
}

// Where a name leads.
fn successors_of_root(root: Option<u32>) -> VertexSuccessors
    ensures { successor_list result ≡ root_successors root }
{
    match root {
        None => VertexSuccessors::NoWay,
        Some(root) => VertexSuccessors::One(root as usize),
    }
}

// Where a vertex leads, by the roots of the names.
pub(crate) fn successors_of(program: &Program, roots: &[Option<u32>], v: usize) -> VertexSuccessors
    requires roots { HasRoots program.now.definitions (length program.now.names) roots.now }
    requires fits { v < vertices program.now }
    ensures { successor_list result ≡ vertex_successors program.now v }
{
    let nodes = program.nodes();
    match nodes.get(v) {
        Some(node) => successors_of_kind(nodes.len(), &node.kind),
        None => successors_of_root(roots[v - nodes.len()]),
    }
}
