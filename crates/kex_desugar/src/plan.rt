// What a place does, before anything has a number.

ghost use Rattle.std.specs.Prelude.{◌≡◌, ◌∷◌, IfOk, option_copied};
ghost use Rattle.kex_model.specs.Moves.{go};
ghost use Rattle.kex_model.specs.declared.program.Kind.TheVariants.{Rep};
ghost use Rattle.kex_model.specs.Trees.{kind_at, less};
ghost use Rattle.kex_model.specs.Places.{Place, enter, with_counts, moves_of, moves, end_effect};
ghost use Rattle.kex_desugar.specs.Plans.{MapHasRoots, kind_or, plan_move};

use crate::roots::root_by_name;
use indexmap::IndexMap;
use kex_byteset::ByteSet;
use kex_code::memory::Memory;
use kex_machine::Effect;
use kex_model::frame::Frame;
use kex_model::program::{Kind, Program};

/// What is put on the rest of a place: nothing, a frame, or two, the upper first.
#[derive(Clone, Copy)]
pub enum Way {
    Rest,
    Under(Frame),
    Both(Frame, Frame),
}

/// What a place does, and what it puts on its rest.
#[derive(Drop)]
pub enum NodePlan {
    Take(ByteSet),
    Fork(Way, Way),
    Act(Effect, Way),
    Pass(Way),
}

// The kind of a node, if there is one.
fn kind_of(program: &Program, n: u32) -> Option<&Kind>
    ensures { kind_at program.now n ≡ kind_or (option_copied result) }
{
    match program.nodes().get(n as usize) {
        None => None,
        Some(node) => Some(&node.kind),
    }
}

// The frame of a node that is begun.
pub(crate) fn entered(program: &Program, n: u32) -> Frame
    ensures { result ≡ enter program.now n }
{
    match kind_of(program, n) {
        Some(Kind::Rep { min, max, .. }) => Frame::Pending {
            node: n,
            need: *min,
            left: *max,
        },
        _ => Frame::Pending {
            node: n,
            need: 0,
            left: None,
        },
    }
}

// One turn less.
fn one_less(left: Option<u32>) -> Option<u32>
    ensures { result ≡ less left }
{
    match left {
        None => None,
        Some(n) => Some(n.saturating_sub(1)),
    }
}

// The plan of a repetition's node, with the turns that are needed and left.
fn rep_plan(
    program: &Program,
    node: u32,
    body: u32,
    need: u32,
    left: Option<u32>,
    lazy: bool,
) -> NodePlan
    ensures { (q : Place)
        → moves_of program.now node (Rep body need left lazy) q ≡ plan_move result q }
{
    let turn = entered(program, body);
    let again = Frame::Pending {
        node,
        need: need.saturating_sub(1),
        left: one_less(left),
    };
    if need > 0 {
        return NodePlan::Pass(Way::Both(turn, again));
    }
    match left {
        Some(0) => NodePlan::Pass(Way::Rest),
        _ if lazy => NodePlan::Fork(Way::Rest, Way::Both(turn, again)),
        _ => NodePlan::Fork(Way::Both(turn, again), Way::Rest),
    }
}

// The plan of a node of a kind, with the turns that are needed and left.
fn kind_plan(
    program: &Program,
    roots: &IndexMap<u32, u32>,
    kind: &Kind,
    node: u32,
    need: u32,
    left: Option<u32>,
) -> Result<NodePlan, Memory>
    requires { MapHasRoots program.now roots.now }
    ensures { IfOk result (λ plan. (q : Place)
        → moves_of program.now node (with_counts kind.now need left) q ≡ plan_move plan q) }
{
    let plan = match kind {
        Kind::One => NodePlan::Pass(Way::Rest),
        Kind::Lit(bytes) => NodePlan::Act(Effect::Lit(bytes.copy()?), Way::Rest),
        Kind::Class(set) => NodePlan::Take(set.copy()),
        Kind::Call(name) => NodePlan::Pass(Way::Under(entered(
            program,
            root_by_name(roots, *name),
        ))),
        Kind::Seq(l, r) => NodePlan::Pass(Way::Both(entered(program, *l), entered(program, *r))),
        Kind::Alt(l, r) => NodePlan::Fork(
            Way::Under(entered(program, *l)),
            Way::Under(entered(program, *r)),
        ),
        Kind::Rep { body, lazy, .. } => rep_plan(program, node, *body, need, left, *lazy),
        Kind::Mute(body) | Kind::At(_, body) => NodePlan::Act(
            Effect::Open,
            Way::Both(entered(program, *body), Frame::EndOf(node)),
        ),
        Kind::Write(r) => NodePlan::Act(Effect::Write(*r), Way::Rest),
        Kind::Set(r, parts) => NodePlan::Act(Effect::Set(*r, parts.copy()?), Way::Rest),
        Kind::Add(r, parts) => NodePlan::Act(Effect::Add(*r, parts.copy()?), Way::Rest),
    };
    Ok(plan)
}

// The plan of the end of a node.
fn end_plan(program: &Program, n: u32) -> NodePlan
    ensures { (q : Place) → go (end_effect (kind_at program.now n)) q ≡ plan_move result q }
{
    match kind_of(program, n) {
        Some(Kind::Mute(_)) => NodePlan::Act(Effect::Drop, Way::Rest),
        Some(Kind::At(r, _)) => NodePlan::Act(Effect::Into(*r), Way::Rest),
        _ => NodePlan::Pass(Way::Rest),
    }
}

// The plan of a frame.
pub(crate) fn frame_plan(
    program: &Program,
    roots: &IndexMap<u32, u32>,
    frame: Frame,
) -> Result<NodePlan, Memory>
    requires { MapHasRoots program.now roots.now }
    ensures { IfOk result (λ plan. (q : Place) → moves program.now (frame ∷ q) ≡ plan_move plan q) }
{
    match frame {
        Frame::EndOf(n) => Ok(end_plan(program, n)),
        Frame::Pending { node, need, left } => match kind_of(program, node) {
            None => Ok(NodePlan::Pass(Way::Rest)),
            Some(kind) => kind_plan(program, roots, kind, node, need, left),
        },
    }
}
