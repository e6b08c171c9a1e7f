// What an update's code does at a node: a walk over the nodes, for every byte at once.

ghost use Rattle.std.specs.Prelude.{◌≡◌, ◌<◌, [], ◌∷◌, ℕ, IfOk, IfSome, length};
ghost use Rattle.kex_model.specs.Moves.{Allows};
ghost use Rattle.kex_machine.specs.Nodes.{move_of, IsBelow};
ghost use Rattle.kex_action.specs.Holdings.{Rests, step_by};
ghost use Rattle.kex_sst.specs.Parts.{value};
ghost use Rattle.kex_held.specs.Walks.{symbol_at, WalkGoesOn, Learns};

use kex_action::action::Action;
use kex_code::memory::Memory;
use kex_code::symbol::Symbol;
use kex_machine::{Bit, Effect, MNode, Trimmed};
use kex_sst::parts::Part;
use std::alloc::Global;

/// A symbol of a code, for every byte at once: the side of a choice, or the byte that is read.
#[derive(Clone, Copy, Debug, PartialEq, Eq)]
pub enum Letter {
    L,
    R,
    Read,
}

/// Where a code leads from a node, and what is done on the way.
#[derive(Drop)]
pub struct Learnt {
    pub to: u32,
    pub actions: Vec<Action>,
}

// The symbol that a part is, if it is one.
fn letter_of(part: Part) -> Option<Letter>
    ensures { IfSome result (λ x. (b : ℕ) → value [] b part ≡ symbol_at b x ∷ []) }
{
    match part {
        Part::Put(Symbol::L) => Some(Letter::L),
        Part::Put(Symbol::R) => Some(Letter::R),
        Part::Input => Some(Letter::Read),
        _ => None,
    }
}

// Where a node leads with a letter.
fn next_of(node: &MNode, letter: Letter) -> Option<u32>
    ensures rests { IfSome result (λ t. Rests (move_of (Some node.now))) }
    ensures some { IfSome result (λ t. (b s : ℕ)
        → Allows (move_of (Some node.now)) (step_by (symbol_at b letter) s) → s ≡ t) }
    ensures within { IfSome result (λ t. (count registers : ℕ) → IsBelow count registers node.now
        → t < count) }
{
    match (node, letter) {
        (MNode::Read(_, next), Letter::Read) => Some(*next),
        (MNode::Choice(left, _), Letter::L) => Some(*left),
        (MNode::Choice(_, right), Letter::R) => Some(*right),
        (MNode::Forced(Bit::L, next), Letter::L) => Some(*next),
        (MNode::Forced(Bit::R, next), Letter::R) => Some(*next),
        _ => None,
    }
}

// Goes on until a symbol or the end comes next, or up to a node, and notes what is done.
fn go_on(
    machine: &Trimmed,
    from: u32,
    stop: u32,
    actions: &mut Vec<Action>,
) -> Result<Option<u32>, Memory>
    requires { from < length machine.now.nodes }
    ensures ok { IfOk result (λ o.
        IfSome o (λ t. WalkGoesOn machine.now.nodes from actions.old.items t actions.new.items)) }
    ensures within { IfOk result (λ o. IfSome o (λ t. t < length machine.now.nodes)) }
{
    let nodes = machine.nodes();
    let mut at = from;
    for _ in 0..nodes.len() {
        if at == stop {
            return Ok(Some(at));
        }
        match &nodes[at as usize] {
            MNode::Do(_, next) => {
                actions.push(Action::Node(at))?;
                at = *next;
            }
            MNode::Skip(next) => at = *next,
            _ => return Ok(Some(at)),
        }
    }
    Ok(None)
}

// The first of the buffers that were opened on a walk and are still open: the node that opens it,
// and how many there are.
#[derive(Clone, Copy)]
struct Opened {
    by: u32,
    count: u32,
}

// No node.
const NO_NODE: u32 = 4_294_967_295;

// How many buffers are counted.
const MOST: u32 = 16;

// What is open after an effect.
fn behind(opened: Opened, effect: &Effect, node: u32) -> Opened {
    match effect {
        Effect::Open if opened.count == 0 => Opened { by: node, count: 1 },
        Effect::Open if opened.count < MOST => Opened {
            by: opened.by,
            count: opened.count + 1,
        },
        Effect::Drop | Effect::Into(_) if opened.count > 1 => Opened {
            by: opened.by,
            count: opened.count - 1,
        },
        Effect::Drop | Effect::Into(_) => Opened {
            by: NO_NODE,
            count: 0,
        },
        _ => opened,
    }
}

// The node that opens the first of the buffers that are still open where a symbol or the end comes
// next.
fn opener_of(machine: &Trimmed, from: u32) -> u32
    requires { from < length machine.now.nodes }
{
    let nodes = machine.nodes();
    let mut at = from;
    let mut opened = Opened {
        by: NO_NODE,
        count: 0,
    };
    for _ in 0..nodes.len() {
        match &nodes[at as usize] {
            MNode::Do(effect, next) => {
                opened = behind(opened, effect, at);
                at = *next;
            }
            MNode::Skip(next) => at = *next,
            _ => return opened.by,
        }
    }
    NO_NODE
}

// Where the code of the parts leads from a node. An early end is before a buffer that is opened
// last and stays open.
fn follow(
    alloc: Global,
    machine: &Trimmed,
    from: u32,
    parts: &[Part],
    early: bool,
) -> Result<Option<Learnt>, Memory>
    requires { from < length machine.now.nodes }
    ensures learns { IfOk result (λ o.
        IfSome o (λ l. Learns machine.now.nodes from parts.now l.to l.actions.items)) }
    ensures within { IfOk result (λ o. IfSome o (λ l. l.to < length machine.now.nodes)) }
{
    let mut actions = Vec::new(alloc);
    let mut at = from;
    for part in parts {
        let Some(letter) = letter_of(*part) else {
            return Ok(None);
        };
        let Some(rest) = go_on(machine, at, NO_NODE, &mut actions)? else {
            return Ok(None);
        };
        let Some(next) = next_of(&machine.nodes()[rest as usize], letter) else {
            return Ok(None);
        };
        if let Letter::Read = letter {
            actions.push(Action::Byte)?;
        }
        at = next;
    }
    let stop = if early {
        opener_of(machine, at)
    } else {
        NO_NODE
    };
    let Some(to) = go_on(machine, at, stop, &mut actions)? else {
        return Ok(None);
    };
    Ok(Some(Learnt { to, actions }))
}

// How many buffers are open after an action, if it only writes, opens one, or drops one that was
// opened before.
fn depth_behind(machine: &Trimmed, action: Action, depth: u32) -> Option<u32> {
    let Action::Node(n) = action else {
        return Some(depth);
    };
    match machine.nodes().get(n as usize) {
        Some(MNode::Do(Effect::Lit(_), _)) => Some(depth),
        Some(MNode::Do(Effect::Open, _)) if depth < MOST => Some(depth + 1),
        Some(MNode::Do(Effect::Drop, _)) if depth > 0 => Some(depth - 1),
        _ => None,
    }
}

// Whether the actions only write, and open and drop buffers.
fn only_write(machine: &Trimmed, actions: &[Action]) -> bool {
    let mut depth = 0;
    for action in actions {
        let Some(new) = depth_behind(machine, *action, depth) else {
            return false;
        };
        depth = new;
    }
    depth == 0
}

/// Where the code of the parts leads from a node. `None` says nothing.
///
/// Where a buffer is opened last, it ends before that if only a text is written up to there: what
/// is read next into the buffer, and dropped at once, is never written then.
pub fn learn(
    alloc: Global,
    machine: &Trimmed,
    from: u32,
    parts: &[Part],
) -> Result<Option<Learnt>, Memory>
    requires { from < length machine.now.nodes }
    ensures learns { IfOk result (λ o.
        IfSome o (λ l. Learns machine.now.nodes from parts.now l.to l.actions.items)) }
    ensures within { IfOk result (λ o. IfSome o (λ l. l.to < length machine.now.nodes)) }
{
    if let Some(learnt) = follow(alloc, machine, from, parts, true)? {
        if only_write(machine, &learnt.actions) {
            return Ok(Some(learnt));
        }
    }
    follow(alloc, machine, from, parts, false)
}

/// Where the code of the parts leads from a node, up to where a symbol or the end comes next.
/// `None` says nothing.
pub fn learn_to_rest(
    alloc: Global,
    machine: &Trimmed,
    from: u32,
    parts: &[Part],
) -> Result<Option<Learnt>, Memory>
    requires { from < length machine.now.nodes }
    ensures learns { IfOk result (λ o.
        IfSome o (λ l. Learns machine.now.nodes from parts.now l.to l.actions.items)) }
    ensures within { IfOk result (λ o. IfSome o (λ l. l.to < length machine.now.nodes)) }
{
    follow(alloc, machine, from, parts, false)
}
