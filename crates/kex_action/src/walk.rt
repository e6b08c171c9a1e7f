// Walking along a machine's nodes.

ghost use Rattle.std.specs.Prelude.{◌≡◌, ◌<◌, [], ◌∷◌, ℕ, IfOk, OnErr, IfSome, IfNone, IsTrue, ◌↔◌};
ghost use Rattle.std.specs.Prelude.{length};
ghost use Rattle.kex_model.specs.Moves.{Allows, accept, symbol_of};
ghost use Rattle.kex_machine.specs.Nodes.{node_moves, move_of, side_of};
ghost use Rattle.kex_action.specs.Holdings.{state_of, step_by, Rests, Fits, LeadsByCode};
ghost use Rattle.kex_action.specs.Holdings.{WritesFront, FollowedCode, ReachesSilently, CanAct};
ghost use Rattle.kex_action.specs.Holdings.{PassesMove, IsPassed};

use crate::store::Store;
use kex_code::memory::Memory;
use kex_code::symbol::Symbol;
use kex_machine::{Bit, MNode, Trimmed};

/// Where a walk along symbols has come, and how many were followed.
#[derive(Drop)]
pub struct Walked {
    pub at: u32,
    pub count: usize,
}

// Whether a side is that of the symbol.
fn is_of(bit: Bit, symbol: Symbol) -> bool
    ensures { IsTrue result ↔ (symbol_of (side_of bit) ≡ symbol) }
{
    matches!((bit, symbol), (Bit::L, Symbol::L) | (Bit::R, Symbol::R))
}

// Where a node leads with a symbol.
fn next_of(node: &MNode, symbol: Symbol) -> Option<u32>
    ensures some { IfSome result (λ t. Allows (move_of (Some node.now)) (step_by symbol t)) }
    ensures none { IfNone result ((t : ℕ) → Allows (move_of (Some node.now)) (step_by symbol t)
        → ⊥) }
{
    match (node, symbol) {
        (MNode::Read(set, next), Symbol::Byte(byte)) if set.has(byte) => Some(*next),
        (MNode::Choice(left, _), Symbol::L) => Some(*left),
        (MNode::Choice(_, right), Symbol::R) => Some(*right),
        (MNode::Forced(bit, next), _) if is_of(*bit, symbol) => Some(*next),
        _ => None,
    }
}

// Does what a node does without a symbol, and tells where it leads.
fn pass(node: &MNode, store: &mut Store, out: &mut Vec<u8>) -> Result<Option<u32>, Memory>
    requires { CanAct (length store.old.registers) node.now }
    ensures some { IfOk result (λ o. IfSome o (λ t. PassesMove (move_of (Some node.now))
        (state_of out.old.items store.old) t (state_of out.new.items store.new))) }
    ensures none { IfOk result (λ o. IfNone o (Rests (move_of (Some node.now)))) }
    ensures same { IfOk result (λ o.
        IfNone o (state_of out.new.items store.new ≡ state_of out.old.items store.old)) }
    ensures err { OnErr result (out.new.items ≡ out.old.items) }
{
    match node {
        MNode::Do(effect, next) => {
            store.perform(effect, out)?;
            Ok(Some(*next))
        }
        MNode::Skip(next) => Ok(Some(*next)),
        _ => Ok(None),
    }
}

// Where a node leads without a symbol.
fn passed(node: &MNode) -> Option<u32>
    ensures some { IfSome result (λ t. IsPassed (move_of (Some node.now)) t) }
    ensures none { IfNone result (Rests (move_of (Some node.now))) }
{
    match node {
        MNode::Do(_, next) => Some(*next),
        MNode::Skip(next) => Some(*next),
        _ => None,
    }
}

// Goes on until a symbol or the end comes next.
fn go_on(machine: &Trimmed, from: u32, store: &mut Store, out: &mut Vec<u8>) -> Result<u32, Memory>
    requires { Fits machine.now from store.old }
    ensures leads { IfOk result (λ t. LeadsByCode machine.now.nodes from
        (state_of out.old.items store.old) [] t (state_of out.new.items store.new)) }
    ensures rests { IfOk result (λ t. Rests (node_moves machine.now.nodes t)) }
    ensures fits { IfOk result (λ t. Fits machine.now t store.new) }
    ensures err { OnErr result
        (WritesFront machine.now.nodes from (state_of out.old.items store.old) [] out.new.items) }
{
    let nodes = machine.machine().nodes();
    let mut at = from;
    for _ in 0..nodes.len() {
        let Some(next) = pass(&nodes[at as usize], store, out)? else {
            return Ok(at);
        };
        at = next;
    }
    // Without a symbol no node is entered twice.
    unreachable!()
}

// Takes a symbol, if there is a step for it.
fn step(
    machine: &Trimmed,
    from: u32,
    symbol: Symbol,
    store: &mut Store,
    out: &mut Vec<u8>,
) -> Result<Option<u32>, Memory>
    requires { Fits machine.now from store.old }
    ensures some { IfOk result (λ o. IfSome o (λ t. LeadsByCode machine.now.nodes from
        (state_of out.old.items store.old) (symbol ∷ []) t (state_of out.new.items store.new))) }
    ensures fits { IfOk result (λ o. IfSome o (λ t. Fits machine.now t store.new)) }
    ensures none { IfOk result (λ o.
        IfNone o ((t : ℕ) → Allows (node_moves machine.now.nodes from) (step_by symbol t) → ⊥)) }
    ensures same { IfOk result (λ o.
        IfNone o (state_of out.new.items store.new ≡ state_of out.old.items store.old)) }
    ensures err { OnErr result (out.new.items ≡ out.old.items) }
{
    let nodes = machine.machine().nodes();
    let Some(next) = next_of(&nodes[from as usize], symbol) else {
        return Ok(None);
    };
    if let Symbol::Byte(byte) = symbol {
        store.write(&[byte], out)?;
    }
    Ok(Some(next))
}

/// Follows the symbols as far as there are steps for them.
pub fn follow(
    machine: &Trimmed,
    from: u32,
    symbols: &[Symbol],
    store: &mut Store,
    out: &mut Vec<u8>,
) -> Result<Walked, Memory>
    requires { Fits machine.now from store.old }
    ensures ok { IfOk result (λ w. FollowedCode machine.now from
        (state_of out.old.items store.old) symbols.now w.count w.at out.new.items store.new) }
    ensures err { OnErr result (WritesFront machine.now.nodes from
        (state_of out.old.items store.old) symbols.now out.new.items) }
{
    let mut at = go_on(machine, from, store, out)?;
    for (count, symbol) in symbols.iter().enumerate() {
        let Some(next) = step(machine, at, *symbol, store, out)? else {
            return Ok(Walked { at, count });
        };
        at = go_on(machine, next, store, out)?;
    }
    Ok(Walked {
        at,
        count: symbols.len(),
    })
}

/// The node to which a walk without a symbol leads.
pub fn rest_of(machine: &Trimmed, from: u32) -> u32
    requires { from < length machine.now.nodes }
    ensures leads { ReachesSilently machine.now.nodes from result }
    ensures rests { Rests (node_moves machine.now.nodes result) }
    ensures within { result < length machine.now.nodes }
{
    let nodes = machine.machine().nodes();
    let mut at = from;
    for _ in 0..nodes.len() {
        let Some(next) = passed(&nodes[at as usize]) else {
            return at;
        };
        at = next;
    }
    // Without a symbol no node is entered twice.
    unreachable!()
}

/// Whether a node is the end.
pub fn is_end(node: &MNode) -> bool
    ensures { IsTrue result ↔ (move_of (Some node.now) ≡ accept) }
{
    matches!(node, MNode::Accept)
}
