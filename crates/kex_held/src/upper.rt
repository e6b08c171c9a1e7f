// Where a register of a state begins: the node at the upper end of its edge of the path tree.
//
// A table doesn't say it, and where constants were taken out not even the preorder of its registers
// does. But what is passed on later says it, where it takes the register after what is known.
// Nothing rests on the answer.

use crate::item::RegisterText;
use crate::track::Tracked;
use kex_byteset::Partition;
use kex_code::memory::Memory;
use kex_code::symbol::Symbol;
use kex_machine::{MNode, Trimmed};
use kex_sst::parts::{Part, Parts, Update};
use kex_sst::table::Table;
use std::alloc::Global;

/// How many nodes are passed that need no symbol.
const MOST_PASSED: usize = 256;

/// How many places are looked at for one register.
const MOST_PLACES: usize = 64;

/// A register of a state, where the actor is at a node.
#[derive(Clone, Copy, Debug, PartialEq, Eq)]
pub struct Place {
    pub state: u32,
    pub root: u32,
    pub register: u32,
}

/// Where a walk along parts has come: to the register that is looked for, to the end, or to a part
/// past which nothing is known.
#[derive(Clone, Copy, Debug, PartialEq, Eq)]
pub enum Came {
    ToRegister(u32),
    ToEnd(u32),
    Nowhere,
}

// The node at which a symbol or the end comes next.
fn rest(machine: &Trimmed, node: u32) -> u32 {
    let mut at = node;
    for _ in 0..MOST_PASSED {
        match machine.nodes().get(at as usize) {
            Some(MNode::Do(_, next)) => at = *next,
            Some(MNode::Skip(next)) => at = *next,
            _ => return at,
        }
    }
    at
}

/// A byte of a class.
pub fn byte_of(partition: &Partition, class: u8) -> u8 {
    for byte in 0..256_usize {
        if partition.class_of(byte as u8) == class {
            return byte as u8;
        }
    }
    0
}

// Where a part leads from a node at which a symbol or the end comes next, where a byte is read and
// the registers hold these texts.
fn next_by(
    machine: &Trimmed,
    texts: &[RegisterText],
    at: u32,
    part: Part,
    byte: u8,
) -> Option<u32> {
    match (machine.nodes().get(at as usize)?, part) {
        (_, Part::Old(register)) => {
            let text = texts.get(register as usize)?;
            if text.from() == at {
                Some(text.to())
            } else {
                None
            }
        }
        (MNode::Choice(left, _), Part::Put(Symbol::L)) => Some(*left),
        (MNode::Choice(_, right), Part::Put(Symbol::R)) => Some(*right),
        (MNode::Forced(_, next), Part::Put(_)) => Some(*next),
        (MNode::Read(set, next), Part::Input) if set.has(byte) => Some(*next),
        _ => None,
    }
}

// Whether parts can be taken from a node, where a byte is read.
fn can_take(
    machine: &Trimmed,
    texts: &[RegisterText],
    from: u32,
    parts: &[Part],
    byte: u8,
) -> bool {
    let mut at = rest(machine, from);
    for part in parts {
        let Some(next) = next_by(machine, texts, at, *part, byte) else {
            return false;
        };
        at = rest(machine, next);
    }
    true
}

/// Those of some nodes from which parts can be taken where a byte is read, each once.
pub fn able_nodes(
    alloc: Global,
    machine: &Trimmed,
    texts: &[RegisterText],
    nodes: &[u32],
    parts: &[Part],
    byte: u8,
) -> Result<Vec<u32>, Memory> {
    let mut able = Vec::new(alloc);
    for node in nodes {
        if !able.contains(node) && can_take(machine, texts, *node, parts, byte) {
            able.push(*node)?;
        }
    }
    Ok(able)
}

// Whether one of the lists begins at a node as these parts do.
fn is_taken(known: &[Tracked], lists: &[Parts], node: u32, parts: &[Part]) -> bool {
    for (number, tracked) in known.iter().enumerate() {
        if tracked.from() == node && begins_alike(lists, number, parts) {
            return true;
        }
    }
    false
}

// Whether the list of a number begins with the same part.
fn begins_alike(lists: &[Parts], number: usize, parts: &[Part]) -> bool {
    match lists.get(number) {
        Some(list) => list.as_slice().first() == parts.first(),
        None => false,
    }
}

// Where the left side of a node is taken the latest, its right side is likely next.
fn put_latest(known: &[Tracked], nodes: &mut Vec<u32>) -> Result<(), Memory> {
    for later in 0..known.len() {
        let node = known[known.len() - 1 - later].from();
        if nodes.contains(&node) {
            nodes.insert(0, node)?;
            return Ok(());
        }
    }
    Ok(())
}

/// Nodes at which a list may begin, the likeliest first: those at which no earlier list begins with
/// the same part, and the others.
#[derive(Drop)]
pub struct Starts {
    pub free: Vec<u32>,
    pub taken: Vec<u32>,
}

/// The nodes at which parts may begin, by whether an earlier list begins there as they do: mostly
/// edges of the path tree begin apart, in preorder.
pub fn by_taken(
    alloc: Global,
    known: &[Tracked],
    lists: &[Parts],
    nodes: &[u32],
    parts: &[Part],
) -> Result<Starts, Memory> {
    let mut free = Vec::new(alloc);
    let mut taken = Vec::new(alloc);
    for node in nodes {
        if is_taken(known, lists, *node, parts) {
            taken.push(*node)?;
        } else {
            free.push(*node)?;
        }
    }
    if free.len() > 1 && parts.first() == Some(&Part::Put(Symbol::R)) {
        put_latest(known, &mut free)?;
    }
    Ok(Starts { free, taken })
}

/// The node at which a list begins that goes on with an old register.
pub fn start_of(texts: &[RegisterText], parts: &[Part]) -> Option<u32> {
    match parts.first() {
        Some(Part::Old(register)) => Some(texts.get(*register as usize)?.from()),
        _ => None,
    }
}

// Where choices lead from a node, up to the first register.
fn walk(machine: &Trimmed, from: u32, parts: &[Part], register: u32) -> Came {
    let mut at = rest(machine, from);
    for part in parts {
        if *part == Part::Old(register) {
            return Came::ToRegister(at);
        }
        let next = match (machine.nodes().get(at as usize), *part) {
            (Some(MNode::Choice(left, _)), Part::Put(Symbol::L)) => *left,
            (Some(MNode::Choice(_, right)), Part::Put(Symbol::R)) => *right,
            (Some(MNode::Forced(_, next)), Part::Put(_)) => *next,
            _ => return Came::Nowhere,
        };
        at = rest(machine, next);
    }
    Came::ToEnd(at)
}

// The node at which a register begins in a list, after one whose lower end is known.
fn behind(machine: &Trimmed, known: &[Tracked], parts: &[Part], register: u32) -> Option<u32> {
    let mut at = Came::Nowhere;
    for part in parts {
        if let (Came::ToEnd(node), Part::Old(old)) = (at, *part) {
            if old == register {
                return Some(node);
            }
        }
        at = match (*part, at) {
            (Part::Old(old), _) => match known.get(old as usize) {
                Some(tracked) => walk(machine, tracked.to(), &[], register),
                None => Came::Nowhere,
            },
            (_, Came::ToEnd(node)) => walk(machine, node, &[*part], register),
            _ => Came::Nowhere,
        };
    }
    None
}

// The same in any list of an update.
fn behind_any(machine: &Trimmed, known: &[Tracked], update: &Update, register: u32) -> Option<u32> {
    if let Some(node) = behind(machine, known, update.out().as_slice(), register) {
        return Some(node);
    }
    for parts in update.regs() {
        if let Some(node) = behind(machine, known, parts.as_slice(), register) {
            return Some(node);
        }
    }
    None
}

// Notes the registers after an update that begin with what a register held.
fn follow(
    places: &mut Vec<Place>,
    target: u32,
    root: u32,
    lists: &[Parts],
    register: u32,
) -> Result<(), Memory> {
    for (number, parts) in lists.iter().enumerate() {
        let Ok(number) = u32::try_from(number) else {
            return Ok(());
        };
        let place = Place {
            state: target,
            root,
            register: number,
        };
        let begins = parts.as_slice().first() == Some(&Part::Old(register));
        if begins && !places.contains(&place) {
            places.push(place)?;
        }
    }
    Ok(())
}

// What the transitions of a place's state tell of its register; else where it goes on.
fn look(
    table: &Table,
    machine: &Trimmed,
    known: &[Tracked],
    place: Place,
    places: &mut Vec<Place>,
) -> Result<Option<u32>, Memory> {
    let Some(state) = table.states().get(place.state as usize) else {
        return Ok(None);
    };
    let (_numbers, different) = state.go().parts();
    for transition in different {
        let Some(transition) = transition else {
            continue;
        };
        let update = transition.update.get();
        match walk(machine, place.root, update.out().as_slice(), place.register) {
            Came::ToRegister(node) => return Ok(Some(node)),
            Came::ToEnd(root) => {
                follow(
                    places,
                    transition.target,
                    root,
                    update.regs(),
                    place.register,
                )?;
            }
            Came::Nowhere => {}
        }
        if known.is_empty() {
            continue;
        }
        if let Some(node) = behind_any(machine, known, update, place.register) {
            return Ok(Some(node));
        }
    }
    Ok(None)
}

/// The node at which a register of a state begins, as far as what comes later tells it, where the
/// actor is at a node and these registers before it are known.
pub fn upper_end(
    alloc: Global,
    table: &Table,
    machine: &Trimmed,
    known: &[Tracked],
    place: Place,
) -> Result<Option<u32>, Memory> {
    let mut places = Vec::new(alloc);
    places.push(place)?;
    for at in 0..MOST_PLACES {
        let Some(next) = places.get(at).copied() else {
            return Ok(None);
        };
        let known = if at == 0 { known } else { &[] };
        if let Some(node) = look(table, machine, known, next, &mut places)? {
            return Ok(Some(node));
        }
    }
    Ok(None)
}
