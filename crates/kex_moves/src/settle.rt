// What is done along a walk, as an edge.

ghost use Rattle.std.specs.Prelude.{◌≡◌, ℕ, List, [], ◌∷◌, IfOk, IfSome, IsTrue, slice_set};
ghost use Rattle.kex_model.specs.Acting.{ActingState, after_effect};
ghost use Rattle.kex_machine.specs.declared.MNode.{MNode};
ghost use Rattle.kex_machine.specs.Nodes.{node_moves, effect_of};
ghost use Rattle.kex_action.specs.Holdings.{with_bytes};
ghost use Rattle.kex_action.specs.Actions.{after_move, after_action, after_actions};
ghost use Rattle.kex_action.specs.Deeds.{after_deeds};
ghost use Rattle.kex_action.specs.Sheets.{with_buffer};
ghost use Rattle.kex_moves.specs.Known.{HasPlace, IsOrdered, Settles, Lengthens};
ghost use Rattle.kex_moves.specs.Drafts.{IsDraft, Drafts, IsTurn, KeepsActions};

use crate::edge::Edge;
use crate::edges::Edges;
use kex_action::action::Action;
use kex_action::deed::{Deed, deed_of};
use kex_code::memory::Memory;
use kex_machine::{Effect, MNode, Trimmed};
use std::alloc::Global;

/// Of a text of at most 16 bytes the place of the byte read, 16 where it has none, and how many
/// buffers were opened after it that nothing is kept of.
#[derive(Clone, Copy, Debug, PartialEq, Eq)]
pub struct EdgeDraft {
    pub place: usize,
    pub depth: usize,
}

// What a node does, if it does anything.
fn effect_at(machine: &Trimmed, n: u32) -> Option<&Effect>
    ensures { IfSome result (λ e. (s : ActingState)
        → after_move (node_moves machine.now.nodes n) s ≡ after_effect (effect_of e.now) s) }
{
    match machine.nodes().get(n as usize) {
        Some(MNode::Do(effect, _)) => Some(effect),
        _ => None,
    }
}

// Adds a byte that is read.
fn add_byte(draft: EdgeDraft, bytes: &mut Vec<u8>) -> Result<Option<EdgeDraft>, Memory>
    requires { IsDraft bytes.old.items draft }
    ensures draft { IfOk result (λ o. IfSome o (IsDraft bytes.new.items)) }
    ensures drafts { IfOk result (λ o. IfSome o (λ new. (b : ℕ) (s z : ActingState) → Drafts
        bytes.old.items draft b s z → Drafts bytes.new.items new b s (with_bytes (b ∷ []) z))) }
{
    let at = bytes.len();
    if draft.depth > 0 {
        return Ok(Some(draft));
    }
    if draft.place < 16 || at >= 16 {
        return Ok(None);
    }
    bytes.push(0)?;
    Ok(Some(EdgeDraft {
        place: at,
        depth: 0,
    }))
}

// Adds a literal.
fn add_literal(
    draft: EdgeDraft,
    literal: &[u8],
    bytes: &mut Vec<u8>,
) -> Result<Option<EdgeDraft>, Memory>
    requires { IsDraft bytes.old.items draft }
    ensures draft { IfOk result (λ o. IfSome o (IsDraft bytes.new.items)) }
    ensures drafts { IfOk result (λ o. IfSome o (λ new. (b : ℕ) (s z : ActingState) → Drafts
        bytes.old.items draft b s z → Drafts bytes.new.items new b s (with_bytes literal.now z))) }
{
    if draft.depth > 0 {
        return Ok(Some(draft));
    }
    if literal.len() > 16 - bytes.len() {
        return Ok(None);
    }
    bytes.extend_from_slice(literal)?;
    Ok(Some(draft))
}

// Adds an effect. `None` where that can't be said by a text: what a buffer takes that is open here
// is written nowhere if it is dropped here.
fn add_effect(
    draft: EdgeDraft,
    effect: &Effect,
    bytes: &mut Vec<u8>,
) -> Result<Option<EdgeDraft>, Memory>
    requires { IsDraft bytes.old.items draft }
    ensures draft { IfOk result (λ o. IfSome o (IsDraft bytes.new.items)) }
    ensures drafts { IfOk result (λ o.
        IfSome o (λ new. (b : ℕ) (s z : ActingState) → Drafts bytes.old.items draft b s z
        → Drafts bytes.new.items new b s (after_effect (effect_of effect.now) z))) }
{
    match effect {
        Effect::Lit(literal) => add_literal(draft, literal.as_slice(), bytes),
        Effect::Open if draft.depth < 16 => Ok(Some(EdgeDraft {
            place: draft.place,
            depth: draft.depth + 1,
        })),
        Effect::Drop if draft.depth > 0 => Ok(Some(EdgeDraft {
            place: draft.place,
            depth: draft.depth - 1,
        })),
        _ => Ok(None),
    }
}

// Adds what is done.
fn add(
    machine: &Trimmed,
    action: Action,
    draft: EdgeDraft,
    bytes: &mut Vec<u8>,
) -> Result<Option<EdgeDraft>, Memory>
    requires { IsDraft bytes.old.items draft }
    ensures draft { IfOk result (λ o. IfSome o (IsDraft bytes.new.items)) }
    ensures drafts { IfOk result (λ o.
        IfSome o (λ new. (b : ℕ) (s z : ActingState) → Drafts bytes.old.items draft b s z
        → Drafts bytes.new.items new b s (after_action machine.now.nodes b action z))) }
{
    match action {
        Action::Byte => add_byte(draft, bytes),
        Action::Node(n) => match effect_at(machine, n) {
            Some(effect) => add_effect(draft, effect, bytes),
            None => Ok(None),
        },
    }
}

// The text that the actions write, and the place in it of the byte read, 16 where it has none.
// `None` where they do more.
fn text_of(
    machine: &Trimmed,
    actions: &[Action],
    bytes: &mut Vec<u8>,
) -> Result<Option<usize>, Memory>
    requires { bytes.old.items ≡ [] }
    ensures done { IfOk result (λ o. IfSome o (λ p. (b : ℕ) (s : ActingState) → after_actions
        machine.now.nodes b actions.now s ≡ with_bytes (slice_set bytes.new.items p b) s)) }
    ensures place { IfOk result (λ o. IfSome o (λ p. HasPlace bytes.new.items p)) }
{
    let mut draft = EdgeDraft {
        place: 16,
        depth: 0,
    };
    for action in actions {
        let Some(new) = add(machine, *action, draft, bytes)? else {
            return Ok(None);
        };
        draft = new;
    }
    if draft.depth > 0 {
        return Ok(None);
    }
    Ok(Some(draft.place))
}
// What an action does to the buffers.
#[derive(Clone, Copy, Debug, PartialEq, Eq)]
enum NodeAct {
    Writes,
    Opens,
    Drops,
    Other,
}

// What an action does to the buffers.
fn act_of(machine: &Trimmed, action: Action) -> NodeAct
    ensures { (b : ℕ) (z : ActingState)
        → IsTurn result z (after_action machine.now.nodes b action z) }
{
    match action {
        Action::Byte => NodeAct::Writes,
        Action::Node(n) => match effect_at(machine, n) {
            Some(Effect::Lit(_)) => NodeAct::Writes,
            Some(Effect::Open) => NodeAct::Opens,
            Some(Effect::Drop) => NodeAct::Drops,
            _ => NodeAct::Other,
        },
    }
}

// Adds an action to those that are kept. At a place of these a buffer may have been opened into
// which all was written that was done since: where it is dropped, nothing from there on is kept.
// Tells that place, if there is one.
fn keep(
    machine: &Trimmed,
    action: Action,
    kept: &mut Vec<Action>,
    place: Option<usize>,
) -> Result<Option<usize>, Memory>
    ensures { IfOk result (λ new. (b : ℕ) (s z : ActingState)
        → KeepsActions machine.now.nodes kept.old.items place b s z → KeepsActions machine.now.nodes
        kept.new.items new b s (after_action machine.now.nodes b action z)) }
{
    let end = kept.len();
    let new = match (act_of(machine, action), place) {
        (NodeAct::Drops, Some(at)) => {
            kept.truncate(at);
            return Ok(None);
        }
        (NodeAct::Opens, _) => Some(end),
        (NodeAct::Writes, Some(at)) => Some(at),
        _ => None,
    };
    kept.push(action)?;
    Ok(new)
}

// The actions without those that only fill a buffer that is opened and dropped among them.
fn kept_of(alloc: Global, machine: &Trimmed, actions: &[Action]) -> Result<Vec<Action>, Memory>
    ensures { IfOk result (λ kept. (b : ℕ) (s : ActingState)
        → after_actions machine.now.nodes b actions.now s
        ≡ after_actions machine.now.nodes b kept.items s) }
{
    let mut kept = Vec::new(alloc);
    let mut place = None;
    for action in actions {
        place = keep(machine, *action, &mut kept, place)?;
    }
    Ok(kept)
}

// The deeds of actions.
fn deeds_of(alloc: Global, machine: &Trimmed, actions: &[Action]) -> Result<Vec<Deed>, Memory>
    ensures { IfOk result (λ deeds. (b : ℕ) (s : ActingState)
        → after_actions machine.now.nodes b actions.now s
        ≡ after_deeds machine.now.nodes b deeds.items s) }
{
    let mut deeds = Vec::new(alloc);
    for action in actions {
        deeds.push(deed_of(machine, *action))?;
    }
    Ok(deeds)
}

// Whether the deeds only open a buffer and write the byte.
fn only_open(deeds: &[Deed]) -> bool
    ensures { IsTrue result → (nodes : List MNode) (b : ℕ) (s : ActingState)
        → after_deeds nodes b deeds.now s ≡ with_buffer (b ∷ []) s }
{
    matches!(deeds, [Deed::Open, Deed::Byte])
}

/// The edge to `next` that does what was noted. Its text or its deeds are kept.
pub fn settle(
    alloc: Global,
    machine: &Trimmed,
    edges: &mut Edges,
    actions: &[Action],
    next: usize,
) -> Result<Edge, Memory>
    ensures ordered { IfOk result (λ e. IsOrdered edges.new) }
    ensures longer { IfOk result (λ e. Lengthens edges.old edges.new) }
    ensures settles { IfOk result (λ e. Settles machine.now.nodes edges.new next (λ b.
        after_actions machine.now.nodes b actions.now) e) }
{
    let mut bytes = Vec::new(alloc);
    match text_of(machine, actions, &mut bytes)? {
        Some(place) => edges.text_edge(next, &bytes, place),
        None => {
            let kept = kept_of(alloc, machine, actions)?;
            let deeds = deeds_of(alloc, machine, &kept)?;
            let opens = only_open(&deeds);
            edges.acts_edge(next, &deeds, opens)
        }
    }
}
