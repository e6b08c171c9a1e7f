// One byte more.

ghost use Rattle.std.specs.Prelude.{◌≡◌, ℕ, ◌+◌, ◌<◌, List, [], ◌∷◌, ◌++◌, length, reverse, OnOk};
ghost use Rattle.std.specs.Prelude.{IfOk, IfErr};
ghost use Rattle.kex_regexp.specs.Grammar.{Postfix, Empty, Turns, item as spelled_item};
ghost use Rattle.kex_regexp.specs.Grammar.{postfix};
ghost use Rattle.kex_regexp.specs.Holding.{ConstructsShow, HoldsBounds, InConstructs};
ghost use Rattle.kex_regexp.specs.Holding.{IsHeld, IsSetAfter, LosesNone, IsTurns, OnItem};
ghost use Rattle.kex_regexp.specs.Holding.{OnTurned, ShowsCountStep, ShowsEscape, ShowsSet};
ghost use Rattle.kex_regexp.specs.Holding.{SomeBehind, SomeConstructs, SomeState, SomeTurned};
ghost use Rattle.kex_regexp.specs.Holding.{ShowsState, Steps};
ghost use Rattle.kex_regexp.specs.Machine.{EscapeStep, SetStep, CountStep, Entry, Read, Ready};
ghost use Rattle.kex_regexp.specs.Machine.{State, entries, bytes_read, take_pieces};
ghost use Rattle.kex_regexp.specs.Machine.{take_regex, begin_piece, after_item, after_turns};
ghost use Rattle.kex_regexp.specs.Machine.{end_branch, after_group as close_parenthesis};
ghost use Rattle.kex_regexp.specs.Machine.{on_escape as spec_on_escape, on_set as spec_on_set};
ghost use Rattle.kex_regexp.specs.Machine.{on_count as spec_on_count, step as spec_step};
ghost use Rattle.kex_regexp.specs.Parents.{NoneLost};
ghost use Rattle.kex_regexp.specs.Shown.{Adds, IsNode};

use crate::bytes::is_plain;
use crate::constructs::{Construct, Placed, close_branch, close_regex, take_mark};
use crate::counts::{Count, CountOutcome, in_count};
use crate::escapes::{EscapeOutcome, Escaping, escape};
use crate::sets::{SetOutcome, SetPart, SetSoFar, in_set};
use crate::wait::{Repetition, StepFault, Wait};
use kex_byteset::ByteSet;
use kex_code::memory::Memory;
use kex_model::builder::Builder;
use kex_model::program::{Kind, Node};

/// One construct more is open.
pub fn push(constructs: &mut Vec<Construct>, construct: Construct) -> Result<(), Memory>
    ensures ok { OnOk result (constructs.new.items ≡ constructs.old.items ++ construct ∷ []) }
{
    constructs.push(construct)?;
    Ok(())
}

/// A class of its own for an item that begins here.
#[tactic(auto, using(crate::proofs::Additions::adding))]
fn leaf(into: &mut Builder, set: ByteSet, at: u32) -> Result<Wait, StepFault>
    ensures adds { Adds into.old into.new }
    ensures nodes { (fs : List Construct) → LosesNone into.old into.new fs Wait.Ready fs result }
    ensures ok { IfOk result (λ w. (n : ℕ) × (w ≡ Wait.After (record { node = n; at = at }))
        × IsNode into.new n (Kind.Class set) at) }
    ensures err { IfErr result (λ e. e ≡ StepFault.Memory) }
{
    let class = Node {
        kind: Kind::Class(set),
        at,
    };
    let node = into.add(class)?;
    Ok(Wait::After(Placed { node, at }))
}

/// A bar.
#[tactic(auto, using(crate::proofs::Additions::adding))]
fn bar(constructs: &mut Vec<Construct>, into: &mut Builder, at: u32) -> Result<Wait, StepFault>
    requires { SomeConstructs into.old constructs.old.items at }
    ensures adds { Adds into.old into.new }
    ensures nodes { LosesNone into.old into.new constructs.old.items Wait.Ready constructs.new.items
        result }
    ensures step { (base : ℕ) (es : List Entry)
        → ConstructsShow into.old base (reverse constructs.old.items) es
        → at ≡ base + length (entries es)
        → Steps into.new base constructs.new.items result (end_branch (take_pieces es Empty)) }
{
    let branch = close_branch(constructs, into, at)?;
    let ended = Construct::Ended {
        node: branch.node,
        at: branch.at,
    };
    push(constructs, ended)?;
    Ok(Wait::Ready)
}

/// A parenthesis that closes.
#[tactic(auto, using(crate::proofs::Additions::adding))]
fn close(constructs: &mut Vec<Construct>, into: &mut Builder, at: u32) -> Result<Wait, StepFault>
    requires { SomeConstructs into.old constructs.old.items at }
    ensures adds { Adds into.old into.new }
    ensures nodes { LosesNone into.old into.new constructs.old.items Wait.Ready constructs.new.items
        result }
    ensures step { (base : ℕ) (es : List Entry)
        → ConstructsShow into.old base (reverse constructs.old.items) es
        → at ≡ base + length (entries es)
        → Steps into.new base constructs.new.items result (close_parenthesis (take_regex es)) }
{
    let regex = close_regex(constructs, into, at)?;
    let Some(from) = take_mark(constructs) else {
        return Err(StepFault::Wrong);
    };
    Ok(Wait::After(Placed {
        node: regex.node,
        at: from,
    }))
}

/// A byte where a piece may begin.
#[tactic(auto, using(crate::proofs::Additions::adding))]
fn begin(
    constructs: &mut Vec<Construct>,
    into: &mut Builder,
    at: u32,
    byte: u8,
) -> Result<Wait, StepFault>
    requires { SomeConstructs into.old constructs.old.items at }
    ensures adds { Adds into.old into.new }
    ensures nodes { LosesNone into.old into.new constructs.old.items Wait.Ready constructs.new.items
        result }
    ensures step { (base : ℕ) (es : List Entry)
        → ConstructsShow into.old base (reverse constructs.old.items) es
        → at ≡ base + length (entries es)
        → Steps into.new base constructs.new.items result (begin_piece es byte) }
{
    if is_plain(byte) {
        leaf(into, ByteSet::single(byte), at)
    } else if byte == b'\\' {
        Ok(Wait::InEscape {
            escaping: Escaping::Begun,
            from: at,
        })
    } else if byte == b'.' {
        leaf(into, ByteSet::empty().complement(), at)
    } else if byte == b'[' {
        Ok(Wait::InSet {
            negated: false,
            empty: true,
            part: SetPart::AtStart,
            from: at,
        })
    } else if byte == b'(' {
        push(constructs, Construct::Mark { at })?;
        Ok(Wait::Ready)
    } else if byte == b'|' {
        bar(constructs, into, at)
    } else if byte == b')' {
        close(constructs, into, at)
    } else {
        Err(StepFault::Wrong)
    }
}

/// The node of an item that takes turns; the item itself, where the count is bad.
#[tactic(auto, using(crate::proofs::Additions::adding))]
fn repeated(into: &mut Builder, turns: Repetition, lazy: bool) -> Result<u32, Memory>
    requires { turns.item.node < length into.old }
    ensures adds { Adds into.old into.new }
    ensures nodes { IfOk result (λ m.
        NoneLost into.old into.new (λ n. n ≡ turns.item.node) (λ n. n ≡ m)) }
    ensures turns { IfOk result (λ n. (p : Postfix) → HoldsBounds turns.bounds p
        → IsTurns p lazy into.new n turns.item.node turns.item.at) }
{
    if turns.bounds.are_bad() {
        return Ok(turns.item.node);
    }
    let node = into.add(Node {
        kind: Kind::Rep {
            body: turns.item.node,
            min: turns.bounds.low,
            max: turns.bounds.high,
            lazy,
        },
        at: turns.item.at,
    })?;
    Ok(node)
}

/// Ends a piece with a postfix. Where the count is bad the body is refused in the end, and the item
/// is alone until then.
#[tactic(auto, using(crate::proofs::Additions::adding))]
pub fn end_turns(
    constructs: &mut Vec<Construct>,
    into: &mut Builder,
    turns: Repetition,
    lazy: bool,
) -> Result<(), Memory>
    requires { (at : ℕ) × SomeTurned into.old constructs.old.items turns at }
    ensures adds { Adds into.old into.new }
    ensures nodes { OnOk result (NoneLost into.old into.new
        (IsHeld constructs.old.items (Wait.Turned turns)) (InConstructs constructs.new.items)) }
    ensures shows { OnOk result (OnTurned into.old constructs.old.items turns (λ base es i p.
        ConstructsShow into.new base (reverse constructs.new.items) (Read (Turns i p lazy) ∷ es))) }
{
    let node = repeated(into, turns, lazy)?;
    let piece = Construct::Piece {
        node,
        at: turns.item.at,
    };
    push(constructs, piece)?;
    Ok(())
}

/// A byte after an item.
#[tactic(auto, using(crate::proofs::Additions::adding))]
fn byte_after_item(
    constructs: &mut Vec<Construct>,
    into: &mut Builder,
    item: Placed,
    at: u32,
    byte: u8,
) -> Result<Wait, StepFault>
    requires { SomeBehind into.old constructs.old.items item at }
    ensures adds { Adds into.old into.new }
    ensures nodes { LosesNone into.old into.new constructs.old.items
        (Wait.After item) constructs.new.items result }
    ensures step { OnItem into.old constructs.old.items item (λ base es i. at ≡ item.at + length
        (spelled_item i) → Steps into.new base constructs.new.items result (after_item i es byte)) }
{
    if byte == b'*' {
        Ok(Wait::Turned(item.turns(0, None)))
    } else if byte == b'+' {
        Ok(Wait::Turned(item.turns(1, None)))
    } else if byte == b'?' {
        Ok(Wait::Turned(item.turns(0, Some(1))))
    } else if byte == b'{' {
        Ok(Wait::InCount {
            item,
            count: Count::Opened,
            brace: at,
        })
    } else {
        let piece = Construct::Piece {
            node: item.node,
            at: item.at,
        };
        push(constructs, piece)?;
        begin(constructs, into, at, byte)
    }
}

/// A byte after a postfix: the sign that makes it lazy, or what follows the piece.
#[tactic(auto, using(crate::proofs::Additions::adding))]
fn byte_after_turns(
    constructs: &mut Vec<Construct>,
    into: &mut Builder,
    turns: Repetition,
    at: u32,
    byte: u8,
) -> Result<Wait, StepFault>
    requires { SomeTurned into.old constructs.old.items turns at }
    ensures adds { Adds into.old into.new }
    ensures nodes { LosesNone into.old into.new constructs.old.items
        (Wait.Turned turns) constructs.new.items result }
    ensures step { OnTurned into.old constructs.old.items turns (λ base es i p. at
        ≡ turns.item.at + length (spelled_item i ++ postfix p)
        → Steps into.new base constructs.new.items result (after_turns i p es byte)) }
{
    if byte == b'?' {
        end_turns(constructs, into, turns, true)?;
        return Ok(Wait::Ready);
    }
    end_turns(constructs, into, turns, false)?;
    begin(constructs, into, at, byte)
}

/// What comes of a set by a byte.
#[tactic(auto, using(crate::proofs::Additions::adding))]
fn on_set(
    outcome: SetOutcome,
    set: &SetSoFar,
    into: &mut Builder,
    from: u32,
) -> Result<Wait, StepFault>
    ensures adds { Adds into.old into.new }
    ensures nodes { (fs : List Construct) → LosesNone into.old into.new fs Wait.Ready fs result }
    ensures step { (base : ℕ) (fs : List Construct) (es : List Entry) (t : SetStep)
        → ConstructsShow into.old base (reverse fs) es → from ≡ base + length (entries es)
        → ShowsSet outcome t → IsSetAfter set.now (spec_on_set es t)
        → Steps into.new base fs result (spec_on_set es t) }
{
    match outcome {
        SetOutcome::On {
            negated,
            empty,
            part,
        } => Ok(Wait::InSet {
            negated,
            empty,
            part,
            from,
        }),
        SetOutcome::Read { negated } => leaf(into, set.read(negated), from),
        SetOutcome::Wrong => Err(StepFault::Wrong),
    }
}

/// What comes of an escape by a byte.
#[tactic(auto, using(crate::proofs::Additions::adding))]
fn on_escape(outcome: EscapeOutcome, into: &mut Builder, from: u32) -> Result<Wait, StepFault>
    ensures adds { Adds into.old into.new }
    ensures nodes { (fs : List Construct) → LosesNone into.old into.new fs Wait.Ready fs result }
    ensures step { (base : ℕ) (fs : List Construct) (es : List Entry) (t : EscapeStep)
        → ConstructsShow into.old base (reverse fs) es → from ≡ base + length (entries es)
        → ShowsEscape outcome t → Steps into.new base fs result (spec_on_escape es t) }
{
    match outcome {
        EscapeOutcome::On(escaping) => Ok(Wait::InEscape { escaping, from }),
        EscapeOutcome::Read(byte) => leaf(into, ByteSet::single(byte), from),
        EscapeOutcome::Wrong => Err(StepFault::Wrong),
    }
}

/// What comes of a count by a byte.
fn on_count(outcome: CountOutcome, item: Placed, brace: u32) -> Result<Wait, StepFault>
    ensures nodes { (nodes : List Node) (fs : List Construct)
        → LosesNone nodes nodes fs (Wait.After item) fs result }
    ensures step { (nodes : List Node) (fs : List Construct) → OnItem nodes fs item (λ base es i.
        (t : CountStep) → brace ≡ item.at + length (spelled_item i) → ShowsCountStep outcome t
        → Steps nodes base fs result (spec_on_count i es t)) }
{
    match outcome {
        CountOutcome::On(count) => Ok(Wait::InCount { item, count, brace }),
        CountOutcome::Read(bounds) => Ok(Wait::Turned(Repetition { item, bounds })),
        CountOutcome::Wrong => Err(StepFault::Wrong),
    }
}

/// A byte, in whatever it is waited for. What it ends of a set was taken in before.
#[tactic(auto, using(crate::proofs::Additions::adding))]
pub fn step(
    constructs: &mut Vec<Construct>,
    into: &mut Builder,
    wait: Wait,
    set: &SetSoFar,
    at: u32,
    byte: u8,
) -> Result<Wait, StepFault>
    requires { SomeState into.old constructs.old.items wait at }
    ensures adds { Adds into.old into.new }
    ensures nodes { LosesNone into.old into.new constructs.old.items wait constructs.new.items
        result }
    ensures step { (base : ℕ) (s : State) → ShowsState into.old base constructs.old.items wait s
        → IsSetAfter set.now (spec_step s byte) → at ≡ base + length (bytes_read s)
        → Steps into.new base constructs.new.items result (spec_step s byte) }
{
    match wait {
        Wait::Ready => begin(constructs, into, at, byte),
        Wait::After(item) => byte_after_item(constructs, into, item, at, byte),
        Wait::Turned(turns) => byte_after_turns(constructs, into, turns, at, byte),
        Wait::InEscape { escaping, from } => on_escape(escape(escaping, byte), into, from),
        Wait::InSet {
            negated,
            empty,
            part,
            from,
        } => on_set(in_set(negated, empty, part, byte), set, into, from),
        Wait::InCount { item, count, brace } => on_count(in_count(count, byte), item, brace),
    }
}
