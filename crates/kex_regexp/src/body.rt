// A whole body.

ghost use Rattle.std.specs.Prelude.{◌≡◌, ℕ, ◌+◌, ◌<◌, ◌^◌, List, length, reverse, IfOk, IfErr, []};
ghost use Rattle.std.specs.Prelude.{Some, None};
ghost use Rattle.kex_regexp.specs.Bodies.{IsRefusal, SpellsRegex, fault_of};
ghost use Rattle.kex_regexp.specs.Breaks.{regex_breaks};
ghost use Rattle.kex_regexp.specs.Grammar.{Regex};
ghost use Rattle.kex_regexp.specs.Holding.{Ends, ConstructsShow, InConstructs, IsHeld};
ghost use Rattle.kex_regexp.specs.Holding.{SomeConstructs, SomeState, ShowsState};
ghost use Rattle.kex_regexp.specs.Machine.{Entry, State, entries, bytes_read, take_regex};
ghost use Rattle.kex_regexp.specs.Machine.{whole_regex, finish as spec_finish};
ghost use Rattle.kex_regexp.specs.Parents.{NoneLost};
ghost use Rattle.kex_regexp.specs.Shown.{Adds, ShowsRegex};

use crate::breaks::{Break, lesser};
use crate::constructs::{Construct, close_regex};
use crate::fault::RegexFault;
use crate::notes::{deeper, noted};
use crate::sets::SetSoFar;
use crate::steps::{end_turns, push, step};
use crate::wait::{StepFault, Wait};
use kex_model::builder::Builder;
use std::alloc::Global;

/// The regex that is left, where nothing is open.
#[tactic(auto, using(crate::proofs::Additions::adding))]
fn end(constructs: &mut Vec<Construct>, into: &mut Builder, at: u32) -> Result<u32, StepFault>
    requires { SomeConstructs into.old constructs.old.items at }
    ensures adds { Adds into.old into.new }
    ensures nodes { IfOk result (λ m.
        NoneLost into.old into.new (InConstructs constructs.old.items) (λ n. n ≡ m)) }
    ensures ends { (base : ℕ) (es : List Entry)
        → ConstructsShow into.old base (reverse constructs.old.items) es → at
        ≡ base + length (entries es) → Ends into.new base result (whole_regex (take_regex es)) }
{
    let regex = close_regex(constructs, into, at)?;
    if constructs.is_empty() {
        Ok(regex.node)
    } else {
        Err(StepFault::Wrong)
    }
}

/// The node of the body, where it may end.
#[tactic(auto, using(crate::proofs::Additions::adding))]
fn finish(
    constructs: &mut Vec<Construct>,
    into: &mut Builder,
    wait: Wait,
    at: u32,
) -> Result<u32, StepFault>
    requires { SomeState into.old constructs.old.items wait at }
    ensures adds { Adds into.old into.new }
    ensures nodes { IfOk result (λ m.
        NoneLost into.old into.new (IsHeld constructs.old.items wait) (λ n. n ≡ m)) }
    ensures ends { (base : ℕ) (s : State) → ShowsState into.old base constructs.old.items wait s
        → at ≡ base + length (bytes_read s) → Ends into.new base result (spec_finish s) }
{
    match wait {
        Wait::Ready => end(constructs, into, at),
        Wait::After(item) => {
            let piece = Construct::Piece {
                node: item.node,
                at: item.at,
            };
            push(constructs, piece)?;
            end(constructs, into, at)
        }
        Wait::Turned(turns) => {
            end_turns(constructs, into, turns, false)?;
            end(constructs, into, at)
        }
        Wait::InEscape { .. } => Err(StepFault::Wrong),
        Wait::InSet { .. } => Err(StepFault::Wrong),
        Wait::InCount { .. } => Err(StepFault::Wrong),
    }
}

/// Reads a body, which begins at the offset `at` of the text, under `depth` open marks, and gives
/// the number of its node.
#[tactic(auto, using(crate::proofs::Additions::adding))]
pub fn regex(
    alloc: Global,
    bytes: &[u8],
    at: u32,
    depth: u32,
    into: &mut Builder,
) -> Result<u32, RegexFault>
    requires { at + length bytes.now < 2 ^ 32 }
    // The nodes that were there stay, and none that is added names a definition or a register.
    ensures adds { Adds into.old into.new }
    // No node is spare: each that is added is the body's own, or a child of another one.
    ensures nodes { IfOk result (λ m. NoneLost into.old into.new (λ n. ⊥) (λ n. n ≡ m)) }
    // What is read is a body that breaks no rule, and the node shows its tree.
    ensures read { IfOk result (λ n. (r : Regex) × SpellsRegex r bytes.now
        × (regex_breaks r at depth ≡ []) × ShowsRegex r into.new n at) }
    // What is refused is refused at its first wrong byte, or else for the least rule that it
    // breaks.
    ensures refused { IfErr result (IsRefusal bytes.now at depth) }
    // A body that breaks no rule is read, unless memory is wanting.
    ensures accepted { (r : Regex) → SpellsRegex r bytes.now → regex_breaks r at depth ≡ []
        → IfErr result (λ fault. fault ≡ RegexFault.Memory) }
{
    let mut constructs = Vec::new(alloc);
    let mut set = SetSoFar::new();
    let mut wait = Wait::Ready;
    let mut place = at;
    let mut nested = depth as u64;
    let mut least = None;
    for byte in bytes {
        let deep = deeper(wait, nested, *byte);
        set.take_in(wait, *byte);
        let next = match step(&mut constructs, into, wait, &set, place, *byte) {
            Ok(next) => next,
            Err(StepFault::Memory) => return Err(RegexFault::Memory),
            Err(StepFault::Wrong) => return Err(RegexFault::BadRegex { at: place }),
        };
        least = lesser(least, noted(wait, next, &set, nested, place, *byte));
        wait = next;
        nested = deep;
        place += 1;
    }
    match finish(&mut constructs, into, wait, place) {
        Ok(node) => unless_broken(node, least),
        Err(StepFault::Memory) => Err(RegexFault::Memory),
        Err(StepFault::Wrong) => Err(RegexFault::BadRegex { at: place }),
    }
}

/// The node, unless a rule is broken.
fn unless_broken(node: u32, least: Option<Break>) -> Result<u32, RegexFault>
    ensures ok { IfOk result (λ n. (n ≡ node) × (least ≡ None)) }
    ensures err { IfErr result (λ fault. (b : Break) × (fault ≡ fault_of b) × (least ≡ Some b)) }
{
    match least {
        None => Ok(node),
        Some(broken) => Err(broken.fault()),
    }
}
