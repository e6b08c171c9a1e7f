// What is open, the newest last.

ghost use Rattle.std.specs.Prelude.{◌≡◌, ℕ, ◌+◌, List, length, reverse, IfOk, IfSome, IfNone, ◌++◌};
ghost use Rattle.std.specs.Prelude.{◌∷◌, ◌⊎◌, []};
ghost use Rattle.kex_regexp.specs.Grammar.{Empty};
ghost use Rattle.kex_regexp.specs.Holding.{BranchOn, ConstructsShow, InConstructs, RegexOn};
ghost use Rattle.kex_regexp.specs.Holding.{SomeConstructs};
ghost use Rattle.kex_regexp.specs.Machine.{Entry, entries, take_pieces, take_regex};
ghost use Rattle.kex_regexp.specs.Parents.{NoneLost};
ghost use Rattle.kex_regexp.specs.Shown.{Adds};

use kex_code::memory::Memory;
use kex_model::builder::Builder;
use kex_model::program::{Kind, Node};

/// A parenthesis, a branch that a bar has ended, or a piece of the branch that is being read; and
/// where it begins.
#[derive(Clone, Copy, Drop)]
pub enum Construct {
    Mark { at: u32 },
    Ended { node: u32, at: u32 },
    Piece { node: u32, at: u32 },
}

/// A node, and where it begins.
#[derive(Clone, Copy, Drop)]
pub struct Placed {
    pub node: u32,
    pub at: u32,
}

/// Takes a piece from the top.
pub fn take_piece(constructs: &mut Vec<Construct>) -> Option<Placed>
    ensures some { IfSome result (λ p. constructs.old.items
        ≡ constructs.new.items ++ Construct.Piece p.node p.at ∷ []) }
    ensures none { IfNone result (constructs.new.items ≡ constructs.old.items) }
    ensures top { IfNone result ((n at : ℕ) (fs : List Construct)
        → reverse constructs.old.items ≡ Construct.Piece n at ∷ fs → ⊥) }
{
    if let Some(&Construct::Piece { node, at }) = constructs.last() {
        constructs.pop();
        return Some(Placed { node, at });
    }
    None
}

/// Takes a branch that a bar has ended from the top.
pub fn take_ended(constructs: &mut Vec<Construct>) -> Option<Placed>
    ensures some { IfSome result (λ p. constructs.old.items
        ≡ constructs.new.items ++ Construct.Ended p.node p.at ∷ []) }
    ensures none { IfNone result (constructs.new.items ≡ constructs.old.items) }
    ensures top { IfNone result ((n at : ℕ) (fs : List Construct)
        → reverse constructs.old.items ≡ Construct.Ended n at ∷ fs → ⊥) }
{
    if let Some(&Construct::Ended { node, at }) = constructs.last() {
        constructs.pop();
        return Some(Placed { node, at });
    }
    None
}

/// Takes a mark from the top.
pub fn take_mark(constructs: &mut Vec<Construct>) -> Option<u32>
    ensures some { IfSome result (λ at. constructs.old.items
        ≡ constructs.new.items ++ Construct.Mark at ∷ []) }
    ensures top { IfNone result ((at : ℕ) (fs : List Construct)
        → reverse constructs.old.items ≡ Construct.Mark at ∷ fs → ⊥) }
{
    if let Some(&Construct::Mark { at }) = constructs.last() {
        constructs.pop();
        return Some(at);
    }
    None
}

/// Ends the branch that is being read: its pieces become one node.
#[tactic(auto, using(crate::proofs::Additions::adding))]
pub fn close_branch(
    constructs: &mut Vec<Construct>,
    into: &mut Builder,
    at: u32,
) -> Result<Placed, Memory>
    requires { SomeConstructs into.old constructs.old.items at }
    ensures adds { Adds into.old into.new }
    ensures branch { IfOk result (λ p. (base : ℕ) (es : List Entry) → ConstructsShow into.old base
        (reverse constructs.old.items) es → at ≡ base + length (entries es)
        → BranchOn into.new base constructs.new.items p (take_pieces es Empty)) }
    ensures nodes { IfOk result (λ p. NoneLost into.old into.new (InConstructs constructs.old.items)
        (λ n. (n ≡ p.node) ⊎ InConstructs constructs.new.items n)) }
{
    let Some(last) = take_piece(constructs) else {
        let node = into.add(Node {
            kind: Kind::One,
            at,
        })?;
        return Ok(Placed { node, at });
    };
    let mut branch = last;
    while let Some(piece) = take_piece(constructs) {
        let node = into.add(Node {
            kind: Kind::Seq(piece.node, branch.node),
            at: piece.at,
        })?;
        branch = Placed { node, at: piece.at };
    }
    Ok(branch)
}

/// Ends the regex that is being read: its branches become one node.
#[tactic(auto, using(crate::proofs::Additions::adding))]
pub fn close_regex(
    constructs: &mut Vec<Construct>,
    into: &mut Builder,
    at: u32,
) -> Result<Placed, Memory>
    requires { SomeConstructs into.old constructs.old.items at }
    ensures adds { Adds into.old into.new }
    ensures regex { IfOk result (λ p. (base : ℕ) (es : List Entry)
        → ConstructsShow into.old base (reverse constructs.old.items) es → at ≡ base
        + length (entries es) → RegexOn into.new base constructs.new.items p (take_regex es)) }
    ensures nodes { IfOk result (λ p. NoneLost into.old into.new (InConstructs constructs.old.items)
        (λ n. (n ≡ p.node) ⊎ InConstructs constructs.new.items n)) }
{
    let mut regex = close_branch(constructs, into, at)?;
    while let Some(branch) = take_ended(constructs) {
        let node = into.add(Node {
            kind: Kind::Alt(branch.node, regex.node),
            at: branch.at,
        })?;
        regex = Placed {
            node,
            at: branch.at,
        };
    }
    Ok(regex)
}
