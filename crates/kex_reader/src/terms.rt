// What has ended becomes one node.

ghost use Rattle.std.specs.Prelude.{◌≡◌, ℕ, ◌+◌, ◌<◌, ◌⊎◌, List, length, IfOk, OnOk};
ghost use Rattle.kex_reader.specs.Reading.{Entry, entries, with_pre, take_seq, take_term};
ghost use Rattle.kex_reader.specs.Shown.{IsNode, ShowsPre};
ghost use Rattle.kex_reader.specs.Stands.{ConstructsShow, HasRegisterBelow, InConstruct};
ghost use Rattle.kex_reader.specs.Stands.{InConstructs, InPart, Keeps, LosesNone, SeqTaken};
ghost use Rattle.kex_reader.specs.Stands.{SomeConstructs, SomePre, TermTaken, construct_of};
ghost use Rattle.kex_reader.specs.Stands.{prefix_at, prefixed_kind};
ghost use Rattle.kex_reader.specs.Uses.{NodeNumber};
ghost use Rattle.kex_reader.specs.Syntax.{Pre};

use crate::draft::Draft;
use crate::stack::{PlacedNode, Prefix, Stack, TermConstruct};
use kex_code::memory::Memory;
use kex_model::program::Kind;

// A member that has ended takes the prefixes before it.
pub(crate) fn put(stack: &mut Stack, draft: &mut Draft, part: PlacedNode) -> Result<(), Memory>
    requires { SomePre draft.old stack.old part }
    ensures keeps { OnOk result (Keeps draft.old draft.new) }
    ensures broken { OnOk result (draft.new.broken ≡ draft.old.broken) }
    ensures held { OnOk result (LosesNone draft.old draft.new (λ x. (x ≡ NodeNumber part.node)
        ⊎ InConstructs stack.old x) (InConstructs stack.new)) }
    ensures put { OnOk result ((at : ℕ → ℕ) (base : ℕ) (es : List Entry) (p : Pre)
        → ConstructsShow draft.old at base stack.old es → part.at ≡ at (base + length (entries es))
        → ShowsPre p draft.old at part.node (base + length (entries es))
        → ConstructsShow draft.new at base stack.new (with_pre p es)) }
{
    let mut whole = part;
    while let Some(prefix) = stack.take_prefix() {
        let more = prefixed(draft, prefix, whole)?;
        whole = more;
    }
    stack.push(TermConstruct::Done(whole))?;
    Ok(())
}

// A member after a prefix.
fn prefixed(draft: &mut Draft, prefix: Prefix, part: PlacedNode) -> Result<PlacedNode, Memory>
    requires within { part.node < length draft.old.nodes }
    requires register { HasRegisterBelow (length draft.old.registers) prefix }
    ensures keeps { OnOk result (Keeps draft.old draft.new) }
    ensures broken { OnOk result (draft.new.broken ≡ draft.old.broken) }
    ensures node { IfOk result (λ w.
        IsNode draft.new w.node (prefixed_kind prefix part.node) (prefix_at prefix)) }
    ensures place { IfOk result (λ w. w.at ≡ prefix_at prefix) }
    ensures held { IfOk result (λ w. LosesNone draft.old draft.new (λ x. (x ≡ NodeNumber part.node)
        ⊎ InConstruct (construct_of prefix) x) (λ x. x ≡ NodeNumber w.node)) }
{
    match prefix {
        Prefix::Mute(at) => {
            let node = draft.add(Kind::Mute(part.node), at)?;
            Ok(PlacedNode { node, at })
        }
        Prefix::Store(store) => {
            let node = draft.add(Kind::At(store.register, part.node), store.at)?;
            Ok(PlacedNode { node, at: store.at })
        }
    }
}

// The newest sequence, unless no member of one is on top.
pub(crate) fn close_seq(stack: &mut Stack, draft: &mut Draft) -> Result<Option<PlacedNode>, Memory>
    requires { SomeConstructs draft.old stack.old }
    ensures keeps { OnOk result (Keeps draft.old draft.new) }
    ensures broken { OnOk result (draft.new.broken ≡ draft.old.broken) }
    ensures held { IfOk result (λ o. LosesNone draft.old draft.new (InConstructs stack.old) (λ x.
        InPart o x ⊎ InConstructs stack.new x)) }
    ensures seq { IfOk result (λ o. (at : ℕ → ℕ) (base : ℕ) (es : List Entry)
        → ConstructsShow draft.old at base stack.old es
        → SeqTaken draft.new at base stack.new o (take_seq es)) }
{
    let Some(last) = stack.take_done() else {
        return Ok(None);
    };
    let mut seq = last;
    while let Some(front) = stack.take_done() {
        let node = draft.add(Kind::Seq(front.node, seq.node), front.at)?;
        seq = PlacedNode { node, at: front.at };
    }
    Ok(Some(seq))
}

// The newest term, unless no member of a sequence is on top.
pub(crate) fn close_term(stack: &mut Stack, draft: &mut Draft) -> Result<Option<PlacedNode>, Memory>
    requires { SomeConstructs draft.old stack.old }
    ensures keeps { OnOk result (Keeps draft.old draft.new) }
    ensures broken { OnOk result (draft.new.broken ≡ draft.old.broken) }
    ensures held { IfOk result (λ o. LosesNone draft.old draft.new (InConstructs stack.old) (λ x.
        InPart o x ⊎ InConstructs stack.new x)) }
    ensures term { IfOk result (λ o. (at : ℕ → ℕ) (base : ℕ) (es : List Entry)
        → ConstructsShow draft.old at base stack.old es
        → TermTaken draft.new at base stack.new o (take_term es)) }
{
    let closed = close_seq(stack, draft)?;
    let Some(last) = closed else {
        return Ok(None);
    };
    let mut term = last;
    while let Some(front) = stack.take_ended() {
        let node = draft.add(Kind::Alt(front.node, term.node), front.at)?;
        term = PlacedNode { node, at: front.at };
    }
    Ok(Some(term))
}
