// One word more, inside a definition.

ghost use Rattle.std.specs.Prelude.{◌≡◌, ℕ, ◌+◌, ◌<◌, ◌≤◌, ◌^◌, ◌++◌, ◌∷◌, ◌⊎◌, [], Bool, false};
ghost use Rattle.std.specs.Prelude.{true, List, Some, None, length, IfOk, IfErr, OnOk};
ghost use Rattle.kex_model.specs.Programs.{HasNames};
ghost use Rattle.kex_regexp.specs.Bodies.{SpellsRegex as BodySpells};
ghost use Rattle.kex_regexp.specs.Grammar.{Regex};
ghost use Rattle.kex_regexp.specs.Holding.{HoldsBounds, ShowsCountStep};
ghost use Rattle.kex_regexp.specs.Shown.{ShowsRegex};
ghost use Rattle.kex_tokens.specs.Lexemes.{IsToken};
ghost use Rattle.kex_tokens.specs.Values.{StandsFor};
ghost use Rattle.kex_reader.specs.Checks.{Check, Matched, Nested, postfix_checks};
ghost use Rattle.kex_reader.specs.Reading.{After, Assigned, Assigning, BracketName, CountStep};
ghost use Rattle.kex_reader.specs.Reading.{Entry, Ready, after_atom, after_term_turns};
ghost use Rattle.kex_reader.specs.Reading.{begin_pre, entries};
ghost use Rattle.kex_reader.specs.Reading.{goes, after_name, on_bar, on_close, on_count};
ghost use Rattle.kex_reader.specs.Reading.{on_name, on_sign, with_pre, inside};
ghost use Rattle.kex_reader.specs.Reading.{step_in as spec_step_in, take_seq, take_term};
ghost use Rattle.kex_reader.specs.Shown.{Made, IsName, IsNode, IsRegister};
ghost use Rattle.kex_reader.specs.Stands.{Behind, BehindAny, FirstPart, ConstructsShow};
ghost use Rattle.kex_reader.specs.Stands.{InConstructs, HoldsTurns, InPlace, InWait, IsBehindAtom};
ghost use Rattle.kex_reader.specs.Stands.{IsBehindTurns, IsHeld, IsLeaf, Keeps, LosesNone};
ghost use Rattle.kex_reader.specs.Stands.{NextPart, NotesLeast, NotesMore};
ghost use Rattle.kex_reader.specs.Stands.{OnAtom, OnTermTurned, ShowsMode, SomeAtom};
ghost use Rattle.kex_reader.specs.Stands.{SomeConstructs};
ghost use Rattle.kex_reader.specs.Stands.{SomeInside, SomeName, SomeTermTurned, StepLosesNone};
ghost use Rattle.kex_reader.specs.Stands.{Steps};
ghost use Rattle.kex_reader.specs.Stands.{after_asks, asks, begin_asks, count_asks, named_asks};
ghost use Rattle.kex_reader.specs.Stands.{open_constructs, turned_asks, word_of};
ghost use Rattle.kex_reader.specs.Uses.{InKind, NodeNumber, Numbered, RegisterNumber};
ghost use Rattle.kex_reader.specs.Syntax.{RegisterPart as SpecPart, Postfix, Turns};
ghost use Rattle.kex_reader.specs.Syntax.{Write as SpecWrite, atom, between, postfix};
ghost use Rattle.kex_reader.specs.Syntax.{word as grammar_word};

use crate::counts::{count_step, held_number};
use crate::draft::Draft;
use crate::pieces::{Assignment, piece};
use crate::stack::{PlacedNode, PlacedRegister, Stack, TermConstruct};
use crate::terms::{close_seq, close_term, put};
use crate::word::{Name, Word};
use kex_code::memory::Memory;
use kex_code::piece::Bytes;
use kex_model::program::Kind as NodeKind;
use kex_regexp::breaks::{Break, MAX_DEPTH};
use kex_regexp::counts::{Bounds, Count, CountOutcome};
use kex_tokens::literal_bytes;
use kex_tokens::token::TokenKind;
use std::alloc::{AllocError, AllocFailed, Global};

/// How many parentheses and prefixes may be open at a place.
const DEEPEST: usize = MAX_DEPTH as usize;

/// What the next word belongs to: a member has to come or may, an atom may have a postfix, a
/// postfix may be lazy, a name may be a call, a register or a head, and the rest is half read.
#[derive(Drop)]
pub(crate) enum TermWait<'t> {
    Need,
    Ready,
    After(PlacedNode),
    Turned(PlacedNode, Bounds),
    Named(bool, Name<'t>),
    Writing(u32),
    Bracket(u32),
    BracketName(u32, u32),
    Assigning(Assignment),
    Assigned(Assignment),
    InCount(PlacedNode, Count, u32),
}

/// Why there is no next step.
#[derive(Clone, Copy, Drop)]
pub(crate) enum TermFault {
    Memory,
    Wrong,
}

impl From<Memory> for TermFault {
    ghost use Rattle.kex_reader.specs.declared.inside.TermFault.TheVariants as faults;

    ghost from_gives = { λ _ e. e ≡ faults.Memory };

    fn from(_: Memory) -> TermFault {
        TermFault::Memory
    }
}

impl From<AllocError> for TermFault {
    ghost use Rattle.kex_reader.specs.declared.inside.TermFault.TheVariants as faults;

    ghost from_gives = { λ _ e. e ≡ faults.Memory };

    fn from(_: AllocError) -> TermFault {
        TermFault::Memory
    }
}

impl<T: Drop> From<AllocFailed<T>> for TermFault {
    ghost use Rattle.kex_reader.specs.declared.inside.TermFault.TheVariants as faults;

    ghost from_gives = { λ _ e. e ≡ faults.Memory };

    fn from(_: AllocFailed<T>) -> TermFault {
        TermFault::Memory
    }
}

// An atom of one node.
fn leaf<'t>(draft: &mut Draft<'t>, kind: NodeKind, at: u32) -> Result<TermWait<'t>, TermFault>
    requires below { HasNames (length draft.old.names) (length draft.old.registers) kind }
    requires alone { IsLeaf kind }
    ensures held { (fs : List TermConstruct) → IfOk result (λ w.
        LosesNone draft.old draft.new (λ x. InConstructs fs x ⊎ InKind kind x) (IsHeld fs w)) }
    ensures keeps { OnOk result (Keeps draft.old draft.new) }
    ensures broken { OnOk result (draft.new.broken ≡ draft.old.broken) }
    ensures wait { IfOk result (λ w. (n : ℕ) × (w ≡ TermWait.After (record { node = n; at = at }))
        × IsNode draft.new n kind at) }
    ensures fault { IfErr result (λ e. e ≡ TermFault.Memory) }
{
    let node = draft.add(kind, at)?;
    Ok(TermWait::After(PlacedNode { node, at }))
}

// A literal.
fn literal<'t>(
    alloc: Global,
    draft: &mut Draft<'t>,
    word: Word<'t>,
) -> Result<TermWait<'t>, TermFault>
    requires { IsToken TokenKind.Literal word.spelling.now }
    ensures held { (fs : List TermConstruct)
        → StepLosesNone draft.old draft.new fs TermWait.Need fs result }
    ensures keeps { OnOk result (Keeps draft.old draft.new) }
    ensures broken { OnOk result (draft.new.broken ≡ draft.old.broken) }
    ensures wait { IfOk result (λ w. (n : ℕ) × (bytes : List ℕ)
        × (w ≡ TermWait.After (record { node = n; at = word.entry.at })) × IsNode draft.new n
        (NodeKind.Lit bytes) word.entry.at × StandsFor word.entry.spelling.now bytes) }
    ensures fault { IfErr result (λ e. e ≡ TermFault.Memory) }
{
    let bytes = literal_bytes(alloc, word.spelling)?;
    leaf(draft, NodeKind::Lit(Bytes::new(bytes)), word.at)
}

// What is between the slashes.
fn between_slashes(spelling: &[u8]) -> &[u8]
    requires { IsToken TokenKind.Regex spelling.now }
    ensures bytes { result.now ≡ between spelling.now }
    ensures short { length result.now + 2 ≤ length spelling.now }
{
    let (_, behind) = spelling.split_at(1);
    let (body, _) = behind.split_at(spelling.len() - 2);
    body
}

// A body.
fn body<'t>(
    alloc: Global,
    depth: usize,
    draft: &mut Draft<'t>,
    word: Word<'t>,
) -> Result<TermWait<'t>, TermFault>
    requires token { IsToken TokenKind.Regex word.spelling.now }
    requires place { word.at + length word.spelling.now < 2 ^ 32 }
    ensures held { (fs : List TermConstruct)
        → StepLosesNone draft.old draft.new fs TermWait.Need fs result }
    ensures keeps { OnOk result (Keeps draft.old draft.new) }
    ensures wait { IfOk result (λ w. (n : ℕ)
        × (w ≡ TermWait.After (record { node = n; at = word.entry.at })) ×
        (n < length draft.new.nodes)
        × (draft.new.broken ≡ None → (r : Regex) × BodySpells r (between word.entry.spelling.now)
        × ShowsRegex r draft.new.nodes n (word.entry.at + 1))) }
    ensures notes { OnOk result ((cs : List Check) → NotesLeast cs draft.old.broken
        → NotesLeast (cs ++ Matched (word.entry.at + 1) depth (between word.entry.spelling.now)
        ∷ []) draft.new.broken) }
    ensures fault { IfErr result (λ e. e ≡ TermFault.Memory) }
{
    let bytes = between_slashes(word.spelling);
    let node = draft.body(alloc, bytes, word.at + 1, depth)?;
    Ok(TermWait::After(PlacedNode { node, at: word.at }))
}

// Notes the limit where something opens that nests too deep.
fn nest(draft: &mut Draft, depth: usize, at: u32)
    ensures held { LosesNone draft.old draft.new (λ x. ⊥) (λ x. ⊥) }
    ensures keeps { Keeps draft.old draft.new }
    ensures notes { (cs : List Check) → NotesLeast cs draft.old.broken
        → NotesLeast (cs ++ Nested at depth ∷ []) draft.new.broken }
{
    if depth != DEEPEST {
        return;
    }
    draft.note(Break::OverLimit { at });
}

// Opens a construct, which nests.
fn open<'t>(
    stack: &mut Stack,
    draft: &mut Draft<'t>,
    construct: TermConstruct,
    at: u32,
) -> Result<TermWait<'t>, TermFault>
    ensures held { IfOk result (λ w.
        LosesNone draft.old draft.new (InConstructs (construct ∷ stack.old)) (IsHeld stack.new w)) }
    ensures keeps { OnOk result (Keeps draft.old draft.new) }
    ensures wait { IfOk result (λ w. w ≡ TermWait.Need) }
    ensures pushed { OnOk result (stack.new ≡ construct ∷ stack.old) }
    ensures notes { OnOk result ((cs : List Check) → NotesLeast cs draft.old.broken
        → NotesLeast (cs ++ Nested at (open_constructs stack.old) ∷ []) draft.new.broken) }
    ensures fault { IfErr result (λ e. e ≡ TermFault.Memory) }
{
    nest(draft, stack.depth(), at);
    stack.push(construct)?;
    Ok(TermWait::Need)
}

// A bar ends a sequence.
fn bar<'t>(stack: &mut Stack, draft: &mut Draft<'t>) -> Result<TermWait<'t>, TermFault>
    requires { SomeConstructs draft.old stack.old }
    ensures held { StepLosesNone draft.old draft.new stack.old TermWait.Need stack.new result }
    ensures keeps { OnOk result (Keeps draft.old draft.new) }
    ensures broken { OnOk result (draft.new.broken ≡ draft.old.broken) }
    ensures step { (at : ℕ → ℕ) (base : ℕ) (es : List Entry)
        → ConstructsShow draft.old at base stack.old es
        → Steps draft.new at base stack.new result (on_bar (take_seq es)) }
{
    let closed = close_seq(stack, draft)?;
    let Some(seq) = closed else {
        return Err(TermFault::Wrong);
    };
    stack.push(TermConstruct::Ended(seq))?;
    Ok(TermWait::Need)
}

// A parenthesis ends a term.
fn close<'t>(stack: &mut Stack, draft: &mut Draft<'t>) -> Result<TermWait<'t>, TermFault>
    requires { SomeConstructs draft.old stack.old }
    ensures held { StepLosesNone draft.old draft.new stack.old TermWait.Need stack.new result }
    ensures keeps { OnOk result (Keeps draft.old draft.new) }
    ensures broken { OnOk result (draft.new.broken ≡ draft.old.broken) }
    ensures step { (at : ℕ → ℕ) (base : ℕ) (es : List Entry)
        → ConstructsShow draft.old at base stack.old es
        → Steps draft.new at base stack.new result (on_close (take_term es)) }
{
    let closed = close_term(stack, draft)?;
    let Some(term) = closed else {
        return Err(TermFault::Wrong);
    };
    let Some(at) = stack.take_mark() else {
        return Err(TermFault::Wrong);
    };
    Ok(TermWait::After(PlacedNode {
        node: term.node,
        at,
    }))
}

// A word where a member has to begin.
fn begin<'t>(
    alloc: Global,
    stack: &mut Stack,
    draft: &mut Draft<'t>,
    free: bool,
    word: Word<'t>,
) -> Result<TermWait<'t>, TermFault>
    requires constructs { SomeConstructs draft.old stack.old }
    requires token { IsToken word.kind word.spelling.now }
    requires place { word.at + length word.spelling.now < 2 ^ 32 }
    ensures held { StepLosesNone draft.old draft.new stack.old TermWait.Need stack.new result }
    ensures keeps { OnOk result (Keeps draft.old draft.new) }
    ensures step { Behind draft.old stack.old word.entry.at (λ at base es.
        Steps draft.new at base stack.new result (begin_pre free es (word_of word.entry))) }
    ensures notes { Behind draft.old stack.old word.entry.at (λ at base es.
        NotesMore draft.old.broken draft.new.broken result
        (begin_asks at (base + length (entries es)) es (word_of word.entry))) }
{
    match word.kind {
        TokenKind::Name => Ok(TermWait::Named(
            free,
            Name {
                bytes: word.spelling,
                at: word.at,
            },
        )),
        TokenKind::Number => {
            if word.spelling == b"1".as_slice() {
                leaf(draft, NodeKind::One, word.at)
            } else {
                Err(TermFault::Wrong)
            }
        }
        TokenKind::Literal => literal(alloc, draft, word),
        TokenKind::Regex => body(alloc, stack.depth(), draft, word),
        TokenKind::Tilde => open(stack, draft, TermConstruct::Muted(word.at), word.at),
        TokenKind::Bang => Ok(TermWait::Writing(word.at)),
        TokenKind::OpenBracket => Ok(TermWait::Bracket(word.at)),
        TokenKind::OpenParen => open(stack, draft, TermConstruct::Mark(word.at), word.at),
        TokenKind::Bar => {
            if free {
                bar(stack, draft)
            } else {
                Err(TermFault::Wrong)
            }
        }
        TokenKind::CloseParen => {
            if free {
                close(stack, draft)
            } else {
                Err(TermFault::Wrong)
            }
        }
        _ => Err(TermFault::Wrong),
    }
}

// Ends a member with a postfix. Where the count is bad its atom is alone, and the text is refused
// in the end.
pub(crate) fn end_turns(
    stack: &mut Stack,
    draft: &mut Draft,
    item: PlacedNode,
    bounds: Bounds,
    lazy: bool,
) -> Result<(), Memory>
    requires { SomeTermTurned draft.old stack.old item bounds }
    ensures held { OnOk result (LosesNone draft.old draft.new
        (IsHeld stack.old (TermWait.Turned item bounds)) (InConstructs stack.new)) }
    ensures keeps { OnOk result (Keeps draft.old draft.new) }
    ensures broken { OnOk result (draft.new.broken ≡ draft.old.broken) }
    ensures put { OnOk result (OnTermTurned draft.old stack.old item bounds (λ at base es a p.
        ConstructsShow draft.new at base stack.new (with_pre (Turns a p lazy) es))) }
{
    if bounds.are_bad() {
        put(stack, draft, item)?;
        return Ok(());
    }
    let node = draft.add(
        NodeKind::Rep {
            body: item.node,
            min: bounds.low,
            max: bounds.high,
            lazy,
        },
        item.at,
    )?;
    put(stack, draft, PlacedNode { node, at: item.at })?;
    Ok(())
}

// An atom that takes turns, `low` of them or more, up to `high`.
fn turned<'t>(item: PlacedNode, low: u32, high: Option<u32>) -> TermWait<'t>
    ensures { result ≡ TermWait.Turned item (record { low = low; high = high }) }
{
    TermWait::Turned(item, Bounds { low, high })
}

// A word after an atom.
fn word_after_atom<'t>(
    alloc: Global,
    stack: &mut Stack,
    draft: &mut Draft<'t>,
    item: PlacedNode,
    word: Word<'t>,
) -> Result<TermWait<'t>, TermFault>
    requires atom { SomeAtom draft.old stack.old item }
    requires token { IsToken word.kind word.spelling.now }
    requires place { word.at + length word.spelling.now < 2 ^ 32 }
    ensures held { StepLosesNone draft.old draft.new stack.old
        (TermWait.After item) stack.new result }
    ensures keeps { OnOk result (Keeps draft.old draft.new) }
    ensures step { OnAtom draft.old stack.old item (λ at base es a.
        IsBehindAtom at base es a word.entry.at
        → Steps draft.new at base stack.new result (after_atom a es (word_of word.entry))) }
    ensures notes { OnAtom draft.old stack.old item (λ at base es a.
        IsBehindAtom at base es a word.entry.at → NotesMore draft.old.broken draft.new.broken result
        (after_asks at (base + length (entries es) + length (atom a)) a es (word_of word.entry))) }
{
    match word.kind {
        TokenKind::Star => Ok(turned(item, 0, None)),
        TokenKind::Plus => Ok(turned(item, 1, None)),
        TokenKind::Question => Ok(turned(item, 0, Some(1))),
        TokenKind::OpenBrace => Ok(TermWait::InCount(item, Count::Opened, word.at)),
        _ => {
            put(stack, draft, item)?;
            begin(alloc, stack, draft, true, word)
        }
    }
}

// A word after a postfix: what makes it lazy, or what follows the member.
fn word_after_turns<'t>(
    alloc: Global,
    stack: &mut Stack,
    draft: &mut Draft<'t>,
    item: PlacedNode,
    bounds: Bounds,
    word: Word<'t>,
) -> Result<TermWait<'t>, TermFault>
    requires turned { SomeTermTurned draft.old stack.old item bounds }
    requires token { IsToken word.kind word.spelling.now }
    requires place { word.at + length word.spelling.now < 2 ^ 32 }
    ensures held { StepLosesNone draft.old draft.new stack.old
        (TermWait.Turned item bounds) stack.new result }
    ensures keeps { OnOk result (Keeps draft.old draft.new) }
    ensures step { OnTermTurned draft.old stack.old item bounds (λ at base es a p.
        IsBehindTurns at base es a p word.entry.at
        → Steps draft.new at base stack.new result (after_term_turns a p es (word_of word.entry))) }
    ensures notes { OnTermTurned draft.old stack.old item bounds (λ at base es a p.
        IsBehindTurns at base es a p word.entry.at
        → NotesMore draft.old.broken draft.new.broken result (turned_asks at
        (base + length (entries es) + length (atom a ++ postfix p)) a p es (word_of word.entry))) }
{
    match word.kind {
        TokenKind::Question => {
            end_turns(stack, draft, item, bounds, true)?;
            Ok(TermWait::Ready)
        }
        _ => {
            end_turns(stack, draft, item, bounds, false)?;
            begin(alloc, stack, draft, true, word)
        }
    }
}

// A word after a name.
fn word_after_name<'t>(
    alloc: Global,
    stack: &mut Stack,
    draft: &mut Draft<'t>,
    name: Name<'t>,
    word: Word<'t>,
) -> Result<TermWait<'t>, TermFault>
    requires constructs { SomeName draft.old stack.old name.at }
    requires token { IsToken word.kind word.spelling.now }
    requires place { word.at + length word.spelling.now < 2 ^ 32 }
    ensures held { StepLosesNone draft.old draft.new stack.old TermWait.Need stack.new result }
    ensures keeps { OnOk result (Keeps draft.old draft.new) }
    ensures step { Behind draft.old stack.old name.entry.at (λ at base es. word.entry.at
        ≡ at (base + length (entries es) + 1) → Steps draft.new at base stack.new result
        (after_name name.entry.bytes.now es (word_of word.entry))) }
    ensures notes { Behind draft.old stack.old name.entry.at (λ at base es. word.entry.at
        ≡ at (base + length (entries es) + 1) → NotesMore draft.old.broken draft.new.broken result
        (named_asks at (base + length (entries es)) name.entry.bytes.now es (word_of word.entry))) }
{
    match word.kind {
        TokenKind::At => {
            let register = draft.register(name.bytes)?;
            let store = PlacedRegister {
                register,
                at: name.at,
            };
            open(stack, draft, TermConstruct::Storing(store), name.at)
        }
        TokenKind::Define => Err(TermFault::Wrong),
        _ => {
            let item = call(draft, name)?;
            word_after_atom(alloc, stack, draft, item, word)
        }
    }
}

// A call of a name.
pub(crate) fn call<'t>(draft: &mut Draft<'t>, name: Name<'t>) -> Result<PlacedNode, Memory>
    ensures held { IfOk result (λ p.
        LosesNone draft.old draft.new (λ x. ⊥) (λ x. x ≡ NodeNumber p.node)) }
    ensures keeps { OnOk result (Keeps draft.old draft.new) }
    ensures broken { OnOk result (draft.new.broken ≡ draft.old.broken) }
    ensures node { IfOk result (λ p. (k : ℕ) × IsNode draft.new p.node
        (NodeKind.Call k) name.entry.at × IsName draft.new k name.entry.bytes.now) }
    ensures place { IfOk result (λ p. p.at ≡ name.entry.at) }
{
    let number = draft.name(name.bytes)?;
    let node = draft.add(NodeKind::Call(number), name.at)?;
    Ok(PlacedNode { node, at: name.at })
}

// The register that is written.
fn write<'t>(draft: &mut Draft<'t>, at: u32, word: Word<'t>) -> Result<TermWait<'t>, TermFault>
    ensures held { (fs : List TermConstruct)
        → StepLosesNone draft.old draft.new fs TermWait.Need fs result }
    ensures keeps { OnOk result (Keeps draft.old draft.new) }
    ensures broken { OnOk result (draft.new.broken ≡ draft.old.broken) }
    ensures step { BehindAny draft.old at (λ place base fs es. Steps draft.new place base fs result
        (on_name (λ n. goes (After (SpecWrite n)) es) (word_of word.entry))) }
{
    let TokenKind::Name = word.kind else {
        return Err(TermFault::Wrong);
    };
    let register = draft.register(word.spelling)?;
    leaf(draft, NodeKind::Write(register), at)
}

// The register after a bracket.
fn bracket<'t>(draft: &mut Draft<'t>, at: u32, word: Word<'t>) -> Result<TermWait<'t>, TermFault>
    ensures held { (fs : List TermConstruct)
        → StepLosesNone draft.old draft.new fs TermWait.Need fs result }
    ensures keeps { OnOk result (Keeps draft.old draft.new) }
    ensures broken { OnOk result (draft.new.broken ≡ draft.old.broken) }
    ensures step { BehindAny draft.old at (λ place base fs es. Steps draft.new place base fs result
        (on_name (λ n. goes (BracketName n) es) (word_of word.entry))) }
{
    let TokenKind::Name = word.kind else {
        return Err(TermFault::Wrong);
    };
    let register = draft.register(word.spelling)?;
    Ok(TermWait::BracketName(at, register))
}

// The sign after a register.
fn sign<'t>(
    alloc: Global,
    at: u32,
    register: u32,
    kind: TokenKind,
) -> Result<TermWait<'t>, TermFault>
    ensures held { IfOk result (λ w. (x : Numbered) → x ≡ RegisterNumber register → InWait w x) }
    ensures step { (made : Made) (place : ℕ → ℕ) (base : ℕ) (fs : List TermConstruct)
        (es : List Entry)
        (r : List ℕ) (b : List ℕ) → ConstructsShow made place base fs es
        → at ≡ place (base + length (entries es))
        → IsRegister made register r
        → Steps made place base fs result (on_sign r es (grammar_word kind b)) }
{
    match kind {
        TokenKind::Arrow => Ok(TermWait::Assigning(Assignment {
            at,
            append: false,
            register,
            pieces: Vec::new(alloc),
        })),
        TokenKind::PlusEquals => Ok(TermWait::Assigning(Assignment {
            at,
            append: true,
            register,
            pieces: Vec::new(alloc),
        })),
        _ => Err(TermFault::Wrong),
    }
}

// A part of an assignment.
fn part<'t>(
    alloc: Global,
    draft: &mut Draft<'t>,
    mut assignment: Assignment,
    word: Word<'t>,
) -> Result<TermWait<'t>, TermFault>
    requires token { IsToken word.kind word.spelling.now }
    ensures held { (fs : List TermConstruct)
        → StepLosesNone draft.old draft.new fs (TermWait.Assigning assignment) fs result }
    ensures keeps { OnOk result (Keeps draft.old draft.new) }
    ensures broken { OnOk result (draft.new.broken ≡ draft.old.broken) }
    ensures first { FirstPart draft.old draft.new assignment result (word_of word.entry) }
    ensures next { (word.entry.kind ≡ TokenKind.CloseBracket → ⊥)
        → NextPart draft.old draft.new assignment result (word_of word.entry) }
{
    let read = piece(alloc, draft, word)?;
    let Some(piece) = read else {
        return Err(TermFault::Wrong);
    };
    assignment.pieces.push(piece)?;
    Ok(TermWait::Assigned(assignment))
}

// A word after a part.
fn word_after_part<'t>(
    alloc: Global,
    draft: &mut Draft<'t>,
    assignment: Assignment,
    word: Word<'t>,
) -> Result<TermWait<'t>, TermFault>
    requires some { (place : ℕ → ℕ) × (i : ℕ) × (append : Bool) × (r : List ℕ) × (p : SpecPart)
        × (ps : List SpecPart)
        × ShowsMode draft.old place i (TermWait.Assigned assignment) (Assigned append r p ps) }
    requires token { IsToken word.kind word.spelling.now }
    ensures held { (fs : List TermConstruct)
        → StepLosesNone draft.old draft.new fs (TermWait.Assigned assignment) fs result }
    ensures keeps { OnOk result (Keeps draft.old draft.new) }
    ensures broken { OnOk result (draft.new.broken ≡ draft.old.broken) }
    ensures step { NextPart draft.old draft.new assignment result (word_of word.entry) }
{
    match word.kind {
        TokenKind::CloseBracket => {
            let at = assignment.at;
            leaf(draft, assignment.kind(), at)
        }
        _ => part(alloc, draft, assignment, word),
    }
}

// Notes the limit of counts where it is broken.
fn note_count(draft: &mut Draft, bounds: Bounds, brace: u32)
    ensures held { LosesNone draft.old draft.new (λ x. ⊥) (λ x. ⊥) }
    ensures keeps { Keeps draft.old draft.new }
    ensures noted { (p : Postfix) → HoldsBounds bounds p → HoldsTurns draft.new bounds p }
    ensures notes { (p : Postfix) (from : ℕ) → brace ≡ from → HoldsBounds bounds p
        → (cs : List Check) → NotesLeast cs draft.old.broken
        → NotesLeast (cs ++ postfix_checks p from) draft.new.broken }
{
    if !bounds.are_bad() {
        return;
    }
    draft.note(Break::BadCount { at: brace });
}

// A word after what is read of a count.
fn go_on_counting<'t>(
    draft: &mut Draft<'t>,
    item: PlacedNode,
    brace: u32,
    outcome: CountOutcome,
) -> Result<TermWait<'t>, TermFault>
    ensures held { (fs : List TermConstruct)
        → StepLosesNone draft.old draft.new fs (TermWait.After item) fs result }
    ensures keeps { OnOk result (Keeps draft.old draft.new) }
    ensures step { (fs : List TermConstruct) → OnAtom draft.old fs item (λ at base es a.
        (t : CountStep)
        → IsBehindAtom at base es a brace → ShowsCountStep outcome t
        → Steps draft.new at base fs result (on_count a es t)) }
    ensures notes { (t : CountStep) (from : ℕ) → brace ≡ from → ShowsCountStep outcome t
        → (cs : List Check) → NotesLeast cs draft.old.broken
        → OnOk result (NotesLeast (cs ++ count_asks from t) draft.new.broken) }
{
    match outcome {
        CountOutcome::On(count) => Ok(TermWait::InCount(item, count, brace)),
        CountOutcome::Read(bounds) => {
            note_count(draft, bounds, brace);
            Ok(TermWait::Turned(item, bounds))
        }
        CountOutcome::Wrong => Err(TermFault::Wrong),
    }
}

// A word, in whatever it is waited for.
pub(crate) fn step_in<'t>(
    alloc: Global,
    stack: &mut Stack,
    draft: &mut Draft<'t>,
    wait: TermWait<'t>,
    word: Word<'t>,
) -> Result<TermWait<'t>, TermFault>
    requires inside { SomeInside draft.old stack.old wait }
    requires token { IsToken word.kind word.spelling.now }
    requires place { word.at + length word.spelling.now < 2 ^ 32 }
    ensures held { StepLosesNone draft.old draft.new stack.old wait.entry stack.new result }
    ensures keeps { OnOk result (Keeps draft.old draft.new) }
    ensures step { InPlace draft.old stack.old wait.entry word.entry.at (λ at base i. Steps
        draft.new at base stack.new result (spec_step_in i.mode i.entries (word_of word.entry))) }
    ensures notes { InPlace draft.old stack.old wait.entry word.entry.at (λ at base i.
        NotesMore draft.old.broken draft.new.broken result
        (asks at (base + length (entries i.entries)) i.mode i.entries (word_of word.entry))) }
{
    match wait {
        TermWait::Need => begin(alloc, stack, draft, false, word),
        TermWait::Ready => begin(alloc, stack, draft, true, word),
        TermWait::After(item) => word_after_atom(alloc, stack, draft, item, word),
        TermWait::Turned(item, bounds) => word_after_turns(alloc, stack, draft, item, bounds, word),
        TermWait::Named(_, name) => word_after_name(alloc, stack, draft, name, word),
        TermWait::Writing(at) => write(draft, at, word),
        TermWait::Bracket(at) => bracket(draft, at, word),
        TermWait::BracketName(at, register) => sign(alloc, at, register, word.kind),
        TermWait::Assigning(assignment) => part(alloc, draft, assignment, word),
        TermWait::Assigned(assignment) => word_after_part(alloc, draft, assignment, word),
        TermWait::InCount(item, count, brace) => go_on_counting(
            draft,
            item,
            brace,
            count_step(count, word.kind, held_number(word.spelling)),
        ),
    }
}
