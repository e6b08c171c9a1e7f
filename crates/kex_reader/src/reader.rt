// A whole program, a word at a time.

ghost use Rattle.std.specs.Prelude.{◌≡◌, ℕ, ◌+◌, ◌<◌, ◌^◌, ◌++◌, ◌∷◌, ◌⊎◌, [], false, List, length};
ghost use Rattle.std.specs.Prelude.{None, IfOk, IfErr, OnOk};
ghost use Rattle.kex_tokens.specs.Lexemes.{IsToken};
ghost use Rattle.kex_reader.specs.Holding.{EndLosesNone, FinishLosesNone, InPhase, InState};
ghost use Rattle.kex_reader.specs.Holding.{IsBehindState, ReaderEnds, ReaderFinishes};
ghost use Rattle.kex_reader.specs.Holding.{ReaderLosesNone, ReaderShows, ReaderSteps};
ghost use Rattle.kex_reader.specs.Holding.{WithinDefinition, whole_term};
ghost use Rattle.kex_reader.specs.Reading.{Entry, State, entries, with_pre, Within};
ghost use Rattle.kex_reader.specs.Reading.{finish as spec_finish};
ghost use Rattle.kex_reader.specs.Reading.{finish_within as spec_finish_within, first_name};
ghost use Rattle.kex_reader.specs.Reading.{FirstName, step as spec_step, step_within};
ghost use Rattle.kex_reader.specs.Reading.{take_term};
ghost use Rattle.kex_reader.specs.Shown.{IsName};
ghost use Rattle.kex_reader.specs.Asked.{state_asks};
ghost use Rattle.kex_reader.specs.Uses.{InStages, NodeNumber};
ghost use Rattle.kex_reader.specs.Checks.{Check, Staged};
ghost use Rattle.kex_reader.specs.Stands.{Behind, ConstructsShow, InConstructs, Keeps, LosesNone};
ghost use Rattle.kex_reader.specs.Stands.{NotesLeast, NotesMore, OnAtom, OnTermTurned, SomeAtom};
ghost use Rattle.kex_reader.specs.Stands.{SomeConstructs, SomeInside, SomeName, SomeTermTurned};
ghost use Rattle.kex_reader.specs.Stands.{word_of};
ghost use Rattle.kex_reader.specs.Syntax.{Call, Define, Once};
ghost use Rattle.kex_reader.specs.Syntax.{Turns, word as grammar_word};

use crate::draft::Draft;
use crate::inside::{TermFault, TermWait, call, end_turns, step_in};
use crate::stack::{PlacedNode, Stack};
use crate::terms::{close_term, put};
use crate::word::{Name, Word};
use kex_model::program::{Definition, Start};
use kex_regexp::breaks::Break;
use kex_regexp::counts::Bounds;
use kex_tokens::token::TokenKind;
use std::alloc::Global;

/// How many stages a start line may name.
const MOST_STAGES: usize = 256;

// Notes the limit where one stage too many is named.
fn limit_stages(draft: &mut Draft, before: usize, at: u32)
    ensures held { LosesNone draft.old draft.new (λ x. ⊥) (λ x. ⊥) }
    ensures keeps { Keeps draft.old draft.new }
    ensures notes { (cs : List Check) → NotesLeast cs draft.old.broken
        → NotesLeast (cs ++ Staged at (before + 1) ∷ []) draft.new.broken }
{
    if before != MOST_STAGES {
        return;
    }
    draft.note(Break::OverLimit { at });
}

/// The name of a definition, and its offset.
#[derive(Clone, Copy)]
pub(crate) struct Head {
    pub(crate) name: u32,
    pub(crate) at: u32,
}

/// What the next word belongs to: the start line, a head, or a definition.
#[derive(Drop)]
pub(crate) enum Phase<'t> {
    Begin,
    FirstName(Name<'t>),
    StartLine,
    StageRead,
    StageNext,
    HeadRead(Name<'t>),
    Within(Head, TermWait<'t>),
}

/// A program that is being read: what is open in the definition, what is made, and the definitions
/// and stages so far.
#[derive(Drop)]
pub(crate) struct Reader<'t> {
    pub(crate) alloc: Global,
    pub(crate) stack: Stack,
    pub(crate) draft: Draft<'t>,
    pub(crate) definitions: Vec<Definition>,
    pub(crate) stages: Vec<Start>,
}

impl<'t> Reader<'t> {
    pub(crate) fn new(alloc: Global) -> Reader<'t>
        ensures { (result.stack ≡ []) × (result.definitions.items ≡ []) × (result.stages.items ≡ [])
            × (result.draft ≡ record { nodes = []; names = []; registers = []; broken = None }) }
    {
        Reader {
            alloc,
            stack: Stack::new(alloc),
            draft: Draft::new(alloc),
            definitions: Vec::new(alloc),
            stages: Vec::new(alloc),
        }
    }

    // A definition begins.
    fn head(&mut self, name: Name<'t>) -> Result<Phase<'t>, TermFault>
        ensures held { IfOk result (λ p.
            LosesNone self.old.draft self.new.draft (λ x. ⊥) (InPhase p)) }
        ensures keeps { OnOk result (Keeps self.old.draft self.new.draft) }
        ensures rest { OnOk result ((self.new.stack ≡ self.old.stack) × (self.new.definitions.items
            ≡ self.old.definitions.items) × (self.new.stages.items ≡ self.old.stages.items)) }
        ensures phase { IfOk result (λ p. (k : ℕ)
            × (p ≡ Phase.Within (record { name = k; at = name.entry.at }) TermWait.Need)
            × IsName self.new.draft k name.entry.bytes.now) }
        ensures fault { IfErr result (λ e. e ≡ TermFault.Memory) }
        ensures broken { OnOk result (self.new.draft.broken ≡ self.old.draft.broken) }
    {
        let number = self.draft.name(name.bytes)?;
        Ok(Phase::Within(
            Head {
                name: number,
                at: name.at,
            },
            TermWait::Need,
        ))
    }

    // A stage is named.
    fn stage(&mut self, word: Word<'t>) -> Result<Phase<'t>, TermFault>
        ensures held { OnOk result (LosesNone self.old.draft self.new.draft
            (InStages self.old.stages.items) (InStages self.new.stages.items)) }
        ensures keeps { OnOk result (Keeps self.old.draft self.new.draft) }
        ensures rest { OnOk result ((self.new.stack ≡ self.old.stack)
            × (self.new.definitions.items ≡ self.old.definitions.items)) }
        ensures read { IfOk result (λ p. (k : ℕ) × (p ≡ Phase.StageRead) × (word.entry.kind
            ≡ TokenKind.Name) × IsName self.new.draft k word.entry.spelling.now × (self.new.stages.items
            ≡ self.old.stages.items ++ record { name = k; at = word.entry.at } ∷ [])) }
        ensures fault { IfErr result (λ e. (e ≡ TermFault.Memory)
            ⊎ ((e ≡ TermFault.Wrong) × (word.entry.kind ≡ TokenKind.Name → ⊥))) }
        ensures notes { (cs : List Check) → NotesLeast cs self.old.draft.broken
            → OnOk result (NotesLeast (cs ++ Staged word.entry.at (length self.old.stages.items + 1)
            ∷ []) self.new.draft.broken) }
    {
        let TokenKind::Name = word.kind else {
            return Err(TermFault::Wrong);
        };
        let name = self.draft.name(word.spelling)?;
        limit_stages(&mut self.draft, self.stages.len(), word.at);
        self.stages.push(Start { name, at: word.at })?;
        Ok(Phase::StageRead)
    }

    // The definition that is being read ends with what is open.
    fn end(&mut self, head: Head) -> Result<(), TermFault>
        requires { SomeConstructs self.old.draft self.old.stack }
        ensures held { OnOk result
            (EndLosesNone self.old self.new head (InConstructs self.old.stack)) }
        ensures keeps { OnOk result (Keeps self.old.draft self.new.draft) }
        ensures stages { OnOk result (self.new.stages.items ≡ self.old.stages.items) }
        ensures ends { (at : ℕ → ℕ) (base : ℕ) (es : List Entry)
            → ConstructsShow self.old.draft at base self.old.stack es
            → ReaderEnds self.old self.new at base head result (whole_term (take_term es)) }
        ensures broken { OnOk result (self.new.draft.broken ≡ self.old.draft.broken) }
    {
        let closed = close_term(&mut self.stack, &mut self.draft)?;
        let Some(term) = closed else {
            return Err(TermFault::Wrong);
        };
        if !self.stack.is_empty() {
            return Err(TermFault::Wrong);
        }
        self.definitions.push(Definition {
            name: head.name,
            at: head.at,
            root: term.node,
        })?;
        Ok(())
    }

    // A word inside a definition.
    fn go_on(
        &mut self,
        head: Head,
        wait: TermWait<'t>,
        word: Word<'t>,
    ) -> Result<Phase<'t>, TermFault>
        requires inside { SomeInside self.old.draft self.old.stack wait }
        requires token { IsToken word.kind word.spelling.now }
        requires place { word.at + length word.spelling.now < 2 ^ 32 }
        ensures held { ReaderLosesNone self.old (Phase.Within head wait.entry) self.new result }
        ensures step { WithinDefinition self.old head wait.entry (λ at h done name i.
            (word.entry.kind ≡ TokenKind.Define → ⊥)
            → IsBehindState at (Within h done name i) word.entry.at → ReaderSteps self.new at result
            (step_within h done name i.mode i.entries (word_of word.entry))) }
        ensures notes { WithinDefinition self.old head wait.entry (λ at h done name i.
            IsBehindState at (Within h done name i) word.entry.at
            → NotesMore self.old.draft.broken self.new.draft.broken result
            (state_asks at (Within h done name i) (word_of word.entry))) }
    {
        match step_in(self.alloc, &mut self.stack, &mut self.draft, wait, word) {
            Ok(next) => Ok(Phase::Within(head, next)),
            Err(fault) => Err(fault),
        }
    }

    // Where the next definition begins, after a name that needn't be a call.
    fn next_definition(&mut self, head: Head, wait: TermWait<'t>) -> Result<Phase<'t>, TermFault>
        requires { SomeInside self.old.draft self.old.stack wait }
        ensures held { ReaderLosesNone self.old (Phase.Within head wait.entry) self.new result }
        ensures step { WithinDefinition self.old head wait.entry (λ at h done name i.
            ReaderSteps self.new at result (step_within h done name i.mode i.entries Define)) }
        ensures broken { OnOk result (self.new.draft.broken ≡ self.old.draft.broken) }
    {
        let TermWait::Named(free, name) = wait else {
            return Err(TermFault::Wrong);
        };
        if !free {
            return Err(TermFault::Wrong);
        }
        match self.end(head) {
            Ok(()) => self.head(name),
            Err(fault) => Err(fault),
        }
    }

    // The first name is the start line's word, or a head.
    fn first(&mut self, name: Name<'t>, kind: TokenKind) -> Result<Phase<'t>, TermFault>
        ensures held { ReaderLosesNone self.old (Phase.FirstName name.entry) self.new result }
        ensures step { (at : ℕ → ℕ) (n b : List ℕ)
            → ReaderShows self.old at (Phase.FirstName name.entry) (FirstName n)
            → ReaderSteps self.new at result (first_name n (grammar_word kind b)) }
        ensures broken { OnOk result (self.new.draft.broken ≡ self.old.draft.broken) }
    {
        match kind {
            TokenKind::Define => self.head(name),
            TokenKind::Colon => {
                if name.bytes == b"start".as_slice() {
                    Ok(Phase::StartLine)
                } else {
                    Err(TermFault::Wrong)
                }
            }
            _ => Err(TermFault::Wrong),
        }
    }

    // A word more.
    pub(crate) fn step(&mut self, phase: Phase<'t>, word: Word<'t>) -> Result<Phase<'t>, TermFault>
        requires some { InState self.old phase }
        requires token { IsToken word.kind word.spelling.now }
        requires place { word.at + length word.spelling.now < 2 ^ 32 }
        ensures held { ReaderLosesNone self.old phase.entry self.new result }
        ensures step { (at : ℕ → ℕ) (s : State) → ReaderShows self.old at phase.entry s
            → IsBehindState at s word.entry.at
            → ReaderSteps self.new at result (spec_step s (word_of word.entry)) }
        ensures notes { (at : ℕ → ℕ) (s : State) (cs : List Check)
            → ReaderShows self.old at phase.entry s → IsBehindState at s word.entry.at
            → NotesLeast cs self.old.draft.broken → OnOk result
            (NotesLeast (cs ++ state_asks at s (word_of word.entry)) self.new.draft.broken) }
    {
        let name = Name {
            bytes: word.spelling,
            at: word.at,
        };
        match phase {
            Phase::Begin => match word.kind {
                TokenKind::Name => Ok(Phase::FirstName(name)),
                _ => Err(TermFault::Wrong),
            },
            Phase::FirstName(first) => self.first(first, word.kind),
            Phase::StartLine => self.stage(word),
            Phase::StageRead => match word.kind {
                TokenKind::Pipe => Ok(Phase::StageNext),
                TokenKind::Name => Ok(Phase::HeadRead(name)),
                _ => Err(TermFault::Wrong),
            },
            Phase::StageNext => self.stage(word),
            Phase::HeadRead(head) => match word.kind {
                TokenKind::Define => self.head(head),
                _ => Err(TermFault::Wrong),
            },
            Phase::Within(head, wait) => match word.kind {
                TokenKind::Define => self.next_definition(head, wait),
                _ => self.go_on(head, wait, word),
            },
        }
    }

    // The last definition ends with the text.
    fn finish_within(&mut self, head: Head, wait: TermWait<'t>) -> Result<(), TermFault>
        requires { SomeInside self.old.draft self.old.stack wait }
        ensures held { FinishLosesNone self.old (Phase.Within head wait.entry) self.new result }
        ensures ends { WithinDefinition self.old head wait.entry (λ at h done name i.
            ReaderFinishes self.new at result (spec_finish_within h done name i.mode i.entries)) }
        ensures broken { OnOk result (self.new.draft.broken ≡ self.old.draft.broken) }
    {
        match wait {
            TermWait::Ready => return self.end(head),
            TermWait::After(item) => return self.end_with(head, item),
            TermWait::Turned(item, bounds) => return self.end_turned(head, item, bounds),
            TermWait::Named(_, name) => return self.end_call(head, name),
            _ => {}
        }
        Err(TermFault::Wrong)
    }

    // The last definition ends with this call.
    fn end_call(&mut self, head: Head, name: Name<'t>) -> Result<(), TermFault>
        requires { SomeName self.old.draft self.old.stack name.at }
        ensures held { OnOk result
            (EndLosesNone self.old self.new head (InConstructs self.old.stack)) }
        ensures keeps { OnOk result (Keeps self.old.draft self.new.draft) }
        ensures stages { OnOk result (self.new.stages.items ≡ self.old.stages.items) }
        ensures ends { Behind self.old.draft self.old.stack name.entry.at (λ at base es.
            ReaderEnds self.old self.new at base head result
            (whole_term (take_term (with_pre (Once (Call name.entry.bytes.now)) es)))) }
        ensures broken { OnOk result (self.new.draft.broken ≡ self.old.draft.broken) }
    {
        let item = call(&mut self.draft, name)?;
        self.end_with(head, item)
    }

    // The last definition ends with this atom and its postfix.
    fn end_turned(&mut self, head: Head, item: PlacedNode, bounds: Bounds) -> Result<(), TermFault>
        requires { SomeTermTurned self.old.draft self.old.stack item bounds }
        ensures held { OnOk result (EndLosesNone self.old self.new head (λ x.
            (x ≡ NodeNumber item.node) ⊎ InConstructs self.old.stack x)) }
        ensures keeps { OnOk result (Keeps self.old.draft self.new.draft) }
        ensures stages { OnOk result (self.new.stages.items ≡ self.old.stages.items) }
        ensures ends { OnTermTurned self.old.draft self.old.stack item bounds (λ at base es a p.
            ReaderEnds self.old self.new at base head result
            (whole_term (take_term (with_pre (Turns a p false) es)))) }
        ensures broken { OnOk result (self.new.draft.broken ≡ self.old.draft.broken) }
    {
        end_turns(&mut self.stack, &mut self.draft, item, bounds, false)?;
        self.end(head)
    }

    // The last definition ends with this atom.
    fn end_with(&mut self, head: Head, item: PlacedNode) -> Result<(), TermFault>
        requires { SomeAtom self.old.draft self.old.stack item }
        ensures held { OnOk result (EndLosesNone self.old self.new head (λ x.
            (x ≡ NodeNumber item.node) ⊎ InConstructs self.old.stack x)) }
        ensures keeps { OnOk result (Keeps self.old.draft self.new.draft) }
        ensures stages { OnOk result (self.new.stages.items ≡ self.old.stages.items) }
        ensures ends { OnAtom self.old.draft self.old.stack item (λ at base es a. ReaderEnds
            self.old self.new at base head result (whole_term (take_term (with_pre (Once a) es)))) }
        ensures broken { OnOk result (self.new.draft.broken ≡ self.old.draft.broken) }
    {
        put(&mut self.stack, &mut self.draft, item)?;
        self.end(head)
    }

    // The text ends.
    pub(crate) fn finish(&mut self, phase: Phase<'t>) -> Result<(), TermFault>
        requires { InState self.old phase }
        ensures held { FinishLosesNone self.old phase.entry self.new result }
        ensures ends { (at : ℕ → ℕ) (s : State) → ReaderShows self.old at phase.entry s
            → ReaderFinishes self.new at result (spec_finish s) }
        ensures broken { OnOk result (self.new.draft.broken ≡ self.old.draft.broken) }
    {
        match phase {
            Phase::Begin => Ok(()),
            Phase::StageRead => Ok(()),
            Phase::Within(head, wait) => self.finish_within(head, wait),
            _ => Err(TermFault::Wrong),
        }
    }
}
