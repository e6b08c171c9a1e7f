// The whole text.

ghost use Rattle.std.specs.Prelude.{◌≡◌, ℕ, ◌<◌, ◌≤◌, ◌⊎◌, None, Some, length, All, IfOk};
ghost use Rattle.std.specs.Prelude.{IfErr};
ghost use Rattle.kex_code.specs.Codes.{Different, IsAmong};
ghost use Rattle.kex_tokens.specs.Texts.{AreTokens, IsSpan, most_text};
ghost use Rattle.kex_reader.specs.Holding.{ShowsHead};
ghost use Rattle.kex_reader.specs.Shown.{ShowsDefinitions};
ghost use Rattle.kex_reader.specs.Spelling.{IsRefusedAs, ShowsProgram, Spells, made_of, main_stage};
ghost use Rattle.kex_reader.specs.Spelling.{of_limit, of_step, of_token};
ghost use Rattle.kex_reader.specs.Stands.{Has};
ghost use Rattle.kex_reader.specs.Syntax.{Program as Tree, header};
ghost use Rattle.kex_reader.specs.Uses.{InDefinitions, InNodes, InStages, NoneSpare, Numbered};

use crate::draft::Draft;
use crate::inside::TermFault;
use crate::reader::{Phase, Reader};
use crate::refusal::ReadRefusal;
use crate::word::Word;
use kex_code::memory::Memory;
use kex_code::piece::Bytes;
use kex_model::program::{Definition, Program, Start};
use kex_regexp::breaks::Break;
use kex_tokens::token::{Token, TokenFault};
use kex_tokens::tokens;
use std::alloc::Global;

// Why the text is refused that has no tokens.
fn token_refusal(fault: TokenFault) -> ReadRefusal
    ensures { result ≡ of_token fault }
{
    match fault {
        TokenFault::TextTooLong => ReadRefusal::TextTooLong,
        TokenFault::BadToken { at } => ReadRefusal::BadToken { at },
        TokenFault::Memory => ReadRefusal::Memory,
    }
}

// Why the text is refused that breaks a limit.
fn limit_refusal(broken: Break) -> ReadRefusal
    ensures { result ≡ of_limit broken }
{
    match broken {
        Break::BadRegex { at } => ReadRefusal::BadRegex { at },
        Break::BadCount { at } => ReadRefusal::BadCount { at },
        Break::BadSet { at } => ReadRefusal::BadSet { at },
        Break::OverLimit { at } => ReadRefusal::OverLimit { at },
    }
}

// Why the text is refused where there is no next step.
fn step_refusal(fault: TermFault, at: u32) -> ReadRefusal
    ensures { result ≡ of_step fault at }
{
    match fault {
        TermFault::Memory => ReadRefusal::Memory,
        TermFault::Wrong => ReadRefusal::Unexpected { at },
    }
}

// Without a start line the one stage is `main`, where it is defined.
fn main_alone(
    alloc: Global,
    names: &[Bytes],
    definitions: &[Definition],
) -> Result<Vec<Start>, Memory>
    requires { (d : Definition) → IsAmong definitions.now d → d.name < length names.now }
    ensures { IfOk result (λ ss. ss.items ≡ main_stage names.now definitions.now) }
{
    let mut stages = Vec::new(alloc);
    for i in 0..definitions.len() {
        let definition = definitions[i];
        if names[definition.name as usize].as_slice() == b"main".as_slice() {
            stages.push(Start {
                name: definition.name,
                at: definition.at,
            })?;
            return Ok(stages);
        }
    }
    Ok(stages)
}

// The stages of the program: those of its start line, if it has one.
fn stages_of(
    alloc: Global,
    names: &[Bytes],
    definitions: &[Definition],
    named: Vec<Start>,
) -> Result<Vec<Start>, Memory>
    requires { (d : Definition) → IsAmong definitions.now d → d.name < length names.now }
    ensures line { (length named.items ≡ 0 → ⊥) → IfOk result (λ ss. ss.items ≡ named.items) }
    ensures main { length named.items ≡ 0
        → IfOk result (λ ss. ss.items ≡ main_stage names.now definitions.now) }
{
    if named.is_empty() {
        main_alone(alloc, names, definitions)
    } else {
        Ok(named)
    }
}

// The program of what was read, unless a limit is broken.
fn program(
    alloc: Global,
    draft: Draft,
    definitions: Vec<Definition>,
    named: Vec<Start>,
) -> Result<Program, ReadRefusal>
    requires { (at : ℕ → ℕ) × (tree : Tree)
        × ShowsDefinitions tree.definitions draft at definitions.items (length (header tree.header))
        × ShowsHead tree.header draft at named.items }
    ensures whole { IfOk result (λ _. draft.entry.broken ≡ None) }
    ensures shown { IfOk result (λ P. (at : ℕ → ℕ) (tree : Tree)
        → ShowsDefinitions tree.definitions draft.entry at definitions.items
        (length (header tree.header)) → ShowsHead tree.header draft.entry at named.items
        → ShowsProgram tree (made_of P draft.entry.registers) at P) }
    ensures names { IfOk result (λ P. Different P.names) }
    ensures registers { IfOk result (λ P. Different draft.entry.registers
        × (P.registers ≡ length draft.entry.registers)) }
    ensures used { IfOk result (λ P. ((x : Numbered) → Has draft.entry x → InNodes draft.entry.nodes
        x ⊎ (InDefinitions definitions.items x ⊎ InStages named.items x)) → NoneSpare P) }
    ensures refused { IfErr result (λ e. (e ≡ ReadRefusal.Memory)
        ⊎ ((b : Break) × (draft.entry.broken ≡ Some b) × (e ≡ of_limit b))) }
{
    if let Some(broken) = draft.broken() {
        return Err(limit_refusal(broken));
    }
    let names = draft.names(alloc)?;
    let stages = stages_of(alloc, &names, &definitions, named)?;
    let program = draft.finish(names, definitions, stages)?;
    Ok(program)
}

// The tokens of a text as a program.
fn parse(alloc: Global, text: &[u8], tokens: &[Token]) -> Result<Program, ReadRefusal>
    requires short { length text.now ≤ most_text }
    requires cut { AreTokens text.now tokens.now }
    requires spans { All (IsSpan text.now) tokens.now }
    ensures read { IfOk result (λ P. Spells text.now P) }
    ensures refused { IfErr result (λ e. IsRefusedAs text.now e) }
{
    let mut reader = Reader::new(alloc);
    let mut phase = Phase::Begin;
    for i in 0..tokens.len() {
        let token = tokens[i];
        let word = Word {
            kind: token.kind,
            spelling: token.spelling(text),
            at: token.from,
        };
        match reader.step(phase, word) {
            Ok(next) => phase = next,
            Err(fault) => return Err(step_refusal(fault, token.from)),
        }
    }
    match reader.finish(phase) {
        Ok(()) => {}
        Err(fault) => return Err(step_refusal(fault, text.len() as u32)),
    }
    let Reader {
        alloc: _,
        stack: _,
        draft,
        definitions,
        stages,
    } = reader;
    program(alloc, draft, definitions, stages)
}

/// The program that a text spells. The time is linear in the text.
///
/// The refusals are asked one after another over the whole text, `TextTooLong` first and
/// `OverLimit` last; within one the lowest offset is answered.
pub fn read(alloc: Global, text: &[u8]) -> Result<Program, ReadRefusal>
    ensures read { IfOk result (λ P. Spells text.now P) }
    ensures refused { IfErr result (λ e. IsRefusedAs text.now e) }
{
    match tokens(alloc, text) {
        Ok(tokens) => parse(alloc, text, &tokens),
        Err(fault) => Err(token_refusal(fault)),
    }
}
