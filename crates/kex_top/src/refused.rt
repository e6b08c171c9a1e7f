// The refusal of a program or of a table file, as its note has it.
ghost use Rattle.std.specs.Prelude.{◌≡◌, ◌≤◌, length};
ghost use Rattle.kex_tabfile.specs.Readers.{most_bytes};
ghost use Rattle.kex_top.specs.Refusals.{IsFileStartOf, IsStartOf, broken, broken_at, broken_in};
ghost use Rattle.kex_top.specs.Refusals.{broken_on};
ghost use Rattle.kex_top.specs.declared.start.StartError.TheVariants.{Refused};

use crate::start::StartError;
use kex_compile::refusal::CompileRefusal;
use kex_reader::place;
use kex_tabfile::refusal::TableRefusal;
use kex_tabfile::text_in;
use kex_words::{Refusal, RefusalPlace, Rule};
use std::alloc::Global;

// The whole text breaks the rule.
fn broken(rule: Rule) -> StartError
    ensures { result ≡ Refused (broken rule) }
{
    StartError::Refused(Refusal {
        rule,
        place: RefusalPlace::Nowhere,
    })
}

// The rule is broken at an offset of the text.
fn broken_at(rule: Rule, text: &[u8], at: u32) -> StartError
    requires { length text.now ≤ most_bytes }
    ensures { result ≡ Refused (broken_at rule text.now at) }
{
    let (line, column) = place(text, at);
    StartError::Refused(Refusal {
        rule,
        place: RefusalPlace::At { line, column },
    })
}

// The rule is broken by a stage.
fn broken_in(rule: Rule, stage: u32) -> StartError
    ensures { result ≡ Refused (broken_in rule stage) }
{
    StartError::Refused(Refusal {
        rule,
        place: RefusalPlace::Stage(stage),
    })
}

// The rule is broken by a line of a table file.
fn broken_on(rule: Rule, line: u32) -> StartError
    ensures { result ≡ Refused (broken_on rule line) }
{
    StartError::Refused(Refusal {
        rule,
        place: RefusalPlace::Line(line),
    })
}

/// Why a command doesn't begin with a text that has no plans.
pub(crate) fn refused(text: &[u8], refusal: CompileRefusal) -> StartError
    requires { length text.now ≤ most_bytes }
    ensures { IsStartOf text.now refusal result }
{
    match refusal {
        CompileRefusal::TextTooLong => broken(Rule::TextTooLong),
        CompileRefusal::BadToken(at) => broken_at(Rule::BadToken, text, at),
        CompileRefusal::Unexpected(at) => broken_at(Rule::Unexpected, text, at),
        CompileRefusal::BadRegex(at) => broken_at(Rule::BadRegex, text, at),
        CompileRefusal::BadCount(at) => broken_at(Rule::BadCount, text, at),
        CompileRefusal::BadSet(at) => broken_at(Rule::BadSet, text, at),
        CompileRefusal::OverLimit(at) => broken_at(Rule::OverLimit, text, at),
        CompileRefusal::TwiceDefined(at) => broken_at(Rule::TwiceDefined, text, at),
        CompileRefusal::Unknown(at) => broken_at(Rule::Unknown, text, at),
        CompileRefusal::NoStart => broken(Rule::NoStart),
        CompileRefusal::NotTail(at) => broken_at(Rule::NotTail, text, at),
        CompileRefusal::TooManyPlaces(stage) => broken_in(Rule::TooManyPlaces, stage),
        CompileRefusal::NoText(stage) => broken_in(Rule::NoText, stage),
        CompileRefusal::OneStage => broken(Rule::OneStage),
        CompileRefusal::TooManyStates(stage) => broken_in(Rule::TooManyStates, stage),
        CompileRefusal::TooManyPairs(stage) => broken_in(Rule::TooManyPairs, stage),
        CompileRefusal::Memory => StartError::Memory,
    }
}

/// Why a command doesn't begin with a table file that isn't good.
pub(crate) fn file_refused(alloc: Global, file: &[u8], refusal: TableRefusal) -> StartError
    requires { length file.now ≤ most_bytes }
    ensures { IsFileStartOf file.now refusal result }
{
    match refusal {
        TableRefusal::TableTooLong => broken(Rule::TableTooLong),
        TableRefusal::BadTable { line } => broken_on(Rule::BadTable, line),
        TableRefusal::Text(why) => match text_in(alloc, file) {
            Ok(text) => refused(text, why),
            // The file has a text, so it is memory that is wanted.
            Err(_) => StartError::Memory,
        },
        TableRefusal::Memory => StartError::Memory,
    }
}
