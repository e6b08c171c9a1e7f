// The arguments and options of commands: how each is given, and what is read of it.
ghost use Rattle.std.specs.Prelude.{◌≡◌, ◌≤◌, ◌^◌, IfSome, option_map, false};
ghost use Rattle.clap.specs.Words.{found_of, first_of, rows_of, rule_of};
ghost use Rattle.kex_words.specs.Words.{block_rule, lines_rule, max_input_rule, number_rule};
ghost use Rattle.kex_words.specs.Words.{optimal_rule, program_rule, rings_rule, states_rule};
ghost use Rattle.kex_words.specs.Words.{table_rule, workers_rule};
ghost use Rattle.kex_words.specs.Words.{block_in, lines_in, max_input_in, number_at, number_within};
ghost use Rattle.kex_words.specs.Words.{optimal_in, program_in, rings_in, room_of, states_in};
ghost use Rattle.kex_words.specs.Words.{table_in, workers_in};

use crate::asked::{
    MOST_BLOCK, MOST_INPUT, MOST_LINES, MOST_ROOM, MOST_STATES, MOST_WORKERS, Rings, StateLimit,
    USUAL_BLOCK, USUAL_STATES,
};
use clap::builder::ValueParser;
use clap::{Arg, ArgAction, ArgMatches};
use std::alloc::Global;

fn number_arg<'a>(alloc: Global, name: &'a str, low: u64, high: u64, default: &'a str) -> Arg<'a>
    ensures rule { rule_of result ≡ number_rule name.entry.now low high default.entry.now }
    ensures local { result.global ≡ false }
{
    Arg::new(alloc, name)
        .long(name)
        .value_parser(ValueParser::Unsigned(low, high))
        .default_value(default)
}

fn bounded(number: Option<u64>, low: u64, high: u64) -> Option<u64>
    ensures within { IfSome result (λ n. (low ≤ n) × (n ≤ high)) }
    ensures value { result ≡ number_within low high number }
{
    number.filter(|&number| low <= number && number <= high)
}

fn number_in(matches: &ArgMatches, id: &str, low: u64, high: u64) -> Option<u64>
    ensures within { IfSome result (λ n. (low ≤ n) × (n ≤ high)) }
    ensures value { result ≡ number_at id.now low high (rows_of (found_of matches.now)) }
{
    bounded(matches.get_one::<u64>(id), low, high)
}

fn text_in<'a>(matches: &ArgMatches<'a>, id: &str) -> Option<&'a str>
    ensures { option_map (λ s. s.now) result ≡ first_of id.now (rows_of (found_of matches.now)) }
{
    matches.get_str(id)
}

/// A program, named as the shelf has it.
pub(crate) fn program_arg<'a>(alloc: Global) -> Arg<'a>
    ensures rule { rule_of result ≡ program_rule }
    ensures local { result.global ≡ false }
{
    Arg::new(alloc, "PROGRAM").required(true)
}

pub(crate) fn program_in<'a>(matches: &ArgMatches<'a>) -> &'a str
    ensures { result.now ≡ program_in (rows_of (found_of matches.now)) }
{
    text_in(matches, "PROGRAM").unwrap_or("")
}

/// A table file, named as the shelf has it.
pub(crate) fn table_arg<'a>(alloc: Global) -> Arg<'a>
    ensures rule { rule_of result ≡ table_rule }
    ensures local { result.global ≡ false }
{
    Arg::new(alloc, "TABLE").required(true)
}

pub(crate) fn table_in<'a>(matches: &ArgMatches<'a>) -> &'a str
    ensures { result.now ≡ table_in (rows_of (found_of matches.now)) }
{
    text_in(matches, "TABLE").unwrap_or("")
}

/// The most bytes that a stage takes.
pub(crate) fn max_input_arg<'a>(alloc: Global) -> Arg<'a>
    ensures rule { rule_of result ≡ max_input_rule }
    ensures local { result.global ≡ false }
{
    number_arg(alloc, "max-input", 0, MOST_INPUT, "281474976710656")
}

pub(crate) fn max_input_in(matches: &ArgMatches) -> u64
    ensures most { result ≤ 2 ^ 48 }
    ensures value { result ≡ max_input_in (rows_of (found_of matches.now)) }
{
    number_in(matches, "max-input", 0, MOST_INPUT).unwrap_or(MOST_INPUT)
}

/// The bytes that one read asks for.
pub(crate) fn block_arg<'a>(alloc: Global) -> Arg<'a>
    ensures rule { rule_of result ≡ block_rule }
    ensures local { result.global ≡ false }
{
    number_arg(alloc, "block", 1, MOST_BLOCK, "65536")
}

pub(crate) fn block_in(matches: &ArgMatches) -> u32
    ensures some { 1 ≤ result }
    ensures fits { result ≤ 2 ^ 20 }
    ensures value { result ≡ block_in (rows_of (found_of matches.now)) }
{
    number_in(matches, "block", 1, MOST_BLOCK).unwrap_or(USUAL_BLOCK) as u32
}

/// The most states of a stage.
pub(crate) fn states_arg<'a>(alloc: Global) -> Arg<'a>
    ensures rule { rule_of result ≡ states_rule }
    ensures local { result.global ≡ false }
{
    number_arg(alloc, "states", 1, MOST_STATES, "4096")
}

pub(crate) fn states_in(matches: &ArgMatches) -> StateLimit
    ensures { result.most ≡ states_in (rows_of (found_of matches.now)) }
{
    StateLimit {
        most: number_in(matches, "states", 1, MOST_STATES).unwrap_or(USUAL_STATES) as u32,
    }
}

/// What joins the stages. Where it isn't given there are no rings.
pub(crate) fn rings_arg<'a>(alloc: Global) -> Arg<'a>
    ensures rule { rule_of result ≡ rings_rule }
    ensures local { result.global ≡ false }
{
    Arg::new(alloc, "rings")
        .long("rings")
        .value_parser(ValueParser::Unsigned(1, MOST_ROOM))
}

pub(crate) fn rings_in(matches: &ArgMatches) -> Option<Rings>
    ensures { room_of result ≡ rings_in (rows_of (found_of matches.now)) }
{
    let room = number_in(matches, "rings", 1, MOST_ROOM)?;
    Some(Rings { room: room as u32 })
}

/// Paths that can win no more aren't waited for.
pub(crate) fn optimal_arg<'a>(alloc: Global) -> Arg<'a>
    ensures rule { rule_of result ≡ optimal_rule }
    ensures local { result.global ≡ false }
{
    Arg::new(alloc, "optimal")
        .long("optimal")
        .action(ArgAction::SetTrue)
}

pub(crate) fn optimal_in(matches: &ArgMatches) -> bool
    ensures { result ≡ optimal_in (rows_of (found_of matches.now)) }
{
    matches!(text_in(matches, "optimal"), Some("true"))
}

/// How many share the work.
pub(crate) fn workers_arg<'a>(alloc: Global) -> Arg<'a>
    ensures rule { rule_of result ≡ workers_rule }
    ensures local { result.global ≡ false }
{
    number_arg(alloc, "workers", 1, MOST_WORKERS, "1")
}

pub(crate) fn workers_in(matches: &ArgMatches) -> u32
    ensures some { 1 ≤ result }
    ensures few { result ≤ 64 }
    ensures value { result ≡ workers_in (rows_of (found_of matches.now)) }
{
    number_in(matches, "workers", 1, MOST_WORKERS).unwrap_or(1) as u32
}

/// How many lines a trial makes.
pub(crate) fn lines_arg<'a>(alloc: Global) -> Arg<'a>
    ensures rule { rule_of result ≡ lines_rule }
    ensures local { result.global ≡ false }
{
    Arg::new(alloc, "N")
        .value_parser(ValueParser::Unsigned(0, MOST_LINES))
        .required(true)
}

pub(crate) fn lines_in(matches: &ArgMatches) -> u32
    ensures few { result ≤ 1000000 }
    ensures value { result ≡ lines_in (rows_of (found_of matches.now)) }
{
    number_in(matches, "N", 0, MOST_LINES).unwrap_or(0) as u32
}
