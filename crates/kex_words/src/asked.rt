// What commands are asked: limits, modes, and why no command is read.
ghost use Rattle.std.specs.Prelude.{◌≡◌, ◌≤◌, ◌^◌};
ghost use Rattle.kex_words.specs.declared.asked.WordsRefusal.TheVariants as refusal;

use std::alloc::AllocError;
use thiserror::Error;

pub(crate) const MOST_INPUT: u64 = 281_474_976_710_656;

pub(crate) const MOST_BLOCK: u64 = 1_048_576;

pub(crate) const USUAL_BLOCK: u64 = 65_536;

pub(crate) const MOST_STATES: u64 = 1_048_576;

pub(crate) const USUAL_STATES: u64 = 4_096;

pub(crate) const MOST_LINES: u64 = 1_000_000;

pub(crate) const MOST_ROOM: u64 = 1_048_576;

pub(crate) const MOST_WORKERS: u64 = 64;

/// Rings between stages that work at once.
#[derive(Clone, Copy, Debug, PartialEq, Eq)]
pub struct Rings {
    /// How many items each has room for.
    pub room: u32,
    ghost some: { 1 ≤ room },
    ghost fits: { room ≤ 2 ^ 20 },
}

/// How many bytes are read, in all and at a time.
#[derive(Clone, Copy, Debug, PartialEq, Eq)]
pub struct RunLimits {
    /// The most bytes that a stage takes.
    pub max_input: u64,
    /// The bytes that one read asks for.
    pub block: u32,
    /// What joins the stages, where they don't work by rounds.
    pub rings: Option<Rings>,
    /// How many share a block, where there are no rings.
    pub workers: u32,
    ghost most: { max_input ≤ 2 ^ 48 },
    ghost some: { 1 ≤ block },
    ghost fits: { block ≤ 2 ^ 20 },
    ghost worked: { 1 ≤ workers },
    ghost shared: { workers ≤ 64 },
}

/// How many states a stage may have.
#[derive(Clone, Copy, Debug, PartialEq, Eq)]
pub struct StateLimit {
    pub most: u32,
    ghost some: { 1 ≤ most },
    ghost fits: { most ≤ 2 ^ 20 },
}

/// Lines that are made, and the bytes of them that are made at a time.
#[derive(Clone, Copy, Debug, PartialEq, Eq)]
pub struct TrialLines {
    pub count: u32,
    pub block: u32,
    pub rings: Option<Rings>,
    pub workers: u32,
    ghost few: { count ≤ 1000000 },
    ghost some: { 1 ≤ block },
    ghost fits: { block ≤ 2 ^ 20 },
    ghost worked: { 1 ≤ workers },
    ghost shared: { workers ≤ 64 },
}

/// What bounds the answers to lines, and how many workers make them.
#[derive(Clone, Copy, Debug, PartialEq, Eq)]
pub struct LineLimits {
    pub states: StateLimit,
    /// The most bytes that a stage takes of a line.
    pub max_input: u64,
    pub workers: u32,
    ghost most: { max_input ≤ 2 ^ 48 },
    ghost some: { 1 ≤ workers },
    ghost few: { workers ≤ 64 },
}

/// What is written for the bytes of the input.
#[derive(Clone, Copy, Debug, PartialEq, Eq)]
pub enum Mode {
    /// What they mean, by tables that have at most this many states for a stage. Where it is
    /// optimal they tell as early as can be what comes of them.
    Run { states: StateLimit, optimal: bool },
    /// Their code, in a program of one stage.
    Code,
    /// What they mean as the text of a code, in a program of one stage.
    Act,
    /// Nothing: only whether they have a parse in a program of one stage.
    Test,
}

/// A program that reads the input to its end, and what is written for that.
#[derive(Clone, Copy, Debug, PartialEq, Eq)]
pub struct Stream<'a> {
    pub mode: Mode,
    pub program: &'a str,
    pub limits: RunLimits,
}

/// Why no command is read.
#[derive(Clone, Copy, Debug, PartialEq, Eq, Drop, Error)]
pub enum WordsRefusal {
    /// The words don't meet the form of the command.
    #[error("the words are no command")]
    Usage,
    #[error("out of memory")]
    Memory,
}

impl From<AllocError> for WordsRefusal {
    ghost from_gives = { λ _ e. e ≡ refusal.Memory };

    fn from(_: AllocError) -> WordsRefusal {
        WordsRefusal::Memory
    }
}
