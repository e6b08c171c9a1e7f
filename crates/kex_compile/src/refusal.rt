// Why a text has no plans.

ghost use Rattle.std.specs.Prelude.{◌≡◌};
ghost use Rattle.kex_compile.specs.Compiled.{of_plan, of_read, of_rule};

use kex_code::memory::Memory;
use kex_reader::ReadRefusal;
use kex_rules::refusal::RuleRefusal;
use thiserror::Error;

/// Why the stages of a program have no plans. Stages count from 1.
#[derive(Clone, Copy, Debug, PartialEq, Eq, Drop, Error)]
pub enum PlanRefusal {
    /// The stage has more than `MOST_PLACES` places.
    #[error("stage {0} has too many places")]
    TooManyPlaces(u32),
    /// No text has a parse by the stage.
    #[error("no text has a parse by stage {0}")]
    NoText(u32),
    /// One stage is asked for, and the program has more.
    #[error("there is more than one stage")]
    OneStage,
    /// Tables are asked for, and the stage has more states than are allowed.
    #[error("stage {0} has too many states")]
    TooManyStates(u32),
    /// What is best is asked for, and in some state of the stage the test of a leaf has more than
    /// `MOST_PAIRS` pairs.
    #[error("stage {0} has too many pairs")]
    TooManyPairs(u32),
    #[error("out of memory")]
    Memory,
}

impl From<Memory> for PlanRefusal {
    ghost use Rattle.kex_compile.specs.declared.refusal.PlanRefusal.TheVariants.{Memory};

    ghost from_gives = { λ _ e. e ≡ Memory };

    fn from(_: Memory) -> PlanRefusal {
        PlanRefusal::Memory
    }
}

/// The rule that a program text breaks. Offsets count its bytes from 0, and stages count from 1.
#[derive(Clone, Copy, Debug, PartialEq, Eq, Drop, Error)]
pub enum CompileRefusal {
    /// The text has more than `MAX_TEXT` bytes.
    #[error("the text is too long")]
    TextTooLong,
    /// At this offset a token, white space or a comment should begin, and none can be completed.
    #[error("bad token at byte {0}")]
    BadToken(u32),
    /// The tokens before this one begin a program, and those up to and with it begin none; or the
    /// text ends here, and is none.
    #[error("unexpected token at byte {0}")]
    Unexpected(u32),
    /// The regex's bytes before this one begin a regex, and those up to and with it begin none; or
    /// it ends here, and is none.
    #[error("bad regex at byte {0}")]
    BadRegex(u32),
    /// The count at this offset is above `MAX_COUNT`, or its least count above the greatest.
    #[error("bad count at byte {0}")]
    BadCount(u32),
    /// The set at this offset has a range whose first byte is above its last, or has no byte.
    #[error("bad set at byte {0}")]
    BadSet(u32),
    /// The mark or name at this offset raises the nesting above `MAX_DEPTH`, or is that of the
    /// first stage past `MOST_STAGES`.
    #[error("over a limit at byte {0}")]
    OverLimit(u32),
    /// The name at this offset was defined before.
    #[error("the name at byte {0} is defined twice")]
    TwiceDefined(u32),
    /// The name that is called or started at this offset has no definition.
    #[error("the name at byte {0} has no definition")]
    Unknown(u32),
    #[error("there is no stage")]
    NoStart,
    /// The call at this offset comes back, and is outside tail position.
    #[error("the call at byte {0} comes back outside tail position")]
    NotTail(u32),
    /// The stage has more than `MOST_PLACES` places.
    #[error("stage {0} has too many places")]
    TooManyPlaces(u32),
    /// No text has a parse by the stage.
    #[error("no text has a parse by stage {0}")]
    NoText(u32),
    /// One stage is asked for, and the program has more.
    #[error("there is more than one stage")]
    OneStage,
    /// Tables are asked for, and the stage has more states than are allowed.
    #[error("stage {0} has too many states")]
    TooManyStates(u32),
    /// What is best is asked for, and in some state of the stage the test of a leaf has more than
    /// `MOST_PAIRS` pairs.
    #[error("stage {0} has too many pairs")]
    TooManyPairs(u32),
    #[error("out of memory")]
    Memory,
}

impl From<Memory> for CompileRefusal {
    ghost use Rattle.kex_compile.specs.declared.refusal.CompileRefusal.TheVariants.{Memory};

    ghost from_gives = { λ _ e. e ≡ Memory };

    fn from(_: Memory) -> CompileRefusal {
        CompileRefusal::Memory
    }
}

impl From<ReadRefusal> for CompileRefusal {
    ghost from_gives = { λ why e. e ≡ of_read why };

    fn from(why: ReadRefusal) -> CompileRefusal {
        match why {
            ReadRefusal::TextTooLong => CompileRefusal::TextTooLong,
            ReadRefusal::BadToken { at } => CompileRefusal::BadToken(at),
            ReadRefusal::Unexpected { at } => CompileRefusal::Unexpected(at),
            ReadRefusal::BadRegex { at } => CompileRefusal::BadRegex(at),
            ReadRefusal::BadCount { at } => CompileRefusal::BadCount(at),
            ReadRefusal::BadSet { at } => CompileRefusal::BadSet(at),
            ReadRefusal::OverLimit { at } => CompileRefusal::OverLimit(at),
            ReadRefusal::Memory => CompileRefusal::Memory,
        }
    }
}

impl From<RuleRefusal> for CompileRefusal {
    ghost from_gives = { λ why e. e ≡ of_rule why };

    fn from(why: RuleRefusal) -> CompileRefusal {
        match why {
            RuleRefusal::TwiceDefined(at) => CompileRefusal::TwiceDefined(at),
            RuleRefusal::Unknown(at) => CompileRefusal::Unknown(at),
            RuleRefusal::NoStart => CompileRefusal::NoStart,
            RuleRefusal::NotTail(at) => CompileRefusal::NotTail(at),
            RuleRefusal::Memory => CompileRefusal::Memory,
        }
    }
}

impl From<PlanRefusal> for CompileRefusal {
    ghost from_gives = { λ why e. e ≡ of_plan why };

    fn from(why: PlanRefusal) -> CompileRefusal {
        match why {
            PlanRefusal::TooManyPlaces(stage) => CompileRefusal::TooManyPlaces(stage),
            PlanRefusal::NoText(stage) => CompileRefusal::NoText(stage),
            PlanRefusal::OneStage => CompileRefusal::OneStage,
            PlanRefusal::TooManyStates(stage) => CompileRefusal::TooManyStates(stage),
            PlanRefusal::TooManyPairs(stage) => CompileRefusal::TooManyPairs(stage),
            PlanRefusal::Memory => CompileRefusal::Memory,
        }
    }
}
