// What a command asks of a program.
ghost use Rattle.std.specs.Prelude.{◌≡◌, ◌<◌, true};
ghost use Rattle.kex_words.specs.Words.{mode_of};
ghost use Rattle.kex_top.specs.Modes.{limits_of, limits_to_check};

use kex_compile::limits::Limits;
use kex_words::Mode;

/// The most bytes that an input may have.
pub(crate) const MOST_INPUT: u64 = 281_474_976_710_656;

const ONE_STAGE: Limits = Limits {
    states: 4096,
    one_stage: true,
    tables: false,
    optimal: false,
};

/// What a command on an input asks.
pub(crate) fn limits_of(mode: Mode) -> Limits
    ensures value { result ≡ limits_of (mode_of mode) }
    ensures few { result.states < 4294967295 }
    ensures optimal { result.optimal ≡ true → result.tables ≡ true }
{
    match mode {
        Mode::Run { states, optimal } => Limits {
            states: states.most,
            one_stage: false,
            tables: true,
            optimal,
        },
        Mode::Code | Mode::Act | Mode::Test => ONE_STAGE,
    }
}

/// What a command asks that makes tables, with this many states at most.
pub(crate) fn limits_to_check(states: u32) -> Limits
    ensures { result ≡ limits_to_check states }
{
    Limits {
        states,
        one_stage: false,
        tables: true,
        optimal: false,
    }
}
