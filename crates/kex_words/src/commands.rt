// The commands: what each is given, its form as `clap` reads it, and what its words ask for.
ghost use Rattle.std.specs.Prelude.{◌≡◌, IfOk, option_map, false};
ghost use Rattle.clap.specs.Words.{app_of, found_of, rows_of, subcommand_rows_of, with_subcommand};
ghost use Rattle.clap.specs.declared.builder.command.Command.TheViews.{out-Command};
ghost use Rattle.kex_words.specs.Words.{app_to_code, app_to_compile, app_to_test, bare_app};
ghost use Rattle.kex_words.specs.Words.{each_app, exec_app, kex_app, program_app};
ghost use Rattle.kex_words.specs.Words.{run_app, stage_app, trial_app};
ghost use Rattle.kex_words.specs.Words.{asked_by_command, asked_in, mode_of, program_in, reach_in};
ghost use Rattle.kex_words.specs.Words.{block_in, lines_in, max_input_in, rings_in, room_of};
ghost use Rattle.kex_words.specs.Words.{states_in, workers_in};
ghost use Rattle.kex_words.specs.Words.Asked.{ToStream};

use crate::asked::{LineLimits, Mode, RunLimits, StateLimit, Stream, TrialLines};
use crate::options::{
    block_arg, block_in, lines_arg, lines_in, max_input_arg, max_input_in, optimal_arg, optimal_in,
    program_arg, program_in, rings_arg, rings_in, states_arg, states_in, table_arg, table_in,
    workers_arg, workers_in,
};
use clap::{ArgMatches, Command as Form};
use std::alloc::{AllocError, Global};

/// The line of words that aren't in form. The launcher reads it here, and what the guide shows is
/// compared with it.
pub(crate) const USAGE: &str =
    "usage: kex run|check|code|act|test PROGRAM [--states N] [--max-input N] [--block N] [--rings N] [--workers N] [--optimal] | kex trial N [--block N] [--rings N] [--workers N] | kex compile PROGRAM [--states N] | kex exec TABLE [--max-input N] [--block N] | kex each PROGRAM [--states N] [--max-input N] [--workers N]\n";

/// What the program is to do. A program of the language is named as the shelf has it.
#[derive(Clone, Copy, Debug, PartialEq, Eq)]
pub enum Command<'a> {
    /// Reads the input to its end.
    Stream(Stream<'a>),
    /// Asks whether the program breaks a rule, and reads no input.
    Check {
        program: &'a str,
        states: StateLimit,
    },
    /// Writes the tables of the program's stages, and reads no input.
    Compile {
        program: &'a str,
        states: StateLimit,
    },
    /// Reads the input to its end, by the tables of a file that is named as the shelf has it.
    Exec {
        table: &'a str,
        limits: RunLimits,
    },
    /// Answers each line of the input as an input of its own.
    Each {
        program: &'a str,
        limits: LineLimits,
    },
    /// Runs a program of its own on lines of its own.
    Trial(TrialLines),
}

// A command on a program alone, which reads no input.
fn on_program<'a>(alloc: Global, name: &'a str) -> Result<Form<'a>, AllocError>
    ensures app { IfOk result (λ form. app_of form ≡ program_app name.entry.now) }
    ensures local { IfOk result (λ form. (out-Command form).has_globals ≡ false) }
{
    Form::new(alloc, name)
        .arg(program_arg(alloc))?
        .arg(states_arg(alloc))
}

// A command on a program of one stage.
fn on_stage<'a>(alloc: Global, name: &'a str) -> Result<Form<'a>, AllocError>
    ensures app { IfOk result (λ form. app_of form ≡ stage_app name.entry.now) }
    ensures local { IfOk result (λ form. (out-Command form).has_globals ≡ false) }
{
    Form::new(alloc, name)
        .arg(program_arg(alloc))?
        .arg(max_input_arg(alloc))?
        .arg(block_arg(alloc))
}

fn run<'a>(alloc: Global) -> Result<Form<'a>, AllocError>
    ensures app { IfOk result (λ form. app_of form ≡ run_app) }
    ensures local { IfOk result (λ form. (out-Command form).has_globals ≡ false) }
{
    on_stage(alloc, "run")?
        .arg(states_arg(alloc))?
        .arg(rings_arg(alloc))?
        .arg(workers_arg(alloc))?
        .arg(optimal_arg(alloc))
}

fn trial<'a>(alloc: Global) -> Result<Form<'a>, AllocError>
    ensures app { IfOk result (λ form. app_of form ≡ trial_app) }
    ensures local { IfOk result (λ form. (out-Command form).has_globals ≡ false) }
{
    Form::new(alloc, "trial")
        .arg(lines_arg(alloc))?
        .arg(block_arg(alloc))?
        .arg(rings_arg(alloc))?
        .arg(workers_arg(alloc))
}

fn exec<'a>(alloc: Global) -> Result<Form<'a>, AllocError>
    ensures app { IfOk result (λ form. app_of form ≡ exec_app) }
    ensures local { IfOk result (λ form. (out-Command form).has_globals ≡ false) }
{
    Form::new(alloc, "exec")
        .arg(table_arg(alloc))?
        .arg(max_input_arg(alloc))?
        .arg(block_arg(alloc))
}

fn each<'a>(alloc: Global) -> Result<Form<'a>, AllocError>
    ensures app { IfOk result (λ form. app_of form ≡ each_app) }
    ensures local { IfOk result (λ form. (out-Command form).has_globals ≡ false) }
{
    Form::new(alloc, "each")
        .arg(program_arg(alloc))?
        .arg(states_arg(alloc))?
        .arg(max_input_arg(alloc))?
        .arg(workers_arg(alloc))
}

// Help and the version are no words of the form.
fn bare<'a>(alloc: Global) -> Form<'a>
    ensures { app_of result ≡ bare_app }
{
    Form::new(alloc, "kex")
        .disable_help_flag(true)
        .disable_help_subcommand(true)
        .disable_version_flag(true)
        .subcommand_required(true)
}

fn with<'a>(form: Form<'a>, command: Form<'a>) -> Result<Form<'a>, AllocError>
    requires { (out-Command command).has_globals ≡ false }
    ensures { IfOk result (λ r. app_of r
        ≡ with_subcommand (app_of form.entry) (app_of command.entry).top) }
{
    form.subcommand(command)
}

// A chain of all commands in one function is too long for its proof.

fn form_to_code<'a>(alloc: Global) -> Result<Form<'a>, AllocError>
    ensures { IfOk result (λ form. app_of form ≡ app_to_code) }
{
    let form = with(bare(alloc), run(alloc)?)?;
    let form = with(form, on_program(alloc, "check")?)?;
    with(form, on_stage(alloc, "code")?)
}

fn form_to_test<'a>(alloc: Global) -> Result<Form<'a>, AllocError>
    ensures { IfOk result (λ form. app_of form ≡ app_to_test) }
{
    let form = with(form_to_code(alloc)?, on_stage(alloc, "act")?)?;
    with(form, on_stage(alloc, "test")?)
}

fn form_to_compile<'a>(alloc: Global) -> Result<Form<'a>, AllocError>
    ensures { IfOk result (λ form. app_of form ≡ app_to_compile) }
{
    let form = with(form_to_test(alloc)?, trial(alloc)?)?;
    with(form, on_program(alloc, "compile")?)
}

/// The form of the command line: one of these commands, which is required.
pub(crate) fn form<'a>(alloc: Global) -> Result<Form<'a>, AllocError>
    ensures { IfOk result (λ form. app_of form ≡ kex_app) }
{
    let form = with(form_to_compile(alloc)?, exec(alloc)?)?;
    with(form, each(alloc)?)
}

fn limits(matches: &ArgMatches) -> RunLimits
    ensures max_input { result.max_input ≡ (reach_in (rows_of (found_of matches.now))).max_input }
    ensures block { result.block ≡ (reach_in (rows_of (found_of matches.now))).block }
    ensures rings { room_of result.rings ≡ (reach_in (rows_of (found_of matches.now))).rings }
    ensures workers { result.workers ≡ (reach_in (rows_of (found_of matches.now))).workers }
{
    RunLimits {
        max_input: max_input_in(matches),
        block: block_in(matches),
        rings: rings_in(matches),
        workers: workers_in(matches),
    }
}

fn line_limits(matches: &ArgMatches) -> LineLimits
    ensures states { result.states.most ≡ states_in (rows_of (found_of matches.now)) }
    ensures max_input { result.max_input ≡ max_input_in (rows_of (found_of matches.now)) }
    ensures workers { result.workers ≡ workers_in (rows_of (found_of matches.now)) }
{
    LineLimits {
        states: states_in(matches),
        max_input: max_input_in(matches),
        workers: workers_in(matches),
    }
}

fn trial_lines(matches: &ArgMatches) -> TrialLines
    ensures count { result.count ≡ lines_in (rows_of (found_of matches.now)) }
    ensures block { result.block ≡ block_in (rows_of (found_of matches.now)) }
    ensures rings { room_of result.rings ≡ rings_in (rows_of (found_of matches.now)) }
    ensures workers { result.workers ≡ workers_in (rows_of (found_of matches.now)) }
{
    TrialLines {
        count: lines_in(matches),
        block: block_in(matches),
        rings: rings_in(matches),
        workers: workers_in(matches),
    }
}

fn stream<'a>(mode: Mode, matches: &ArgMatches<'a>) -> Command<'a>
    ensures { asked_by_command result ≡ ToStream (mode_of mode)
        (program_in (rows_of (found_of matches.now))) (reach_in (rows_of (found_of matches.now))) }
{
    Command::Stream(Stream {
        mode,
        program: program_in(matches),
        limits: limits(matches),
    })
}

/// What the subcommand asks for, if there is one.
pub(crate) fn command_of<'a>(matches: &ArgMatches<'a>) -> Option<Command<'a>>
    ensures { option_map asked_by_command result ≡ asked_in (subcommand_rows_of matches.now) }
{
    match matches.subcommand() {
        Some(("run", inner)) => {
            let states = states_in(inner);
            let optimal = optimal_in(inner);
            Some(stream(Mode::Run { states, optimal }, inner))
        }
        Some(("check", inner)) => Some(Command::Check {
            program: program_in(inner),
            states: states_in(inner),
        }),
        Some(("code", inner)) => Some(stream(Mode::Code, inner)),
        Some(("act", inner)) => Some(stream(Mode::Act, inner)),
        Some(("test", inner)) => Some(stream(Mode::Test, inner)),
        Some(("trial", inner)) => Some(Command::Trial(trial_lines(inner))),
        Some(("compile", inner)) => Some(Command::Compile {
            program: program_in(inner),
            states: states_in(inner),
        }),
        Some(("exec", inner)) => Some(Command::Exec {
            table: table_in(inner),
            limits: limits(inner),
        }),
        Some(("each", inner)) => Some(Command::Each {
            program: program_in(inner),
            limits: line_limits(inner),
        }),
        Some(_) => None,
        None => None,
    }
}
