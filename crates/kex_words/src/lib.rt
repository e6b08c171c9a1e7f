//! The words of a command line, the line that a call leaves in the notes, and lines of counts.
//!
//! Uses `clap`, `itoa` and `kex_ports`. `read` is to be taken by its clauses: Ok is what the
//! words ask for, and Usage comes exactly where the words don't meet the form of the command.
//! `tell`, `write_counts`, `write_trial_counts`, `write_parts` and `write_all` say what a sink
//! gains.
#![tactic(auto)]

mod asked;
mod commands;
mod counts;
mod known;
mod notes;
mod options;
mod parts;
mod reading;
mod refusals;
mod text_sink;
mod writing;

pub use asked::{LineLimits, Mode, Rings, RunLimits, StateLimit, Stream, TrialLines, WordsRefusal};
pub use commands::Command;
pub use counts::{Counts, TrialCounts, write_counts, write_trial_counts};
pub use known::{asks_by_subcommand, asks_in_form, reads_known_words};
pub use notes::{Note, tell};
pub use parts::{LinePart, write_parts};
pub use reading::read;
pub use refusals::{Refusal, RefusalPlace, Rule};
pub use text_sink::push_line;
pub use writing::write_all;
