// From words to what they ask for.
ghost use Rattle.std.specs.Prelude.{◌≡◌, IfOk, IsErrOf, Some, None, map, string_bytes};
ghost use Rattle.kex_words.specs.Words.{asked_by_command, asked_of};
ghost use Rattle.kex_words.specs.declared.asked.WordsRefusal.TheVariants.{Usage};

use crate::asked::WordsRefusal;
use crate::commands::{Command, command_of, form};
use clap::Error;
use clap::error::ErrorKind;
use std::alloc::Global;

/// What the words ask for, of which the first is the program's own name.
///
/// Usage comes exactly where the words don't meet the form of the command; want of memory in
/// building or reading it is Memory.
pub fn read<'a>(alloc: Global, words: &'a [String]) -> Result<Command<'a>, WordsRefusal>
    ensures asked { IfOk result (λ command. asked_of (map string_bytes words.entry.now)
        ≡ Some (asked_by_command command)) }
    ensures usage { IsErrOf result Usage → asked_of (map string_bytes words.entry.now) ≡ None }
{
    match form(alloc)?.try_get_matches_from(words) {
        Ok(matches) => command_of(&matches).ok_or(WordsRefusal::Usage),
        Err(error) => match error.kind() {
            ErrorKind::OutOfMemory => Err(WordsRefusal::Memory),
            _ => Err(WordsRefusal::Usage),
        },
    }
}
