// What words ask for.
ghost use Rattle.kex_words.specs.Known.{ReadsWords};
ghost use Rattle.kex_words.specs.Subcommands.{AskBySubcommand, AskInForm};

/// What some words ask for, as a law.
pub fn reads_known_words()
    ensures { ReadsWords }
{}

/// Words in form name a subcommand, and ask for what it does, as a law.
pub fn asks_by_subcommand()
    ensures { AskBySubcommand }
{}

/// Words in form ask for something, as a law.
pub fn asks_in_form()
    ensures { AskInForm }
{}
