// What commands take from the shelf. `most` has its limit, as `most_taken` of `specs/Taken` says.
ghost use Rattle.std.specs.Prelude.{◌≡◌, ◌≤◌, IfErr, IfOk, length};
ghost use Rattle.kex_ports.specs.Shelf.{IsTold, told_of};
ghost use Rattle.kex_top.specs.Refusals.{IsTooLong, IsUntaken};
ghost use Rattle.kex_top.specs.Shelves.{TakesFromShelf, shelf_change_of};
ghost use Rattle.kex_top.specs.Taken.{most_taken, rule_past};

use crate::start::StartError;
use kex_ports::{Shelf, ShelfAnswer};
use kex_tabfile::MOST_BYTES;
use kex_tokens::token::MAX_TEXT;
use kex_words::{Refusal, RefusalPlace, Rule};
use std::alloc::Global;

#[derive(Clone, Copy, Debug, PartialEq, Eq)]
pub(crate) enum TextKind {
    ProgramText,
    TableFile,
}

impl TextKind {
    // The most bytes that such a text may have.
    fn most(self) -> usize
        ensures { result ≡ most_taken self }
    {
        match self {
            TextKind::ProgramText => MAX_TEXT,
            TextKind::TableFile => MOST_BYTES as usize,
        }
    }

    // The rule that a longer one breaks.
    fn rule_past(self) -> Rule
        ensures { result ≡ rule_past self }
    {
        match self {
            TextKind::ProgramText => Rule::TextTooLong,
            TextKind::TableFile => Rule::TableTooLong,
        }
    }
}

/// Takes the text of a name, which is of this kind.
pub(crate) fn take<H: Shelf>(
    alloc: Global,
    shelf: &mut H,
    name: &str,
    kind: TextKind,
) -> Result<Vec<u8>, StartError>
    ensures texts { H.texts shelf.new ≡ H.texts shelf.old }
    ensures shelf { TakesFromShelf (told_of (H.texts shelf.old) name.now)
        (shelf_change_of H.faults H.breaks shelf.old shelf.new) result }
    ensures found { IfOk result (λ text.
        IsTold (told_of (H.texts shelf.old) name.now) text.items) }
    ensures within { IfOk result (λ text. length text.items ≤ most_taken kind) }
    ensures none { IfErr result (λ why.
        IsUntaken (IsTooLong kind (told_of (H.texts shelf.old) name.now)) why) }
{
    match shelf.take(alloc, name, kind.most()) {
        Ok(text) => Ok(text),
        Err(ShelfAnswer::Failed) => Err(StartError::Shelf),
        Err(ShelfAnswer::TooLong) => Err(StartError::Refused(Refusal {
            rule: kind.rule_past(),
            place: RefusalPlace::Nowhere,
        })),
        Err(ShelfAnswer::Memory) => Err(StartError::Memory),
    }
}
