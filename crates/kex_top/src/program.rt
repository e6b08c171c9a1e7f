// The program that a command works with: its text, and the plans of its stages.
ghost use Rattle.std.specs.Prelude.{◌≡◌, ◌≤◌, ◌<◌, IfErr, IfOk, length, true};
ghost use Rattle.kex_ports.specs.Shelf.{told_of};
ghost use Rattle.kex_compile.specs.Compiled.{IsCompiled, IsRefused};
ghost use Rattle.kex_compile.specs.declared.refusal.CompileRefusal.{CompileRefusal};
ghost use Rattle.kex_tokens.specs.Texts.{most_text};
ghost use Rattle.kex_top.specs.Refusals.{HasNone, HasPlans, IsStartOf};
ghost use Rattle.kex_top.specs.Shelves.{TakesFromShelf, shelf_change_of};
ghost use Rattle.kex_top.specs.Taken.{a_text};

use crate::refused::refused;
use crate::start::StartError;
use crate::taking::{TextKind, take};
use kex_compile::compile;
use kex_compile::compiled::Compiled;
use kex_compile::limits::Limits;
use kex_ports::Shelf;
use std::alloc::Global;

/// The plans of a text, for a command that asks this of it.
pub(crate) fn plans_of_text(
    alloc: Global,
    text: &[u8],
    asked: &Limits,
) -> Result<Compiled, StartError>
    requires short { length text.now ≤ most_text }
    requires states { asked.now.states < 4294967295 }
    requires optimal { asked.now.optimal ≡ true → asked.now.tables ≡ true }
    ensures plans { IfOk result (λ plans. IsCompiled asked.now text.now plans) }
    ensures none { IfErr result (λ why.
        (rule : CompileRefusal) × IsRefused asked.now text.now rule × IsStartOf text.now rule why) }
{
    match compile(alloc, text, asked) {
        Ok(plans) => Ok(plans),
        Err(refusal) => Err(refused(text, refusal)),
    }
}

/// Takes the text of a name, and makes its plans. All programs come from here but that of a trial.
pub(crate) fn plans_of<H: Shelf>(
    alloc: Global,
    shelf: &mut H,
    name: &str,
    asked: &Limits,
) -> Result<Compiled, StartError>
    requires states { asked.now.states < 4294967295 }
    requires optimal { asked.now.optimal ≡ true → asked.now.tables ≡ true }
    ensures texts { H.texts shelf.new ≡ H.texts shelf.old }
    ensures shelf { TakesFromShelf (told_of (H.texts shelf.old) name.now)
        (shelf_change_of H.faults H.breaks shelf.old shelf.new) result }
    ensures plans { IfOk result (λ plans.
        HasPlans asked.now (told_of (H.texts shelf.old) name.now) plans) }
    ensures none { IfErr result (λ why.
        HasNone (a_text asked.now) (told_of (H.texts shelf.old) name.now) why) }
{
    let text = take(alloc, shelf, name, TextKind::ProgramText)?;
    plans_of_text(alloc, &text, asked)
}
