// The end of a text over which the table holds something back.

ghost use Rattle.std.specs.Prelude.{◌≡◌, ◌<◌, false, IsTrue, IfOk, OnOk, length};
ghost use Rattle.kex_action.specs.Sheets.{IsBlank, IsAsLong};
ghost use Rattle.kex_moves.specs.declared.along.TheConstants.{ROOM};
ghost use Rattle.kex_moves.specs.Along.{EndsOn};

use crate::along::Logbook;
use kex_action::actor::Actor;
use kex_code::memory::Memory;

/// Performs what is said of a text from a state on, and of its end. Nothing is done, and the answer
/// is `false`, where the text can't end there, and where that can't be learnt.
pub fn end_at(
    book: &mut Logbook,
    state: u32,
    actor: &mut Actor,
    text: &[u8],
    out: &mut Vec<u8>,
) -> Result<bool, Memory>
    requires usable { IsTrue actor.old.usable }
    requires machine { actor.old.machine ≡ book.old.leaps.machine }
    requires state { state < length book.old.leaps.table.states }
    requires node { actor.old.at < length book.old.leaps.machine.nodes }
    requires sheet { IsBlank book.old.sheet }
    requires room { length book.old.sheet.bytes.items ≡ ROOM }
    ensures ends { IfOk result (λ done. IsTrue done → EndsOn book.old.leaps.table actor.old
        actor.new state text.now out.old.items out.new.items) }
    ensures none { IfOk result (λ done. done ≡ false → (actor.new ≡ actor.old)
        × (out.new.items ≡ out.old.items)) }
    ensures edges { book.new.edges ≡ book.old.edges }
    ensures sheet { OnOk result (IsBlank book.new.sheet × IsAsLong book.old.sheet book.new.sheet) }
    ensures same { (book.new.leaps.table ≡ book.old.leaps.table)
        × (book.new.leaps.machine ≡ book.old.leaps.machine) }
    ensures machine { actor.new.machine ≡ actor.old.machine }
    ensures usable { OnOk result (IsTrue actor.new.usable) }
{
    let node = actor.node();
    let Some(to) = book.leaps.scan_to_end(state, node, text)? else {
        return Ok(false);
    };
    book.leaps.perform(to, text, actor, &mut book.sheet, out)?;
    actor.hand_on(to, &mut book.sheet, out)?;
    Ok(true)
}
