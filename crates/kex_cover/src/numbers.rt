// Lists by number, each once.

ghost use Rattle.std.specs.Prelude.{◌≡◌, Some, OnOk, IfOk, MatchBool, slice_get};
ghost use Rattle.kex_code.specs.Codes.{IsAmong};
ghost use Rattle.kex_determine.specs.Numbering.{texts, IsAdded};

use indexmap::IndexSet;
use kex_code::memory::Memory;

/// The number of a list, which is its own or the next, and whether the list is new.
pub fn number(lists: &mut IndexSet<Vec<u32>>, list: Vec<u32>) -> Result<(usize, bool), Memory>
    ensures added { OnOk result (IsAdded (texts lists.old.keys) list.items
        (texts lists.new.keys)) }
    ensures new { IfOk result (λ r. MatchBool r.1 (IsAmong (texts lists.old.keys) list.items → ⊥)
        (IsAmong (texts lists.old.keys) list.items)) }
    ensures at { IfOk result (λ r. slice_get (texts lists.new.keys) r.0 ≡ Some list.items) }
{
    let (index, new) = lists.insert_full(list)?;
    Ok((index, new))
}
