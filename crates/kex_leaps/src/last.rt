// How rows of held text are gone along to the end of a text.

ghost use Rattle.std.specs.Prelude.{◌≡◌, ◌<◌, ℕ, [], Some, IfOk, IfSome, length, slice_get};
ghost use Rattle.kex_held_rows.specs.Books.{rows_in, bare_row, KeepsRows};
ghost use Rattle.kex_leaps.specs.Leaps.{acts_in, AreActsWithin, IsLastLeap, HasScanned};

use crate::credit::Credit;
use crate::mark::{Trace, put_acts};
use crate::scan::{LeapStart, ScanEnd, ScanPoint, learn_at, scan_on};
use kex_code::memory::Memory;
use kex_held_rows::book::RowLedger;
use kex_sst::table::Table;

// Goes along a text from a row that holds nothing to the row where the text ends, over those that
// hold nothing, and learns what isn't noted yet. `None` where it can't go on before, or what is
// met can't be learnt. A byte takes two rounds at most: its edge is learnt, or leads to a row that
// holds nothing.
fn go_to_end(
    ledger: &mut RowLedger,
    table: &Table,
    first: u32,
    text: &[u8],
    trace: &mut Trace,
    credit: &mut Credit,
) -> Result<Option<u32>, Memory>
    requires table { table.now ≡ ledger.old.table }
    requires first { (q : ℕ) × (n : ℕ)
        × (slice_get (rows_in ledger.old.rows) first ≡ Some (bare_row q n)) }
    requires marks { trace.old.marks.items ≡ [] }
    requires acts { trace.old.acts.items ≡ [] }
    ensures keeps { KeepsRows ledger.old ledger.new }
    ensures scanned { IfOk result (λ o. IfSome o (λ row. (q n : ℕ)
        → slice_get (rows_in ledger.old.rows) first ≡ Some (bare_row q n)
        → HasScanned ledger.old.table ledger.old.machine.nodes (rows_in ledger.new.rows) q n
        text.now (length text.now) row trace.new.marks.items trace.new.acts.items)) }
{
    let mut point = ScanPoint { at: 0, row: first };
    let mut left = 2 * text.len();
    'rounds: while point.at < text.len() {
        if left == 0 {
            return Ok(None);
        }
        let stop = scan_on(ledger, table, text, point, trace)?;
        point = ScanPoint {
            at: stop.at,
            row: stop.row,
        };
        left -= 1;
        match stop.end {
            ScanEnd::Bare => credit.count_leap(),
            ScanEnd::Nowhere if stop.at < text.len() => return Ok(None),
            ScanEnd::Nowhere => {}
            ScanEnd::Unknown => {
                if !credit.spend(ledger.row_at(stop.row as usize).texts().len()) {
                    return Ok(None);
                }
                learn_at(ledger, table, stop.row, text[stop.at])?;
            }
        }
    }
    Ok(Some(point.row))
}

/// Goes along a text to its end from a state without registers, where the actor is at a node.
/// Tells to which node what is said at the end leads. `None` where the text can't end there, and
/// where something can't be learnt.
#[inline(never)]
pub fn scan_to_end(
    table: &Table,
    ledger: &mut RowLedger,
    trace: &mut Trace,
    credit: &mut Credit,
    from: LeapStart,
    text: &[u8],
) -> Result<Option<u32>, Memory>
    requires table { table.now ≡ ledger.old.table }
    requires state { from.state < length ledger.old.table.states }
    requires node { from.node < length ledger.old.machine.nodes }
    ensures table { ledger.new.table ≡ ledger.old.table }
    ensures machine { ledger.new.machine ≡ ledger.old.machine }
    ensures ends { IfOk result (λ o. IfSome o (λ m.
        IsLastLeap ledger.old.table ledger.old.machine.nodes from.state from.node text.now
        (acts_in text.now trace.new.acts.items) m)) }
    ensures acts { IfOk result (λ o.
        IfSome o (λ m. AreActsWithin (length text.now) trace.new.acts.items)) }
    ensures to { IfOk result (λ o. IfSome o (λ m. m < length ledger.old.machine.nodes)) }
{
    trace.clear();
    let Some(first) = ledger.bare_row_of(from.state, from.node)? else {
        return Ok(None);
    };
    let Some(row) = go_to_end(ledger, table, first, text, trace, credit)? else {
        return Ok(None);
    };
    let Some(end) = ledger.end_of(row as usize)? else {
        return Ok(None);
    };
    put_acts(&trace.marks, text.len(), end.outs(), &mut trace.acts)?;
    Ok(Some(end.node()))
}
