// How rows of held text are gone along, over one leap or several that follow one another.

ghost use Rattle.std.specs.Prelude.{◌≡◌, ◌<◌, ◌≤◌, ◌-◌, ◌++◌, ◌∷◌, ℕ, List, [], Some, IfOk};
ghost use Rattle.std.specs.Prelude.{IfSome, length, slice_get, take};
ghost use Rattle.kex_held.specs.HeldRows.{HeldRow};
ghost use Rattle.kex_held_rows.specs.Books.{rows_in, bare_row, KeepsRows};
ghost use Rattle.kex_leaps.specs.declared.act.LeapAct.{LeapAct};
ghost use Rattle.kex_leaps.specs.declared.act.LeapAct.TheVariants.{Text};
ghost use Rattle.kex_leaps.specs.declared.scan.ScanEnd.{ScanEnd};
ghost use Rattle.kex_leaps.specs.Leaps.{acts_in, AreActsWithin, IsLeap};
ghost use Rattle.kex_leaps.specs.Leaps.{HasScanned};

use crate::credit::Credit;
use crate::mark::Trace;
use kex_code::memory::Memory;
use kex_held_rows::book::RowLedger;
use kex_held_rows::note::RowNote;
use kex_sst::table::Table;

/// How many bytes, and the state and the node to which they lead, over one leap or several.
#[derive(Clone, Copy, Debug, PartialEq, Eq)]
pub struct Leap {
    pub count: usize,
    pub state: u32,
    pub node: u32,
}

/// Where a leap begins: at a state without registers, where the actor is at a node.
#[derive(Clone, Copy, Debug, PartialEq, Eq)]
pub struct LeapStart {
    pub state: u32,
    pub node: u32,
}

/// Where a scan has come to: in the piece, and at which row.
#[derive(Clone, Copy, Debug, PartialEq, Eq)]
pub struct ScanPoint {
    pub at: usize,
    pub row: u32,
}

/// Why a scan ends: nothing is held any more, an edge isn't learnt, or it can't go on.
#[derive(Clone, Copy, Debug, PartialEq, Eq)]
pub enum ScanEnd {
    Bare,
    Unknown,
    Nowhere,
}

/// Where a scan came last to a row that holds nothing, and how many acts are done up to there.
#[derive(Clone, Copy, Debug, PartialEq, Eq)]
pub struct BarePoint {
    pub at: usize,
    pub row: u32,
    pub acts: usize,
}

/// How many acts there may be before a scan goes on over one more leap.
const MOST_ACTS: usize = 1_024;

/// Where a scan has come to, and why it ended.
#[derive(Clone, Copy, Debug, PartialEq, Eq)]
pub struct ScanStop {
    pub at: usize,
    pub row: u32,
    pub end: ScanEnd,
}

// How far a row stays along a piece.
#[inline(always)]
fn stay(ledger: &RowLedger, table: &Table, row: u32, piece: &[u8], from: usize) -> usize
    requires table { table.now ≡ ledger.now.table }
    requires row { row < length ledger.now.rows }
    requires from { from ≤ length piece.now }
    ensures behind { from ≤ result }
    ensures within { result ≤ length piece.now }
    ensures stays { (q n : ℕ) (marks : List ℕ) (acts : List LeapAct) → HasScanned ledger.now.table
        ledger.now.machine.nodes (rows_in ledger.now.rows) q n piece.now from row marks acts
        → HasScanned ledger.now.table ledger.now.machine.nodes (rows_in ledger.now.rows) q n
        piece.now result row marks acts }
{
    let partition = table.partition();
    let mut at = from;
    'bytes: while at < piece.len() {
        let class = partition.class_of(piece[at]);
        match ledger.note_at(row as usize, class) {
            RowNote::Stays => at += 1,
            _ => return at,
        }
    }
    at
}

// How far a row hands on what it holds along a piece, byte by byte. The last byte is held then.
#[inline(always)]
fn hand_on(ledger: &RowLedger, table: &Table, row: u32, piece: &[u8], from: usize) -> usize
    requires table { table.now ≡ ledger.now.table }
    requires row { row < length ledger.now.rows }
    requires some { 0 < from }
    requires from { from ≤ length piece.now }
    ensures behind { from ≤ result }
    ensures within { result ≤ length piece.now }
    ensures hands { (q n : ℕ) (acts : List LeapAct) (first : ℕ) → first < from
        → HasScanned ledger.now.table ledger.now.machine.nodes (rows_in ledger.now.rows) q n
        piece.now from row ((from - 1) ∷ []) (acts ++ Text first (from - 1) ∷ [])
        → HasScanned ledger.now.table ledger.now.machine.nodes (rows_in ledger.now.rows) q n
        piece.now result row ((result - 1) ∷ []) (acts ++ Text first (result - 1) ∷ []) }
{
    let partition = table.partition();
    let mut at = from;
    'bytes: while at < piece.len() {
        let class = partition.class_of(piece[at]);
        match ledger.note_at(row as usize, class) {
            RowNote::HandsOn => at += 1,
            _ => return at,
        }
    }
    at
}

// Why a scan ends at a note by which it can't go on.
fn end_at(note: &RowNote) -> ScanEnd
    ensures { ¬ (result ≡ ScanEnd.Bare) }
{
    match note {
        RowNote::Unknown => ScanEnd::Unknown,
        _ => ScanEnd::Nowhere,
    }
}

/// Goes along a piece by what is noted of rows, up to a row that holds nothing, or a byte at which
/// no edge is known.
#[inline(always)]
pub fn scan_on(
    ledger: &RowLedger,
    table: &Table,
    piece: &[u8],
    from: ScanPoint,
    trace: &mut Trace,
) -> Result<ScanStop, Memory>
    requires table { table.now ≡ ledger.now.table }
    requires scanned { (q : ℕ) × (n : ℕ) × HasScanned ledger.now.table ledger.now.machine.nodes
        (rows_in ledger.now.rows) q n piece.now from.at from.row trace.old.marks.items
        trace.old.acts.items }
    requires at { from.at ≤ length piece.now }
    ensures scanned { IfOk result (λ stop. (q n : ℕ) → HasScanned ledger.now.table
        ledger.now.machine.nodes (rows_in ledger.now.rows) q n piece.now from.at from.row
        trace.old.marks.items trace.old.acts.items → HasScanned ledger.now.table
        ledger.now.machine.nodes (rows_in ledger.now.rows) q n piece.now stop.at stop.row
        trace.new.marks.items trace.new.acts.items) }
    ensures acts { IfOk result (λ stop. (more : List LeapAct)
        × (trace.new.acts.items ≡ trace.old.acts.items ++ more)) }
    ensures at { IfOk result (λ stop. stop.at ≤ length piece.now) }
    ensures unknown { IfOk result (λ stop. stop.end ≡ ScanEnd.Unknown
        → stop.at < length piece.now) }
    ensures bare { IfOk result (λ stop. stop.end ≡ ScanEnd.Bare → (r : HeldRow)
        → slice_get (rows_in ledger.now.rows) stop.row ≡ Some r → r.lists ≡ []) }
{
    let partition = table.partition();
    let mut row = from.row;
    let mut at = from.at;
    'bytes: while at < piece.len() {
        let class = partition.class_of(piece[at]);
        match ledger.note_at(row as usize, class) {
            RowNote::Stays => at = stay(ledger, table, row, piece, at + 1),
            RowNote::HandsOn => {
                let end = hand_on(ledger, table, row, piece, at + 1);
                trace.hand_on(end - 1)?;
                at = end;
            }
            RowNote::Marks(to) => {
                trace.mark(at)?;
                row = *to;
                at += 1;
            }
            RowNote::Goes(edge) => {
                trace.take(edge, at)?;
                row = edge.to();
                at += 1;
                if edge.is_bare() {
                    let end = ScanEnd::Bare;
                    return Ok(ScanStop { at, row, end });
                }
            }
            note => {
                let end = end_at(note);
                return Ok(ScanStop { at, row, end });
            }
        }
    }
    let end = ScanEnd::Nowhere;
    Ok(ScanStop { at, row, end })
}

/// Learns the edge of a row at a byte of a piece. That is seldom, so it is kept out of the scan.
#[inline(never)]
pub fn learn_at(ledger: &mut RowLedger, table: &Table, row: u32, byte: u8) -> Result<(), Memory>
    requires table { table.now ≡ ledger.old.table }
    requires row { row < length ledger.old.rows }
    ensures { KeepsRows ledger.old ledger.new }
{
    let class = table.partition().class_of(byte);
    ledger.learn(row as usize, class)
}

// Whether a leap begins after `at` bytes, at a row that holds nothing, along an edge that is
// known.
#[inline(always)]
fn leads_on(ledger: &RowLedger, table: &Table, row: u32, piece: &[u8], at: usize) -> bool
    requires table { table.now ≡ ledger.now.table }
    requires row { row < length ledger.now.rows }
{
    let Some(byte) = piece.get(at) else {
        return false;
    };
    let class = table.partition().class_of(*byte);
    match ledger.note_at(row as usize, class) {
        RowNote::Marks(_) => true,
        RowNote::Goes(edge) => !edge.is_bare(),
        _ => false,
    }
}

/// Goes along a piece from a row that holds nothing, over leaps that follow one another, and learns
/// what isn't noted yet. Tells where it came last to a row that holds nothing: where it began if
/// the piece ends in the first leap, or what is met there can't be learnt.
pub fn scan_from(
    ledger: &mut RowLedger,
    table: &Table,
    first: u32,
    piece: &[u8],
    trace: &mut Trace,
    credit: &mut Credit,
) -> Result<BarePoint, Memory>
    requires table { table.now ≡ ledger.old.table }
    requires first { (q : ℕ) × (n : ℕ)
        × (slice_get (rows_in ledger.old.rows) first ≡ Some (bare_row q n)) }
    requires marks { trace.old.marks.items ≡ [] }
    requires acts { trace.old.acts.items ≡ [] }
    ensures keeps { KeepsRows ledger.old ledger.new }
    ensures at { IfOk result (λ last. last.at ≤ length piece.now) }
    ensures scanned { IfOk result (λ last. (q n : ℕ)
        → slice_get (rows_in ledger.old.rows) first ≡ Some (bare_row q n)
        → (marks : List ℕ) × HasScanned ledger.old.table ledger.old.machine.nodes
        (rows_in ledger.new.rows) q n piece.now last.at last.row marks
        (take last.acts trace.new.acts.items)) }
    ensures bare { IfOk result (λ last. (r : HeldRow)
        → slice_get (rows_in ledger.new.rows) last.row ≡ Some r → r.lists ≡ []) }
{
    let mut point = ScanPoint { at: 0, row: first };
    let mut last = BarePoint {
        at: 0,
        row: first,
        acts: 0,
    };
    let mut left = piece.len();
    'rounds: while left > 0 {
        let stop = scan_on(ledger, table, piece, point, trace)?;
        point = ScanPoint {
            at: stop.at,
            row: stop.row,
        };
        left -= 1;
        match stop.end {
            ScanEnd::Bare => {
                let acts = trace.acts.len();
                last = BarePoint {
                    at: stop.at,
                    row: stop.row,
                    acts,
                };
                if acts > MOST_ACTS || !leads_on(ledger, table, stop.row, piece, stop.at) {
                    return Ok(last);
                }
                credit.count_leap();
            }
            ScanEnd::Nowhere => return Ok(last),
            ScanEnd::Unknown => {
                if !credit.spend(ledger.row_at(stop.row as usize).texts().len()) {
                    return Ok(last);
                }
                learn_at(ledger, table, stop.row, piece[stop.at])?;
            }
        }
    }
    Ok(last)
}

/// Goes along a piece from a state without registers, where the actor is at a node, up to another
/// such state. `None` where the piece ends before that, and where it can't be learnt. Not inlined:
/// within a long caller what the loop reads for each byte would be kept in memory.
#[inline(never)]
pub fn scan(
    table: &Table,
    ledger: &mut RowLedger,
    trace: &mut Trace,
    credit: &mut Credit,
    from: LeapStart,
    piece: &[u8],
) -> Result<Option<Leap>, Memory>
    requires table { table.now ≡ ledger.old.table }
    requires state { from.state < length ledger.old.table.states }
    requires node { from.node < length ledger.old.machine.nodes }
    ensures table { ledger.new.table ≡ ledger.old.table }
    ensures machine { ledger.new.machine ≡ ledger.old.machine }
    ensures within { IfOk result (λ o. IfSome o (λ s. s.count ≤ length piece.now)) }
    ensures leap { IfOk result (λ o. IfSome o (λ s.
        IsLeap ledger.old.table ledger.old.machine.nodes from.state from.node
        (take s.count piece.now) (acts_in piece.now trace.new.acts.items) s.state s.node)) }
    ensures acts { IfOk result (λ o.
        IfSome o (λ s. AreActsWithin (length piece.now) trace.new.acts.items)) }
    ensures to { IfOk result (λ o. IfSome o (λ s. (s.state < length ledger.old.table.states)
        × (s.node < length ledger.old.machine.nodes))) }
{
    trace.clear();
    let Some(row) = ledger.bare_row_of(from.state, from.node)? else {
        return Ok(None);
    };
    let last = scan_from(ledger, table, row, piece, trace, credit)?;
    if last.at == 0 {
        return Ok(None);
    }
    trace.acts.truncate(last.acts);
    let to = ledger.row_at(last.row as usize);
    Ok(Some(Leap {
        count: last.at,
        state: to.state(),
        node: to.node(),
    }))
}
