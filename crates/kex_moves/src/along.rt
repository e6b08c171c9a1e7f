// A run along edges with the actor, in which new edges are learnt.

ghost use Rattle.std.specs.Prelude.{◌≡◌, ◌<◌, ◌≤◌, ◌+◌, ◌*◌, ◌-◌, ℕ, List, [], ◌∷◌, false, IsTrue};
ghost use Rattle.std.specs.Prelude.{IfOk, IfSome, OnOk, length, take, drop};
ghost use Rattle.kex_sst.specs.Tables.{Transducer};
ghost use Rattle.kex_action.specs.Holdings.{Holding, state_of};
ghost use Rattle.kex_action.specs.Deeds.{after_deeds};
ghost use Rattle.kex_action.specs.Actors.{Position};
ghost use Rattle.kex_action.specs.Sheets.{IsSheet, IsBlank, IsAsLong, with_buffer, state_with};
ghost use Rattle.kex_moves.specs.declared.edge.EdgeKind.{EdgeKind};
ghost use Rattle.kex_moves.specs.declared.edges.Pair.{Pair};
ghost use Rattle.kex_moves.specs.Runs.{IsEdgeAt, StopsAt};
ghost use Rattle.kex_moves.specs.Known.{IsEdge, IsPairRow, HasRowFor, IsKnown, KnownGrows};
ghost use Rattle.kex_moves.specs.Along.{ReachedOn, GoesAlong, IsBareState};
ghost use Rattle.kex_moves.specs.Along.{with_sheet, written_with};

use crate::edge::{Edge, EdgeKind};
use crate::edges::Edges;
use crate::leap::leap_at;
use crate::learn::{learn_edge, row_for};
use crate::run::{Halt, RowPoint};
use kex_action::actor::Actor;
use kex_action::deed::Deed;
use kex_action::sheet::Sheet;
use kex_code::memory::Memory;
use kex_leaps::leaps::Leaps;
use kex_machine::Trimmed;
use kex_sst::table::Table;
use std::alloc::Global;

/// How many bytes are gone over at once.
pub const PART: usize = 4_096;

/// How many bytes may be on a sheet when a part is begun.
const MOST: usize = 16_384;

/// Room for these, and for what is written for a part: 17 bytes for each of its bytes, and 17 more.
pub const ROOM: usize = 86_033;

/// What edges are learnt of: a table, and the machine of its stage.
#[derive(Clone, Copy)]
pub struct Primer<'p> {
    pub alloc: Global,
    pub table: &'p Table,
    pub machine: &'p Trimmed,
}

/// What is learnt of a table and a machine, the sheet on which a run writes, and how many bytes are
/// looked at for a leap.
#[derive(Drop)]
pub struct Logbook<'p> {
    pub edges: Edges,
    pub leaps: Leaps<'p>,
    pub sheet: Sheet,
    pub reach: usize,
}

/// How many bytes a run took, and the state to which they lead.
#[derive(Clone, Copy, Debug, PartialEq, Eq)]
pub struct Ran {
    pub count: usize,
    pub state: u32,
}

/// How many bytes or pieces were taken, the row to which they lead, and whether no more can be
/// taken from there.
#[derive(Clone, Copy)]
pub struct RowStride {
    pub count: usize,
    pub row: usize,
    pub stops: bool,
}

// Opens a buffer on a sheet, and writes a byte into it.
#[inline(always)]
fn open(sheet: &mut Sheet, byte: u8) -> Result<(), Memory>
    requires sheet { IsSheet sheet.old }
    requires room { sheet.old.used < length sheet.old.bytes.items }
    ensures opened { OnOk result ((out : List ℕ) (h : Holding)
        → state_with sheet.new out h ≡ with_buffer (byte ∷ []) (state_with sheet.old out h)) }
    ensures sheet { OnOk result (IsSheet sheet.new × IsAsLong sheet.old sheet.new) }
    ensures used { sheet.new.used ≤ sheet.old.used + 1 }
{
    sheet.open()?;
    let used = sheet.used;
    sheet.bytes[used] = byte;
    sheet.used = used + 1;
    Ok(())
}

// Goes along edges while they are written, on a sheet.
#[inline(always)]
fn along(edges: &Edges, sheet: &mut Sheet, row: usize, piece: &[u8]) -> Halt
    requires row { (p : Pair) × IsPairRow edges.now row p }
    requires sheet { IsSheet sheet.old }
    requires room { sheet.old.used + 17 * length piece.now + 17 ≤ length sheet.old.bytes.items }
    ensures within { result.at ≤ length piece.now }
    ensures edge { IfSome result.edge (λ e. StopsAt edges.now.classes edges.now.edges result.row
        result.at piece.now e × IsEdge edges.now e) }
    ensures sheet { IsSheet sheet.new
        × (length sheet.new.bytes.items ≡ length sheet.old.bytes.items) }
    ensures room { sheet.new.used + 17 * (length piece.now - result.at) + 17
        ≤ length sheet.old.bytes.items }
    ensures reached { (t : Transducer) (a : Position) (out : List ℕ) → IsKnown t a.machine edges.now
        → ReachedOn t edges.now edges.now a a sheet.old sheet.new row result.row
        (take result.at piece.now) out out }
{
    let halt = edges.run(row, piece, &mut sheet.bytes, sheet.used);
    sheet.used = halt.used;
    halt
}

// Does the rest of an edge's deeds that can't be done on a sheet. The edge leads to the row
// `next`.
fn act_rest(
    edges: &Edges,
    next: usize,
    rest: &[Deed],
    byte: u8,
    actor: &mut Actor,
    sheet: &mut Sheet,
    out: &mut Vec<u8>,
) -> Result<(), Memory>
    requires usable { IsTrue actor.old.usable }
    requires to { (p : Pair) × IsPairRow edges.now next p
        × (p.node < length actor.old.machine.nodes) }
    requires sheet { IsSheet sheet.old }
    ensures did { OnOk result (state_of out.new.items actor.new.holding
        ≡ after_deeds actor.old.machine.nodes byte rest.now
        (state_with sheet.old out.old.items actor.old.holding)) }
    ensures none { OnOk result (IsBlank sheet.new) }
    ensures room { IsAsLong sheet.old sheet.new }
    ensures same { (actor.new.machine ≡ actor.old.machine)
        × (actor.new.refused ≡ actor.old.refused) }
    ensures usable { OnOk result (IsTrue actor.new.usable) }
{
    let node = edges.pair_at(next).node;
    actor.hand_on(node, sheet, out)?;
    actor.act(node, rest, byte, out)
}

/// Does the deeds of an edge at which a byte was read.
#[inline(always)]
pub fn act(
    edges: &Edges,
    edge: Edge,
    byte: u8,
    actor: &mut Actor,
    sheet: &mut Sheet,
    out: &mut Vec<u8>,
) -> Result<(), Memory>
    requires usable { IsTrue actor.old.usable }
    requires to { (p : Pair) × IsPairRow edges.now edge.next p
        × (p.node < length actor.old.machine.nodes) }
    requires edge { IsEdge edges.now edge × (edge.kind ≡ EdgeKind.Acts) }
    requires sheet { IsSheet sheet.old }
    ensures did { OnOk result (state_with sheet.new out.new.items actor.new.holding
        ≡ after_deeds actor.old.machine.nodes byte (take edge.adds
        (drop edge.from edges.now.acts)) (state_with sheet.old out.old.items actor.old.holding)) }
    ensures sheet { OnOk result (IsSheet sheet.new × IsAsLong sheet.old sheet.new) }
    ensures same { (actor.new.machine ≡ actor.old.machine)
        × (actor.new.refused ≡ actor.old.refused) }
    ensures usable { OnOk result (IsTrue actor.new.usable) }
{
    let deeds = edges.acts_of(edge);
    let count = actor.act_on(deeds, byte, sheet)?;
    if count < deeds.len() {
        act_rest(edges, edge.next, &deeds[count..], byte, actor, sheet, out)?;
    }
    Ok(())
}

// Takes a byte with its edge, if that opens a buffer or has deeds. It stops at another one, and
// where much is on the sheet.
#[inline(always)]
fn act_at(
    edges: &Edges,
    edge: Edge,
    row: usize,
    byte: u8,
    actor: &mut Actor,
    sheet: &mut Sheet,
    out: &mut Vec<u8>,
) -> Result<RowStride, Memory>
    requires usable { IsTrue actor.old.usable }
    requires known { (t : Transducer) × IsKnown t actor.old.machine edges.now }
    requires row { (p : Pair) × IsPairRow edges.now row p }
    requires edge { IsEdgeAt edges.now.classes edges.now.edges row byte edge
        × IsEdge edges.now edge }
    requires sheet { IsSheet sheet.old }
    requires room { sheet.old.used < length sheet.old.bytes.items }
    ensures within { IfOk result (λ s. s.count ≤ 1) }
    ensures some { IfOk result (λ s. s.stops ≡ false → 0 < s.count) }
    ensures reached { IfOk result (λ s. (t : Transducer) → IsKnown t actor.old.machine edges.now
        → ReachedOn t edges.now edges.now actor.old actor.new sheet.old sheet.new row s.row
        (take s.count (byte ∷ [])) out.old.items out.new.items) }
    ensures few { IfOk result (λ s. s.stops ≡ false → sheet.new.used ≤ MOST) }
    ensures sheet { OnOk result (IsSheet sheet.new × IsAsLong sheet.old sheet.new) }
    ensures machine { actor.new.machine ≡ actor.old.machine }
    ensures usable { OnOk result (IsTrue actor.new.usable) }
{
    match edge.kind {
        EdgeKind::Opens => {
            open(sheet, byte)?;
            Ok(RowStride {
                count: 1,
                row: edge.next,
                stops: sheet.used > MOST,
            })
        }
        EdgeKind::Acts => {
            act(edges, edge, byte, actor, sheet, out)?;
            Ok(RowStride {
                count: 1,
                row: edge.next,
                stops: sheet.used > MOST,
            })
        }
        _ => Ok(RowStride {
            count: 0,
            row,
            stops: true,
        }),
    }
}

// Goes along edges while they are written, on a sheet, and along the next one if that opens a
// buffer or has deeds.
#[inline(always)]
fn act_next(
    edges: &Edges,
    row: usize,
    piece: &[u8],
    actor: &mut Actor,
    sheet: &mut Sheet,
    out: &mut Vec<u8>,
) -> Result<RowStride, Memory>
    requires usable { IsTrue actor.old.usable }
    requires known { (t : Transducer) × IsKnown t actor.old.machine edges.now }
    requires row { (p : Pair) × IsPairRow edges.now row p }
    requires sheet { IsSheet sheet.old }
    requires room { sheet.old.used + 17 * length piece.now + 17 ≤ length sheet.old.bytes.items }
    ensures within { IfOk result (λ s. s.count ≤ length piece.now) }
    ensures some { IfOk result (λ s. s.stops ≡ false → 0 < s.count) }
    ensures reached { IfOk result (λ s. (t : Transducer) → IsKnown t actor.old.machine edges.now
        → ReachedOn t edges.now edges.now actor.old actor.new sheet.old sheet.new row s.row
        (take s.count piece.now) out.old.items out.new.items) }
    ensures few { IfOk result (λ s. s.stops ≡ false → sheet.new.used ≤ MOST) }
    ensures sheet { OnOk result (IsSheet sheet.new × IsAsLong sheet.old sheet.new) }
    ensures machine { actor.new.machine ≡ actor.old.machine }
    ensures usable { OnOk result (IsTrue actor.new.usable) }
{
    let gone = along(edges, sheet, row, piece);
    let count = gone.at;
    let Some(edge) = gone.edge else {
        return Ok(RowStride {
            count,
            row: gone.row,
            stops: true,
        });
    };
    let last = act_at(edges, edge, gone.row, piece[count], actor, sheet, out)?;
    Ok(RowStride {
        count: count + last.count,
        row: last.row,
        stops: last.stops,
    })
}

// Goes along edges of a part of a piece, up to one that is plain or isn't learnt, or until much
// is on the sheet. Not inlined: within a long caller what the loop reads for each byte would be
// kept in memory.
#[inline(never)]
fn along_acting(
    edges: &Edges,
    from: usize,
    part: &[u8],
    actor: &mut Actor,
    sheet: &mut Sheet,
    out: &mut Vec<u8>,
) -> Result<RowPoint, Memory>
    requires usable { IsTrue actor.old.usable }
    requires known { (t : Transducer) × IsKnown t actor.old.machine edges.now }
    requires row { (p : Pair) × IsPairRow edges.now from p }
    requires part { length part.now ≤ PART }
    requires sheet { IsSheet sheet.old }
    requires few { sheet.old.used ≤ MOST }
    requires room { length sheet.old.bytes.items ≡ ROOM }
    ensures within { IfOk result (λ place. place.count ≤ length part.now) }
    ensures reached { IfOk result (λ place. (t : Transducer) → IsKnown t actor.old.machine edges.now
        → ReachedOn t edges.now edges.now actor.old actor.new sheet.old sheet.new from place.row
        (take place.count part.now) out.old.items out.new.items) }
    ensures sheet { OnOk result (IsSheet sheet.new × IsAsLong sheet.old sheet.new) }
    ensures machine { actor.new.machine ≡ actor.old.machine }
    ensures usable { OnOk result (IsTrue actor.new.usable) }
{
    let mut row = from;
    let mut at = 0;
    let mut left = part.len();
    'rounds: while left > 0 {
        let gone = act_next(edges, row, &part[at..], actor, sheet, out)?;
        at += gone.count;
        row = gone.row;
        left = bytes_left(gone.stops, part.len() - at);
    }
    Ok(RowPoint { count: at, row })
}

// Learns the edge of a byte if it isn't learnt. Tells whether no edge can be gone along there.
#[inline(always)]
fn learn_at(
    alloc: Global,
    table: &Table,
    machine: &Trimmed,
    edges: &mut Edges,
    row: usize,
    byte: u8,
) -> Result<bool, Memory>
    requires row { (p : Pair) × IsPairRow edges.old row p }
    requires known { IsKnown table.now machine.now edges.old }
    ensures known { IfOk result (λ b. IsKnown table.now machine.now edges.new) }
    ensures rows { IfOk result (λ b. KnownGrows edges.old edges.new) }
{
    match edges.edge_at(row, edges.class_of(byte)).kind {
        EdgeKind::Unknown => {
            learn_edge(alloc, table, machine, edges, row, byte)?;
            Ok(false)
        }
        EdgeKind::Plain => Ok(true),
        _ => Ok(false),
    }
}

/// Hands on what is on a sheet, at the node of a row. Tells the row's state.
pub fn arrive(
    edges: &Edges,
    row: usize,
    actor: &mut Actor,
    sheet: &mut Sheet,
    out: &mut Vec<u8>,
) -> Result<u32, Memory>
    requires usable { IsTrue actor.old.usable }
    requires row { (p : Pair) × IsPairRow edges.now row p
        × (p.node < length actor.old.machine.nodes) }
    requires sheet { IsSheet sheet.old }
    ensures arrives { IfOk result (λ s. (p : Pair) → IsPairRow edges.now row p → (s ≡ p.state)
        × (actor.new ≡ with_sheet actor.old p.node sheet.old out.old.items)
        × (out.new.items ≡ written_with actor.old sheet.old out.old.items)) }
    ensures none { OnOk result (IsBlank sheet.new) }
    ensures room { IsAsLong sheet.old sheet.new }
    ensures machine { actor.new.machine ≡ actor.old.machine }
    ensures usable { OnOk result (IsTrue actor.new.usable) }
{
    let pair = edges.pair_at(row);
    actor.hand_on(pair.node, sheet, out)?;
    Ok(pair.state)
}

/// Hands on what is on a sheet where there is much.
pub fn make_room(
    edges: &Edges,
    row: usize,
    actor: &mut Actor,
    sheet: &mut Sheet,
    out: &mut Vec<u8>,
) -> Result<(), Memory>
    requires usable { IsTrue actor.old.usable }
    requires row { (p : Pair) × IsPairRow edges.now row p
        × (p.node < length actor.old.machine.nodes) }
    requires sheet { IsSheet sheet.old }
    ensures same { OnOk result ((p : Pair) → IsPairRow edges.now row p
        → (with_sheet actor.new p.node sheet.new out.new.items
        ≡ with_sheet actor.old p.node sheet.old out.old.items)
        × (written_with actor.new sheet.new out.new.items
        ≡ written_with actor.old sheet.old out.old.items)) }
    ensures sheet { OnOk result (IsSheet sheet.new × IsAsLong sheet.old sheet.new
        × (sheet.new.used ≤ MOST)) }
    ensures machine { actor.new.machine ≡ actor.old.machine }
    ensures usable { OnOk result (IsTrue actor.new.usable) }
{
    if sheet.used <= MOST {
        return Ok(());
    }
    let _state = arrive(edges, row, actor, sheet, out)?;
    Ok(())
}

/// The part of a piece that is gone over at once.
pub fn part_of<T>(piece: &[T]) -> &[T]
    ensures front { result.now ≡ take PART piece.now }
    ensures few { length result.now ≤ PART }
{
    if piece.len() > PART {
        &piece[..PART]
    } else {
        piece
    }
}

// Learns the edge of the first byte of a piece. Where there is none, goes along a leap.
fn go_past(
    primer: &Primer,
    book: &mut Logbook,
    row: usize,
    actor: &mut Actor,
    piece: &[u8],
    out: &mut Vec<u8>,
) -> Result<RowStride, Memory>
    requires usable { IsTrue actor.old.usable }
    requires machine { actor.old.machine ≡ primer.now.machine.now }
    requires rows { (book.old.leaps.table ≡ primer.now.table.now)
        × (book.old.leaps.machine ≡ primer.now.machine.now) }
    requires known { IsKnown primer.now.table.now primer.now.machine.now book.old.edges }
    requires row { (p : Pair) × IsPairRow book.old.edges row p }
    requires some { 0 < length piece.now }
    requires sheet { IsSheet book.old.sheet }
    requires room { length book.old.sheet.bytes.items ≡ ROOM }
    ensures known { IfOk result (λ s. IsKnown primer.now.table.now primer.now.machine.now
        book.new.edges) }
    ensures within { IfOk result (λ s. s.count ≤ length piece.now) }
    ensures reached { IfOk result (λ s. ReachedOn primer.now.table.now book.old.edges
        book.new.edges actor.old actor.new book.old.sheet book.new.sheet row s.row
        (take s.count piece.now) out.old.items out.new.items) }
    ensures sheet { OnOk result (IsSheet book.new.sheet × IsAsLong book.old.sheet book.new.sheet) }
    ensures rows { (book.new.leaps.table ≡ book.old.leaps.table)
        × (book.new.leaps.machine ≡ book.old.leaps.machine) }
    ensures machine { actor.new.machine ≡ actor.old.machine }
    ensures usable { OnOk result (IsTrue actor.new.usable) }
{
    if !learn_at(
        primer.alloc,
        primer.table,
        primer.machine,
        &mut book.edges,
        row,
        piece[0],
    )? {
        return Ok(RowStride {
            count: 0,
            row,
            stops: false,
        });
    }
    let gone = leap_at(book, row, actor, piece, out)?;
    Ok(gone)
}

// Goes on from a row over a part of a piece, and past the byte after it.
fn go_on(
    primer: &Primer,
    book: &mut Logbook,
    row: usize,
    actor: &mut Actor,
    piece: &[u8],
    out: &mut Vec<u8>,
) -> Result<RowStride, Memory>
    requires usable { IsTrue actor.old.usable }
    requires machine { actor.old.machine ≡ primer.now.machine.now }
    requires rows { (book.old.leaps.table ≡ primer.now.table.now)
        × (book.old.leaps.machine ≡ primer.now.machine.now) }
    requires known { IsKnown primer.now.table.now primer.now.machine.now book.old.edges }
    requires row { (q : ℕ) × (n : ℕ) × HasRowFor book.old.edges row q n }
    requires sheet { IsSheet book.old.sheet }
    requires room { length book.old.sheet.bytes.items ≡ ROOM }
    ensures known { IfOk result (λ s. IsKnown primer.now.table.now primer.now.machine.now
        book.new.edges) }
    ensures within { IfOk result (λ s. s.count ≤ length piece.now) }
    ensures reached { IfOk result (λ s. ReachedOn primer.now.table.now book.old.edges
        book.new.edges actor.old actor.new book.old.sheet book.new.sheet row s.row
        (take s.count piece.now) out.old.items out.new.items) }
    ensures sheet { OnOk result (IsSheet book.new.sheet × IsAsLong book.old.sheet book.new.sheet) }
    ensures rows { (book.new.leaps.table ≡ book.old.leaps.table)
        × (book.new.leaps.machine ≡ book.old.leaps.machine) }
    ensures machine { actor.new.machine ≡ actor.old.machine }
    ensures usable { OnOk result (IsTrue actor.new.usable) }
{
    make_room(&book.edges, row, actor, &mut book.sheet, out)?;
    let part = part_of(piece);
    let place = along_acting(&book.edges, row, part, actor, &mut book.sheet, out)?;
    let count = place.count;
    let row = place.row;
    if count == piece.len() {
        return Ok(RowStride {
            count,
            row,
            stops: true,
        });
    }
    let rest = &piece[count..];
    let past = go_past(primer, book, row, actor, rest, out)?;
    Ok(RowStride {
        count: count + past.count,
        row: past.row,
        stops: past.stops,
    })
}

// How many bytes are left, or none where a stride stops.
#[inline(always)]
fn bytes_left(stops: bool, count: usize) -> usize
    ensures { 0 < result → (stops ≡ false) × (result ≡ count) }
{
    if stops { 0 } else { count }
}

/// How many rounds are left.
pub fn rounds_left(stops: bool, rounds: usize) -> usize
    requires { 0 < rounds }
    ensures fewer { result < rounds }
    ensures goes_on { 0 < result → stops ≡ false }
{
    if stops { 0 } else { rounds - 1 }
}

// Goes on from a row as far as edges go, and learns those that are met first.
fn run_from(
    primer: &Primer,
    book: &mut Logbook,
    from: usize,
    actor: &mut Actor,
    piece: &[u8],
    out: &mut Vec<u8>,
) -> Result<Ran, Memory>
    requires usable { IsTrue actor.old.usable }
    requires machine { actor.old.machine ≡ primer.now.machine.now }
    requires rows { (book.old.leaps.table ≡ primer.now.table.now)
        × (book.old.leaps.machine ≡ primer.now.machine.now) }
    requires known { IsKnown primer.now.table.now primer.now.machine.now book.old.edges }
    requires row { (q : ℕ) × HasRowFor book.old.edges from q actor.old.at }
    requires room { length book.old.sheet.bytes.items ≡ ROOM }
    requires none { IsBlank book.old.sheet }
    ensures known { IfOk result (λ ran. IsKnown primer.now.table.now primer.now.machine.now
        book.new.edges) }
    ensures within { IfOk result (λ ran. ran.count ≤ length piece.now) }
    ensures goes { IfOk result (λ ran. (q : ℕ) → HasRowFor book.old.edges from q actor.old.at
        → GoesAlong primer.now.table.now actor.old actor.new q ran.state
        (take ran.count piece.now) out.old.items out.new.items) }
    ensures none { OnOk result (IsBlank book.new.sheet) }
    ensures room { OnOk result (IsAsLong book.old.sheet book.new.sheet) }
    ensures rows { (book.new.leaps.table ≡ book.old.leaps.table)
        × (book.new.leaps.machine ≡ book.old.leaps.machine) }
    ensures machine { actor.new.machine ≡ actor.old.machine }
    ensures usable { OnOk result (IsTrue actor.new.usable) }
{
    let mut row = from;
    let mut at = 0;
    let mut left = piece.len();
    'rounds: while left > 0 {
        let rest = &piece[at..];
        let gone = go_on(primer, book, row, actor, rest, out)?;
        at += gone.count;
        row = gone.row;
        left = rounds_left(gone.stops, left);
    }
    let state = arrive(&book.edges, row, actor, &mut book.sheet, out)?;
    Ok(Ran { count: at, state })
}

/// Goes on from a state, as far as edges go. Nothing is taken where the actor doesn't rest, or
/// where there is no room for the row.
pub fn run_at(
    primer: &Primer,
    book: &mut Logbook,
    state: u32,
    actor: &mut Actor,
    piece: &[u8],
    out: &mut Vec<u8>,
) -> Result<Ran, Memory>
    requires usable { IsTrue actor.old.usable }
    requires machine { actor.old.machine ≡ primer.now.machine.now }
    requires rows { (book.old.leaps.table ≡ primer.now.table.now)
        × (book.old.leaps.machine ≡ primer.now.machine.now) }
    requires known { IsKnown primer.now.table.now primer.now.machine.now book.old.edges }
    requires room { length book.old.sheet.bytes.items ≡ ROOM }
    requires none { IsBlank book.old.sheet }
    ensures known { IfOk result (λ ran. IsKnown primer.now.table.now primer.now.machine.now
        book.new.edges) }
    ensures within { IfOk result (λ ran. ran.count ≤ length piece.now) }
    ensures goes { IfOk result (λ ran. GoesAlong primer.now.table.now actor.old actor.new state
        ran.state (take ran.count piece.now) out.old.items out.new.items) }
    ensures bare { IfOk result (λ ran. IsBareState primer.now.table.now state
        → IsBareState primer.now.table.now ran.state) }
    ensures none { OnOk result (IsBlank book.new.sheet) }
    ensures room { OnOk result (IsAsLong book.old.sheet book.new.sheet) }
    ensures rows { (book.new.leaps.table ≡ book.old.leaps.table)
        × (book.new.leaps.machine ≡ book.old.leaps.machine) }
    ensures machine { actor.new.machine ≡ actor.old.machine }
    ensures usable { OnOk result (IsTrue actor.new.usable) }
{
    let states = primer.table.states().len();
    let Some(row) = row_for(primer.machine, &mut book.edges, states, state, actor.node())? else {
        return Ok(Ran { count: 0, state });
    };
    if piece.is_empty() {
        return Ok(Ran { count: 0, state });
    }
    run_from(primer, book, row, actor, piece, out)
}
