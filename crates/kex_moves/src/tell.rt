// Byte words along edges with the actor, while new edges are learnt.

ghost use Rattle.std.specs.Prelude.{◌≡◌, ◌<◌, ◌≤◌, ◌+◌, ◌*◌, ℕ, List, [], ◌∷◌, IsTrue, IfOk, OnOk};
ghost use Rattle.std.specs.Prelude.{false, length, take};
ghost use Rattle.kex_sst.specs.declared.parts.Part.{Part};
ghost use Rattle.kex_action.specs.Actors.{Position};
ghost use Rattle.kex_action.specs.Sheets.{IsSheet, IsBlank, IsAsLong};
ghost use Rattle.kex_script.specs.Pieces.{code_over};
ghost use Rattle.kex_moves.specs.declared.along.TheConstants.{ROOM};
ghost use Rattle.kex_moves.specs.declared.edges.Pair.{Pair};
ghost use Rattle.kex_moves.specs.Known.{IsPairRow, IsKnown};
ghost use Rattle.kex_moves.specs.Speech.{words_table, PerformsSaid, RefusesCode, SaidOn};

use crate::along::{RowStride, act, arrive, make_room, part_of, rounds_left};
use crate::edge::EdgeKind;
use crate::edges::Edges;
use crate::learn::{learn_word, row_for};
use crate::run::RowPoint;
use crate::spell::take_word;
use kex_action::actor::Actor;
use kex_action::sheet::Sheet;
use kex_code::memory::Memory;
use kex_code::symbol::Symbol;
use kex_machine::Trimmed;
use kex_script::piece::ByteWord;
use kex_sst::parts::Parts;
use std::alloc::Global;

/// The words of a list, and the machine at whose nodes they are performed.
#[derive(Clone, Copy)]
pub struct Lexicon<'w> {
    pub alloc: Global,
    pub words: &'w [Parts],
    pub machine: &'w Trimmed,
}

/// What is learnt of words, and what they are performed with: a sheet, and a buffer for symbols.
#[derive(Drop)]
pub struct Notebook {
    pub edges: Edges,
    pub sheet: Sheet,
    pub symbols: Vec<Symbol>,
}

// Goes along edges while they are written, on a sheet.
#[inline(always)]
fn along(edges: &Edges, sheet: &mut Sheet, row: usize, pieces: &[ByteWord]) -> RowPoint
    requires row { (p : Pair) × IsPairRow edges.now row p }
    requires sheet { IsSheet sheet.old }
    requires room { sheet.old.used + 17 * length pieces.now + 17 ≤ length sheet.old.bytes.items }
    ensures within { result.count ≤ length pieces.now }
    ensures sheet { IsSheet sheet.new × IsAsLong sheet.old sheet.new }
    ensures said { (words : List (List Part)) (a : Position) (out : List ℕ)
        → IsKnown (words_table words) a.machine edges.now → SaidOn edges.now a a sheet.old sheet.new
        row result.row (code_over words (take result.count pieces.now)) out out }
{
    let spot = edges.follow(row, pieces, &mut sheet.bytes, sheet.used);
    sheet.used = spot.used;
    RowPoint {
        count: spot.at,
        row: spot.row,
    }
}

// Takes a piece at whose edge deeds are done. Nothing is taken at another one.
#[inline(always)]
fn act_next(
    edges: &Edges,
    row: usize,
    piece: ByteWord,
    actor: &mut Actor,
    sheet: &mut Sheet,
    out: &mut Vec<u8>,
) -> Result<RowStride, Memory>
    requires usable { IsTrue actor.old.usable }
    requires known { (words : List (List Part))
        × IsKnown (words_table words) actor.old.machine edges.now }
    requires row { (p : Pair) × IsPairRow edges.now row p }
    requires sheet { IsSheet sheet.old }
    ensures within { IfOk result (λ s. s.count ≤ 1) }
    ensures said { IfOk result (λ s. (words : List (List Part))
        → IsKnown (words_table words) actor.old.machine edges.now
        → SaidOn edges.now actor.old actor.new sheet.old sheet.new row s.row
        (code_over words (take s.count (piece ∷ []))) out.old.items out.new.items) }
    ensures sheet { OnOk result (IsSheet sheet.new × IsAsLong sheet.old sheet.new) }
    ensures machine { actor.new.machine ≡ actor.old.machine }
    ensures usable { OnOk result (IsTrue actor.new.usable) }
{
    if piece.word as usize >= edges.width() {
        return Ok(RowStride {
            count: 0,
            row,
            stops: true,
        });
    }
    let edge = edges.edge_at(row, piece.word as u8);
    match edge.kind {
        EdgeKind::Acts => {
            act(edges, edge, piece.byte, actor, sheet, out)?;
            Ok(RowStride {
                count: 1,
                row: edge.next,
                stops: false,
            })
        }
        _ => Ok(RowStride {
            count: 0,
            row,
            stops: true,
        }),
    }
}

// Goes on from a row over some of the pieces, and does the deeds of one more.
fn go_on(
    edges: &Edges,
    sheet: &mut Sheet,
    row: usize,
    actor: &mut Actor,
    pieces: &[ByteWord],
    out: &mut Vec<u8>,
) -> Result<RowStride, Memory>
    requires usable { IsTrue actor.old.usable }
    requires known { (words : List (List Part))
        × IsKnown (words_table words) actor.old.machine edges.now }
    requires row { (p : Pair) × IsPairRow edges.now row p }
    requires sheet { IsSheet sheet.old }
    requires room { length sheet.old.bytes.items ≡ ROOM }
    ensures within { IfOk result (λ s. s.count ≤ length pieces.now) }
    ensures said { IfOk result (λ s. (words : List (List Part))
        → IsKnown (words_table words) actor.old.machine edges.now
        → SaidOn edges.now actor.old actor.new sheet.old sheet.new row s.row
        (code_over words (take s.count pieces.now)) out.old.items out.new.items) }
    ensures sheet { OnOk result (IsSheet sheet.new × IsAsLong sheet.old sheet.new) }
    ensures machine { actor.new.machine ≡ actor.old.machine }
    ensures usable { OnOk result (IsTrue actor.new.usable) }
{
    make_room(edges, row, actor, sheet, out)?;
    let place = along(edges, sheet, row, part_of(pieces));
    let count = place.count;
    if count == pieces.len() {
        return Ok(RowStride {
            count,
            row: place.row,
            stops: true,
        });
    }
    let last = act_next(edges, place.row, pieces[count], actor, sheet, out)?;
    Ok(RowStride {
        count: count + last.count,
        row: last.row,
        stops: last.stops,
    })
}

// Goes on from the row of the actor's node as far as edges go.
fn tell_from(
    edges: &Edges,
    sheet: &mut Sheet,
    from: usize,
    actor: &mut Actor,
    pieces: &[ByteWord],
    out: &mut Vec<u8>,
) -> Result<RowPoint, Memory>
    requires usable { IsTrue actor.old.usable }
    requires known { (words : List (List Part))
        × IsKnown (words_table words) actor.old.machine edges.now }
    requires row { (p : Pair) × IsPairRow edges.now from p × (p.node ≡ actor.old.at) }
    requires room { length sheet.old.bytes.items ≡ ROOM }
    requires none { IsBlank sheet.old }
    ensures row { IfOk result (λ place. (p : Pair) × IsPairRow edges.now place.row p) }
    ensures within { IfOk result (λ place. place.count ≤ length pieces.now) }
    ensures performs { IfOk result (λ place. (words : List (List Part))
        → IsKnown (words_table words) actor.old.machine edges.now → PerformsSaid actor.old actor.new
        (code_over words (take place.count pieces.now)) out.old.items out.new.items) }
    ensures none { OnOk result (IsBlank sheet.new) }
    ensures room { OnOk result (IsAsLong sheet.old sheet.new) }
    ensures machine { actor.new.machine ≡ actor.old.machine }
    ensures usable { OnOk result (IsTrue actor.new.usable) }
{
    let mut row = from;
    let mut at = 0;
    let mut left = pieces.len();
    'rounds: while left > 0 {
        let gone = go_on(edges, sheet, row, actor, &pieces[at..], out)?;
        at += gone.count;
        row = gone.row;
        left = rounds_left(gone.stops, left);
    }
    let _state = arrive(edges, row, actor, sheet, out)?;
    Ok(RowPoint { count: at, row })
}

// Learns the edge of a row at the first of some pieces, if it isn't learnt.
fn learn_next(
    lexicon: &Lexicon,
    edges: &mut Edges,
    row: usize,
    pieces: &[ByteWord],
) -> Result<(), Memory>
    requires known { IsKnown (words_table lexicon.now.words.now) lexicon.now.machine.now edges.old }
    requires row { (p : Pair) × IsPairRow edges.old row p }
    ensures { OnOk result
        (IsKnown (words_table lexicon.now.words.now) lexicon.now.machine.now edges.new) }
{
    let Some(piece) = pieces.first() else {
        return Ok(());
    };
    if piece.word as usize >= edges.width() {
        return Ok(());
    }
    let word = piece.word as u8;
    match edges.edge_at(row, word).kind {
        EdgeKind::Unknown => learn_word(
            lexicon.alloc,
            lexicon.words,
            lexicon.machine,
            edges,
            row,
            word,
        ),
        _ => Ok(()),
    }
}

// Performs pieces as far as edges go, and learns the edge of the next one.
fn tell_some(
    lexicon: &Lexicon,
    notebook: &mut Notebook,
    actor: &mut Actor,
    pieces: &[ByteWord],
    out: &mut Vec<u8>,
) -> Result<usize, Memory>
    requires usable { IsTrue actor.old.usable }
    requires machine { actor.old.machine ≡ lexicon.now.machine.now }
    requires known { IsKnown (words_table lexicon.now.words.now) lexicon.now.machine.now
        notebook.old.edges }
    requires room { length notebook.old.sheet.bytes.items ≡ ROOM }
    requires none { IsBlank notebook.old.sheet }
    ensures known { OnOk result (IsKnown (words_table lexicon.now.words.now)
        lexicon.now.machine.now notebook.new.edges) }
    ensures within { IfOk result (λ count. count ≤ length pieces.now) }
    ensures performs { IfOk result (λ count. PerformsSaid actor.old actor.new
        (code_over lexicon.now.words.now (take count pieces.now)) out.old.items out.new.items) }
    ensures none { OnOk result (IsBlank notebook.new.sheet) }
    ensures room { OnOk result (IsAsLong notebook.old.sheet notebook.new.sheet) }
    ensures machine { actor.new.machine ≡ actor.old.machine }
    ensures usable { OnOk result (IsTrue actor.new.usable) }
{
    let edges = &mut notebook.edges;
    let Some(row) = row_for(lexicon.machine, edges, 1, 0, actor.node())? else {
        return Ok(0);
    };
    let place = tell_from(edges, &mut notebook.sheet, row, actor, pieces, out)?;
    let rest = &pieces[place.count..];
    learn_next(lexicon, edges, place.row, rest)?;
    Ok(place.count)
}

/// Performs pieces: by edges, and symbol by symbol where no edge is known. Tells whether no symbol
/// was refused.
pub fn tell(
    lexicon: &Lexicon,
    notebook: &mut Notebook,
    actor: &mut Actor,
    pieces: &[ByteWord],
    out: &mut Vec<u8>,
) -> Result<bool, Memory>
    requires usable { IsTrue actor.old.usable }
    requires machine { actor.old.machine ≡ lexicon.now.machine.now }
    requires known { IsKnown (words_table lexicon.now.words.now) lexicon.now.machine.now
        notebook.old.edges }
    requires room { length notebook.old.sheet.bytes.items ≡ ROOM }
    requires none { IsBlank notebook.old.sheet }
    ensures known { OnOk result (IsKnown (words_table lexicon.now.words.now)
        lexicon.now.machine.now notebook.new.edges) }
    ensures performs { IfOk result (λ all. IsTrue all → PerformsSaid actor.old actor.new
        (code_over lexicon.now.words.now pieces.now) out.old.items out.new.items) }
    ensures refused { IfOk result (λ all. all ≡ false
        → RefusesCode actor.old (code_over lexicon.now.words.now pieces.now)) }
    ensures none { OnOk result (IsBlank notebook.new.sheet) }
    ensures room { OnOk result (IsAsLong notebook.old.sheet notebook.new.sheet) }
    ensures machine { actor.new.machine ≡ actor.old.machine }
    ensures usable { OnOk result (IsTrue actor.new.usable) }
{
    let mut at = 0;
    'pieces: while at < pieces.len() {
        let rest = &pieces[at..];
        at += tell_some(lexicon, notebook, actor, rest, out)?;
        if at < pieces.len() {
            let symbols = &mut notebook.symbols;
            if !take_word(lexicon.words, pieces[at], symbols, actor, out)? {
                return Ok(false);
            }
            at += 1;
        }
    }
    Ok(true)
}
