// The rows of edges that are learnt, one for each pair of a state and a node.

ghost use Rattle.std.specs.Prelude.{◌≡◌, ◌<◌, ◌≤◌, ◌+◌, ◌*◌, ◌-◌, ◌^◌, IsTrue, ◌++◌, ◌∷◌, List, ℕ};
ghost use Rattle.std.specs.Prelude.{[], All, OnOk, IfOk, IfSome, IsNone, length, take, drop};
ghost use Rattle.std.specs.Prelude.{replicate, slice_get, Some, slice_set, true};
ghost use Rattle.kex_machine.specs.declared.MNode.{MNode};
ghost use Rattle.kex_action.specs.Holdings.{with_bytes};
ghost use Rattle.kex_model.specs.Acting.{ActingState};
ghost use Rattle.kex_action.specs.Deeds.{after_deeds};
ghost use Rattle.kex_action.specs.Sheets.{with_buffer};
ghost use Rattle.kex_moves.specs.Edges.{is_written, has_acts, IsUnlearnt, IsAtRow};
ghost use Rattle.kex_moves.specs.Runs.{StopsAt, stop_behind, run_of};
ghost use Rattle.kex_moves.specs.Trails.{IsTrail, IsTrailOver};
ghost use Rattle.kex_moves.specs.Known.{rows_of, IsEdge, IsOrdered, IsPairRow, HasRowFor, HasPlace};
ghost use Rattle.kex_moves.specs.Known.{Settles, Widens, Lengthens, Forgets};

use crate::edge::{Edge, EdgeKind};
use crate::follow::follow;
use crate::run::{Halt, SheetPoint, SheetStart, run};
use kex_action::deed::Deed;
use kex_code::memory::Memory;
use kex_script::piece::ByteWord;
use std::alloc::Global;
use std::marker::Model;
use std::mem;

/// A state of the table and a node where the actor rests, and the number of an earlier pair of the
/// same state.
#[derive(Clone, Copy, Debug, PartialEq, Eq)]
pub struct Pair {
    pub state: u32,
    pub node: u32,
    pub earlier: u32,
}

/// No pair.
const NO_PAIR: u32 = 4_294_967_295;

/// How many edges there may be. With pairs, texts and deeds they take less than 64 MiB.
const MOST_EDGES: usize = 2_097_152;

/// How many pairs there may be.
const MOST_PAIRS: usize = 524_288;

/// How long the texts together may be before one more is added, which takes 32 bytes at most.
const MOST_TEXT: usize = 8_388_576;

/// How many deeds there may be before those of one more edge are added, which are 255 at most.
const MOST_ACTS: usize = 1_048_321;

/// How many pairs of one state or node are looked at, and there are.
const LOOKS: u32 = 64;

/// How many calls there are in which nothing more can be learnt, for each edge that was learnt,
/// before all is forgotten. So what it costs to learn all again is shared by many bytes, also where
/// there is never room for what is met in turn.
const PATIENCE: usize = 8;

/// By which number of a pair it is looked for.
#[derive(Clone, Copy, Debug, PartialEq, Eq)]
pub enum By {
    State,
    Node,
}

/// What is learnt: pairs, and for each a row of edges by class. It grows with what is met, up to a
/// bound of memory. Once that is reached what is known is kept, and no more is learnt; all is
/// forgotten when that has lasted long.
#[derive(Drop)]
pub struct Edges {
    classes: [u8; 256],
    width: usize,
    shift: u32,
    by: By,
    heads: Vec<u32>,
    pairs: Vec<Pair>,
    edges: Vec<Edge>,
    text: Vec<u8>,
    acts: Vec<Deed>,
    learnt: usize,
    refused: usize,
}

impl Model for Edges {
    ghost use Rattle.kex_moves.specs.Known.{Known, IsOrdered};

    ghost Value = { Known };

    ghost view = { λ e. record {
      classes = e.classes;
      width = e.width;
      shift = e.shift;
      pairs = e.pairs.items;
      edges = e.edges.items;
      text = e.text.items;
      acts = e.acts.items;
    } };

    ghost invariant = { λ e.
        IsOrdered (record {
          classes = e.classes;
          width = e.width;
          shift = e.shift;
          pairs = e.pairs.items;
          edges = e.edges.items;
          text = e.text.items;
          acts = e.acts.items;
        }) };
}

// The head of some pairs, in whose place the number is put.
fn head_of(heads: &mut [u32], slot: u32, number: u32) -> u32 {
    match heads.get_mut(slot as usize) {
        Some(head) => mem::replace(head, number),
        None => NO_PAIR,
    }
}

// Adds a pair and its row.
fn push_row(
    pairs: &mut Vec<Pair>,
    edges: &mut Vec<Edge>,
    pair: Pair,
    width: usize,
) -> Result<(), Memory>
    requires { length edges.old.items + width ≤ MOST_EDGES }
    ensures pairs { OnOk result (pairs.new.items ≡ pairs.old.items ++ pair ∷ []) }
    ensures edges { OnOk result ((more : List Edge) × (edges.new.items ≡ edges.old.items ++ more)
        × (length more ≡ width) × All IsUnlearnt more) }
{
    pairs.push(pair)?;
    edges.resize(edges.len() + width, Edge::unknown())?;
    Ok(())
}

// The place after `count` things, if there may be one more.
fn place_behind(count: usize, most: usize) -> Option<u32>
    ensures { IfSome result (λ place. place ≡ count) }
{
    if count > most {
        return None;
    }
    u32::try_from(count).ok()
}

// What kind of edge writes `count` bytes, of which the one read is at a place.
fn kind_of(place: usize, count: usize) -> EdgeKind
    ensures written { is_written result ≡ true }
    ensures keeps { result ≡ EdgeKind.Keep → (place ≡ 0) × (count ≡ 1) }
    ensures drops { result ≡ EdgeKind.Drop → count ≡ 0 }
{
    if place == 0 && count == 1 {
        return EdgeKind::Keep;
    }
    if count == 0 {
        return EdgeKind::Drop;
    }
    EdgeKind::Text
}

// The kind of an edge with deeds. Those that open a buffer and write the byte alone have a kind
// of their own where edges are those of bytes.
fn kind_of_acts(opens: bool, bytes: bool) -> EdgeKind
    ensures acts { has_acts result ≡ true }
    ensures opens { result ≡ EdgeKind.Opens → IsTrue opens }
{
    if opens && bytes {
        EdgeKind::Opens
    } else {
        EdgeKind::Acts
    }
}

// Adds a text, and room to copy 16 bytes from its begin.
fn append_text(text: &mut Vec<u8>, bytes: &[u8]) -> Result<(), Memory>
    ensures ok { OnOk result (text.new.items ≡ (text.old.items ++ bytes.now) ++ replicate 16 0) }
    ensures err { length text.old.items ≤ length text.new.items }
{
    text.extend_from_slice(bytes)?;
    text.extend_from_slice(&[0; 16])?;
    Ok(())
}

impl Edges {
    /// Nothing is learnt. A row has 2 to the power of `shift` edges, and there are `count` states
    /// or nodes by which pairs are looked for.
    pub fn new(
        alloc: Global,
        classes: [u8; 256],
        shift: u32,
        by: By,
        count: usize,
    ) -> Result<Edges, Memory>
        requires few { shift ≤ 8 }
        requires classes { All (λ c. c < 2 ^ shift) classes }
        ensures { IfOk result (λ e. e ≡ record {
          classes = classes;
          width = 2 ^ shift;
          shift = shift;
          pairs = [];
          edges = [];
          text = replicate 16 0;
          acts = [];
        }) }
    {
        let mut heads = Vec::new(alloc);
        heads.resize(count, NO_PAIR)?;
        let mut text = Vec::new(alloc);
        text.resize(16, 0)?;
        Ok(Edges {
            classes,
            width: 1 << shift,
            shift,
            by,
            heads,
            pairs: Vec::new(alloc),
            edges: Vec::new(alloc),
            text,
            acts: Vec::new(alloc),
            learnt: 0,
            refused: 0,
        })
    }

    // Whether edges are those of bytes.
    fn by_state(&self) -> bool {
        matches!(self.by, By::State)
    }

    // Where the head of the pairs is among which the pair of a state and a node is.
    #[inline(always)]
    fn slot_of(&self, state: u32, node: u32) -> u32 {
        match self.by {
            By::State => state,
            By::Node => node,
        }
    }

    /// The row of a state and a node, if there is one and it is found soon.
    pub fn find(&self, state: u32, node: u32) -> Option<usize>
        ensures row { IfSome result (λ row. HasRowFor self.now row state node) }
        ensures ordered { IsOrdered self.now }
    {
        let slot = self.slot_of(state, node);
        let mut number = *self.heads.get(slot as usize)? as usize;
        for _ in 0..LOOKS {
            let pair = self.pairs.get(number)?;
            if pair.state == state && pair.node == node {
                return Some(number * self.width);
            }
            number = pair.earlier as usize;
        }
        None
    }

    // Whether there may be one more row.
    fn has_room(&self) -> bool
        ensures { IsTrue result → (length self.now.edges + self.now.width ≤ MOST_EDGES)
            × (length self.now.pairs < MOST_PAIRS) }
    {
        self.pairs.len() < MOST_PAIRS && self.edges.len() <= MOST_EDGES - self.width
    }

    // Whether as many pairs as are looked at are found where that of a state and a node would be.
    fn is_crowded(&self, state: u32, node: u32) -> bool {
        let slot = self.slot_of(state, node);
        let Some(head) = self.heads.get(slot as usize) else {
            return true;
        };
        let mut number = *head;
        for _ in 0..LOOKS {
            let Some(pair) = self.pairs.get(number as usize) else {
                return false;
            };
            number = pair.earlier;
        }
        true
    }

    /// Adds a row of which nothing is learnt. `None` where there are too many.
    pub fn add(&mut self, state: u32, node: u32) -> Result<Option<usize>, Memory>
        ensures ordered { IfOk result (λ o. IsOrdered self.new) }
        ensures wider { IfOk result (λ o. Widens self.old self.new state node) }
        ensures row { IfOk result (λ o. IfSome o (λ row. HasRowFor self.new row state node)) }
    {
        let row = self.edges.len();
        let number = self.pairs.len();
        if !self.has_room() || self.is_crowded(state, node) {
            return Ok(None);
        }
        let slot = self.slot_of(state, node);
        let pair = Pair {
            state,
            node,
            earlier: head_of(&mut self.heads, slot, number as u32),
        };
        match push_row(&mut self.pairs, &mut self.edges, pair, self.width) {
            Ok(()) => Ok(Some(row)),
            Err(Memory) => {
                self.pairs.clear();
                self.edges.clear();
                Err(Memory)
            }
        }
    }

    /// The row of a state and a node. `None` where there are too many rows.
    pub fn row_of(&mut self, state: u32, node: u32) -> Result<Option<usize>, Memory>
        ensures ordered { IfOk result (λ o. IsOrdered self.new) }
        ensures wider { IfOk result (λ o. Widens self.old self.new state node) }
        ensures row { IfOk result (λ o. IfSome o (λ row. HasRowFor self.new row state node)) }
    {
        match self.find(state, node) {
            Some(row) => Ok(Some(row)),
            None => self.add(state, node),
        }
    }

    /// The pair of a row.
    pub fn pair_at(&self, row: usize) -> Pair
        requires { (p : Pair) × IsPairRow self.now row p }
        ensures { (p : Pair) → IsPairRow self.now row p → result ≡ p }
    {
        self.pairs[row >> self.shift]
    }

    /// The edge of a row at a class.
    pub fn edge_at(&self, row: usize, class: u8) -> Edge
        requires row { (p : Pair) × IsPairRow self.now row p }
        requires class { class < self.now.width }
        ensures edge { slice_get self.now.edges (row + class) ≡ Some result }
        ensures ordered { IsEdge self.now result }
    {
        self.edges[row + class as usize]
    }

    /// The class of a byte.
    pub fn class_of(&self, byte: u8) -> u8
        ensures class { slice_get self.now.classes byte ≡ Some result }
        ensures within { result < self.now.width }
    {
        self.classes[byte as usize]
    }

    /// The deeds of an edge.
    pub fn acts_of(&self, edge: Edge) -> &[Deed]
        requires { edge.from + edge.adds ≤ length self.now.acts }
        ensures { result.now ≡ take edge.adds (drop edge.from self.now.acts) }
    {
        let from = edge.from as usize;
        &self.acts[from..from + edge.adds as usize]
    }

    /// An edge to `next` that writes a text in which the byte read has a place, 16 where it has
    /// none.
    pub fn text_edge(&mut self, next: usize, bytes: &[u8], place: usize) -> Result<Edge, Memory>
        requires { HasPlace bytes.now place }
        ensures ordered { IfOk result (λ e. IsOrdered self.new) }
        ensures longer { IfOk result (λ e. Lengthens self.old self.new) }
        ensures settles { IfOk result (λ e. (nodes : List MNode)
            → Settles nodes self.new next (λ b. with_bytes (slice_set bytes.now place b)) e) }
    {
        let end = self.text.len();
        let kind = kind_of(place, bytes.len());
        let byte_at = place as u8;
        let adds = bytes.len() as u8;
        let EdgeKind::Text = kind else {
            return Ok(Edge {
                next,
                from: 0,
                byte_at,
                adds,
                alone: kind.is_keep(),
                kind,
            });
        };
        let Some(from) = place_behind(end, MOST_TEXT) else {
            return Ok(Edge::plain());
        };
        append_text(&mut self.text, bytes)?;
        Ok(Edge {
            next,
            from,
            byte_at,
            adds,
            alone: false,
            kind,
        })
    }

    /// An edge to `next` at which the deeds are done. The caller says whether they only open a
    /// buffer and write the byte.
    pub fn acts_edge(&mut self, next: usize, deeds: &[Deed], opens: bool) -> Result<Edge, Memory>
        ensures ordered { IfOk result (λ e. IsOrdered self.new) }
        ensures longer { IfOk result (λ e. Lengthens self.old self.new) }
        ensures settles { IfOk result (λ e. (nodes : List MNode) → (IsTrue opens → (b : ℕ)
            (s : ActingState) → after_deeds nodes b deeds.now s ≡ with_buffer (b ∷ []) s)
            → Settles nodes self.new next (λ b. after_deeds nodes b deeds.now) e) }
    {
        let Some(from) = place_behind(self.acts.len(), MOST_ACTS) else {
            return Ok(Edge::plain());
        };
        let Ok(adds) = u8::try_from(deeds.len()) else {
            return Ok(Edge::plain());
        };
        self.acts.extend_from_slice(deeds)?;
        Ok(Edge {
            next,
            from,
            byte_at: 16,
            adds,
            alone: false,
            kind: kind_of_acts(opens, self.by_state()),
        })
    }

    /// Learns the edge of a row at a class.
    pub fn put(&mut self, row: usize, class: u8, edge: Edge)
        requires row { (p : Pair) × IsPairRow self.old row p }
        requires class { class < self.old.width }
        requires edge { IsEdge self.old edge }
        requires at { IsAtRow row edge }
        ensures ordered { IsOrdered self.new }
        ensures put { self.new
            ≡ record self.old { edges = slice_set self.old.edges (row + class) edge } }
    {
        self.edges[row + class as usize] = edge;
        self.learnt = self.learnt.saturating_add(1);
    }

    /// Goes along edges from a row while they are written, after what is used of a buffer.
    #[inline(always)]
    pub fn run(&self, row: usize, piece: &[u8], buffer: &mut [u8], used: usize) -> Halt
        requires row { (p : Pair) × IsPairRow self.now row p }
        requires room { used + 17 * length piece.now + 17 ≤ length buffer.old }
        ensures at { result.at ≤ length piece.now }
        ensures used { result.used ≤ length buffer.new }
        ensures room { result.used + 17 * (length piece.now - result.at) + 17 ≤ length buffer.new }
        ensures edge { IfSome result.edge (λ e. StopsAt self.now.classes self.now.edges result.row
            result.at piece.now e × IsEdge self.now e) }
        ensures told { IsNone result.edge → result.at ≡ length piece.now }
        ensures ran { record {
          written = take result.used buffer.new;
          row = result.row;
          left = drop result.at piece.now;
        }
            ≡ stop_behind (take used buffer.old) (run_of (rows_of self.now) row piece.now) }
        ensures ordered { IsOrdered self.now }
    {
        run(
            &self.classes,
            &self.edges,
            &self.text,
            piece,
            buffer,
            SheetPoint { at: 0, row, used },
        )
    }

    /// How many classes a row has edges for.
    pub fn width(&self) -> usize
        ensures { result ≡ self.now.width }
    {
        self.width
    }

    /// Goes along edges from a row by the words of pieces while they are written, after what is
    /// used of a buffer.
    pub fn follow(
        &self,
        row: usize,
        pieces: &[ByteWord],
        buffer: &mut [u8],
        used: usize,
    ) -> SheetPoint
        requires row { (p : Pair) × IsPairRow self.now row p }
        requires room { used + 17 * length pieces.now + 17 ≤ length buffer.old }
        ensures at { result.at ≤ length pieces.now }
        ensures used { result.used ≤ length buffer.new }
        ensures trail { IsTrail self.now.edges self.now.text self.now.width
            (take result.at pieces.now) (record { row = row; writes = take used buffer.old })
            (record { row = result.row; writes = take result.used buffer.new }) }
        ensures stops { IsTrailOver self.now.edges self.now.width result.row
            (drop result.at pieces.now) }
        ensures ordered { IsOrdered self.now }
    {
        follow(
            &self.edges,
            self.width,
            &self.text,
            pieces,
            buffer,
            SheetStart { row, used },
        )
    }

    // Whether something that is met may find no room.
    fn is_full(&self) -> bool {
        !self.has_room() || self.text.len() > MOST_TEXT || self.acts.len() > MOST_ACTS
    }

    /// Whether it is time to forget, at a call: nothing more can be learnt, and there were many
    /// such calls.
    pub fn is_worn(&mut self) -> bool
        ensures { self.new ≡ self.old }
    {
        if !self.is_full() {
            return false;
        }
        self.refused = self.refused.saturating_add(1);
        self.refused / PATIENCE > self.learnt
    }

    /// Forgets all.
    pub fn forget(&mut self)
        ensures { Forgets self.old self.new }
    {
        self.learnt = 0;
        self.refused = 0;
        self.pairs.clear();
        self.edges.clear();
        self.text.truncate(16);
        self.acts.clear();
        self.heads.fill(NO_PAIR);
    }
}
