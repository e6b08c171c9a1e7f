// The sets of waiting places that were met, by number, and where they lead by bytes.

ghost use Rattle.std.specs.Prelude.{◌≡◌, ℕ, ◌<◌, List, [], Some, None, OnOk, IfOk, MatchBool};
ghost use Rattle.std.specs.Prelude.{length, replicate, set, slice_get};
ghost use Rattle.kex_code.specs.Codes.{Begins};
ghost use Rattle.kex_model.specs.Moves.{accept};
ghost use Rattle.kex_machine.specs.Nodes.{move_of};
ghost use Rattle.kex_cover.specs.Pairs.{IsPlaceSetOf};
ghost use Rattle.kex_cover.specs.Searches.{AreListedTo, AreSetsMet, AreWaiting};
ghost use Rattle.kex_cover.specs.Searches.{AreWithin, HasEnd, IsWayTo, met_sets};

use crate::numbers::number;
use crate::sets::{MarkPair, set_after, set_of};
use indexmap::IndexSet;
use kex_code::memory::Memory;
use kex_machine::{MNode, Trimmed, node_at};
use kex_paths::workspace::samples_of;
use std::alloc::Global;

/// Whether a set of places holds the end, and the number of the set that it leads to by each class
/// of bytes, so far as that is known.
#[derive(Drop)]
pub struct MetSet {
    pub end: bool,
    pub ways: Vec<Option<usize>>,
}

impl MetSet {
    // The set leads to the set of this number by a byte of the class.
    fn learn(&mut self, class: usize, to: usize)
        requires { class < length self.old.ways.items }
        ensures end { self.new.end ≡ self.old.end }
        ensures ways { self.new.ways.items ≡ set self.old.ways.items class (Some to) }
    {
        self.ways[class] = Some(to);
    }
}

/// Sets of waiting places, each once. `bytes` has a byte of each class.
#[derive(Drop)]
pub struct MetSets {
    pub alloc: Global,
    pub rows: MarkPair,
    pub bytes: Vec<u8>,
    pub sets: IndexSet<Vec<u32>>,
    pub met: Vec<MetSet>,
}

// Whether a text may end at a node.
fn is_end(node: &MNode) -> bool
    ensures { MatchBool result (move_of (Some node.now) ≡ accept) (move_of (Some node.now)
        ≡ accept → ⊥) }
{
    match node {
        MNode::Accept => true,
        MNode::Read(_, _)
        | MNode::Choice(_, _)
        | MNode::Forced(_, _)
        | MNode::Do(_, _)
        | MNode::Skip(_) => false,
    }
}

// Whether a node at which a text may end is among places.
fn holds_end(nodes: &[MNode], places: &[u32]) -> bool
    requires { AreWithin (length nodes.now) places.now }
    ensures { MatchBool result (HasEnd nodes.now places.now) (HasEnd nodes.now places.now → ⊥) }
{
    for place in places {
        if is_end(node_at(nodes, *place as usize)) {
            return true;
        }
    }
    false
}

// The samples that there are.
fn listed(alloc: Global, samples: &[Option<u8>; 256]) -> Result<Vec<u8>, Memory>
    ensures { IfOk result (λ bytes. AreListedTo 256 samples.now bytes.items) }
{
    let mut bytes = Vec::new(alloc);
    for sample in samples {
        if let Some(byte) = *sample {
            bytes.push(byte)?;
        }
    }
    Ok(bytes)
}

// No way is known, of `count` classes.
fn no_ways(alloc: Global, count: usize) -> Result<Vec<Option<usize>>, Memory>
    ensures { IfOk result (λ ways. ways.items ≡ replicate count None) }
{
    let ways = vec![in alloc; None; count]?;
    Ok(ways)
}

impl MetSets {
    /// No set of a machine's places.
    pub fn new(alloc: Global, machine: &Trimmed) -> Result<MetSets, Memory>
        ensures { IfOk result (λ sets. AreSetsMet machine.now sets) }
    {
        let samples = samples_of(machine.partition());
        let bytes = listed(alloc, &samples)?;
        let rows = MarkPair::new(alloc, machine.nodes().len())?;
        Ok(MetSets {
            alloc,
            rows,
            bytes,
            sets: IndexSet::new(alloc),
            met: Vec::new(alloc),
        })
    }

    /// Forgets all sets, where there are more than these.
    pub fn bound(&mut self, machine: &Trimmed, most: usize)
        requires { AreSetsMet machine.now self.old }
        ensures { AreSetsMet machine.now self.new }
    {
        if self.sets.len() <= most {
            return;
        }
        self.sets.clear();
        self.met.clear();
    }

    // Puts a set among the others, if it isn't there. Gives its number.
    fn put(&mut self, machine: &Trimmed, set: Vec<u32>) -> Result<usize, Memory>
        requires met { AreSetsMet machine.now self.old }
        requires within { AreWithin (length machine.now.nodes) set.items }
        ensures met { OnOk result (AreSetsMet machine.now self.new) }
        ensures grows { OnOk result (Begins (met_sets self.new) (met_sets self.old)) }
        ensures bytes { self.new.bytes ≡ self.old.bytes }
        ensures at { IfOk result (λ i. slice_get (met_sets self.new) i ≡ Some set.items) }
    {
        let end = holds_end(machine.nodes(), &set);
        let (at, new) = number(&mut self.sets, set)?;
        if !new {
            return Ok(at);
        }
        let ways = no_ways(self.alloc, self.bytes.len())?;
        self.met.push(MetSet { end, ways })?;
        Ok(at)
    }

    /// The number of the set of these places.
    pub fn number_of(&mut self, machine: &Trimmed, places: &[u32]) -> Result<usize, Memory>
        requires met { AreSetsMet machine.now self.old }
        requires places { AreWaiting machine.now places.now }
        ensures met { OnOk result (AreSetsMet machine.now self.new) }
        ensures grows { OnOk result (Begins (met_sets self.new) (met_sets self.old)) }
        ensures bytes { self.new.bytes ≡ self.old.bytes }
        ensures at { IfOk result (λ i. (set : List ℕ)
            × (slice_get (met_sets self.new) i ≡ Some set) × IsPlaceSetOf places.now set) }
    {
        let set = set_of(self.alloc, machine, places, &mut self.rows)?;
        self.put(machine, set)
    }

    // The set that a set leads to by a byte of a class, worked out.
    fn work_out(&mut self, machine: &Trimmed, at: usize, class: usize) -> Result<usize, Memory>
        requires met { AreSetsMet machine.now self.old }
        requires at { at < length (met_sets self.old) }
        requires class { class < length self.old.bytes.items }
        ensures met { OnOk result (AreSetsMet machine.now self.new) }
        ensures grows { OnOk result (Begins (met_sets self.new) (met_sets self.old)) }
        ensures bytes { self.new.bytes ≡ self.old.bytes }
        ensures after { IfOk result (λ to. (x : List ℕ) (b : ℕ)
            → slice_get (met_sets self.old) at ≡ Some x
            → slice_get self.old.bytes.items class ≡ Some b
            → IsWayTo machine.now (met_sets self.new) x b to) }
    {
        let from = self.sets.get_index(at).unwrap();
        let set = set_after(self.alloc, machine, from, self.bytes[class], &mut self.rows)?;
        self.put(machine, set)
    }

    /// The number of the set that a set leads to by a byte of a class.
    pub fn after(&mut self, machine: &Trimmed, at: usize, class: usize) -> Result<usize, Memory>
        requires met { AreSetsMet machine.now self.old }
        requires at { at < length (met_sets self.old) }
        requires class { class < length self.old.bytes.items }
        ensures met { OnOk result (AreSetsMet machine.now self.new) }
        ensures grows { OnOk result (Begins (met_sets self.new) (met_sets self.old)) }
        ensures bytes { self.new.bytes ≡ self.old.bytes }
        ensures after { IfOk result (λ to. (x : List ℕ) (b : ℕ)
            → slice_get (met_sets self.old) at ≡ Some x
            → slice_get self.old.bytes.items class ≡ Some b
            → IsWayTo machine.now (met_sets self.new) x b to) }
    {
        if let Some(next) = self.met[at].ways[class] {
            return Ok(next);
        }
        let next = self.work_out(machine, at, class)?;
        self.met[at].learn(class, next);
        Ok(next)
    }

    /// Whether no place is in a set.
    pub fn is_empty(&self, at: usize) -> bool
        requires { at < length (met_sets self.now) }
        ensures { MatchBool result (slice_get (met_sets self.now) at ≡ Some [])
            (slice_get (met_sets self.now) at ≡ Some [] → ⊥) }
    {
        self.sets.get_index(at).unwrap().is_empty()
    }
}
