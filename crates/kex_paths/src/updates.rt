// The updates that labels by number are.

ghost use Rattle.std.specs.Prelude.{◌≡◌, IfOk, true};
ghost use Rattle.kex_paths.specs.Updates.{HasLists, IsUpdateOf};

use crate::forest::PathEdges;
use indexmap::IndexMap;
use kex_code::memory::Memory;
use kex_sst::parts::Update;
use kex_sst::shared::SharedUpdate;
use std::alloc::Global;
use std::hash::{FoldHasher, Hasher};

/// The update that passes on a label, and gives these to the registers.
pub fn update_of(
    alloc: Global,
    edges: &PathEdges,
    out: usize,
    labels: &[usize],
) -> Result<Update, Memory>
    requires { HasLists edges.now out labels.now }
    ensures { IfOk result (λ u. IsUpdateOf edges.now out labels.now u) }
{
    let mut regs = Vec::with_capacity(alloc, labels.len())?;
    for label in labels {
        regs.push(edges.parts(alloc, *label)?)?;
    }
    let out = edges.parts(alloc, out)?;
    Ok(Update::new(out, regs))
}

// Whether it is this one.
fn is_update(edges: &PathEdges, out: usize, labels: &[usize], update: &Update) -> bool
    requires { HasLists edges.now out labels.now }
    ensures { result ≡ true → IsUpdateOf edges.now out labels.now update.now }
{
    let regs = update.regs();
    if regs.len() != labels.len() || !edges.has_parts(out, update.out().as_slice()) {
        return false;
    }
    for register in 0..labels.len() {
        if !edges.has_parts(labels[register], regs[register].as_slice()) {
            return false;
        }
    }
    true
}

// A hash of its lists in their order.
fn hash_of(edges: &PathEdges, out: usize, labels: &[usize]) -> u64
    requires { HasLists edges.now out labels.now }
{
    let mut hasher = FoldHasher::default();
    edges.hash_label(out, &mut hasher);
    for label in labels {
        edges.hash_label(*label, &mut hasher);
    }
    hasher.finish()
}

/// Updates that were met, by a hash of their lists, so that equal ones are shared and not made
/// again. Where two have one hash, the second isn't kept.
#[derive(Drop)]
pub struct MetUpdates {
    alloc: Global,
    met: IndexMap<u64, SharedUpdate>,
}

impl MetUpdates {
    /// No update was met.
    pub fn new(alloc: Global) -> MetUpdates {
        MetUpdates {
            alloc,
            met: IndexMap::new(alloc),
        }
    }

    /// The update of these labels: one that was met before, if there is one.
    pub fn share(
        &mut self,
        edges: &PathEdges,
        out: usize,
        labels: &[usize],
    ) -> Result<SharedUpdate, Memory>
        requires { HasLists edges.now out labels.now }
        ensures { IfOk result (λ u. IsUpdateOf edges.now out labels.now u) }
    {
        let hash = hash_of(edges, out, labels);
        if let Some(met) = self.met.get(&hash) {
            if is_update(edges, out, labels, met.get()) {
                return met.copy();
            }
            return SharedUpdate::new(self.alloc, update_of(self.alloc, edges, out, labels)?);
        }
        let shared = SharedUpdate::new(self.alloc, update_of(self.alloc, edges, out, labels)?)?;
        self.met.insert(hash, shared.copy()?)?;
        Ok(shared)
    }
}
