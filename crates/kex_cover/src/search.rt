// The search over pairs: what each leads to by a byte of each class.

ghost use Rattle.std.specs.Prelude.{◌≡◌, ℕ, ◌<◌, ◌∷◌, [], Some, OnOk, IfOk, IfErr, IfSome};
ghost use Rattle.std.specs.Prelude.{MatchBool, MatchOption, length, slice_get};
ghost use Rattle.kex_code.specs.Codes.{Begins, IsAmong};
ghost use Rattle.kex_cover.specs.Keeping.{HasPairsUpTo};
ghost use Rattle.kex_cover.specs.Pairs.{ArePlacesAfter, HasMorePairs, IsCoveredBy, IsPlaceSetOf};
ghost use Rattle.kex_cover.specs.Pairs.{IsUncoveredBy, PlaceSets};
ghost use Rattle.kex_cover.specs.Searches.{AllHold, ArePairsKept, AreSetsMet, AreWaiting, Fails};
ghost use Rattle.kex_cover.specs.Searches.{GrowsPairs, HasMoreFrom, Holds, IsDoneFor, IsNextPair};
ghost use Rattle.kex_cover.specs.Searches.{HasNumbers, IsPairFollowed, RefusesPairs, SomeFails};
ghost use Rattle.kex_cover.specs.Searches.{all_pair_sets, met_sets, pair_sets, pairs_met};

use crate::fault::CoverFault;
use crate::met_sets::MetSets;
use crate::pairs::{Pairs, SetPair};
use kex_code::memory::Memory;
use kex_machine::Trimmed;

// The pair of the empty text.
fn first_pair(
    machine: &Trimmed,
    leaf: u32,
    before: &[u32],
    sets: &mut MetSets,
) -> Result<SetPair, Memory>
    requires met { AreSetsMet machine.now sets.old }
    requires leaf { AreWaiting machine.now (leaf ∷ []) }
    requires before { AreWaiting machine.now before.now }
    ensures met { OnOk result (AreSetsMet machine.now sets.new) }
    ensures numbered { IfOk result (λ pair. HasNumbers (met_sets sets.new) pair) }
    ensures first { IfOk result (λ pair. IsPlaceSetOf (leaf ∷ [])
        (pair_sets (met_sets sets.new) pair).first) }
    ensures second { IfOk result (λ pair. IsPlaceSetOf before.now
        (pair_sets (met_sets sets.new) pair).second) }
{
    let first = sets.number_of(machine, &[leaf])?;
    let second = sets.number_of(machine, before)?;
    Ok(SetPair { first, second })
}

// What a pair leads to by a byte of a class, if something is reached from its first part.
fn next_pair(
    machine: &Trimmed,
    pair: SetPair,
    class: usize,
    sets: &mut MetSets,
) -> Result<Option<SetPair>, Memory>
    requires met { AreSetsMet machine.now sets.old }
    requires pair { HasNumbers (met_sets sets.old) pair }
    requires class { class < length sets.old.bytes.items }
    ensures met { OnOk result (AreSetsMet machine.now sets.new) }
    ensures grows { OnOk result (Begins (met_sets sets.new) (met_sets sets.old)) }
    ensures bytes { sets.new.bytes ≡ sets.old.bytes }
    ensures numbered { IfOk result (λ r. IfSome r (λ next. HasNumbers (met_sets sets.new) next)) }
    ensures next { IfOk result (λ r. (b : ℕ) → slice_get sets.old.bytes.items class ≡ Some b
        → MatchOption r (ArePlacesAfter machine.now (pair_sets (met_sets sets.old) pair).first b [])
        (λ next. IsNextPair machine.now (pair_sets (met_sets sets.old) pair) b
        (pair_sets (met_sets sets.new) next))) }
{
    let first = sets.after(machine, pair.first, class)?;
    if sets.is_empty(first) {
        return Ok(None);
    }
    let second = sets.after(machine, pair.second, class)?;
    Ok(Some(SetPair { first, second }))
}

// What a pair leads to by a byte of a class, if there is something, is put among the pairs.
fn follow_class(
    machine: &Trimmed,
    class: usize,
    at: usize,
    sets: &mut MetSets,
    pairs: &mut Pairs,
) -> Result<(), CoverFault>
    requires few { pairs.old.most < 4294967295 }
    requires kept { ArePairsKept machine.now sets.old pairs.old }
    requires there { at < length pairs.old.met.keys }
    requires class { class < length sets.old.bytes.items }
    ensures most { pairs.new.most ≡ pairs.old.most }
    ensures bytes { sets.new.bytes ≡ sets.old.bytes }
    ensures kept { OnOk result (ArePairsKept machine.now sets.new pairs.new) }
    ensures grows { OnOk result (GrowsPairs machine.now (pairs_met sets.old pairs.old)
        (pairs_met sets.new pairs.new)) }
    ensures done { OnOk result ((u : PlaceSets) (b : ℕ)
        → slice_get (pairs_met sets.old pairs.old) at ≡ Some u
        → slice_get sets.old.bytes.items class ≡ Some b
        → IsDoneFor machine.now (pairs_met sets.new pairs.new) u b) }
    ensures err { IfErr result (RefusesPairs pairs.old.most (HasMoreFrom machine.now pairs.old.most
        (pairs_met sets.old pairs.old))) }
{
    let pair = *pairs.met.get_index(at).unwrap();
    let next = next_pair(machine, pair, class, sets)?;
    match next {
        None => Ok(()),
        Some(next) => pairs.enter(next),
    }
}

// What a pair leads to by a byte of each class is put among the pairs.
fn follow(
    machine: &Trimmed,
    at: usize,
    sets: &mut MetSets,
    pairs: &mut Pairs,
) -> Result<(), CoverFault>
    requires few { pairs.old.most < 4294967295 }
    requires kept { ArePairsKept machine.now sets.old pairs.old }
    requires there { at < length pairs.old.met.keys }
    ensures most { pairs.new.most ≡ pairs.old.most }
    ensures bytes { sets.new.bytes ≡ sets.old.bytes }
    ensures kept { OnOk result (ArePairsKept machine.now sets.new pairs.new) }
    ensures grows { OnOk result (GrowsPairs machine.now (pairs_met sets.old pairs.old)
        (pairs_met sets.new pairs.new)) }
    ensures done { OnOk result (IsPairFollowed machine.now sets.old.bytes.items
        (pairs_met sets.old pairs.old) (pairs_met sets.new pairs.new) at) }
    ensures err { IfErr result (RefusesPairs pairs.old.most (HasMoreFrom machine.now pairs.old.most
        (pairs_met sets.old pairs.old))) }
{
    for class in 0..sets.bytes.len() {
        follow_class(machine, class, at, sets, pairs)?;
    }
    Ok(())
}

// What all pairs lead to is put among them.
fn follow_all(machine: &Trimmed, sets: &mut MetSets, pairs: &mut Pairs) -> Result<(), CoverFault>
    requires few { pairs.old.most < 4294967295 }
    requires kept { ArePairsKept machine.now sets.old pairs.old }
    ensures most { pairs.new.most ≡ pairs.old.most }
    ensures bytes { sets.new.bytes ≡ sets.old.bytes }
    ensures kept { OnOk result (ArePairsKept machine.now sets.new pairs.new) }
    ensures grows { OnOk result (GrowsPairs machine.now (pairs_met sets.old pairs.old)
        (pairs_met sets.new pairs.new)) }
    ensures done { OnOk result ((u : PlaceSets) (k b : ℕ)
        → IsAmong (pairs_met sets.new pairs.new) u → slice_get sets.old.bytes.items k ≡ Some b
        → IsDoneFor machine.now (pairs_met sets.new pairs.new) u b) }
    ensures err { IfErr result (RefusesPairs pairs.old.most (HasMoreFrom machine.now pairs.old.most
        (pairs_met sets.old pairs.old))) }
{
    let mut at = 0;
    'pairs: while at < pairs.met.len() {
        follow(machine, at, sets, pairs)?;
        at += 1;
    }
    Ok(())
}

// Whether the first part of a pair holds the end, and the second doesn't.
fn fails(machine: &Trimmed, sets: &MetSets, pair: SetPair) -> bool
    requires met { AreSetsMet machine.now sets.now }
    requires numbered { HasNumbers (met_sets sets.now) pair }
    ensures { MatchBool result (Fails machine.now.nodes (pair_sets (met_sets sets.now) pair))
        (Holds machine.now.nodes (pair_sets (met_sets sets.now) pair)) }
{
    let first = &sets.met[pair.first];
    let second = &sets.met[pair.second];
    first.end && !second.end
}

// Whether in each pair whose first part holds the end the second holds it too.
fn all_hold(machine: &Trimmed, sets: &MetSets, pairs: &[SetPair]) -> bool
    requires met { AreSetsMet machine.now sets.now }
    requires numbered { (p : SetPair) → IsAmong pairs.now p → HasNumbers (met_sets sets.now) p }
    ensures { MatchBool result (AllHold machine.now (all_pair_sets (met_sets sets.now) pairs.now))
        (SomeFails machine.now (all_pair_sets (met_sets sets.now) pairs.now)) }
{
    for pair in pairs {
        if fails(machine, sets, *pair) {
            return false;
        }
    }
    true
}

/// Whether a place is covered by those before it, as `covered` tells. The sets that are met stay.
pub fn search(
    machine: &Trimmed,
    leaf: u32,
    before: &[u32],
    sets: &mut MetSets,
    pairs: &mut Pairs,
) -> Result<bool, CoverFault>
    requires few { pairs.old.most < 4294967295 }
    requires met { AreSetsMet machine.now sets.old }
    requires leaf { AreWaiting machine.now (leaf ∷ []) }
    requires before { AreWaiting machine.now before.now }
    ensures tells { IfOk result (λ yes. MatchBool yes (IsCoveredBy machine.now leaf before.now)
        (IsUncoveredBy machine.now leaf before.now)) }
    ensures count { OnOk result (HasPairsUpTo machine.now pairs.old.most leaf before.now) }
    ensures met { OnOk result (AreSetsMet machine.now sets.new) }
    ensures most { pairs.new.most ≡ pairs.old.most }
    ensures refused { IfErr result (RefusesPairs pairs.old.most
        (HasMorePairs machine.now leaf before.now pairs.old.most)) }
{
    pairs.forget();
    let pair = first_pair(machine, leaf, before, sets)?;
    pairs.enter(pair)?;
    follow_all(machine, sets, pairs)?;
    Ok(all_hold(machine, sets, pairs.met.as_slice()))
}
