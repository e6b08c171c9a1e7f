// Which points of an edge stay marks, and lists by the numbers that these get.

ghost use Rattle.std.specs.Prelude.{◌≡◌, ◌+◌, ◌<◌, ◌^◌, IfOk, IfSome, length};
ghost use Rattle.kex_held.specs.Slices.{AreKept, IsItemWithin, AreItemsWithin, number_by};
ghost use Rattle.kex_held.specs.Slices.{item_by_number, items_by_number};
ghost use Rattle.kex_held.specs.LearntEdges.{AreRenumbered};

use crate::item::{HeldItem, RegisterText};
use kex_code::memory::Memory;
use std::alloc::Global;

// Whether a slice of a list begins or ends at a point.
fn names(items: &[HeldItem], point: u8) -> bool {
    for item in items {
        if let HeldItem::Slice(from, to) = item {
            if *from == point || *to == point {
                return true;
            }
        }
    }
    false
}

// Whether a slice of the texts begins or ends at a point.
fn is_named(texts: &[RegisterText], point: u8) -> bool {
    for text in texts {
        if names(text.items(), point) {
            return true;
        }
    }
    false
}

/// The numbers of the points before the last at which slices begin or end.
pub fn points_to_keep(alloc: Global, texts: &[RegisterText], last: u8) -> Result<Vec<u8>, Memory>
    ensures { IfOk result (λ keep. AreKept last keep.items) }
{
    let mut keep = Vec::new(alloc);
    'points: for point in 0..last {
        if is_named(texts, point) {
            keep.push(point)?;
        }
    }
    Ok(keep)
}

// The number that a point gets: where it is kept among those that are, and that of the end for the
// last.
fn number_of(keep: &[u8], last: u8, point: u8) -> Option<u8>
    requires { length keep.now < 2 ^ 8 }
    ensures number { IfSome result (λ i. number_by last keep.now i ≡ point) }
    ensures within { IfSome result (λ i. i < length keep.now + 1) }
{
    if point == last {
        return Some(keep.len() as u8);
    }
    for (i, kept) in keep.iter().enumerate() {
        if *kept == point {
            return Some(i as u8);
        }
    }
    None
}

// An item by the numbers that its points get.
fn renumber(keep: &[u8], last: u8, item: HeldItem) -> Option<HeldItem>
    requires { length keep.now < 2 ^ 8 }
    ensures number { IfSome result (λ x. item_by_number last keep.now x ≡ item) }
    ensures within { IfSome result (IsItemWithin (length keep.now + 1)) }
{
    let HeldItem::Slice(from, to) = item else {
        return Some(item);
    };
    let first = number_of(keep, last, from)?;
    let end = number_of(keep, last, to)?;
    if first > end {
        return None;
    }
    Some(HeldItem::Slice(first, end))
}

// A list by the numbers that its points get. `None` where a point has none.
fn renumber_all(
    alloc: Global,
    keep: &[u8],
    last: u8,
    items: &[HeldItem],
) -> Result<Option<Vec<HeldItem>>, Memory>
    requires { length keep.now < 2 ^ 8 }
    ensures number { IfOk result (λ o.
        IfSome o (λ xs. items_by_number last keep.now xs.items ≡ items.now)) }
    ensures within { IfOk result (λ o.
        IfSome o (λ xs. AreItemsWithin (length keep.now + 1) xs.items)) }
{
    let mut renumbered = Vec::new(alloc);
    for item in items {
        let Some(item) = renumber(keep, last, *item) else {
            return Ok(None);
        };
        renumbered.push(item)?;
    }
    Ok(Some(renumbered))
}

/// Texts by the numbers that their points get. `None` where a point has none.
pub fn renumber_texts(
    alloc: Global,
    keep: &[u8],
    last: u8,
    texts: &[RegisterText],
) -> Result<Option<Vec<RegisterText>>, Memory>
    requires { length keep.now < 2 ^ 8 }
    ensures { IfOk result (λ o.
        IfSome o (λ xs. AreRenumbered last keep.now texts.now xs.items)) }
{
    let mut all = Vec::new(alloc);
    'texts: for text in texts {
        let Some(items) = renumber_all(alloc, keep, last, text.items())? else {
            return Ok(None);
        };
        all.push(RegisterText::new(text.from(), text.to(), items))?;
    }
    Ok(Some(all))
}
