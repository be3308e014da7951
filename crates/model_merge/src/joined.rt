//! Lists of mergeable items joined: a child's over a parent's, under it, or item by item.

ghost use Rattle.std.specs.Prelude.{◌≡◌, List, map, IfOk, OnOk};
ghost use Rattle.model_merge.specs.Keyed.{absorb, absorbed, keyed, merged_lists, merged_over, merged_under, overlaid, underlaid};

use crate::mergeable::Mergeable;
use crate::{appended, index_of, items_of, partner, put, settled_others};
use indexmap::IndexMap;
use mvn_base::Key;
use mvn_shared::{List, Mem, Shared};
use std::alloc::Global;

// A child's item over the parent's.
fn merged<T: Mergeable>(alloc: Global, child: &Shared<T>, parent: &Shared<T>) -> Mem<Shared<T>>
    ensures { IfOk result (λ merged. merged ≡ T.merge child.now parent.now) }
{
    let merged = T::merged(alloc, child.value(), parent.value())?;
    Shared::new(alloc, merged)
}

// A parent's item, with the child's of its key.
fn overlaid<T: Mergeable>(
    alloc: Global,
    index: &IndexMap<Key, Shared<T>>,
    item: Shared<T>,
) -> Mem<Shared<T>>
    ensures { (items : List T) → index.now.entries ≡ keyed T.key_of items →
        IfOk result (λ merged. merged ≡ overlaid T.key_of T.merge items item) }
{
    match partner(alloc, index, &item)? {
        Some(child) => merged(alloc, child, &item),
        None => Ok(item),
    }
}

// Each of a parent's items, with the child's of its key.
fn all_overlaid<T: Mergeable>(
    alloc: Global,
    index: &IndexMap<Key, Shared<T>>,
    parent: List<Shared<T>>,
) -> Mem<List<Shared<T>>>
    ensures { (items : List T) → index.now.entries ≡ keyed T.key_of items →
        IfOk result (λ list. list ≡ map (overlaid T.key_of T.merge items) parent) }
{
    let mut list = List::new(alloc);
    for item in parent.into_vec() {
        list.push(overlaid(alloc, index, item)?)?;
    }
    Ok(list)
}

// A child's item, with the parent's of its key.
fn underlaid<T: Mergeable>(
    alloc: Global,
    index: &IndexMap<Key, Shared<T>>,
    item: &Shared<T>,
) -> Mem<Shared<T>>
    ensures { (items : List T) → index.now.entries ≡ keyed T.key_of items →
        IfOk result (λ merged. merged ≡ underlaid T.key_of T.merge items item.now) }
{
    match partner(alloc, index, item)? {
        Some(parent) => merged(alloc, item, parent),
        None => item.share(),
    }
}

// Each of a child's items, with the parent's of its key.
fn all_underlaid<T: Mergeable>(
    alloc: Global,
    index: &IndexMap<Key, Shared<T>>,
    child: &[Shared<T>],
) -> Mem<List<Shared<T>>>
    ensures { (items : List T) → index.now.entries ≡ keyed T.key_of items →
        IfOk result (λ list. list ≡ map (underlaid T.key_of T.merge items) child.now) }
{
    let mut list = List::new(alloc);
    for item in child {
        list.push(underlaid(alloc, index, item)?)?;
    }
    Ok(list)
}

/// A child's items in order, each merged with the parent's of its key, the parent's list settled. Costs both, on the
/// average, besides the merging.
pub fn merged_under<T: Mergeable>(
    alloc: Global,
    child: &[Shared<T>],
    parent: &[Shared<T>],
) -> Mem<List<Shared<T>>>
    ensures { IfOk result (λ list. list ≡ merged_under T.key_of T.merge child.now parent.now) }
{
    let parents = index_of(alloc, parent)?;
    all_underlaid(alloc, &parents, child)
}

// An item more, merged with the one of its key.
fn absorb<T: Mergeable>(
    alloc: Global,
    index: &mut IndexMap<Key, Shared<T>>,
    item: &Shared<T>,
) -> Mem<()>
    ensures { OnOk result ((items : List T) → index.old.entries ≡ keyed T.key_of items →
        index.new.entries ≡ keyed T.key_of (absorb T.key_of T.merge items item.now)) }
{
    let merged = underlaid(alloc, index, item)?;
    put(alloc, index, merged)
}

/// A settled list, and then further items one by one: each merged, as the child, with the one of its key, in its place,
/// or else at the end. Costs both, on the average, besides the merging. Project rule of order.
pub fn absorbed<T: Mergeable>(
    alloc: Global,
    items: &[Shared<T>],
    further: &[Shared<T>],
) -> Mem<List<Shared<T>>>
    ensures { IfOk result (λ list. list ≡ absorbed T.key_of T.merge items.now further.now) }
{
    let mut index = index_of(alloc, items)?;
    for item in further {
        absorb(alloc, &mut index, item)?;
    }
    items_of(alloc, index)
}

/// A parent's items, each merged with the child's of its key, the child's list settled. Costs both, on the average,
/// besides the merging.
pub fn merged_over<T: Mergeable>(
    alloc: Global,
    child: &[Shared<T>],
    parent: List<Shared<T>>,
) -> Mem<List<Shared<T>>>
    ensures { IfOk result (λ list. list ≡ merged_over T.key_of T.merge child.now parent) }
{
    let children = index_of(alloc, child)?;
    all_overlaid(alloc, &children, parent)
}

// A parent's items under their keys, each merged with the child's.
fn indexed_over<T: Mergeable>(
    alloc: Global,
    child: &[Shared<T>],
    parents: IndexMap<Key, Shared<T>>,
) -> Mem<List<Shared<T>>>
    ensures { (items : List T) → parents.entries ≡ keyed T.key_of items →
        IfOk result (λ list. list ≡ merged_over T.key_of T.merge child.now items) }
{
    let items = items_of(alloc, parents)?;
    merged_over(alloc, child, items)
}

/// A parent's items in order, each merged with the child's of its key, and then the child's others, each list settled.
/// Costs both, on the average, besides the merging. Project rule of order.
pub fn merged_lists<T: Mergeable>(
    alloc: Global,
    child: &[Shared<T>],
    parent: &[Shared<T>],
) -> Mem<List<Shared<T>>>
    ensures { IfOk result (λ list. list ≡ merged_lists T.key_of T.merge child.now parent.now) }
{
    let parents = index_of(alloc, parent)?;
    let further = settled_others(alloc, &parents, child)?;
    let merged = indexed_over(alloc, child, parents)?;
    appended(merged, further)
}
