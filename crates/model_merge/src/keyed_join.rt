//! Lists of keyed items: settled, indexed, and one appended to another.

ghost use Rattle.std.specs.Prelude.{◌≡◌, ◌++◌, List, map, is_none, IfOk, OnOk};
ghost use Rattle.std.specs.Option.{option_copied};
ghost use Rattle.model_merge.specs.Keyed.{item_of, keyed, others, put, settled, with_others};

use crate::keyed::Item;
use indexmap::IndexMap;
use mvn_base::Key;
use mvn_shared::{List, Mem};
use std::alloc::Global;

/// One item more: at the place of the one of its key, or at the end. Costs its key, on the average. Project rule of
/// order.
pub fn put<T: Item>(alloc: Global, index: &mut IndexMap<Key, T>, item: T) -> Mem<()>
    ensures { OnOk result ((items : List T) → index.old.entries ≡ keyed T.key_of items →
        index.new.entries ≡ keyed T.key_of (put T.key_of items item)) }
{
    let key = item.key(alloc)?;
    index.insert(key, item)?;
    Ok(())
}

/// Items by their keys, the last of each key at the place of its first. Costs them, on the average. Project rule of
/// order.
pub fn index_of<T: Item>(alloc: Global, items: &[T]) -> Mem<IndexMap<Key, T>>
    ensures { IfOk result (λ index. index.entries ≡ keyed T.key_of (settled T.key_of items.now)) }
{
    let mut index = IndexMap::new(alloc);
    for item in items {
        put(alloc, &mut index, item.copy()?)?;
    }
    Ok(index)
}

// The values of an index, in its order.
fn values_of<T: Item>(alloc: Global, index: IndexMap<Key, T>) -> Mem<List<T>>
    ensures { IfOk result (λ list. list ≡ map (λ e. e.1) index.entries) }
{
    Ok(List::of(index.into_values().collect(alloc)?))
}

/// The items of an index, in its order. Costs their number.
pub fn items_of<T: Item>(alloc: Global, index: IndexMap<Key, T>) -> Mem<List<T>>
    ensures { (items : List T) → index.entries ≡ keyed T.key_of items →
        IfOk result (λ list. list ≡ items) }
{
    values_of(alloc, index)
}

/// The items of a list, of equal keys the last one, at the place of the first. Costs their number and texts, on the
/// average. Own rule.
pub fn settled<T: Item>(alloc: Global, items: &[T]) -> Mem<List<T>>
    ensures { IfOk result (λ list. list ≡ settled T.key_of items.now) }
{
    let index = index_of(alloc, items)?;
    items_of(alloc, index)
}

// The item of a key.
fn find<'a, T: Item>(index: &'a IndexMap<Key, T>, key: &Key) -> Option<&'a T>
    ensures { (items : List T) → index.now.entries ≡ keyed T.key_of items →
        option_copied result ≡ item_of T.key_of items key.now }
{
    index.get(key)
}

/// The item of another one's key. Costs the key, on the average.
pub fn partner<'a, T: Item>(
    alloc: Global,
    index: &'a IndexMap<Key, T>,
    item: &T,
) -> Mem<Option<&'a T>>
    ensures { (items : List T) → index.now.entries ≡ keyed T.key_of items →
        IfOk result (λ found.
        option_copied found ≡ item_of T.key_of items (T.key_of item.now)) }
{
    let key = item.key(alloc)?;
    Ok(find(index, &key))
}

// Whether an index lacks the key of an item.
fn is_new<T: Item>(alloc: Global, index: &IndexMap<Key, T>, item: &T) -> Mem<bool>
    ensures { (items : List T) → index.now.entries ≡ keyed T.key_of items →
        IfOk result (λ is_new. is_new ≡ is_none (item_of T.key_of items (T.key_of item.now))) }
{
    let found = partner(alloc, index, item)?;
    Ok(found.is_none())
}

/// The items of a list whose keys aren't there. Costs them, on the average.
pub fn others<T: Item>(alloc: Global, index: &IndexMap<Key, T>, further: List<T>) -> Mem<List<T>>
    ensures { (items : List T) → index.now.entries ≡ keyed T.key_of items →
        IfOk result (λ list. list ≡ others T.key_of items further) }
{
    let mut list = List::new(alloc);
    for item in further.into_vec() {
        if is_new(alloc, index, &item)? {
            list.push(item)?;
        }
    }
    Ok(list)
}

/// Copies of the items. Costs them.
pub fn copies<T: Item>(items: &List<T>) -> Mem<List<T>>
    ensures { IfOk result (λ copies. copies ≡ items.now) }
{
    let mut copies = items.emptied()?;
    for item in items.as_slice() {
        copies.push(item.copy()?)?;
    }
    Ok(copies)
}

/// Two lists, one after the other. Costs the second.
pub fn appended<T: Drop>(first: List<T>, second: List<T>) -> Mem<List<T>>
    ensures { IfOk result (λ list. list ≡ first ++ second) }
{
    let mut list = first;
    for item in second.into_vec() {
        list.push(item)?;
    }
    Ok(list)
}

/// The items of a list that is settled, those whose keys aren't there. Costs the list, on the average. Project rule of
/// order.
pub fn settled_others<T: Item>(
    alloc: Global,
    index: &IndexMap<Key, T>,
    further: &[T],
) -> Mem<List<T>>
    ensures { (items : List T) → index.now.entries ≡ keyed T.key_of items →
        IfOk result (λ list. list ≡ others T.key_of items (settled T.key_of further.now)) }
{
    let further = settled(alloc, further)?;
    others(alloc, index, further)
}

/// The items of a list, and then those of a second list whose keys aren't there, each list settled. Costs both, on the
/// average. Project rule of order.
pub fn with_others<T: Item>(alloc: Global, first: &[T], second: &[T]) -> Mem<List<T>>
    ensures { IfOk result (λ list. list ≡ with_others T.key_of first.now second.now) }
{
    let index = index_of(alloc, first)?;
    let further = settled_others(alloc, &index, second)?;
    appended(items_of(alloc, index)?, further)
}

/// The further items whose keys a list hasn't. Costs both, on the average.
pub fn others_than<T: Item>(alloc: Global, items: &[T], further: List<T>) -> Mem<List<T>>
    ensures { IfOk result (λ list. list ≡ others T.key_of (settled T.key_of items.now) further) }
{
    let index = index_of(alloc, items)?;
    others(alloc, &index, further)
}
