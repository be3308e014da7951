//! Takes the items at some places out of a list.

ghost use Rattle.std.specs.Prelude.{◌≡◌, ℕ, ◌<◌, true, nat_eq, None, Some, is_some, get_or, length, map, set, slice_get, IfOk, OnOk};
ghost use Rattle.std.specs.List.{IsDistinct};
ghost use Rattle.reactor_order.specs.Graph.{AreBelow, has};
ghost use Rattle.built_modules.specs.Picks.{ArePicked, slot_at};

use mvn_shared::{List, Mem};
use std::alloc::Global;

// Each item where it can be taken once.
fn slots_of<T: Drop>(alloc: Global, items: List<T>) -> Mem<Vec<Option<T>>>
    ensures { IfOk result (λ slots. slots.items ≡ map Some items) }
{
    let mut slots = Vec::with_capacity(alloc, items.len())?;
    for item in items.into_vec() {
        slots.push(Some(item))?;
    }
    Ok(slots)
}

// The item at a place, which wasn't taken before.
fn taken<T: Drop>(slots: &mut Vec<Option<T>>, place: usize) -> T
    requires low { place < length slots.old.items }
    requires there { is_some (slot_at slots.old.items place) ≡ true }
    ensures value { Some result ≡ slot_at slots.old.items place }
    ensures slots { slots.new.items ≡ set slots.old.items place None }
{
    match slots[place].take() {
        Some(item) => item,
        None => unreachable!(),
    }
}

// The items at places, in the order of these.
fn taken_all<T: Drop>(alloc: Global, slots: &mut Vec<Option<T>>, places: &[u32]) -> Mem<List<T>>
    requires below { AreBelow (length slots.old.items) places.now }
    requires once { IsDistinct nat_eq places.now }
    requires there { (m : ℕ) → has places.now m ≡ true →
        is_some (slot_at slots.old.items m) ≡ true }
    ensures { IfOk result (λ list. map Some list ≡ map (slot_at slots.old.items) places.now) }
{
    let mut list = List::new(alloc);
    for place in places {
        let item = taken(slots, *place as usize);
        list.push(item)?;
    }
    Ok(list)
}

/// The items at places, in the order of these. Costs the items and the places. Project rule.
pub(crate) fn picked<T: Drop>(alloc: Global, items: List<T>, places: &[u32]) -> Mem<List<T>>
    requires below { AreBelow (length items) places.now }
    requires once { IsDistinct nat_eq places.now }
    ensures { IfOk result (ArePicked items places.now) }
{
    let mut slots = slots_of(alloc, items)?;
    let list = taken_all(alloc, &mut slots, places)?;
    Ok(list)
}
