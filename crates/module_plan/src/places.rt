// Lists that are searched by their items.
ghost use Rattle.std.specs.Prelude.{◌≡◌, ◌<◌, Some, None, cond, length, IfOk, OnOk};
ghost use Rattle.std.specs.HashMap.{get};
ghost use Rattle.std.specs.List.{list_any, position_from, position_or_len};
ghost use Rattle.std.specs.Option.{option_or};

use mvn_base::Gav;
use mvn_shared::{List, Mem, Text};
use std::alloc::Global;
use std::collections::HashMap;
use std::hash::Hash;
use std::marker::Model;

/// A place as a number of 32 bits.
pub fn small(place: usize) -> u32
    requires { place < 4294967296 }
    ensures { result ≡ place }
{
    place as u32
}

/// What a list can be searched for.
pub trait Item: Eq + Hash + Drop {
    /// A copy of the item.
    fn copy(&self) -> Mem<Self>
        ensures { IfOk result (λ copy. copy ≡ self.now) };
}

impl Item for Gav {
    fn copy(&self) -> Mem<Gav> {
        Ok(self.clone()?)
    }
}

impl Item for Text {
    fn copy(&self) -> Mem<Text> {
        Ok(self.clone()?)
    }
}

/// A list with the first place of each item. Contracts see the list.
#[derive(Drop)]
pub struct Places<K: Item> {
    items: List<K>,
    places: HashMap<K, usize>,
}

impl<K: Item> Model for Places<K> {
    ghost use Rattle.std.specs.Prelude as logic;
    ghost use Rattle.module_plan.specs.Places.{HasPlaces};

    ghost Value = { logic.List K };

    ghost view = { λ p. p.items };

    ghost invariant = { λ p. HasPlaces K.eq p.items p.places };
}

// Notes the place of an item, unless it has one.
fn put<K: Item>(places: &mut HashMap<K, usize>, item: &K, at: usize) -> Mem<()>
    ensures { OnOk result ((q : K) → get K.eq places.new q
        ≡ option_or (get K.eq places.old q) (cond (K.eq q item.now) (Some at) None)) }
{
    if places.contains_key(item) {
        return Ok(());
    }
    places.insert(item.copy()?, at)?;
    Ok(())
}

// The first place of each item.
#[tactic(auto, using(crate::proofs::FirstPlaces::joined))]
fn places_of<K: Item>(alloc: Global, items: &[K]) -> Mem<HashMap<K, usize>>
    ensures { IfOk result (λ map. (q : K) → get K.eq map q ≡ position_from (K.eq q) 0 items.now) }
{
    let mut places = HashMap::new(alloc);
    for at in 0..items.len() {
        put(&mut places, &items[at], at)?;
    }
    Ok(places)
}

impl<K: Item> Places<K> {
    /// A list with its places. Costs a look at each item, on the average.
    #[tactic(auto, using(crate::proofs::FirstPlaces::has_places))]
    pub fn of(alloc: Global, items: List<K>) -> Mem<Places<K>>
        ensures { IfOk result (λ list. list ≡ items) }
    {
        let places = places_of(alloc, items.as_slice())?;
        Ok(Places { items, places })
    }

    /// Whether an item is there. Constant time on the average.
    pub fn has(&self, item: &K) -> bool
        ensures { result ≡ list_any (K.eq item.now) self.now }
    {
        self.places.contains_key(item)
    }

    // The first place of an item, the length of the list if it isn't there.
    fn first(&self, item: &K) -> usize
        ensures { result ≡ position_or_len (K.eq item.now) self.now }
    {
        match self.places.get(item) {
            Some(at) => *at,
            None => self.items.len(),
        }
    }

    /// The first place of an item, the length of the list if it isn't there. Constant time on the average.
    #[tactic(auto, using(crate::proofs::Filed::small_place))]
    pub fn place(&self, item: &K) -> u32
        requires few { length self.now < 4294967296 }
        ensures { result ≡ position_or_len (K.eq item.now) self.now }
    {
        small(self.first(item))
    }

    /// The number of items. Constant time.
    pub fn len(&self) -> usize
        ensures { result ≡ length self.now }
    {
        self.items.len()
    }

    /// The list.
    pub fn into_items(self) -> List<K>
        ensures { result ≡ self }
    {
        self.items
    }
}
