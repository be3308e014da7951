//! Edges, places and numbers at an index, and where the edges of each list begin.

ghost use Rattle.std.specs.Prelude.{◌≡◌, drop, get_or, slice_get, IfOk};
ghost use Rattle.std.specs.Option.{option_copied};
ghost use Rattle.resolution.specs.Links.{begins_within, is_direct, onward};

use collector::Edge;
use mediation::Winners;
use mvn_shared::{List, Mem, Shared};
use std::alloc::Global;

// The edge at a place.
pub fn edge_at(edges: &[Edge], at: usize) -> Option<&Edge>
    ensures { option_copied result ≡ slice_get edges.now at }
{
    edges.get(at)
}

// The place that stands at a place.
pub fn place_at(places: &[usize], at: usize) -> Option<&usize>
    ensures { option_copied result ≡ slice_get places.now at }
{
    places.get(at)
}

// The list of edges at a place.
pub fn edges_at(lists: &[Shared<List<Edge>>], at: usize) -> Option<&Shared<List<Edge>>>
    ensures { option_copied result ≡ slice_get lists.now at }
{
    lists.get(at)
}

// The number that stands at a place, 0 where none does.
pub fn number_at(numbers: &[usize], at: usize) -> usize
    ensures { result ≡ get_or numbers.now at 0 }
{
    match numbers.get(at) {
        Some(number) => *number,
        None => 0,
    }
}

// Whether the project declares the winner at a place.
pub fn is_direct(winners: &Winners, place: usize) -> bool
    ensures { result ≡ is_direct winners.now place }
{
    match winners.get(place) {
        Some(winner) => winner.above.is_none(),
        None => false,
    }
}

// The places after a number of them.
#[tactic(auto, using(crate::proofs::Turning::past_all))]
pub fn behind(places: &[usize], count: usize) -> &[usize]
    ensures { result.now ≡ drop count places.now }
{
    let long = places.len();
    if count < long {
        let (_, rest) = places.split_at(count);
        return rest;
    }
    let (_, rest) = places.split_at(long);
    rest
}

// The place a number of places after another, at most the end.
fn onward(end: usize, at: usize, count: usize) -> usize
    ensures { result ≡ onward end at count }
{
    if count < end.saturating_sub(at) {
        at + count
    } else {
        end
    }
}

// Where the places of each list's edges begin, in a list of so many.
pub fn begins_of(alloc: Global, lists: &[Shared<List<Edge>>], end: usize) -> Mem<List<usize>>
    ensures { IfOk result (λ begins. begins ≡ begins_within end 0 lists.now) }
{
    let mut list = List::with_capacity(alloc, lists.len())?;
    let mut at = 0;
    for shared in lists {
        list.push(at)?;
        let edges = shared.as_slice();
        at = onward(end, at, edges.len());
    }
    Ok(list)
}
