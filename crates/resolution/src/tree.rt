//! The winners of a project in the order of the dependency tree.

ghost use Rattle.std.specs.Prelude.{◌≡◌, ◌++◌, [], map, slice_get, IfOk, OnOk};
ghost use Rattle.std.specs.Option.{option_to_list};
ghost use Rattle.resolution.specs.Resolved.{above_at, aboves_from, earlier, tree_order};

use crate::preorder;
use mediation::Winners;
use mvn_shared::{List, Mem};
use std::alloc::Global;

// The place above one, which comes before it.
fn earlier(at: usize, above: Option<usize>) -> Option<usize>
    ensures { result ≡ earlier at above }
{
    match above {
        Some(place) => { if place < at { Some(place) } else { None } }
        None => None,
    }
}

// The place above a winner, if there is one at a place.
fn add_above(list: &mut List<Option<usize>>, winners: &Winners, place: usize) -> Mem<()>
    ensures { OnOk result (list.new
        ≡ list.old ++ map (above_at place) (option_to_list (slice_get winners.now place))) }
{
    if let Some(winner) = winners.get(place) {
        list.push(earlier(place, winner.above))?;
    }
    Ok(())
}

// An empty list with room for so many places.
fn with_room(alloc: Global, count: usize) -> Mem<List<Option<usize>>>
    ensures { IfOk result (λ list. list ≡ []) }
{
    Ok(List::of(Vec::with_capacity(alloc, count)?))
}

// The places above the winners.
fn aboves(alloc: Global, winners: &Winners) -> Mem<List<Option<usize>>>
    ensures { IfOk result (λ list. list ≡ aboves_from 0 winners.now) }
{
    let mut list = with_room(alloc, winners.len())?;
    for place in 0..winners.len() {
        add_above(&mut list, winners, place)?;
    }
    Ok(list)
}

// The places of the winners in the order of the tree.
pub fn order_of(alloc: Global, winners: &Winners) -> Mem<List<usize>>
    ensures { IfOk result (λ order. order ≡ tree_order winners.now) }
{
    let above = aboves(alloc, winners)?;
    let order = preorder(alloc, above.as_slice())?;
    Ok(order)
}
