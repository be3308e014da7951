//! The places of a forest in preorder.

ghost use Rattle.std.specs.Prelude.{◌≡◌, ◌++◌, [], None, get_or, IfOk, OnOk};
ghost use Rattle.std.specs.Option.{option_to_list};
ghost use Rattle.resolution.specs.Preorder.{Ascends, preorder};

use crate::linking::{Links, links_of};
use mvn_shared::{List, Mem};
use std::alloc::Global;

// An empty list with room for so many.
fn with_room(alloc: Global, count: usize) -> Mem<List<usize>>
    ensures { IfOk result (λ list. list ≡ []) }
{
    Ok(List::of(Vec::with_capacity(alloc, count)?))
}

// Puts a place on a stack, if there is one.
fn push_link(stack: &mut Vec<usize>, link: Option<usize>) -> Mem<()>
    ensures { OnOk result (stack.new.items ≡ stack.old.items ++ option_to_list link) }
{
    if let Some(place) = link {
        stack.push(place)?;
    }
    Ok(())
}

// The link at a place, if there is one.
fn link_at(links: &[Option<usize>], place: usize) -> Option<usize>
    ensures { result ≡ get_or links.now place None }
{
    match links.get(place) {
        Some(link) => *link,
        None => None,
    }
}

// Puts what comes after a place on a stack: what stands below it first.
fn push_behind(stack: &mut Vec<usize>, links: &Links, place: usize) -> Mem<()>
    ensures { OnOk result (stack.new.items
        ≡ (stack.old.items ++ option_to_list (get_or links.now.next.items place None))
        ++ option_to_list (get_or links.now.first.items place None)) }
{
    push_link(stack, link_at(links.next.as_slice(), place))?;
    push_link(stack, link_at(links.first.as_slice(), place))?;
    Ok(())
}

/// The places of a forest in the order of its trees: each place stands before all that is below it, and what is below
/// one place in the order of the places, each with all that is below it. `above` has the place that each stands below,
/// which comes before it, or `None`. Costs the number of places.
pub fn preorder(alloc: Global, above: &[Option<usize>]) -> Mem<List<usize>>
    requires { Ascends above.now }
    ensures { IfOk result (λ order. order ≡ preorder above.now) }
{
    let links = links_of(alloc, above)?;
    let mut order = with_room(alloc, above.len())?;
    let mut stack = Vec::new(alloc);
    push_link(&mut stack, links.top)?;
    while let Some(place) = stack.pop() {
        order.push(place)?;
        push_behind(&mut stack, &links, place)?;
    }
    Ok(order)
}
