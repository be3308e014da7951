//! The links of a forest: of each place the first one below it and the next one beside it.

ghost use Rattle.std.specs.Prelude.{◌≡◌, ◌<◌, None, length, replicate, set, IfOk};
ghost use Rattle.resolution.specs.Preorder.{AreLinks, Ascends, first_with, head, top_with};

use mvn_shared::Mem;
use std::alloc::Global;

// The first place that stands below none; of each place, the first that stands below it, and the next that stands below
// what it stands below.
#[derive(Drop)]
pub struct Links {
    pub top: Option<usize>,
    pub first: Vec<Option<usize>>,
    pub next: Vec<Option<usize>>,
}

// No link yet, for each of so many places.
fn no_links(alloc: Global, count: usize) -> Mem<Vec<Option<usize>>>
    ensures { IfOk result (λ links. links.items ≡ replicate count None) }
{
    let links = vec![in alloc; None; count]?;
    Ok(links)
}

// A place becomes the first of those that stand below another, or below none. What was the first is answered.
fn put_first(
    top: &mut Option<usize>,
    first: &mut Vec<Option<usize>>,
    parent: Option<usize>,
    place: usize,
) -> Option<usize>
    ensures head { result ≡ head top.old first.old.items parent }
    ensures top { top.new ≡ top_with top.old parent place }
    ensures first { first.new.items ≡ first_with first.old.items parent place }
{
    let Some(parent) = parent else {
        let head = *top;
        *top = Some(place);
        return head;
    };
    let Some(slot) = first.get_mut(parent) else {
        return None;
    };
    let head = *slot;
    *slot = Some(place);
    head
}

// Writes a link.
fn set_link(links: &mut Vec<Option<usize>>, place: usize, link: Option<usize>)
    ensures { links.new.items ≡ set links.old.items place link }
{
    if let Some(slot) = links.get_mut(place) {
        *slot = link;
    }
}

// The links of a forest. The last place comes first, so that each finds the next of its own.
pub fn links_of(alloc: Global, above: &[Option<usize>]) -> Mem<Links>
    requires { Ascends above.now }
    ensures { IfOk result (λ links.
        AreLinks above.now links.top links.first.items links.next.items) }
{
    let mut top = None;
    let mut first = no_links(alloc, above.len())?;
    let mut next = no_links(alloc, above.len())?;
    let mut at = above.len();
    while at > 0 {
        at -= 1;
        let link = put_first(&mut top, &mut first, above[at], at);
        set_link(&mut next, at, link);
    }
    Ok(Links { top, first, next })
}
