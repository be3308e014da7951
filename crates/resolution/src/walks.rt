//! The search for the widest scope that walks through the graph bring to each winner.

ghost use Rattle.std.specs.Prelude.{◌≡◌, ◌<◌, None, get_or, length, map, slice_get, IfOk, OnOk};
ghost use Rattle.resolution.specs.Walks.{walked};
ghost use Rattle.resolution.specs.Search.{raised_all, search_of, turned};
ghost use Rattle.resolution.specs.declared.link.Link as links;
ghost use Rattle.resolution.specs.Links.{AreWidest, begins_within, cut_links, each_from, link_below_by, link_by, link_of, of_edge};

use crate::links::{behind, edge_at, edges_at, is_direct, number_at, place_at};
use crate::{Link, kept_at, raise, walked};
use collector::{Edge, Scope};
use mediation::Winners;
use mvn_shared::{List, Mem, Shared};
use std::alloc::Global;

// What an edge leads to at a place.
fn link_of(edge: &Edge, to: usize) -> Link
    ensures { result ≡ link_of edge.now to }
{
    Link {
        to,
        scope: edge.scope,
        managed_scope: edge.managed_scope,
    }
}

// Keeps the scope of a declaration of the project, where a place is there for it.
fn raise_start(
    scopes: &mut Vec<Option<Scope>>,
    waiting: &mut Vec<usize>,
    edge: &Edge,
    places: &[usize],
    at: usize,
) -> Mem<()>
    ensures { OnOk result (search_of scopes.new.items waiting.new.items
        ≡ raised_all (λ (l : links.Link). l.scope)
        (search_of scopes.old.items waiting.old.items) (link_by places.now at edge.now)) }
{
    if let Some(to) = place_at(places, at) {
        raise(scopes, waiting, *to, edge.scope)?;
    }
    Ok(())
}

// Keeps the scope of the declaration at a place, if there is one.
fn raise_start_at(
    scopes: &mut Vec<Option<Scope>>,
    waiting: &mut Vec<usize>,
    own: &[Edge],
    places: &[usize],
    at: usize,
) -> Mem<()>
    ensures { OnOk result (search_of scopes.new.items waiting.new.items
        ≡ raised_all (λ (l : links.Link). l.scope)
        (search_of scopes.old.items waiting.old.items)
        (of_edge (link_by places.now at) (slice_get own.now at))) }
{
    match edge_at(own, at) {
        Some(edge) => raise_start(scopes, waiting, edge, places, at),
        None => Ok(()),
    }
}

// Keeps the scopes of what the project declares.
fn raise_starts(
    scopes: &mut Vec<Option<Scope>>,
    waiting: &mut Vec<usize>,
    own: &[Edge],
    places: &[usize],
) -> Mem<()>
    ensures { OnOk result (search_of scopes.new.items waiting.new.items
        ≡ raised_all (λ (l : links.Link). l.scope)
        (search_of scopes.old.items waiting.old.items)
        (each_from (link_by places.now) 0 own.now)) }
{
    for at in 0..own.len() {
        raise_start_at(scopes, waiting, own, places, at)?;
    }
    Ok(())
}

// Keeps the scope that an edge brings below a scope, where a place is there for it whose winner the project doesn't
// declare.
fn raise_edge(
    scopes: &mut Vec<Option<Scope>>,
    waiting: &mut Vec<usize>,
    edge: &Edge,
    places: &[usize],
    winners: &Winners,
    above: Scope,
    at: usize,
) -> Mem<()>
    ensures { OnOk result (search_of scopes.new.items waiting.new.items
        ≡ raised_all (walked above) (search_of scopes.old.items waiting.old.items)
        (link_below_by winners.now places.now at edge.now)) }
{
    if let Some(to) = place_at(places, at) {
        if !is_direct(winners, *to) {
            raise(scopes, waiting, *to, walked(above, &link_of(edge, *to)))?;
        }
    }
    Ok(())
}

// Keeps the scope that the edge at a place brings, if there is one.
fn raise_edge_at(
    scopes: &mut Vec<Option<Scope>>,
    waiting: &mut Vec<usize>,
    edges: &[Edge],
    places: &[usize],
    winners: &Winners,
    above: Scope,
    at: usize,
) -> Mem<()>
    ensures { OnOk result (search_of scopes.new.items waiting.new.items
        ≡ raised_all (walked above) (search_of scopes.old.items waiting.old.items)
        (of_edge (link_below_by winners.now places.now at) (slice_get edges.now at))) }
{
    match edge_at(edges, at) {
        Some(edge) => raise_edge(scopes, waiting, edge, places, winners, above, at),
        None => Ok(()),
    }
}

// Keeps the scopes that edges bring below a scope.
fn raise_below(
    scopes: &mut Vec<Option<Scope>>,
    waiting: &mut Vec<usize>,
    edges: &[Edge],
    places: &[usize],
    winners: &Winners,
    above: Scope,
) -> Mem<()>
    ensures { OnOk result (search_of scopes.new.items waiting.new.items
        ≡ raised_all (walked above) (search_of scopes.old.items waiting.old.items)
        (each_from (link_below_by winners.now places.now) 0 edges.now)) }
{
    for at in 0..edges.len() {
        raise_edge_at(scopes, waiting, edges, places, winners, above, at)?;
    }
    Ok(())
}

// Looks at what is below a place; `begins` has where the places of each list begin.
#[tactic(auto, using(crate::proofs::Turning::turned_none))]
fn turn(
    scopes: &mut Vec<Option<Scope>>,
    waiting: &mut Vec<usize>,
    below: &[Shared<List<Edge>>],
    begins: &[usize],
    places: &[usize],
    winners: &Winners,
    place: usize,
) -> Mem<()>
    requires { begins.now ≡ begins_within (length places.now) 0 below.now }
    ensures { OnOk result (search_of scopes.new.items waiting.new.items
        ≡ turned (cut_links winners.now places.now below.now)
        (search_of scopes.old.items waiting.old.items) place) }
{
    let Some(above) = kept_at(scopes, place) else {
        return Ok(());
    };
    let Some(shared) = edges_at(below, place) else {
        return Ok(());
    };
    let edges = shared.as_slice();
    let rest = behind(places, number_at(begins, place));
    raise_below(scopes, waiting, edges, rest, winners, above)
}

// No scope at any place.
fn no_scopes(alloc: Global, below: &[Shared<List<Edge>>]) -> Mem<Vec<Option<Scope>>>
    ensures { IfOk result (λ scopes. scopes.items ≡ map (λ _. None) below.now) }
{
    let mut scopes = Vec::with_capacity(alloc, below.len())?;
    for _ in below {
        scopes.push(None)?;
    }
    Ok(scopes)
}

// The place that waits at a place of the list.
fn waiting_at(waiting: &Vec<usize>, at: usize) -> usize
    requires { at < length waiting.now.items }
    ensures { result ≡ get_or waiting.now.items at 0 }
{
    waiting[at]
}

// The widest scope that walks bring to each place: the places of what the project declares, those of the edges below,
// and where those of each list begin.
pub fn widest_scopes(
    alloc: Global,
    own: &[Edge],
    places: &[usize],
    below: &[Shared<List<Edge>>],
    begins: &[usize],
    rest: &[usize],
    winners: &Winners,
) -> Mem<List<Option<Scope>>>
    requires { begins.now ≡ begins_within (length rest.now) 0 below.now }
    ensures { IfOk result (λ scopes. AreWidest (each_from (link_by places.now) 0 own.now)
        (cut_links winners.now rest.now below.now) scopes) }
{
    let mut scopes = no_scopes(alloc, below)?;
    let mut waiting = Vec::new(alloc);
    raise_starts(&mut scopes, &mut waiting, own, places)?;
    let mut next = 0;
    while next < waiting.len() {
        let place = waiting_at(&waiting, next);
        turn(
            &mut scopes,
            &mut waiting,
            below,
            begins,
            rest,
            winners,
            place,
        )?;
        next += 1;
    }
    Ok(List::of(scopes))
}
