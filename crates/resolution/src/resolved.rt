//! The winners as rows that a project is built with, in the order of the tree.

ghost use Rattle.std.specs.Prelude.{◌≡◌, ◌++◌, ◌∷◌, [], flat_map, get_or, IfOk, IfSome, OnOk};
ghost use Rattle.collector.specs.declared.scope.Scope.TheVariants as scope;
ghost use Rattle.resolution.specs.Resolved.{resolved, resolved_at};

use crate::kept::{KeptRows, is_row, shared_row};
use classpaths::Resolved;
use collector::Scope;
use mediation::{Known, Winner, Winners};
use mvn_shared::{List, Mem, Shared};
use std::alloc::Global;

// The jar of a winner's POM, where that is what the winner comes to.
fn own_jar(winner: &Winner, scope: Scope) -> Mem<Option<Shared<Resolved>>>
    ensures { IfOk result (λ found. IfSome found (λ row. row ≡ resolved winner.now scope)) }
{
    let Known::Model(library) = &winner.known else {
        return Ok(None);
    };
    let row = library.jar(scope);
    if !is_row(winner, scope, row) {
        return Ok(None);
    }
    Ok(Some(row.share()?))
}

// What a winner comes to, with its scope.
fn resolved(
    alloc: Global,
    rows: &mut KeptRows,
    winner: &Winner,
    scope: Scope,
) -> Mem<Shared<Resolved>>
    ensures { IfOk result (λ row. row ≡ resolved winner.now scope) }
{
    if let Some(row) = own_jar(winner, scope)? {
        return Ok(row);
    }
    shared_row(alloc, rows, winner, scope)
}

// The scope at a place.
fn scope_at(scopes: &[Scope], place: usize) -> Scope
    ensures { result ≡ get_or scopes.now place scope.Test }
{
    match scopes.get(place) {
        Some(scope) => *scope,
        None => Scope::Test,
    }
}

// The winner at a place with its scope, if there is one.
fn add_resolved(
    alloc: Global,
    list: &mut List<Shared<Resolved>>,
    rows: &mut KeptRows,
    winners: &Winners,
    scopes: &[Scope],
    place: usize,
) -> Mem<()>
    ensures { OnOk result (list.new ≡ list.old ++ resolved_at winners.now scopes.now place) }
{
    if let Some(winner) = winners.get(place) {
        list.push(resolved(alloc, rows, winner, scope_at(scopes, place))?)?;
    }
    Ok(())
}

// An empty list with room for so many.
fn with_room(alloc: Global, count: usize) -> Mem<List<Shared<Resolved>>>
    ensures { IfOk result (λ list. list ≡ []) }
{
    Ok(List::of(Vec::with_capacity(alloc, count)?))
}

// The winners at places, in their order. They are kept to the end of the run, so the list has no more room than it
// needs.
pub fn resolved_in(
    alloc: Global,
    rows: &mut KeptRows,
    winners: &Winners,
    scopes: &List<Scope>,
    order: &List<usize>,
) -> Mem<List<Shared<Resolved>>>
    ensures { IfOk result (λ list. list ≡ flat_map (resolved_at winners.now scopes.now) order.now) }
{
    let scopes = scopes.as_slice();
    let places = order.as_slice();
    let mut list = with_room(alloc, places.len())?;
    for at in 0..places.len() {
        add_resolved(alloc, &mut list, rows, winners, scopes, places[at])?;
    }
    Ok(list)
}
