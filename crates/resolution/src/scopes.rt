//! The scopes of a project's winners.

ghost use Rattle.std.specs.Prelude.{◌≡◌, ◌++◌, ℕ, Some, flat_map, get_or, length, map, slice_get, IfOk, OnOk};
ghost use Rattle.std.specs.Prelude as logic;
ghost use Rattle.std.specs.Option.{option_to_list};
ghost use Rattle.collector.specs.declared.scope.Scope.TheVariants as scope;
ghost use Rattle.mediation.specs.Libraries.{Libraries, graph_of};
ghost use Rattle.mediation.specs.Rows.{ArePlaced, IsWhole, paths_of};
ghost use Rattle.collector.specs.Winners.{Path};
ghost use Rattle.model_types.specs.declared.dependency.Dependency as dependencies;
ghost use Rattle.mvn_base.specs.declared.key.Key as names;
ghost use Rattle.resolution.specs.Links.{AreDeclared, AreWidest, links_of, scope_at, scopes_from, starts_of};
ghost use Rattle.resolution.specs.Scopes.{IsScope};

use crate::links::{begins_of, behind};
use crate::walks::widest_scopes;
use collector::{Edge, Scope};
use mediation::{Winner, Winners};
use mvn_shared::{List, Mem, Shared};
use std::alloc::Global;

// The scope of a winner at a place.
fn scope_at(widest: &[Option<Scope>], place: usize, winner: &Winner) -> Scope
    ensures { result ≡ scope_at widest.now place winner.now }
{
    match winner.above {
        None => winner.edge.scope,
        Some(_) => match widest.get(place) {
            Some(Some(scope)) => *scope,
            _ => Scope::Test,
        },
    }
}

// One scope more.
fn add_scope(
    list: &mut List<Scope>,
    widest: &[Option<Scope>],
    winners: &Winners,
    place: usize,
) -> Mem<()>
    ensures { OnOk result (list.new ≡ list.old
        ++ map (scope_at widest.now place) (option_to_list (slice_get winners.now place))) }
{
    if let Some(winner) = winners.get(place) {
        list.push(scope_at(widest, place, winner))?;
    }
    Ok(())
}

// The scopes of all winners.
fn scopes_among(alloc: Global, widest: &[Option<Scope>], winners: &Winners) -> Mem<List<Scope>>
    ensures { IfOk result (λ list. list ≡ scopes_from widest.now 0 winners.now) }
{
    let mut list = List::with_capacity(alloc, winners.len())?;
    for place in 0..winners.len() {
        add_scope(&mut list, widest, winners, place)?;
    }
    Ok(list)
}

// The widest scope that walks bring to each place.
fn widest_of(
    alloc: Global,
    own: &[Edge],
    below: &[Shared<List<Edge>>],
    places: &[usize],
    winners: &Winners,
) -> Mem<List<Option<Scope>>>
    ensures { IfOk result (λ scopes.
        ArePlaced winners.now (own.now ++ flat_map (λ edges. edges) below.now) places.now
        → AreWidest (starts_of winners.now own.now) (map (links_of winners.now) below.now)
        scopes) }
{
    let rest = behind(places, own.len());
    let begins = begins_of(alloc, below, rest.len())?;
    let firsts = begins.as_slice();
    let widest = widest_scopes(alloc, own, places, below, firsts, rest, winners)?;
    Ok(widest)
}

/// The scope of each winner of a project, in their order. What the project declares has the declared scope. Any other
/// has the widest that a walk brings it: a walk begins with a declaration of the project, goes on along any declaration
/// of the winner that it comes to, also one that doesn't count, and comes to no second winner that the project
/// declares; from the widest on the scopes are compile, runtime, provided and test. `own` is what the project declares,
/// `below` what the POM of each winner does, `places` has the place of the winner of each of those. Costs each of them.
/// Introduction to the Dependency Mechanism, "Dependency Scope".
pub fn scopes_of(
    alloc: Global,
    own: &[Edge],
    below: &[Shared<List<Edge>>],
    places: &[usize],
    winners: &Winners,
) -> Mem<List<Scope>>
    ensures long { IfOk result (λ scopes. length scopes ≡ length winners.now) }
    ensures widest { IfOk result (λ scopes.
        (libraries : Libraries) (managed : logic.List (names.Key × dependencies.Dependency))
        (direct : logic.List dependencies.Dependency)
        → AreDeclared managed direct winners.now own.now below.now places.now
        → IsWhole libraries (graph_of libraries managed direct) winners.now
        → (place : ℕ) (path : Path) → slice_get (paths_of winners.now) place ≡ Some path
        → IsScope (graph_of libraries managed direct) (paths_of winners.now) path
        (get_or scopes place scope.Test)) }
{
    let widest = widest_of(alloc, own, below, places, winners)?;
    let scopes = scopes_among(alloc, widest.as_slice(), winners)?;
    Ok(scopes)
}
