//! From the winners of a project to its resolution, or to the first refusal.

ghost use Rattle.std.specs.Prelude.{◌≡◌, Err, Ok, false, IfOk};
ghost use Rattle.std.specs.Prelude as logic;
ghost use Rattle.mvn_base.specs.Key.{key_text};
ghost use Rattle.mvn_base.specs.declared.rule.Rule.TheVariants.{RangeConflict};
ghost use Rattle.mvn_shared.specs.Cause.{HasCause};
ghost use Rattle.mediation.specs.Faults.{Says, is_faulty};
ghost use Rattle.mediation.specs.Telling.{TellsOn};
ghost use Rattle.mediation.specs.Libraries.{Libraries, graph_of};
ghost use Rattle.mediation.specs.Rows.{IsWhole};
ghost use Rattle.model_types.specs.declared.dependency.Dependency as dependencies;
ghost use Rattle.mvn_base.specs.declared.key.Key as names;
ghost use Rattle.resolution.specs.Links.{AreDeclared};
ghost use Rattle.resolution.specs.Resolved.{IsMade, Mediates};

use crate::kept::KeptRows;
use crate::notes::notes_of;
use crate::resolved::resolved_in;
use crate::tree::order_of;
use crate::{first_conflict, scopes_of};
use classpaths::Resolution;
use collector::Edge;
use managed_deps::ManagedSet;
use mediation::{DependencyGraph, Lookup, MediationFault, Winner, Winners, find_winners};
use model_types::Dependency;
use mvn_base::{Rule, key_text};
use mvn_shared::{List, Mem, Shared};
use std::alloc::Global;

// What winners come to.
fn made(
    alloc: Global,
    own: &[Edge],
    below: &[Shared<List<Edge>>],
    places: &[usize],
    winners: &Winners,
    rows: &mut KeptRows,
) -> Mem<Resolution>
    ensures { IfOk result (λ resolution.
        (managed : logic.List (names.Key × dependencies.Dependency))
        (direct : logic.List dependencies.Dependency)
        → AreDeclared managed direct winners.now own.now below.now places.now
        → IsMade managed direct winners.now resolution) }
{
    let scopes = scopes_of(alloc, own, below, places, winners)?;
    let order = order_of(alloc, winners)?;
    let notes = notes_of(alloc, winners)?;
    let list = resolved_in(alloc, rows, winners, &scopes, &order)?;
    Ok(Resolution {
        winners: list,
        notes,
    })
}

// A declaration's range doesn't admit a winner.
fn refused(alloc: Global, winner: &Winner) -> Result<Resolution, MediationFault>
    ensures says { Says (Err (RangeConflict, key_text winner.now.edge.key)) result }
    ensures blameless { is_faulty result ≡ false }
{
    let place = key_text(alloc, &winner.edge.key)?;
    Err(MediationFault::Refused {
        rule: Rule::RangeConflict,
        place,
    })
}

// What winners come to, or the first conflict of what is declared.
fn judged(
    alloc: Global,
    own: &[Edge],
    below: &[Shared<List<Edge>>],
    places: &[usize],
    winners: &Winners,
    rows: &mut KeptRows,
) -> Result<Resolution, MediationFault>
    ensures resolves { (libraries : Libraries)
        (managed : logic.List (names.Key × dependencies.Dependency))
        (direct : logic.List dependencies.Dependency)
        → AreDeclared managed direct winners.now own.now below.now places.now
        → IsWhole libraries (graph_of libraries managed direct) winners.now
        → Mediates libraries managed direct result }
    ensures blameless { is_faulty result ≡ false }
{
    let conflict = first_conflict(alloc, own, below, winners)?;
    match conflict {
        Some(winner) => refused(alloc, winner),
        None => Ok(made(alloc, own, below, places, winners, rows)?),
    }
}

// What a dependency graph comes to, or the first conflict.
fn resolved(
    alloc: Global,
    graph: &DependencyGraph,
    rows: &mut KeptRows,
) -> Result<Resolution, MediationFault>
    ensures resolves { (libraries : Libraries)
        (managed : logic.List (names.Key × dependencies.Dependency))
        (direct : logic.List dependencies.Dependency)
        → AreDeclared managed direct graph.now.winners
        graph.now.own graph.now.below graph.now.places
        → IsWhole libraries (graph_of libraries managed direct) graph.now.winners
        → Mediates libraries managed direct result }
    ensures blameless { is_faulty result ≡ false }
{
    judged(
        alloc,
        graph.own.as_slice(),
        graph.below.as_slice(),
        graph.places.as_slice(),
        &graph.winners,
        rows,
    )
}

/// What a project is built with: the winners of its dependency graph, each with its version, its scope and whether it
/// has a POM, in the order of the dependency tree; and a note of each POM that is missing or refused, in the order in
/// which they are met. Refused as `find_winners` refuses, and then by the first winner whose version a range of some
/// declaration doesn't admit. `Lookup` comes only where the look-up failed. What is the same in several projects of a
/// run is held once, if `rows` are theirs; what is answered is the same by any `rows`. Costs what `find_winners` costs,
/// and a look-up for each declaration and for each winner. Introduction to the Dependency Mechanism.
pub fn mediate<L: Lookup>(
    alloc: Global,
    direct: &[Shared<Dependency>],
    managed: &ManagedSet,
    lookup: &mut L,
    rows: &mut KeptRows,
) -> Result<Resolution, MediationFault>
    ensures resolves { (libraries : Libraries) → L.fits lookup.old libraries
        → Mediates libraries managed.now direct.now result }
    ensures same { (libraries : Libraries) → L.fits lookup.old libraries
        → L.fits lookup.new libraries }
    ensures alike { TellsOn L.tells_same lookup.old lookup.new }
    ensures cause { HasCause (L.faults lookup.old) (L.faults lookup.new) (is_faulty result) }
{
    match find_winners(alloc, direct, managed, lookup) {
        Ok(graph) => resolved(alloc, &graph, rows),
        Err(fault) => Err(fault),
    }
}
