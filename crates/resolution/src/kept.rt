//! Rows that projects are built with, each held once.

ghost use Rattle.std.specs.Prelude.{◌≡◌, true, IfOk, IfSome};
ghost use Rattle.mediation.specs.Libraries.{gav_of};
ghost use Rattle.resolution.specs.Kept.{HasNoRows};
ghost use Rattle.resolution.specs.Resolved.{resolved};

use crate::notes::{coordinate, is_there};
use classpaths::Resolved;
use collector::Scope;
use mediation::Winner;
use mvn_base::Gav;
use mvn_shared::{List, Mem, Shared};
use std::alloc::Global;
use std::collections::HashMap;

/// Rows that the projects of a run are built with, so that those that are the same are held once. What is found there
/// is compared, so nothing need be known of it.
#[derive(Drop)]
pub struct KeptRows {
    rows: HashMap<Gav, List<Shared<Resolved>>>,
}

impl KeptRows {
    /// No rows yet. Takes no memory.
    pub fn new(alloc: Global) -> KeptRows
        ensures { HasNoRows result }
    {
        KeptRows {
            rows: HashMap::new(alloc),
        }
    }
}

// Whether two scopes are the same.
fn is_same_scope(one: Scope, other: Scope) -> bool
    ensures { result ≡ true → one ≡ other }
{
    match (one, other) {
        (Scope::Compile, Scope::Compile) => true,
        (Scope::Provided, Scope::Provided) => true,
        (Scope::Runtime, Scope::Runtime) => true,
        (Scope::Test, Scope::Test) => true,
        _ => false,
    }
}

// Whether a winner has these coordinates.
fn is_at(winner: &Winner, gav: &Gav) -> bool
    ensures { result ≡ true → gav.now ≡ gav_of winner.now.edge.key winner.now.version }
{
    gav.artifact == winner.edge.key.artifact
        && gav.version == winner.version
        && gav.group == winner.edge.key.group
}

// Whether a row is what a winner comes to.
pub fn is_row(winner: &Winner, scope: Scope, row: &Resolved) -> bool
    ensures { result ≡ true → row.now ≡ resolved winner.now scope }
{
    is_at(winner, &row.gav)
        && row.kind == winner.edge.key.kind
        && row.classifier == winner.edge.key.classifier
        && is_same_scope(row.scope, scope)
        && row.pom_found == is_there(&winner.known)
}

// What a winner comes to.
fn row_of(winner: &Winner, scope: Scope) -> Mem<Resolved>
    ensures { IfOk result (λ row. row ≡ resolved winner.now scope) }
{
    let gav = coordinate(winner)?;
    let kind = winner.edge.key.kind.clone()?;
    let classifier = winner.edge.key.classifier.clone()?;
    Ok(Resolved {
        gav,
        kind,
        classifier,
        scope,
        pom_found: is_there(&winner.known),
    })
}

// The row among some that a winner comes to.
fn row_among<'a>(
    rows: &'a [Shared<Resolved>],
    winner: &Winner,
    scope: Scope,
) -> Option<&'a Shared<Resolved>>
    ensures { IfSome result (λ row. row.now ≡ resolved winner.now scope) }
{
    for row in rows {
        if is_row(winner, scope, row) {
            return Some(row);
        }
    }
    None
}

// The kept row that a winner comes to, if there is one.
fn kept_row(rows: &KeptRows, winner: &Winner, scope: Scope) -> Mem<Option<Shared<Resolved>>>
    ensures { IfOk result (λ found. IfSome found (λ row. row ≡ resolved winner.now scope)) }
{
    let gav = coordinate(winner)?;
    let Some(list) = rows.rows.get(&gav) else {
        return Ok(None);
    };
    match row_among(list.as_slice(), winner, scope) {
        Some(row) => Ok(Some(row.share()?)),
        None => Ok(None),
    }
}

// Keeps a row beside the others of its coordinates.
fn keep_row(alloc: Global, rows: &mut KeptRows, row: &Shared<Resolved>) -> Mem<()> {
    if let Some(list) = rows.rows.get_mut(&row.gav) {
        return list.push(row.share()?);
    }
    let mut list = List::new(alloc);
    list.push(row.share()?)?;
    rows.rows.insert(row.gav.clone()?, list)?;
    Ok(())
}

// What a winner comes to: the row that is kept, and else a new one, which is kept then.
pub fn shared_row(
    alloc: Global,
    rows: &mut KeptRows,
    winner: &Winner,
    scope: Scope,
) -> Mem<Shared<Resolved>>
    ensures { IfOk result (λ row. row ≡ resolved winner.now scope) }
{
    if let Some(row) = kept_row(rows, winner, scope)? {
        return Ok(row);
    }
    let row = Shared::new(alloc, row_of(winner, scope)?)?;
    keep_row(alloc, rows, &row)?;
    Ok(row)
}
