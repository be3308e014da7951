//! `Edge`: a dependency as an edge of the graph, with what it excludes below it.

ghost use Rattle.std.specs.Prelude.{◌≡◌, IfOk};
ghost use Rattle.std.specs.Option.{option_or};
ghost use Rattle.collector.specs.Edges.{stated_edge, text_of};

use crate::exclusions::Exclusions;
use crate::scope::{Scope, scope_of};
use mvn_base::Key;
use mvn_shared::{Mem, Text};
use std::alloc::Global;

/// A dependency as an edge of the graph: what it leads to, and all that counts below it.
#[derive(Drop)]
pub struct Edge {
    /// The place of the declaration among its POM's dependencies, from 0.
    pub position: usize,
    pub key: Key,
    /// What is required of its version, as it is written.
    pub requirement: Text,
    pub scope: Scope,
    /// Whether the project's management gives the scope.
    pub managed_scope: bool,
    /// What is left out below it: what was left out above, and what its declaration and the project's management add.
    pub exclusions: Exclusions,
}

// A text, empty where there is none.
fn text_of(alloc: Global, text: &Option<Text>) -> Mem<Text>
    ensures { IfOk result (λ copy. copy ≡ text_of text.now) }
{
    match text {
        Some(text) => Ok(text.clone()?),
        None => Text::from_str(alloc, ""),
    }
}

// The first of two texts that is there.
pub fn first_of<'a>(first: &'a Option<Text>, second: &'a Option<Text>) -> &'a Option<Text>
    ensures { result.now ≡ option_or first.now second.now }
{
    match first {
        Some(_) => first,
        None => second,
    }
}

// An edge, with a version and a scope as they are stated.
#[tactic(auto, unfolding(crate::specs::Edges::stated_edge))]
pub fn stated_edge(
    alloc: Global,
    position: usize,
    key: Key,
    version: &Option<Text>,
    scope: &Option<Text>,
    managed_scope: bool,
    exclusions: Exclusions,
) -> Mem<Edge>
    ensures { IfOk result (λ made. made
        ≡ stated_edge position key version.now scope.now managed_scope exclusions) }
{
    let requirement = text_of(alloc, version)?;
    Ok(Edge {
        position,
        key,
        requirement,
        scope: scope_of(scope),
        managed_scope,
        exclusions,
    })
}
