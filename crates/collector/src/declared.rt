//! The edges of a project's own dependencies.

ghost use Rattle.std.specs.Prelude.{◌≡◌, IfOk};
ghost use Rattle.collector.specs.Edges.{direct_edge, direct_edges};

use crate::edge::{Edge, stated_edge};
use crate::exclusions::Exclusions;
use model_merge::Keyed;
use model_types::Dependency;
use mvn_shared::{List, Mem, Shared};
use std::alloc::Global;

// What a declaration of the project's own leads to.
fn direct_edge(alloc: Global, position: usize, dependency: &Dependency) -> Mem<Edge>
    ensures { IfOk result (λ made. made ≡ direct_edge position dependency.now) }
{
    let key = dependency.key(alloc)?;
    let exclusions = Exclusions::new(alloc, dependency.exclusions.clone()?)?;
    stated_edge(
        alloc,
        position,
        key,
        &dependency.version,
        &dependency.scope,
        false,
        exclusions,
    )
}

/// What a project's own dependencies lead to: each stands, with its own version, scope and exclusions. Costs their
/// texts. Introduction to the Dependency Mechanism, "Transitive Dependencies".
pub fn direct_edges(alloc: Global, dependencies: &[Shared<Dependency>]) -> Mem<List<Edge>>
    ensures { IfOk result (λ list. list ≡ direct_edges dependencies.now) }
{
    let mut list = List::new(alloc);
    for at in 0..dependencies.len() {
        list.push(direct_edge(alloc, at, &dependencies[at])?)?;
    }
    Ok(list)
}
