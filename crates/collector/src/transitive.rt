//! The edges of a POM below the project: its transitive dependencies, managed and without the excluded.

ghost use Rattle.std.specs.Prelude.{◌≡◌, ◌++◌, IfOk, OnOk};
ghost use Rattle.collector.specs.Edges.{edge_below, is_kept, managed_edge, plain_edge, transitive_edge, transitive_edges};

use crate::edge::{Edge, first_of, stated_edge};
use crate::exclusions::Exclusions;
use crate::scope::is_scope;
use managed_deps::ManagedSet;
use model_merge::Keyed;
use model_types::Dependency;
use mvn_base::Key;
use mvn_shared::{List, Mem, Shared};
use std::alloc::Global;

// Whether a declaration counts below the project itself.
fn is_kept(dependency: &Dependency) -> bool
    ensures { result ≡ is_kept dependency.now }
{
    let scope = &dependency.scope;
    !(dependency.optional.as_str() == "true"
        || is_scope(scope, "test")
        || is_scope(scope, "provided")
        || is_scope(scope, "system"))
}

// What a declaration leads to that isn't managed.
fn plain_edge(
    alloc: Global,
    position: usize,
    key: Key,
    dependency: &Dependency,
    cut: &Exclusions,
) -> Mem<Edge>
    ensures { IfOk result (λ made. made ≡ plain_edge position key dependency.now cut.now) }
{
    let exclusions = cut.with(alloc, &dependency.exclusions)?;
    stated_edge(
        alloc,
        position,
        key,
        &dependency.version,
        &dependency.scope,
        false,
        exclusions,
    )
}

// What one leads to that is.
fn managed_edge(
    alloc: Global,
    position: usize,
    key: Key,
    dependency: &Dependency,
    cut: &Exclusions,
    managed: &Dependency,
) -> Mem<Edge>
    ensures { IfOk result (λ made. made
        ≡ managed_edge position key dependency.now cut.now managed.now) }
{
    let own = cut.with(alloc, &dependency.exclusions)?;
    let exclusions = own.with(alloc, &managed.exclusions)?;
    stated_edge(
        alloc,
        position,
        key,
        first_of(&managed.version, &dependency.version),
        first_of(&managed.scope, &dependency.scope),
        managed.scope.is_some(),
        exclusions,
    )
}

// What a declaration leads to.
fn edge_below(
    alloc: Global,
    position: usize,
    dependency: &Dependency,
    managed: &ManagedSet,
    cut: &Exclusions,
) -> Mem<Edge>
    ensures { IfOk result (λ made. made ≡ edge_below position dependency.now managed.now cut.now) }
{
    let key = dependency.key(alloc)?;
    match managed.find(&key) {
        Some(found) => managed_edge(alloc, position, key, dependency, cut, found),
        None => plain_edge(alloc, position, key, dependency, cut),
    }
}

// One edge more, where the declaration stays.
fn add_edge(
    alloc: Global,
    list: &mut List<Edge>,
    position: usize,
    dependency: &Dependency,
    managed: &ManagedSet,
    cut: &Exclusions,
) -> Mem<()>
    ensures { OnOk result (list.new
        ≡ list.old ++ transitive_edge managed.now cut.now position dependency.now) }
{
    if is_kept(dependency) && !cut.excludes(dependency) {
        list.push(edge_below(alloc, position, dependency, managed, cut)?)?;
    }
    Ok(())
}

/// What the dependencies of a POM below the project lead to. Left out are those that are optional, those of the scopes
/// test, provided and system, and those that an exclusion from above names, `*` standing for any group or artifact. The
/// version and the scope that the project manages replace the declaration's, and its exclusions are added. Costs the
/// texts, and for each declaration a look-up of what manages it and one of some steps among the exclusions, which are
/// shared with those above and never copied.
/// Introduction to the Dependency Mechanism, "Transitive Dependencies", "Dependency Management" and "Excluded
/// Dependencies".
pub fn edges(
    alloc: Global,
    dependencies: &[Shared<Dependency>],
    managed: &ManagedSet,
    cut: &Exclusions,
) -> Mem<List<Edge>>
    ensures { IfOk result (λ list. list ≡ transitive_edges dependencies.now managed.now cut.now) }
{
    let mut list = List::new(alloc);
    for at in 0..dependencies.len() {
        add_edge(alloc, &mut list, at, &dependencies[at], managed, cut)?;
    }
    Ok(list)
}
