//! `Library`: the effective model of a POM, with the edges that it leads to.

ghost use Rattle.std.specs.Prelude.{◌≡◌, [], is_some, IfOk};
ghost use Rattle.std.specs.List.{list_any};
ghost use Rattle.managed_deps.specs.Managed.{find_pair};
ghost use Rattle.collector.specs.Edges.{transitive_edges};
ghost use Rattle.mediation.specs.Jars.{jar_row};

use crate::jars::{Jars, jar_with, jars_of};
use classpaths::Resolved;
use collector::{Edge, Exclusions, Scope, edges};
use managed_deps::{ManagedSet, managed};
use mvn_shared::{List, Mem, Shared};
use std::alloc::Global;
use std::marker::Model;

/// A POM's effective model, with what is found once of it: what its dependencies lead to where nothing is managed and
/// nothing is left out, and what its own jar comes to. Contracts see it as the model.
#[derive(Drop)]
pub struct Library {
    model: Shared<model_types::Model>,
    edges: Shared<List<Edge>>,
    jars: Shared<Jars>,
}

impl Model for Library {
    ghost use Rattle.std.specs.Prelude.{◌≡◌, []};
    ghost use Rattle.std.specs.Coded.{codes};
    ghost use Rattle.mvn_base.specs.contracts.setting.Setting as settings;
    ghost use Rattle.model_types.specs.declared.model.Model as models;
    ghost use Rattle.collector.specs.Edges.{transitive_edges};
    ghost use Rattle.mediation.specs.Jars.{AreJars};

    ghost Value = { models.Model };

    ghost coded = { Prim.hlevel (codes, settings.the_row.coded) };

    ghost view = { λ library. library.model };

    ghost invariant = { λ library.
        (library.edges ≡ transitive_edges library.model.base.dependencies [] [])
        × AreJars library.model.gav library.jars };
}

// What the dependencies of a POM lead to.
fn shared_edges(
    alloc: Global,
    model: &model_types::Model,
    managed: &ManagedSet,
    cut: &Exclusions,
) -> Mem<Shared<List<Edge>>>
    ensures { IfOk result (λ list.
        list ≡ transitive_edges model.now.base.dependencies managed.now cut.now) }
{
    let list = edges(alloc, model.base.dependencies.as_slice(), managed, cut)?;
    Shared::new(alloc, list)
}

// What the dependencies lead to where nothing is managed and nothing is left out.
fn plain_edges(alloc: Global, model: &model_types::Model) -> Mem<Shared<List<Edge>>>
    ensures { IfOk result (λ list. list ≡ transitive_edges model.now.base.dependencies [] []) }
{
    let nothing = managed(alloc, &[], &[])?;
    let none = Exclusions::new(alloc, List::new(alloc))?;
    shared_edges(alloc, model, &nothing, &none)
}

// Whether the key of one of some edges is managed.
fn is_managed(managed: &ManagedSet, edges: &[Edge]) -> bool
    ensures { result ≡ list_any (λ e. is_some (find_pair managed.now e.key)) edges.now }
{
    for edge in edges {
        if managed.find(&edge.key).is_some() {
            return true;
        }
    }
    false
}

impl Library {
    /// A POM with its effective model. Costs its dependencies and its coordinates.
    pub fn new(alloc: Global, model: Shared<model_types::Model>) -> Mem<Library>
        ensures { IfOk result (λ library. library ≡ model) }
    {
        let edges = plain_edges(alloc, &model)?;
        let jars = jars_of(alloc, model.gav.value())?;
        Ok(Library { model, edges, jars })
    }

    /// The same library, in constant time; nothing is copied.
    pub fn share(&self) -> Mem<Library>
        ensures { IfOk result (λ library. library ≡ self.now) }
    {
        let model = self.model.share()?;
        let edges = self.edges.share()?;
        let jars = self.jars.share()?;
        Ok(Library { model, edges, jars })
    }

    /// What its own jar comes to where it has a scope. Constant time.
    pub fn jar(&self, scope: Scope) -> &Shared<Resolved>
        ensures { result.now ≡ jar_row self.now.gav scope }
    {
        jar_with(&self.jars, scope)
    }

    // What its dependencies lead to below a project that manages some, and below what is left out.
    pub fn edges(
        &self,
        alloc: Global,
        managed: &ManagedSet,
        cut: &Exclusions,
    ) -> Mem<Shared<List<Edge>>>
        ensures { IfOk result (λ list.
            list ≡ transitive_edges self.now.base.dependencies managed.now cut.now) }
    {
        if !cut.is_empty() || is_managed(managed, self.edges.as_slice()) {
            return shared_edges(alloc, &self.model, managed, cut);
        }
        self.edges.share()
    }
}
