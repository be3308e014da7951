//! The `dependency` and `exclusion` elements of a POM.

ghost use Rattle.std.specs.Prelude.{◌≡◌, IfOk};
ghost use Rattle.pom_model.specs.Groups.{dependency, exclusion};
ghost use Rattle.pom_model.specs.Places.{dependency_at, dependency_of, key_at, stated_at};

use crate::element::{text_in, text_in_or, text_or};
use crate::item::{Item, items_in};
use crate::places::{Places, numbered, places_among};
use model_types::{Dependency, Exclusion};
use mvn_base::Key;
use mvn_shared::{List, Mem, Text};
use pom_text::Node;
use std::alloc::Global;

impl Item for Exclusion {
    ghost value = { exclusion };

    #[tactic(auto, unfolding(crate::specs::Groups::exclusion))]
    fn read(
        alloc: Global,
        nodes: &[Node],
        node: &Node,
        _like: Option<&Exclusion>,
    ) -> Mem<Exclusion> {
        let group = text_or(alloc, nodes, Some(node), "groupId", "*")?;
        let artifact = text_or(alloc, nodes, Some(node), "artifactId", "*")?;
        Ok(Exclusion { group, artifact })
    }
}

// The type of a dependency, if there is one.
fn kind_of(like: Option<&Dependency>) -> Option<&Text> {
    match like {
        Some(dependency) => Some(&dependency.kind),
        None => None,
    }
}

// What a dependency is told apart by. Most are jars, so a type that isn't stated is shared.
#[tactic(auto, unfolding(crate::specs::Places::key_at))]
fn key_at(alloc: Global, nodes: &[Node], places: Places, like: Option<&Dependency>) -> Mem<Key>
    ensures { IfOk result (λ key. key ≡ key_at nodes.now places) }
{
    let group = text_in_or(alloc, numbered(nodes, places.group), "", None)?;
    let artifact = text_in_or(alloc, numbered(nodes, places.artifact), "", None)?;
    let kind = text_in_or(alloc, numbered(nodes, places.kind), "jar", kind_of(like))?;
    let classifier = text_in_or(alloc, numbered(nodes, places.classifier), "", None)?;
    Ok(Key {
        group,
        artifact,
        kind,
        classifier,
    })
}

// What a dependency says of itself besides its key: its version, its scope, and whether it is optional.
#[tactic(auto, unfolding(crate::specs::Places::stated_at))]
fn stated_at(
    alloc: Global,
    nodes: &[Node],
    places: Places,
) -> Mem<(Option<Text>, Option<Text>, Text)>
    ensures { IfOk result (λ stated. stated ≡ stated_at nodes.now places) }
{
    let version = text_in(alloc, numbered(nodes, places.version))?;
    let scope = text_in(alloc, numbered(nodes, places.scope))?;
    let optional = text_in_or(alloc, numbered(nodes, places.optional), "", None)?;
    Ok((version, scope, optional))
}

// A dependency of these parts.
fn dependency_of(
    key: Key,
    stated: (Option<Text>, Option<Text>, Text),
    exclusions: List<Exclusion>,
) -> Dependency
    ensures { result ≡ dependency_of key stated exclusions }
{
    let Key {
        group,
        artifact,
        kind,
        classifier,
    } = key;
    let (version, scope, optional) = stated;
    Dependency {
        group,
        artifact,
        version,
        kind,
        classifier,
        scope,
        optional,
        exclusions,
    }
}

// A dependency whose elements stand there.
#[tactic(auto, unfolding(crate::specs::Places::dependency_at))]
fn dependency_at(
    alloc: Global,
    nodes: &[Node],
    places: Places,
    like: Option<&Dependency>,
) -> Mem<Dependency>
    ensures { IfOk result (λ dependency. dependency ≡ dependency_at nodes.now places) }
{
    let exclusions = items_in(
        alloc,
        nodes,
        numbered(nodes, places.exclusions),
        "exclusion",
    )?;
    let stated = stated_at(alloc, nodes, places)?;
    let key = key_at(alloc, nodes, places, like)?;
    Ok(dependency_of(key, stated, exclusions))
}

impl Item for Dependency {
    ghost value = { dependency };

    #[tactic(auto, using(crate::proofs::Firsts::dependency_so))]
    fn read(
        alloc: Global,
        nodes: &[Node],
        node: &Node,
        like: Option<&Dependency>,
    ) -> Mem<Dependency> {
        let places = places_among(nodes, node.children.as_slice());
        dependency_at(alloc, nodes, places, like)
    }
}
