//! The model of a POM from its elements, or its first refusal.

ghost use Rattle.std.specs.Prelude.{◌≡◌, codes, slice_get, Some, IfOk};
ghost use Rattle.std.specs.Option.{option_copied};
ghost use Rattle.mvn_base.specs.Says.{Says};
ghost use Rattle.pom_model.specs.Elements.{child};
ghost use Rattle.pom_model.specs.Fields.{coordinates, model, names, parent, parent_in, path_text};
ghost use Rattle.pom_model.specs.Raw.{raw, refusal};

use crate::base::model_base;
use crate::build::build;
use crate::element::{at, child, own_text, text_of, text_or};
use crate::fault::{Fault, Spot};
use crate::item::Item;
use crate::pairs::two_texts;
use crate::profile::profiles;
use crate::walk::first_fault;
use model_types::{Coordinates, Parent, RawModel};
use mvn_base::{Gav, ModelError, Place, PomId, Refusal};
use mvn_shared::{Mem, Shared, Text};
use pom_text::{Node, PomText};
use std::alloc::Global;

/// Where a parent is looked for first, where its child doesn't say.
const PARENT_PATH: &str = "../pom.xml";

// The path that an element states, where it is there: an empty path is kept.
fn path_text(alloc: Global, path: Option<&Node>) -> Mem<Text>
    ensures { IfOk result (λ text. text ≡ path_text (option_copied path.entry)) }
{
    match path {
        Some(path) => own_text(alloc, path),
        None => Text::from_str(alloc, PARENT_PATH),
    }
}

// Where a parent is looked for first.
fn relative_path(alloc: Global, nodes: &[Node], node: &Node) -> Mem<Text>
    ensures { IfOk result (λ text.
        text ≡ path_text (child nodes.now (codes "relativePath") (Some node.now))) }
{
    path_text(alloc, child(nodes, Some(node), "relativePath"))
}

// The POM that a POM builds on.
#[tactic(auto, unfolding(crate::specs::Fields::parent))]
fn parent(alloc: Global, nodes: &[Node], node: &Node) -> Mem<Shared<Parent>>
    ensures { IfOk result (λ value. value ≡ parent nodes.now node.now) }
{
    let relative_path = relative_path(alloc, nodes, node)?;
    let gav = Gav::read(alloc, nodes, node, None)?;
    let parent = Parent { gav, relative_path };
    Shared::new(alloc, parent)
}

fn parent_in(alloc: Global, nodes: &[Node], node: Option<&Node>) -> Mem<Option<Shared<Parent>>>
    ensures { IfOk result (λ value. value ≡ parent_in nodes.now (option_copied node.entry)) }
{
    match child(nodes, node, "parent") {
        Some(node) => Ok(Some(parent(alloc, nodes, node)?)),
        None => Ok(None),
    }
}

// The coordinates that a POM states, and its packaging.
#[tactic(auto, unfolding(crate::specs::Fields::coordinates))]
fn coordinates(alloc: Global, nodes: &[Node], node: Option<&Node>) -> Mem<Shared<Coordinates>>
    ensures { IfOk result (λ value. value ≡ coordinates nodes.now (option_copied node.entry)) }
{
    let artifact = text_or(alloc, nodes, node, "artifactId", "")?;
    let packaging = text_or(alloc, nodes, node, "packaging", "jar")?;
    let (group, version) = two_texts(alloc, nodes, node, "groupId", "version")?;
    let coordinates = Coordinates {
        group,
        artifact,
        version,
        packaging,
    };
    Shared::new(alloc, coordinates)
}

// A copy of what a POM is named.
fn named_so(alloc: Global, pom: &PomId) -> Mem<Shared<PomId>>
    ensures { IfOk result (λ value. value ≡ pom.now) }
{
    Shared::new(alloc, pom.clone()?)
}

// Which POM this is: its parent and its coordinates.
fn names(
    alloc: Global,
    nodes: &[Node],
    node: Option<&Node>,
) -> Mem<(Option<Shared<Parent>>, Shared<Coordinates>)>
    ensures { IfOk result (λ value. value ≡ names nodes.now (option_copied node.entry)) }
{
    let parent = parent_in(alloc, nodes, node)?;
    let coordinates = coordinates(alloc, nodes, node)?;
    Ok((parent, coordinates))
}

// What a POM says that breaks no rule.
#[tactic(auto, unfolding(crate::specs::Fields::model))]
fn model(alloc: Global, nodes: &[Node], pom: &PomId, node: Option<&Node>) -> Mem<RawModel>
    ensures { IfOk result (λ value. value ≡ model nodes.now pom.now (option_copied node.entry)) }
{
    let base = model_base(alloc, nodes, node)?;
    let build = build(alloc, nodes, child(nodes, node, "build"))?;
    let profiles = profiles(alloc, nodes, node)?;
    let pom = named_so(alloc, pom)?;
    let (parent, coordinates) = names(alloc, nodes, node)?;
    Ok(RawModel {
        pom,
        parent,
        coordinates,
        base,
        build,
        profiles,
    })
}

// A refusal of this POM.
fn refusal(pom: &PomId, fault: Fault) -> Mem<Refusal>
    ensures { IfOk result (λ it. it ≡ refusal pom.now fault) }
{
    let pom = pom.clone()?;
    let rule = fault.rule;
    let place = match fault.spot {
        Spot::Path(path) => Place::Name(path),
        Spot::Own(text) => Place::Name(text),
    };
    Ok(Refusal { pom, rule, place })
}

/// What a POM says, by its elements: each field by the read table, with the default of an absent or empty element;
/// white space round texts is no part of them outside configurations. Or its first refusal in document order: another
/// root than `project` (the refusal names the root), an element that stands again, an attribute that says how
/// configurations merge, a list of more than 1,024 items, another `modelVersion` than `4.0.0` (the refusal names its
/// text), or a missing element; else the refusal names the element's path. Elements below the 64th level aren't read,
/// and no POM text has any. Costs the elements and their texts. POM Reference; the order is a project rule.
#[tactic(auto, unfolding(crate::specs::Raw::raw))]
pub fn read_model(alloc: Global, text: &PomText, pom: &PomId) -> Result<RawModel, ModelError>
    ensures { Says (raw text.now.nodes pom.now) result }
{
    let nodes = text.nodes.as_slice();
    match first_fault(alloc, nodes)? {
        Some(fault) => Err(ModelError::Refused(refusal(pom, fault)?)),
        None => Ok(model(alloc, nodes, pom, at(nodes, 0))?),
    }
}
