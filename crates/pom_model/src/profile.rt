//! The `profile` and `activation` elements of a POM.

ghost use Rattle.std.specs.Prelude.{◌≡◌, codes, map, option_map, Some, IfOk};
ghost use Rattle.std.specs.Option.{option_copied};
ghost use Rattle.pom_model.specs.Fields.{activation, activation_in, criteria, criteria_texts, file_text, os, profile, profiles, property};
ghost use Rattle.pom_model.specs.Elements.{items, named_among};

use crate::base::model_base;
use crate::build::build_base;
use crate::element::{child, named, text_is, text_of, text_or};
use crate::pairs::two_texts;
use model_types::{Activation, Os, Profile, Property};
use mvn_shared::{List, Mem, Shared, Text};
use pom_text::Node;
use std::alloc::Global;

// A property that has to be defined; one without a name is no criterion.
#[tactic(auto, unfolding(crate::specs::Fields::property))]
fn property(alloc: Global, nodes: &[Node], node: Option<&Node>) -> Mem<Option<Property>>
    ensures { IfOk result (λ value. value ≡ property nodes.now (option_copied node.entry)) }
{
    let Some(name) = text_of(alloc, nodes, node, "name")? else {
        return Ok(None);
    };
    let value = text_of(alloc, nodes, node, "value")?;
    Ok(Some(Property { name, value }))
}

fn os(alloc: Global, nodes: &[Node], node: Option<&Node>) -> Mem<Option<Os>>
    ensures { IfOk result (λ value. value ≡ option_map (os nodes.now) (option_copied node.entry)) }
{
    let Some(os) = node else {
        return Ok(None);
    };
    let (name, family) = two_texts(alloc, nodes, Some(os), "name", "family")?;
    let (arch, version) = two_texts(alloc, nodes, Some(os), "arch", "version")?;
    Ok(Some(Os {
        name,
        family,
        arch,
        version,
    }))
}

// The text of a file's element, where a profile goes by a file.
#[tactic(auto, unfolding(crate::specs::Fields::file_text))]
fn file_text(alloc: Global, nodes: &[Node], node: &Node, name: &str) -> Mem<Option<Text>>
    ensures { IfOk result (λ text. text ≡ file_text nodes.now name.now node.now) }
{
    text_of(alloc, nodes, child(nodes, Some(node), "file"), name)
}

// What a profile goes by that is a text: the files that have to be there and not to be there, and the JDK.
fn texts(
    alloc: Global,
    nodes: &[Node],
    node: &Node,
) -> Mem<(Option<Text>, Option<Text>, Option<Text>)>
    ensures { IfOk result (λ texts. texts ≡ criteria_texts nodes.now node.now) }
{
    let exists = file_text(alloc, nodes, node, "exists")?;
    let missing = file_text(alloc, nodes, node, "missing")?;
    let jdk = text_of(alloc, nodes, Some(node), "jdk")?;
    Ok((exists, missing, jdk))
}

// The property and the system that it goes by.
fn criteria(alloc: Global, nodes: &[Node], node: &Node) -> Mem<(Option<Property>, Option<Os>)>
    ensures { IfOk result (λ both. both ≡ criteria nodes.now node.now) }
{
    let property = property(alloc, nodes, child(nodes, Some(node), "property"))?;
    let os = os(alloc, nodes, child(nodes, Some(node), "os"))?;
    Ok((property, os))
}

// When a profile is active by itself.
#[tactic(auto, unfolding(crate::specs::Fields::activation))]
fn activation(alloc: Global, nodes: &[Node], node: &Node) -> Mem<Activation>
    ensures { IfOk result (λ value. value ≡ activation nodes.now node.now) }
{
    let by_default = text_is(nodes, Some(node), "activeByDefault", "true");
    let (exists, missing, jdk) = texts(alloc, nodes, node)?;
    let (property, os) = criteria(alloc, nodes, node)?;
    Ok(Activation {
        by_default,
        property,
        exists,
        missing,
        jdk,
        os,
    })
}

fn activation_in(alloc: Global, nodes: &[Node], node: &Node) -> Mem<Option<Shared<Activation>>>
    ensures { IfOk result (λ value. value ≡ activation_in nodes.now (Some node.now)) }
{
    match child(nodes, Some(node), "activation") {
        Some(node) => Ok(Some(Shared::new(alloc, activation(alloc, nodes, node)?)?)),
        None => Ok(None),
    }
}

// What a profile says.
#[tactic(auto, unfolding(crate::specs::Fields::profile))]
fn profile(alloc: Global, nodes: &[Node], node: &Node) -> Mem<Profile>
    ensures { IfOk result (λ value. value ≡ profile nodes.now node.now) }
{
    let build = child(nodes, Some(node), "build");
    let id = text_or(alloc, nodes, Some(node), "id", "default")?;
    let activation = activation_in(alloc, nodes, node)?;
    let base = model_base(alloc, nodes, Some(node))?;
    let build = build_base(alloc, nodes, build)?;
    Ok(Profile {
        id,
        activation,
        base,
        build,
    })
}

// What is read of the profiles among some elements.
fn profiles_among(alloc: Global, nodes: &[Node], ks: &[u32]) -> Mem<List<Profile>>
    ensures { IfOk result (λ list.
        list ≡ map (profile nodes.now) (named_among nodes.now (codes "profile") ks.now)) }
{
    let mut list = List::new(alloc);
    for k in ks {
        if let Some(node) = named(nodes, *k, "profile") {
            let profile = profile(alloc, nodes, node)?;
            list.push(profile)?;
        }
    }
    Ok(list)
}

// Of those in an element, or in none.
fn profiles_under(alloc: Global, nodes: &[Node], list: Option<&Node>) -> Mem<List<Profile>>
    ensures { IfOk result (λ read.
        read ≡ map (profile nodes.now)
        (items nodes.now (codes "profile") (option_copied list.entry))) }
{
    match list {
        Some(list) => profiles_among(alloc, nodes, list.children.as_slice()),
        None => Ok(List::new(alloc)),
    }
}

fn profiles_in(alloc: Global, nodes: &[Node], node: Option<&Node>) -> Mem<List<Profile>>
    ensures { IfOk result (λ value. value ≡ profiles nodes.now (option_copied node.entry)) }
{
    profiles_under(alloc, nodes, child(nodes, node, "profiles"))
}

/// The profiles of a POM.
pub(crate) fn profiles(
    alloc: Global,
    nodes: &[Node],
    node: Option<&Node>,
) -> Mem<Shared<List<Profile>>>
    ensures { IfOk result (λ value. value ≡ profiles nodes.now (option_copied node.entry)) }
{
    let profiles = profiles_in(alloc, nodes, node)?;
    Shared::new(alloc, profiles)
}
