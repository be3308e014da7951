//! The `build` element of a POM and its folders.

ghost use Rattle.std.specs.Prelude.{◌≡◌, codes, flat_map, IfOk};
ghost use Rattle.std.specs.Option.{option_copied};
ghost use Rattle.pom_model.specs.Elements.{named, text_of};
ghost use Rattle.pom_model.specs.Groups.{build, build_base, directories, directories_among, outputs, resources, sources};

use crate::element::{child, named, text_of};
use crate::item::list_in;
use crate::pairs::two_texts;
use crate::plugin::{managed_plugins, plugins};
use model_types::{Build, BuildBase, Outputs, Sources};
use mvn_shared::{List, Mem, Shared, Text};
use pom_text::Node;
use std::alloc::Global;

// The folder of one of a name.
fn directory(alloc: Global, nodes: &[Node], k: u32, name: &str) -> Mem<Option<Text>>
    ensures { IfOk result (λ text.
        text ≡ text_of nodes.now (codes "directory") (named nodes.now name.now k)) }
{
    text_of(alloc, nodes, named(nodes, k, name), "directory")
}

// The folders of those of a name among some.
fn directories_among(alloc: Global, nodes: &[Node], name: &str, ks: &[u32]) -> Mem<List<Text>>
    ensures { IfOk result (λ list. list ≡ directories_among nodes.now name.now ks.now) }
{
    let mut list = List::new(alloc);
    for k in ks {
        if let Some(directory) = directory(alloc, nodes, *k, name)? {
            list.push(directory)?;
        }
    }
    Ok(list)
}

// The folders of resources.
fn directories(
    alloc: Global,
    nodes: &[Node],
    node: Option<&Node>,
    outer: &str,
    name: &str,
) -> Mem<List<Text>>
    ensures { IfOk result (λ list.
        list ≡ directories nodes.now outer.now name.now (option_copied node.entry)) }
{
    match child(nodes, node, outer) {
        Some(list) => directories_among(alloc, nodes, name, list.children.as_slice()),
        None => Ok(List::new(alloc)),
    }
}

// Where a build puts what it makes.
#[tactic(auto, unfolding(crate::specs::Groups::outputs))]
fn outputs(alloc: Global, nodes: &[Node], node: Option<&Node>) -> Mem<Shared<Outputs>>
    ensures { IfOk result (λ value. value ≡ outputs nodes.now (option_copied node.entry)) }
{
    let (directory, output) = two_texts(alloc, nodes, node, "directory", "outputDirectory")?;
    let (test_output, final_name) = two_texts(
        alloc,
        nodes,
        node,
        "testOutputDirectory",
        "finalName",
    )?;
    let outputs = Outputs {
        directory,
        output,
        test_output,
        final_name,
    };
    Shared::new(alloc, outputs)
}

// The folders of its resources, and of those of its tests.
fn resources(alloc: Global, nodes: &[Node], node: Option<&Node>) -> Mem<(List<Text>, List<Text>)>
    ensures { IfOk result (λ both. both ≡ resources nodes.now (option_copied node.entry)) }
{
    let resources = directories(alloc, nodes, node, "resources", "resource")?;
    let test_resources = directories(alloc, nodes, node, "testResources", "testResource")?;
    Ok((resources, test_resources))
}

// Where it finds what it reads.
#[tactic(auto, unfolding(crate::specs::Groups::sources))]
fn sources(alloc: Global, nodes: &[Node], node: Option<&Node>) -> Mem<Shared<Sources>>
    ensures { IfOk result (λ value. value ≡ sources nodes.now (option_copied node.entry)) }
{
    let (source, test_source) = two_texts(
        alloc,
        nodes,
        node,
        "sourceDirectory",
        "testSourceDirectory",
    )?;
    let (resources, test_resources) = resources(alloc, nodes, node)?;
    let sources = Sources {
        source,
        test_source,
        resources,
        test_resources,
    };
    Shared::new(alloc, sources)
}

/// The plugins of a `build`, or of an absent one.
#[tactic(auto, unfolding(crate::specs::Groups::build_base))]
pub fn build_base(alloc: Global, nodes: &[Node], node: Option<&Node>) -> Mem<Shared<BuildBase>>
    ensures { IfOk result (λ value. value ≡ build_base nodes.now (option_copied node.entry)) }
{
    let plugins = plugins(alloc, nodes, node)?;
    let managed_plugins = managed_plugins(alloc, nodes, node)?;
    let base = BuildBase {
        plugins,
        managed_plugins,
    };
    Shared::new(alloc, base)
}

/// What a `build` says, or an absent one.
#[tactic(auto, unfolding(crate::specs::Groups::build))]
pub fn build(alloc: Global, nodes: &[Node], node: Option<&Node>) -> Mem<Shared<Build>>
    ensures { IfOk result (λ value. value ≡ build nodes.now (option_copied node.entry)) }
{
    let outputs = outputs(alloc, nodes, node)?;
    let sources = sources(alloc, nodes, node)?;
    let base = build_base(alloc, nodes, node)?;
    let extensions = list_in(alloc, nodes, node, "extensions", "extension")?;
    let build = Build {
        outputs,
        sources,
        base,
        extensions,
    };
    Shared::new(alloc, build)
}
