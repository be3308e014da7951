//! The `plugin`, `execution` and `extension` elements of a POM.

ghost use Rattle.std.specs.Prelude.{◌≡◌, IfOk};
ghost use Rattle.std.specs.Option.{option_copied};
ghost use Rattle.pom_model.specs.Groups.{execution, execution_name, gav, managed_plugins, plugin, plugin_lists, plugin_name, plugin_texts, plugins};

use crate::element::{child, text_is, text_of, text_or};
use crate::item::{Item, list_in};
use crate::setting::configuration;
use model_types::{Dependency, Execution, Plugin};
use mvn_base::{Gav, MAVEN_PLUGINS};
use mvn_shared::{List, Mem, Shared, Text};
use pom_text::Node;
use std::alloc::Global;

impl Item for Gav {
    ghost value = { gav };

    #[tactic(auto, unfolding(crate::specs::Groups::gav))]
    fn read(alloc: Global, nodes: &[Node], node: &Node, _like: Option<&Gav>) -> Mem<Gav> {
        let group = text_or(alloc, nodes, Some(node), "groupId", "")?;
        let artifact = text_or(alloc, nodes, Some(node), "artifactId", "")?;
        let version = text_or(alloc, nodes, Some(node), "version", "")?;
        Ok(Gav {
            group,
            artifact,
            version,
        })
    }
}

// The name of an execution, and the phase that it states.
fn execution_name(alloc: Global, nodes: &[Node], node: &Node) -> Mem<(Text, Option<Text>)>
    ensures { IfOk result (λ name. name ≡ execution_name nodes.now node.now) }
{
    let id = text_or(alloc, nodes, Some(node), "id", "default")?;
    let phase = text_of(alloc, nodes, Some(node), "phase")?;
    Ok((id, phase))
}

impl Item for Execution {
    ghost value = { execution };

    #[tactic(auto, unfolding(crate::specs::Groups::execution))]
    fn read(
        alloc: Global,
        nodes: &[Node],
        node: &Node,
        _like: Option<&Execution>,
    ) -> Mem<Execution> {
        let inherited = !text_is(nodes, Some(node), "inherited", "false");
        let goals = list_in(alloc, nodes, Some(node), "goals", "goal")?;
        let configuration = configuration(alloc, nodes, Some(node))?;
        let (id, phase) = execution_name(alloc, nodes, node)?;
        Ok(Execution {
            id,
            phase,
            goals,
            inherited,
            configuration,
        })
    }
}

// What a plugin is told apart by.
#[tactic(auto, unfolding(crate::specs::Groups::plugin_name))]
fn plugin_name(alloc: Global, nodes: &[Node], node: &Node) -> Mem<(Text, Text)>
    ensures { IfOk result (λ name. name ≡ plugin_name nodes.now node.now) }
{
    let group = text_or(alloc, nodes, Some(node), "groupId", MAVEN_PLUGINS)?;
    let artifact = text_or(alloc, nodes, Some(node), "artifactId", "")?;
    Ok((group, artifact))
}

// What a plugin is told apart by, and the version that it states.
fn plugin_texts(alloc: Global, nodes: &[Node], node: &Node) -> Mem<(Text, Text, Option<Text>)>
    ensures { IfOk result (λ texts. texts ≡ plugin_texts nodes.now node.now) }
{
    let (group, artifact) = plugin_name(alloc, nodes, node)?;
    let version = text_of(alloc, nodes, Some(node), "version")?;
    Ok((group, artifact, version))
}

// Its dependencies and its executions.
fn plugin_lists(
    alloc: Global,
    nodes: &[Node],
    node: &Node,
) -> Mem<(List<Shared<Dependency>>, List<Shared<Execution>>)>
    ensures { IfOk result (λ lists. lists ≡ plugin_lists nodes.now node.now) }
{
    let dependencies = list_in(alloc, nodes, Some(node), "dependencies", "dependency")?;
    let executions = list_in(alloc, nodes, Some(node), "executions", "execution")?;
    Ok((dependencies, executions))
}

impl Item for Plugin {
    ghost value = { plugin };

    #[tactic(auto, unfolding(crate::specs::Groups::plugin))]
    fn read(alloc: Global, nodes: &[Node], node: &Node, _like: Option<&Plugin>) -> Mem<Plugin> {
        let inherited = !text_is(nodes, Some(node), "inherited", "false");
        let (dependencies, executions) = plugin_lists(alloc, nodes, node)?;
        let configuration = configuration(alloc, nodes, Some(node))?;
        let (group, artifact, version) = plugin_texts(alloc, nodes, node)?;
        Ok(Plugin {
            group,
            artifact,
            version,
            inherited,
            dependencies,
            executions,
            configuration,
        })
    }
}

/// The plugins of a build, or of none.
pub(crate) fn plugins(
    alloc: Global,
    nodes: &[Node],
    node: Option<&Node>,
) -> Mem<List<Shared<Plugin>>>
    ensures { IfOk result (λ list. list ≡ plugins nodes.now (option_copied node.entry)) }
{
    list_in(alloc, nodes, node, "plugins", "plugin")
}

/// The plugins that a build manages.
pub(crate) fn managed_plugins(
    alloc: Global,
    nodes: &[Node],
    node: Option<&Node>,
) -> Mem<List<Shared<Plugin>>>
    ensures { IfOk result (λ list. list ≡ managed_plugins nodes.now (option_copied node.entry)) }
{
    plugins(alloc, nodes, child(nodes, node, "pluginManagement"))
}
