//! A plugin and an execution, each merged with the one that it builds on.

ghost use Rattle.std.specs.Prelude.{◌≡◌, IfOk};
ghost use Rattle.std.specs.Option.{option_or};
ghost use Rattle.model_merge.specs.Configuration.{merged_configuration};
ghost use Rattle.model_merge.specs.Keyed.{merged_lists, with_others};
ghost use Rattle.model_merge.specs.Keys.{key_of_dependency, key_of_execution, key_of_name};
ghost use Rattle.model_merge.specs.Merging.{merged_execution, merged_plugin, settled_execution, settled_plugin};

use crate::fallback::stated;
use crate::joined::merged_lists;
use crate::mergeable::Mergeable;
use crate::parts::{
    ExecutionLists, ExecutionName, PluginLists, PluginName, execution_of, plugin_of,
};
use crate::settling::{settled_execution, settled_plugin};
use crate::{merged_configuration, with_others};
use model_types::{Execution, Plugin};
use mvn_base::Setting;
use mvn_shared::{List, Mem, Shared};
use std::alloc::Global;

// A child's configuration over the parent's, for any number of owners.
fn shared_configuration(
    alloc: Global,
    child: &List<Setting>,
    parent: &List<Setting>,
) -> Mem<Shared<List<Setting>>>
    ensures { IfOk result (λ merged. merged ≡ merged_configuration child.now parent.now) }
{
    let merged = merged_configuration(alloc, child.as_slice(), parent.as_slice())?;
    Shared::new(alloc, merged)
}

// An execution's id, with its phase where it has one, or else the parent's.
fn merged_execution_name(child: &Execution, parent: &Execution) -> Mem<ExecutionName>
    ensures { IfOk result (λ name. name ≡ (record {
      id = child.now.id;
      phase = option_or child.now.phase parent.now.phase;
    })) }
{
    let id = child.id.clone()?;
    let phase = stated(&child.phase, &parent.phase)?;
    Ok(ExecutionName { id, phase })
}

// An execution's lists, merged with the parent's.
fn merged_execution_lists(
    alloc: Global,
    child: &Execution,
    parent: &Execution,
) -> Mem<ExecutionLists>
    ensures { IfOk result (λ lists. lists ≡ (record {
      goals = with_others key_of_name parent.now.goals child.now.goals;
      configuration = merged_configuration child.now.configuration parent.now.configuration;
    })) }
{
    let goals = with_others(alloc, parent.goals.as_slice(), child.goals.as_slice())?;
    let configuration = shared_configuration(alloc, &child.configuration, &parent.configuration)?;
    Ok(ExecutionLists {
        goals,
        configuration,
    })
}

/// An execution, merged with the one of its id that it builds on: its phase where it has one, the parent's goals and
/// then its others, and its configuration over the parent's. Costs both, on the average. POM Reference, "Executions";
/// the order of goals is a project rule.
#[tactic(auto, unfolding(crate::specs::Merging::merged_execution))]
pub fn merged_execution(alloc: Global, child: &Execution, parent: &Execution) -> Mem<Execution>
    ensures { IfOk result (λ merged. merged ≡ merged_execution child.now parent.now) }
{
    let name = merged_execution_name(child, parent)?;
    let lists = merged_execution_lists(alloc, child, parent)?;
    Ok(execution_of(name, child.inherited && parent.inherited, lists))
}

impl Mergeable for Execution {
    ghost settle = { settled_execution };

    ghost merge = { merged_execution };

    fn settled(alloc: Global, execution: &Shared<Execution>) -> Mem<Shared<Execution>> {
        settled_execution(alloc, execution)
    }

    fn merged(alloc: Global, child: &Execution, parent: &Execution) -> Mem<Execution> {
        merged_execution(alloc, child, parent)
    }
}

// A plugin's name, with its version where it has one, or else the parent's.
fn merged_plugin_name(child: &Plugin, parent: &Plugin) -> Mem<PluginName>
    ensures { IfOk result (λ name. name ≡ (record {
      group = child.now.group;
      artifact = child.now.artifact;
      version = option_or child.now.version parent.now.version;
    })) }
{
    let group = child.group.clone()?;
    let artifact = child.artifact.clone()?;
    let version = stated(&child.version, &parent.version)?;
    Ok(PluginName {
        group,
        artifact,
        version,
    })
}

// A plugin's lists, merged with the parent's.
fn merged_plugin_lists(alloc: Global, child: &Plugin, parent: &Plugin) -> Mem<PluginLists>
    ensures { IfOk result (λ lists. lists ≡ (record {
      dependencies = with_others key_of_dependency child.now.dependencies
          parent.now.dependencies;
      executions = merged_lists key_of_execution merged_execution child.now.executions
          parent.now.executions;
      configuration = merged_configuration child.now.configuration parent.now.configuration;
    })) }
{
    let dependencies = with_others(
        alloc,
        child.dependencies.as_slice(),
        parent.dependencies.as_slice(),
    )?;
    let executions = merged_lists(
        alloc,
        child.executions.as_slice(),
        parent.executions.as_slice(),
    )?;
    let configuration = shared_configuration(alloc, &child.configuration, &parent.configuration)?;
    Ok(PluginLists {
        dependencies,
        executions,
        configuration,
    })
}

/// A plugin, merged with the one of its name that it builds on: its version where it has one, dependencies and
/// executions merged by their keys, and its configuration over the parent's. Costs both, on the average. POM Reference,
/// "Plugins"; the order of merged lists is a project rule.
#[tactic(auto, unfolding(crate::specs::Merging::merged_plugin))]
pub fn merged_plugin(alloc: Global, child: &Plugin, parent: &Plugin) -> Mem<Plugin>
    ensures { IfOk result (λ merged. merged ≡ merged_plugin child.now parent.now) }
{
    let name = merged_plugin_name(child, parent)?;
    let lists = merged_plugin_lists(alloc, child, parent)?;
    Ok(plugin_of(name, child.inherited && parent.inherited, lists))
}

impl Mergeable for Plugin {
    ghost settle = { settled_plugin };

    ghost merge = { merged_plugin };

    fn settled(alloc: Global, plugin: &Shared<Plugin>) -> Mem<Shared<Plugin>> {
        settled_plugin(alloc, plugin)
    }

    fn merged(alloc: Global, child: &Plugin, parent: &Plugin) -> Mem<Plugin> {
        merged_plugin(alloc, child, parent)
    }
}
