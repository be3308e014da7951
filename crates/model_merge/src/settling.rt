//! Plugins and executions whose own lists name each key once.

ghost use Rattle.std.specs.Prelude.{◌≡◌, map, IfOk};
ghost use Rattle.std.specs.List.{list_all};
ghost use Rattle.model_merge.specs.Keyed.{settled};
ghost use Rattle.model_merge.specs.Keys.{key_of_dependency, key_of_execution, key_of_name};
ghost use Rattle.model_merge.specs.Merging.{settled_execution, settled_plugin, settled_plugins};
ghost use Rattle.model_merge.specs.Singles.{has_single_goal, is_single};

use crate::mergeable::Mergeable;
use crate::parts::{
    ExecutionLists, ExecutionName, PluginLists, PluginName, execution_of, plugin_of,
};
use crate::settled;
use model_types::{Execution, Plugin};
use mvn_shared::{List, Mem, Shared};
use std::alloc::Global;

// An execution's id and phase.
fn execution_name(execution: &Execution) -> Mem<ExecutionName>
    ensures { IfOk result (λ name. name ≡ (record {
      id = execution.now.id;
      phase = execution.now.phase;
    })) }
{
    let id = execution.id.clone()?;
    let phase = execution.phase.clone()?;
    Ok(ExecutionName { id, phase })
}

// An execution's lists, with each goal once.
fn goals_once(alloc: Global, execution: &Execution) -> Mem<ExecutionLists>
    ensures { IfOk result (λ lists. lists ≡ (record {
      goals = settled key_of_name execution.now.goals;
      configuration = execution.now.configuration;
    })) }
{
    let configuration = execution.configuration.share()?;
    let goals = settled(alloc, execution.goals.as_slice())?;
    Ok(ExecutionLists {
        goals,
        configuration,
    })
}

// An execution of several goals that names each once.
#[tactic(auto, unfolding(crate::specs::Merging::settled_execution))]
fn with_goals_once(alloc: Global, execution: &Execution) -> Mem<Execution>
    ensures { IfOk result (λ settled. settled ≡ settled_execution execution.now) }
{
    let name = execution_name(execution)?;
    let lists = goals_once(alloc, execution)?;
    Ok(execution_of(name, execution.inherited, lists))
}

/// An execution that names each of its goals once: of equal ones the last, at the place of the first. Costs its goals,
/// on the average; with at most one it is shared. Project rule.
#[tactic(auto, using(crate::proofs::Singles::execution_kept))]
pub(crate) fn settled_execution(
    alloc: Global,
    execution: &Shared<Execution>,
) -> Mem<Shared<Execution>>
    ensures { IfOk result (λ settled. settled ≡ settled_execution execution.now) }
{
    if execution.goals.len() < 2 {
        return execution.share();
    }
    Shared::new(alloc, with_goals_once(alloc, execution)?)
}

/// The items of a list, each settled itself. Costs them.
pub fn each_settled<T: Mergeable>(alloc: Global, items: &[Shared<T>]) -> Mem<List<Shared<T>>>
    ensures { IfOk result (λ list. list ≡ map T.settle items.now) }
{
    let mut list = List::new(alloc);
    for item in items {
        list.push(T::settled(alloc, item)?)?;
    }
    Ok(list)
}

// The executions of a plugin, each settled, of equal ids the last.
fn settled_executions(
    alloc: Global,
    executions: &[Shared<Execution>],
) -> Mem<List<Shared<Execution>>>
    ensures { IfOk result (λ list. list
        ≡ settled key_of_execution (map settled_execution executions.now)) }
{
    settled(alloc, each_settled(alloc, executions)?.as_slice())
}

// A plugin's name and version.
fn plugin_name(plugin: &Plugin) -> Mem<PluginName>
    ensures { IfOk result (λ name. name ≡ (record {
      group = plugin.now.group;
      artifact = plugin.now.artifact;
      version = plugin.now.version;
    })) }
{
    let group = plugin.group.clone()?;
    let artifact = plugin.artifact.clone()?;
    let version = plugin.version.clone()?;
    Ok(PluginName {
        group,
        artifact,
        version,
    })
}

// A plugin's lists, with one dependency of each key and one execution of each id.
fn settled_lists(alloc: Global, plugin: &Plugin) -> Mem<PluginLists>
    ensures { IfOk result (λ lists. lists ≡ (record {
      dependencies = settled key_of_dependency plugin.now.dependencies;
      executions = settled key_of_execution (map settled_execution plugin.now.executions);
      configuration = plugin.now.configuration;
    })) }
{
    let configuration = plugin.configuration.share()?;
    let dependencies = settled(alloc, plugin.dependencies.as_slice())?;
    let executions = settled_executions(alloc, plugin.executions.as_slice())?;
    Ok(PluginLists {
        dependencies,
        executions,
        configuration,
    })
}

// A plugin with one dependency of each key and one execution of each id.
#[tactic(auto, unfolding(crate::specs::Merging::settled_plugin))]
fn with_parts_once(alloc: Global, plugin: &Plugin) -> Mem<Plugin>
    ensures { IfOk result (λ settled. settled ≡ settled_plugin plugin.now) }
{
    let name = plugin_name(plugin)?;
    let lists = settled_lists(alloc, plugin)?;
    Ok(plugin_of(name, plugin.inherited, lists))
}

// Whether each of some executions has at most one goal.
fn have_single_goals(executions: &[Shared<Execution>]) -> bool
    ensures { result ≡ list_all has_single_goal executions.now }
{
    executions.iter().all(|execution| execution.goals.len() < 2)
}

// Whether nothing in a plugin can stand twice: it has at most one dependency and one execution, and this at most one
// goal.
fn is_single(plugin: &Plugin) -> bool
    ensures { result ≡ is_single plugin.now }
{
    plugin.dependencies.len() < 2
        && plugin.executions.len() < 2
        && have_single_goals(plugin.executions.as_slice())
}

/// A plugin with one dependency of each key, one execution of each id and each of an execution's goals once: of equal
/// ones the last, at the place of the first. Costs what it has, on the average; where nothing can stand twice, it is
/// shared. Project rule.
#[tactic(auto, using(crate::proofs::Singles::plugin_kept))]
pub fn settled_plugin(alloc: Global, plugin: &Shared<Plugin>) -> Mem<Shared<Plugin>>
    ensures { IfOk result (λ settled. settled ≡ settled_plugin plugin.now) }
{
    if is_single(plugin) {
        return plugin.share();
    }
    Shared::new(alloc, with_parts_once(alloc, plugin)?)
}

/// One plugin of each name, each settled: of equal names the last, at the place of the first. Costs them, on the
/// average. Project rule.
pub fn settled_plugins(alloc: Global, plugins: &[Shared<Plugin>]) -> Mem<List<Shared<Plugin>>>
    ensures { IfOk result (λ list. list ≡ settled_plugins plugins.now) }
{
    settled(alloc, each_settled(alloc, plugins)?.as_slice())
}
