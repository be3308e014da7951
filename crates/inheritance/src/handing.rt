//! A parent's plugin as its children inherit it: without the executions that aren't inherited.

ghost use Rattle.std.specs.Prelude.{◌≡◌, filter, IfOk};
ghost use Rattle.std.specs.List.{list_all};
ghost use Rattle.model_types.specs.declared.plugin.Execution as runs;
ghost use Rattle.inheritance.specs.Placing.{handed_on};

use model_merge::copies;
use model_types::{Dependency, Execution, Plugin};
use mvn_base::Setting;
use mvn_shared::{List, Mem, Shared, Text};
use std::alloc::Global;

// What a plugin is called, and its version.
#[derive(Drop)]
struct HandedName {
    group: Text,
    artifact: Text,
    version: Option<Text>,
}

// What a plugin has lists of.
#[derive(Drop)]
struct HandedLists {
    dependencies: List<Shared<Dependency>>,
    executions: List<Shared<Execution>>,
    configuration: Shared<List<Setting>>,
}

// A plugin's name and version.
fn name_of(plugin: &Plugin) -> Mem<HandedName>
    ensures { IfOk result (λ name. name ≡ (record {
      group = plugin.now.group;
      artifact = plugin.now.artifact;
      version = plugin.now.version;
    })) }
{
    let group = plugin.group.clone()?;
    let artifact = plugin.artifact.clone()?;
    let version = plugin.version.clone()?;
    Ok(HandedName {
        group,
        artifact,
        version,
    })
}

// The executions that a child takes over.
fn inherited_executions(alloc: Global, list: &[Shared<Execution>]) -> Mem<List<Shared<Execution>>>
    ensures { IfOk result (λ kept.
        kept ≡ filter (λ (e : runs.Execution). e.inherited) list.now) }
{
    let mut kept = List::new(alloc);
    for execution in list {
        if execution.inherited {
            kept.push(execution.share()?)?;
        }
    }
    Ok(kept)
}

// A parent's plugin's lists as a child takes them over.
fn handed_lists(alloc: Global, plugin: &Plugin) -> Mem<HandedLists>
    ensures { IfOk result (λ lists. lists ≡ (record {
      dependencies = plugin.now.dependencies;
      executions = filter (λ (e : runs.Execution). e.inherited) plugin.now.executions;
      configuration = plugin.now.configuration;
    })) }
{
    let configuration = plugin.configuration.share()?;
    let dependencies = copies(&plugin.dependencies)?;
    let executions = inherited_executions(alloc, plugin.executions.as_slice())?;
    Ok(HandedLists {
        dependencies,
        executions,
        configuration,
    })
}

// The plugin of a name with these lists.
fn plugin_of(name: HandedName, inherited: bool, lists: HandedLists) -> Plugin
    ensures { result ≡ (record {
      group = name.group;
      artifact = name.artifact;
      version = name.version;
      inherited = inherited;
      dependencies = lists.dependencies;
      executions = lists.executions;
      configuration = lists.configuration;
    }) }
{
    let HandedName {
        group,
        artifact,
        version,
    } = name;
    let HandedLists {
        dependencies,
        executions,
        configuration,
    } = lists;
    Plugin {
        group,
        artifact,
        version,
        inherited,
        dependencies,
        executions,
        configuration,
    }
}

// A parent's plugin as a child takes it over.
fn handed_on(alloc: Global, plugin: &Plugin) -> Mem<Plugin>
    ensures { IfOk result (λ handed. handed ≡ handed_on plugin.now) }
{
    let name = name_of(plugin)?;
    let lists = handed_lists(alloc, plugin)?;
    Ok(plugin_of(name, plugin.inherited, lists))
}

// Whether none of some executions is left out.
fn all_inherited(list: &[Shared<Execution>]) -> bool
    ensures { result ≡ list_all (λ (e : runs.Execution). e.inherited) list.now }
{
    list.iter().all(|execution| execution.inherited)
}

// A parent's plugin as a child takes it over, shared where none of its executions is left out.
#[tactic(auto, using(crate::proofs::Alone::handed_same))]
pub(crate) fn handed(alloc: Global, plugin: Shared<Plugin>) -> Mem<Shared<Plugin>>
    ensures { IfOk result (λ handed. handed ≡ handed_on plugin) }
{
    if all_inherited(plugin.executions.as_slice()) {
        return Ok(plugin);
    }
    Shared::new(alloc, handed_on(alloc, &plugin)?)
}
