//! Plugins and executions put together from their parts.

ghost use Rattle.std.specs.Prelude.{◌≡◌};

use model_types::{Dependency, Execution, Plugin};
use mvn_base::Setting;
use mvn_shared::{List, Shared, Text};

// What a plugin is called, and its version.
#[derive(Drop)]
pub(crate) struct PluginName {
    pub(crate) group: Text,
    pub(crate) artifact: Text,
    pub(crate) version: Option<Text>,
}

// What a plugin has lists of.
#[derive(Drop)]
pub(crate) struct PluginLists {
    pub(crate) dependencies: List<Shared<Dependency>>,
    pub(crate) executions: List<Shared<Execution>>,
    pub(crate) configuration: Shared<List<Setting>>,
}

// The plugin of a name with these lists.
pub(crate) fn plugin_of(name: PluginName, inherited: bool, lists: PluginLists) -> Plugin
    ensures { result ≡ (record {
      group = name.group;
      artifact = name.artifact;
      version = name.version;
      inherited = inherited;
      dependencies = lists.dependencies;
      executions = lists.executions;
      configuration = lists.configuration;
    }) }
{
    let PluginName {
        group,
        artifact,
        version,
    } = name;
    let PluginLists {
        dependencies,
        executions,
        configuration,
    } = lists;
    Plugin {
        group,
        artifact,
        version,
        inherited,
        dependencies,
        executions,
        configuration,
    }
}

// What an execution is called, and its phase.
#[derive(Drop)]
pub(crate) struct ExecutionName {
    pub(crate) id: Text,
    pub(crate) phase: Option<Text>,
}

// What an execution has lists of.
#[derive(Drop)]
pub(crate) struct ExecutionLists {
    pub(crate) goals: List<Text>,
    pub(crate) configuration: Shared<List<Setting>>,
}

// The execution of a name with these lists.
pub(crate) fn execution_of(name: ExecutionName, inherited: bool, lists: ExecutionLists) -> Execution
    ensures { result ≡ (record {
      id = name.id;
      phase = name.phase;
      goals = lists.goals;
      inherited = inherited;
      configuration = lists.configuration;
    }) }
{
    let ExecutionName { id, phase } = name;
    let ExecutionLists {
        goals,
        configuration,
    } = lists;
    Execution {
        id,
        phase,
        goals,
        inherited,
        configuration,
    }
}
