//! The call of a goal: its phase, and its configuration over that of its plugin.

ghost use Rattle.std.specs.Prelude.{◌≡◌, ◌++◌, [], unwrap_or, option_to_list, IfOk, OnOk};
ghost use Rattle.std.specs.List.{list_any};
ghost use Rattle.std.specs.Str.{bytes_eq};
ghost use Rattle.model_merge.specs.Configuration.{merged_configuration};
ghost use Rattle.lifecycle.specs.Bindings.{bound_id, row_view};
ghost use Rattle.lifecycle.specs.Goals.{call_at, call_in, calls_of, is_bound_by, is_free, is_install, phase_at};

use crate::table::Row;
use goal_types::{GoalCall, Need, Slot, goal_rule};
use model_merge::merged_configuration;
use model_types::{Execution, Plugin};
use mvn_base::{MAVEN_PLUGINS, Phase, Setting, phase_of};
use mvn_shared::{List, Mem, Text};
use std::alloc::Global;

/// What the id of a bound execution begins with.
const DEFAULT: &[u8] = b"default-";

// Whether an id is that of the execution which is bound for a goal.
fn is_bound_id(id: &[u8], goal: &[u8]) -> bool
    ensures { result ≡ bytes_eq id.now (bound_id goal.now) }
{
    if id.len() < DEFAULT.len() {
        return false;
    }
    let (front, rest) = id.split_at(DEFAULT.len());
    front == DEFAULT && rest == goal
}

/// Whether a binding gives an execution.
pub(crate) fn is_bound_by(row: &Row, plugin: &Plugin, execution: &Execution) -> bool
    ensures { result ≡ is_bound_by (row_view row.now) (plugin.now, execution.now) }
{
    plugin.group.as_str() == MAVEN_PLUGINS
        && plugin.artifact.as_str() == row.0
        && is_bound_id(execution.id.as_bytes(), row.1.as_bytes())
}

/// The phase of a goal, where it has one.
pub(crate) fn phase_at(plugin: &Plugin, execution: &Execution, goal: &Text) -> Option<Phase>
    ensures { result ≡ phase_at (plugin.now, execution.now) goal.now }
{
    match &execution.phase {
        Some(word) => phase_of(word.as_bytes()),
        None => {
            goal_rule(
                plugin.group.as_bytes(),
                plugin.artifact.as_bytes(),
                goal.as_bytes(),
            )
            .phase
        }
    }
}

/// Whether a goal is the one that installs.
pub(crate) fn is_install(plugin: &Plugin, execution: &Execution, goal: &Text) -> bool
    ensures { result ≡ is_install (plugin.now, execution.now) goal.now }
{
    plugin.group.as_str() == MAVEN_PLUGINS
        && plugin.artifact.as_str() == "maven-install-plugin"
        && goal.as_str() == "install"
}

// A plugin's version, empty where none is declared.
fn version_of(alloc: Global, plugin: &Plugin) -> Mem<Text>
    ensures { IfOk result (λ version. version ≡ unwrap_or plugin.now.version []) }
{
    match &plugin.version {
        Some(version) => Ok(version.clone()?),
        None => Ok(Text::of(String::new(alloc))),
    }
}

// The plugin of a call.
#[derive(Drop)]
struct CalledPlugin {
    group: Text,
    artifact: Text,
    version: Text,
}

// The goal of a call, its execution, and how it is configured.
#[derive(Drop)]
struct CalledGoal {
    goal: Text,
    execution: Text,
    configuration: List<Setting>,
}

// A plugin's name, and its version.
fn called_plugin(alloc: Global, plugin: &Plugin) -> Mem<CalledPlugin>
    ensures { IfOk result (λ called. called ≡ (record {
      group = plugin.now.group;
      artifact = plugin.now.artifact;
      version = unwrap_or plugin.now.version [];
    })) }
{
    let version = version_of(alloc, plugin)?;
    let group = plugin.group.clone()?;
    let artifact = plugin.artifact.clone()?;
    Ok(CalledPlugin {
        group,
        artifact,
        version,
    })
}

// A goal's name, that of its execution, and the configuration of both.
fn called_goal(
    alloc: Global,
    plugin: &Plugin,
    execution: &Execution,
    goal: &Text,
) -> Mem<CalledGoal>
    ensures { IfOk result (λ called. called ≡ (record {
      goal = goal.now;
      execution = execution.now.id;
      configuration = merged_configuration execution.now.configuration plugin.now.configuration;
    })) }
{
    let name = goal.clone()?;
    let id = execution.id.clone()?;
    let configuration = merged_configuration(
        alloc,
        execution.configuration.as_slice(),
        plugin.configuration.as_slice(),
    )?;
    Ok(CalledGoal {
        goal: name,
        execution: id,
        configuration,
    })
}

// The call of a plugin's goal in a phase, with its output's slot and its classpath.
fn call_of(
    plugin: CalledPlugin,
    called: CalledGoal,
    phase: Phase,
    slot: Slot,
    need: Need,
) -> GoalCall
    ensures { result ≡ (record {
      group = plugin.group;
      artifact = plugin.artifact;
      version = plugin.version;
      goal = called.goal;
      execution = called.execution;
      phase = phase;
      configuration = called.configuration;
      slot = slot;
      need = need;
    }) }
{
    let CalledPlugin {
        group,
        artifact,
        version,
    } = plugin;
    let CalledGoal {
        goal,
        execution,
        configuration,
    } = called;
    GoalCall {
        group,
        artifact,
        version,
        goal,
        execution,
        phase,
        configuration,
        slot,
        need,
    }
}

// The call of a goal in a phase.
fn call_at(
    alloc: Global,
    plugin: &Plugin,
    execution: &Execution,
    goal: &Text,
    phase: Phase,
) -> Mem<GoalCall>
    ensures { IfOk result (λ call. call ≡ call_at (plugin.now, execution.now) goal.now phase) }
{
    let rule = goal_rule(
        plugin.group.as_bytes(),
        plugin.artifact.as_bytes(),
        goal.as_bytes(),
    );
    let named = called_plugin(alloc, plugin)?;
    let called = called_goal(alloc, plugin, execution, goal)?;
    Ok(call_of(named, called, phase, rule.slot, rule.need))
}

// A goal's call, where it ever runs, after a list.
fn push_call(
    alloc: Global,
    calls: &mut List<GoalCall>,
    plugin: &Plugin,
    execution: &Execution,
    goal: &Text,
) -> Mem<()>
    ensures { OnOk result
        (calls.new ≡ calls.old
        ++ option_to_list
        (call_in (plugin.now, execution.now) goal.now
        (phase_at (plugin.now, execution.now) goal.now))) }
{
    let Some(phase) = phase_at(plugin, execution, goal) else {
        return Ok(());
    };
    if is_install(plugin, execution, goal) {
        return Ok(());
    }
    calls.push(call_at(alloc, plugin, execution, goal, phase)?)
}

/// The calls of an execution, after a list.
pub(crate) fn push_calls(
    alloc: Global,
    calls: &mut List<GoalCall>,
    plugin: &Plugin,
    execution: &Execution,
) -> Mem<()>
    ensures { OnOk result (calls.new ≡ calls.old ++ calls_of (plugin.now, execution.now)) }
{
    for goal in execution.goals.as_slice() {
        push_call(alloc, calls, plugin, execution, goal)?;
    }
    Ok(())
}
