// The goal that a request names.
ghost use Rattle.std.specs.Prelude.{◌≡◌, Some, IfOk};
ghost use Rattle.std.specs.Option.{option_map};
ghost use Rattle.serde_json.specs.View.{view};
ghost use Rattle.goal_program.specs.Calls.{plugin_in, plugin_parts, call_of, call_in, gav_in};

use crate::members::{items_at, text_at};
use crate::setting::configuration_in;
use crate::text::cut;
use goal_types::{GoalCall, GoalRule, goal_rule};
use mvn_base::{Gav, Phase, Setting, phase_of};
use mvn_shared::{List, Mem, Text};
use serde_json::Value;
use std::alloc::Global;

/// A plugin's text, cut at its first two colons.
#[derive(Clone, Copy)]
struct Plugin<'a> {
    group: &'a str,
    artifact: &'a str,
    version: &'a str,
}

// The parts of a plugin's text.
fn plugin_in<'a>(text: &'a str) -> Option<Plugin<'a>>
    ensures { option_map plugin_parts result ≡ plugin_in text.now }
{
    let (group, rest) = cut(text, ':')?;
    let (artifact, version) = cut(rest, ':')?;
    Some(Plugin {
        group,
        artifact,
        version,
    })
}

// The coordinates that these texts are.
fn coordinates_of(alloc: Global, group: &str, artifact: &str, version: &str) -> Mem<Gav>
    ensures { IfOk result (λ gav.
        gav ≡ record { group = group.now; artifact = artifact.now; version = version.now }) }
{
    let group = Text::from_str(alloc, group)?;
    let artifact = Text::from_str(alloc, artifact)?;
    let version = Text::from_str(alloc, version)?;
    Ok(Gav {
        group,
        artifact,
        version,
    })
}

// What a call is named by.
#[derive(Drop)]
struct Named {
    coordinates: Gav,
    goal: Text,
    execution: Text,
}

fn name_of(alloc: Global, plugin: Plugin<'_>, goal: &str, execution: &str) -> Mem<Named>
    ensures coordinates { IfOk result (λ named. named.coordinates ≡ (record {
      group = (plugin_parts plugin.entry).group;
      artifact = (plugin_parts plugin.entry).artifact;
      version = (plugin_parts plugin.entry).version;
    })) }
    ensures goal { IfOk result (λ named. named.goal ≡ goal.now) }
    ensures execution { IfOk result (λ named. named.execution ≡ execution.now) }
{
    let goal = Text::from_str(alloc, goal)?;
    let execution = Text::from_str(alloc, execution)?;
    let coordinates = coordinates_of(alloc, plugin.group, plugin.artifact, plugin.version)?;
    Ok(Named {
        coordinates,
        goal,
        execution,
    })
}

// A call of these.
fn joined(named: Named, phase: Phase, configuration: List<Setting>, rule: GoalRule) -> GoalCall
    ensures { result ≡ (record {
      group = named.coordinates.group;
      artifact = named.coordinates.artifact;
      version = named.coordinates.version;
      goal = named.goal;
      execution = named.execution;
      phase = phase;
      configuration = configuration;
      slot = rule.slot;
      need = rule.need;
    }) }
{
    let Named {
        coordinates,
        goal,
        execution,
    } = named;
    let Gav {
        group,
        artifact,
        version,
    } = coordinates;
    GoalCall {
        group,
        artifact,
        version,
        goal,
        execution,
        phase,
        configuration,
        slot: rule.slot,
        need: rule.need,
    }
}

// A call of these parts, with the slot and the classpath that its goal has by default.
fn call_of(
    alloc: Global,
    plugin: Plugin<'_>,
    goal: &str,
    execution: &str,
    phase: Phase,
    configuration: List<Setting>,
) -> Mem<GoalCall>
    ensures { IfOk result (λ call. Some call
        ≡ call_of (Some (plugin_parts plugin.entry)) (Some goal.now) (Some execution.now)
        (Some phase) (Some configuration)) }
{
    let rule = goal_rule(
        plugin.group.as_bytes(),
        plugin.artifact.as_bytes(),
        goal.as_bytes(),
    );
    let named = name_of(alloc, plugin, goal, execution)?;
    Ok(joined(named, phase, configuration, rule))
}

/// The call that a request's line names.
pub(crate) fn call_in(alloc: Global, value: &Value) -> Mem<Option<GoalCall>>
    ensures { IfOk result (λ found. found ≡ call_in (view value.now)) }
{
    let (Some(plugin), Some(goal), Some(execution)) = (
        text_at(value, "plugin").and_then(plugin_in),
        text_at(value, "goal"),
        text_at(value, "execution"),
    ) else {
        return Ok(None);
    };
    let (Some(phase), Some(items)) = (
        text_at(value, "phase").and_then(|word| phase_of(word.as_bytes())),
        items_at(value, "configuration"),
    ) else {
        return Ok(None);
    };
    let Some(configuration) = configuration_in(alloc, items)? else {
        return Ok(None);
    };
    Ok(Some(call_of(alloc, plugin, goal, execution, phase, configuration)?))
}

/// The module that a request's line names.
pub(crate) fn gav_in(alloc: Global, value: &Value) -> Mem<Option<Gav>>
    ensures { IfOk result (λ found. found ≡ gav_in (view value.now)) }
{
    let (Some(group), Some(artifact), Some(version)) = (
        text_at(value, "groupId"),
        text_at(value, "artifactId"),
        text_at(value, "version"),
    ) else {
        return Ok(None);
    };
    Ok(Some(coordinates_of(alloc, group, artifact, version)?))
}
