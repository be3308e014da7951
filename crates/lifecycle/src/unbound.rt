//! The goals of a model that have no phase, by name.

ghost use Rattle.std.specs.Prelude.{◌≡◌, ◌++◌, map, filter, flat_map, if◌then◌else◌, [], ◌∷◌, IfOk, OnOk};
ghost use Rattle.lifecycle.specs.Goals.{executions_of, is_unbound, unbound, unbound_of, unbound_text};

use goal_types::goal_rule;
use model_types::{Execution, Plugin};
use mvn_shared::{List, Mem, Shared, Text};
use std::alloc::Global;

// Whether a goal has no phase.
fn is_unbound(plugin: &Plugin, execution: &Execution, goal: &Text) -> bool
    ensures { result ≡ is_unbound (plugin.now, execution.now) goal.now }
{
    execution.phase.is_none()
        && goal_rule(
            plugin.group.as_bytes(),
            plugin.artifact.as_bytes(),
            goal.as_bytes(),
        )
        .phase
        .is_none()
}

// How a goal without a phase is shown.
fn unbound_text(alloc: Global, plugin: &Plugin, execution: &Execution, goal: &Text) -> Mem<Text>
    ensures { IfOk result (λ text. text ≡ unbound_text (plugin.now, execution.now) goal.now) }
{
    let artifact = &plugin.artifact;
    let id = &execution.id;
    Ok(Text::of(format!(in alloc; "{artifact}:{goal} {id}")?))
}

// A goal, after a list where it has no phase.
fn push_goal(
    alloc: Global,
    list: &mut List<Text>,
    plugin: &Plugin,
    execution: &Execution,
    goal: &Text,
) -> Mem<()>
    ensures { OnOk result
        (list.new ≡ list.old
        ++ map (unbound_text (plugin.now, execution.now))
        (filter (is_unbound (plugin.now, execution.now)) (goal.now ∷ []))) }
{
    if !is_unbound(plugin, execution, goal) {
        return Ok(());
    }
    list.push(unbound_text(alloc, plugin, execution, goal)?)
}

// The goals of an execution that have no phase.
fn push_execution(
    alloc: Global,
    list: &mut List<Text>,
    plugin: &Plugin,
    execution: &Execution,
) -> Mem<()>
    ensures { OnOk result (list.new ≡ list.old ++ unbound_of (plugin.now, execution.now)) }
{
    for goal in execution.goals.as_slice() {
        push_goal(alloc, list, plugin, execution, goal)?;
    }
    Ok(())
}

// The goals of a plugin that have no phase.
#[tactic(auto, using(crate::proofs::Walking::flat_more))]
fn push_plugin(alloc: Global, list: &mut List<Text>, plugin: &Plugin) -> Mem<()>
    ensures { OnOk result (list.new ≡ list.old ++ flat_map unbound_of (executions_of plugin.now)) }
{
    for execution in plugin.executions.as_slice() {
        push_execution(alloc, list, plugin, execution)?;
    }
    Ok(())
}

/// The goals that have no phase, by plugin, execution and goal, each as `artifact:goal execution`. Costs their texts
/// and a look at each goal.
#[tactic(auto, using(crate::proofs::Walking::flat_more))]
pub(crate) fn unbound(alloc: Global, plugins: &[Shared<Plugin>]) -> Mem<List<Text>>
    ensures { IfOk result (λ list. list ≡ unbound plugins.now) }
{
    let mut list = List::new(alloc);
    for plugin in plugins {
        push_plugin(alloc, &mut list, plugin)?;
    }
    Ok(list)
}
