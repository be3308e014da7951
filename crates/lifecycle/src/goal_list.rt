//! The goals of a model up to a phase, in the order in which they run.

ghost use Rattle.std.specs.Prelude.{◌≡◌, ◌++◌, ◌+◌, [], ◌∷◌, nat_eq, map, filter, flat_map, IfOk, OnOk};
ghost use Rattle.std.specs.List.{list_any};
ghost use Rattle.mvn_base.specs.Phase.{phase_number};
ghost use Rattle.goal_types.specs.declared.goal.GoalCall as goal_calls;
ghost use Rattle.lifecycle.specs.Bindings.{row_view};
ghost use Rattle.lifecycle.specs.Goals.{all_calls, calls_before, calls_of, calls_through, declared, executions_of, in_order, installs, installs_in, is_bound_by, is_free, is_reached, rows_of, unbound};

use crate::call::{is_bound_by, is_install, phase_at, push_calls};
use crate::table::{Row, rows_of};
use crate::unbound::unbound;
use goal_types::GoalCall;
use model_types::{Execution, Model, Plugin};
use mvn_base::Phase;
use mvn_shared::{List, Mem, Shared, Text};
use std::alloc::Global;

/// The goals that run up to a phase.
#[derive(Drop)]
pub struct GoalList {
    pub calls: List<GoalCall>,
    /// The goals without a phase, each as `artifact:goal execution`.
    pub unbound: List<Text>,
    /// Whether `install:install` is reached, which is no call.
    pub installs: bool,
}

// The calls of an execution that a binding gives, after a list.
fn push_bound_one(
    alloc: Global,
    calls: &mut List<GoalCall>,
    row: &Row,
    plugin: &Plugin,
    execution: &Execution,
) -> Mem<()>
    ensures { OnOk result
        (calls.new ≡ calls.old
        ++ flat_map calls_of
        (filter (is_bound_by (row_view row.now)) ((plugin.now, execution.now) ∷ []))) }
{
    if !is_bound_by(row, plugin, execution) {
        return Ok(());
    }
    push_calls(alloc, calls, plugin, execution)
}

// The calls that a binding gives among a plugin's executions, after a list.
#[tactic(auto, using(crate::proofs::Walking::flat_filter))]
fn push_bound_in(alloc: Global, calls: &mut List<GoalCall>, row: &Row, plugin: &Plugin) -> Mem<()>
    ensures { OnOk result
        (calls.new ≡ calls.old
        ++ flat_map calls_of (filter (is_bound_by (row_view row.now)) (executions_of plugin.now))) }
{
    for execution in plugin.executions.as_slice() {
        push_bound_one(alloc, calls, row, plugin, execution)?;
    }
    Ok(())
}

// The calls that a binding gives among all plugins' executions, after a list.
#[tactic(auto, using(crate::proofs::Walking::flat_filter))]
fn push_bound(
    alloc: Global,
    calls: &mut List<GoalCall>,
    row: &Row,
    plugins: &[Shared<Plugin>],
) -> Mem<()>
    ensures { OnOk result
        (calls.new ≡ calls.old
        ++ flat_map calls_of (filter (is_bound_by (row_view row.now)) (declared plugins.now))) }
{
    for plugin in plugins {
        push_bound_in(alloc, calls, row, plugin)?;
    }
    Ok(())
}

// The calls that all bindings give, in their order.
#[tactic(auto, using(crate::proofs::Walking::flat_more))]
fn push_all_bound(
    alloc: Global,
    calls: &mut List<GoalCall>,
    rows: &[Row],
    plugins: &[Shared<Plugin>],
) -> Mem<()>
    ensures { OnOk result
        (calls.new ≡ calls.old
        ++ flat_map calls_of
        (flat_map (λ b. filter (is_bound_by b) (declared plugins.now)) (map row_view rows.now))) }
{
    for row in rows {
        push_bound(alloc, calls, row, plugins)?;
    }
    Ok(())
}

// Whether no binding gives an execution.
fn is_free(rows: &[Row], plugin: &Plugin, execution: &Execution) -> bool
    ensures { result ≡ is_free (map row_view rows.now) (plugin.now, execution.now) }
{
    for row in rows {
        if is_bound_by(row, plugin, execution) {
            return false;
        }
    }
    true
}

// The calls of an execution that no binding gives, after a list.
fn push_free_one(
    alloc: Global,
    calls: &mut List<GoalCall>,
    rows: &[Row],
    plugin: &Plugin,
    execution: &Execution,
) -> Mem<()>
    ensures { OnOk result
        (calls.new ≡ calls.old
        ++ flat_map calls_of
        (filter (is_free (map row_view rows.now)) ((plugin.now, execution.now) ∷ []))) }
{
    if !is_free(rows, plugin, execution) {
        return Ok(());
    }
    push_calls(alloc, calls, plugin, execution)
}

// The calls that no binding gives among a plugin's executions, after a list.
#[tactic(auto, using(crate::proofs::Walking::flat_filter))]
fn push_free_in(alloc: Global, calls: &mut List<GoalCall>, rows: &[Row], plugin: &Plugin) -> Mem<()>
    ensures { OnOk result
        (calls.new ≡ calls.old
        ++ flat_map calls_of
        (filter (is_free (map row_view rows.now)) (executions_of plugin.now))) }
{
    for execution in plugin.executions.as_slice() {
        push_free_one(alloc, calls, rows, plugin, execution)?;
    }
    Ok(())
}

// The calls that no binding gives among all plugins' executions, after a list.
#[tactic(auto, using(crate::proofs::Walking::flat_filter))]
fn push_free(
    alloc: Global,
    calls: &mut List<GoalCall>,
    rows: &[Row],
    plugins: &[Shared<Plugin>],
) -> Mem<()>
    ensures { OnOk result
        (calls.new ≡ calls.old
        ++ flat_map calls_of (filter (is_free (map row_view rows.now)) (declared plugins.now))) }
{
    for plugin in plugins {
        push_free_in(alloc, calls, rows, plugin)?;
    }
    Ok(())
}

// The calls of all phases, in the order in which those of one phase run.
#[tactic(auto, using(crate::proofs::Walking::flat_more))]
fn all_calls(alloc: Global, rows: &[Row], plugins: &[Shared<Plugin>]) -> Mem<List<GoalCall>>
    ensures { IfOk result (λ calls. calls ≡ all_calls (map row_view rows.now) plugins.now) }
{
    let mut calls = List::new(alloc);
    push_all_bound(alloc, &mut calls, rows, plugins)?;
    push_free(alloc, &mut calls, rows, plugins)?;
    Ok(calls)
}

/// The bindings of an unknown packaging.
const NO_ROWS: [Row; 0] = [];

/// The calls of all phases, by the bindings of a packaging. Costs them, and a look at each goal for each binding.
fn packaged_calls(
    alloc: Global,
    packaging: &Text,
    plugins: &[Shared<Plugin>],
) -> Mem<List<GoalCall>>
    ensures { IfOk result (λ calls. calls ≡ all_calls (rows_of packaging.now) plugins.now) }
{
    match rows_of(packaging.as_str()) {
        Some(rows) => all_calls(alloc, rows, plugins),
        None => all_calls(alloc, NO_ROWS.as_slice(), plugins),
    }
}

// A copy of a call.
fn copy(call: &GoalCall) -> Mem<GoalCall>
    ensures { IfOk result (λ copy. copy ≡ call.now) }
{
    Ok(call.clone()?)
}

// The calls of a phase, after a list.
fn push_phase(list: &mut List<GoalCall>, calls: &[GoalCall], number: u32) -> Mem<()>
    ensures { OnOk result
        (list.new ≡ list.old
        ++ filter (λ (c : goal_calls.GoalCall). nat_eq (phase_number c.phase) number) calls.now) }
{
    for call in calls {
        if u32::from(call.phase.number()) == number {
            list.push(copy(call)?)?;
        }
    }
    Ok(())
}

/// The calls phase by phase, up to this one. Costs a look at each of them for each phase.
fn by_phases(alloc: Global, calls: &[GoalCall], phase: Phase) -> Mem<List<GoalCall>>
    ensures { IfOk result (λ list. list ≡ calls_before (phase_number phase + 1) calls.now) }
{
    let mut list = List::new(alloc);
    for number in 0..u32::from(phase.number()) + 1 {
        push_phase(&mut list, calls, number)?;
    }
    Ok(list)
}

// Whether a phase comes no later than another.
fn is_reached(phase: Phase, own: Option<Phase>) -> bool
    ensures { result ≡ is_reached phase own }
{
    match own {
        Some(own) => own.number() <= phase.number(),
        None => false,
    }
}

// Whether an execution installs, up to this phase.
fn installs_in(phase: Phase, plugin: &Plugin, execution: &Execution) -> bool
    ensures { result ≡ installs_in phase (plugin.now, execution.now) }
{
    for goal in execution.goals.as_slice() {
        if is_install(plugin, execution, goal)
            && is_reached(phase, phase_at(plugin, execution, goal))
        {
            return true;
        }
    }
    false
}

// Whether a plugin installs.
#[tactic(auto, using(crate::proofs::Walking::any_either))]
fn plugin_installs(phase: Phase, plugin: &Plugin) -> bool
    ensures { result ≡ list_any (installs_in phase) (executions_of plugin.now) }
{
    for execution in plugin.executions.as_slice() {
        if installs_in(phase, plugin, execution) {
            return true;
        }
    }
    false
}

/// Whether installing is reached. Costs a look at each goal.
#[tactic(auto, using(crate::proofs::Walking::any_either))]
fn installs(phase: Phase, plugins: &[Shared<Plugin>]) -> bool
    ensures { result ≡ installs phase plugins.now }
{
    for plugin in plugins {
        if plugin_installs(phase, plugin) {
            return true;
        }
    }
    false
}

/// The goals of a model that run up to a phase, phase by phase: in each the executions that the packaging binds, in the
/// order of its bindings, and then the others by plugin, execution and goal, each with its execution's configuration
/// over its plugin's. Costs them, and a look at each goal for each of the 23 phases and for each of at most eight
/// bindings. Introduction to the Build Lifecycle.
#[tactic(auto, unfolding(crate::specs::Goals::calls_through))]
pub fn goals(alloc: Global, model: &Model, phase: Phase) -> Mem<GoalList>
    ensures calls { IfOk result (λ list.
        list.calls ≡ calls_through phase model.now.packaging model.now.build.base.plugins) }
    ensures unbound { IfOk result (λ list. list.unbound ≡ unbound model.now.build.base.plugins) }
    ensures installs { IfOk result (λ list.
        list.installs ≡ installs phase model.now.build.base.plugins) }
{
    let plugins = model.build.base.plugins.as_slice();
    let all = packaged_calls(alloc, &model.packaging, plugins)?;
    let calls = by_phases(alloc, all.as_slice(), phase)?;
    let unbound = unbound(alloc, plugins)?;
    Ok(GoalList {
        calls,
        unbound,
        installs: installs(phase, plugins),
    })
}
