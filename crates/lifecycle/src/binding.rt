//! The plugins that a packaging binds, merged with those that a POM declares.

ghost use Rattle.std.specs.Prelude.{◌≡◌, [], ◌∷◌, map, filter, option_map, IfOk};
ghost use Rattle.std.specs.Str.{bytes_eq};
ghost use Rattle.model_merge.specs.Keyed as keyed;
ghost use Rattle.model_merge.specs.Keyed.{others, overlaid, underlaid};
ghost use Rattle.model_merge.specs.Keys.{key_of_plugin};
ghost use Rattle.model_merge.specs.Merging.{merged_plugin, settled_plugins};
ghost use Rattle.lifecycle.specs.Bindings.{bindings, bound_execution, bound_id, bound_plugin, bound_plugins, bound_to, row_view};

use crate::table::{Row, rows_of};
use model_merge::{appended, each_settled, merged_over, merged_under, others_than, settled};
use model_types::{Execution, Plugin};
use mvn_base::{MAVEN_PLUGINS, Setting};
use mvn_shared::{List, Mem, Shared, Text};
use std::alloc::Global;

// The id of a bound execution.
fn bound_id(alloc: Global, goal: &str) -> Mem<Text>
    ensures { IfOk result (λ id. id ≡ bound_id goal.now) }
{
    Ok(Text::of(format!(in alloc; "default-{goal}")?))
}

// A list of one text.
fn one_text(alloc: Global, text: &str) -> Mem<List<Text>>
    ensures { IfOk result (λ list. list ≡ text.now ∷ []) }
{
    let mut list = List::new(alloc);
    list.push(Text::from_str(alloc, text)?)?;
    Ok(list)
}

// No settings.
fn no_settings(alloc: Global) -> Mem<Shared<List<Setting>>>
    ensures { IfOk result (λ settings. settings ≡ []) }
{
    Shared::new(alloc, List::new(alloc))
}

// The execution that a binding gives.
fn bound_execution(alloc: Global, row: &Row) -> Mem<Shared<Execution>>
    ensures { IfOk result (λ execution. execution ≡ bound_execution (row_view row.now)) }
{
    let (_, goal, phase) = *row;
    let id = bound_id(alloc, goal)?;
    let phase = Some(Text::from_str(alloc, phase.name())?);
    let goals = one_text(alloc, goal)?;
    let configuration = no_settings(alloc)?;
    let execution = Execution {
        id,
        phase,
        goals,
        inherited: true,
        configuration,
    };
    Shared::new(alloc, execution)
}

// The executions that bindings give to a plugin.
fn bound_executions(alloc: Global, rows: &[Row], name: &Text) -> Mem<List<Shared<Execution>>>
    ensures { IfOk result (λ list.
        list ≡ map bound_execution
        (filter (λ b. bytes_eq name.now b.plugin) (map row_view rows.now))) }
{
    let mut list = List::new(alloc);
    for row in rows {
        if name.as_str() == row.0 {
            list.push(bound_execution(alloc, row)?)?;
        }
    }
    Ok(list)
}

// A plugin with its bound executions.
fn bound_plugin(alloc: Global, rows: &[Row], name: &Text) -> Mem<Shared<Plugin>>
    ensures { IfOk result (λ plugin. plugin ≡ bound_plugin (map row_view rows.now) name.now) }
{
    let group = Text::from_str(alloc, MAVEN_PLUGINS)?;
    let artifact = name.clone()?;
    let executions = bound_executions(alloc, rows, name)?;
    let configuration = no_settings(alloc)?;
    let plugin = Plugin {
        group,
        artifact,
        version: None,
        inherited: true,
        dependencies: List::new(alloc),
        executions,
        configuration,
    };
    Shared::new(alloc, plugin)
}

// The plugins of bindings, once for each.
fn names_of(alloc: Global, rows: &[Row]) -> Mem<List<Text>>
    ensures { IfOk result (λ names. names ≡ map (λ b. b.plugin) (map row_view rows.now)) }
{
    let mut names = List::new(alloc);
    for row in rows {
        names.push(Text::from_str(alloc, row.0)?)?;
    }
    Ok(names)
}

// The bound plugins of these bindings.
fn bound_plugins(alloc: Global, rows: &[Row]) -> Mem<List<Shared<Plugin>>>
    ensures { IfOk result (λ plugins. plugins ≡ bound_plugins (map row_view rows.now)) }
{
    let names = settled(alloc, names_of(alloc, rows)?.as_slice())?;
    let mut plugins = List::new(alloc);
    for name in names.as_slice() {
        plugins.push(bound_plugin(alloc, rows, name)?)?;
    }
    Ok(plugins)
}

/// The plugins that a packaging binds, in the order of its bindings, each with an execution `default-goal` for each
/// goal; none exactly where the packaging is unknown. Constant cost. Introduction to the Build Lifecycle, "Built-in
/// Lifecycle Bindings".
pub fn bindings(alloc: Global, packaging: &Text) -> Mem<Option<List<Shared<Plugin>>>>
    ensures { IfOk result (λ plugins. plugins ≡ bindings packaging.now) }
{
    match rows_of(packaging.as_str()) {
        Some(rows) => Ok(Some(bound_plugins(alloc, rows)?)),
        None => Ok(None),
    }
}

// Declared plugins, each in its place over the bound one of its name; both lists are of settled plugins.
fn declared_over(
    alloc: Global,
    plugins: &List<Shared<Plugin>>,
    bound: &List<Shared<Plugin>>,
) -> Mem<List<Shared<Plugin>>>
    ensures { IfOk result (λ list. list ≡ map (underlaid key_of_plugin merged_plugin
        (keyed.settled key_of_plugin bound.now)) (keyed.settled key_of_plugin plugins.now)) }
{
    let plugins = settled(alloc, plugins.as_slice())?;
    merged_under(alloc, plugins.as_slice(), bound.as_slice())
}

// The bound plugins that aren't declared, each below its managed entry; the lists are of settled plugins.
fn others_below(
    alloc: Global,
    plugins: &List<Shared<Plugin>>,
    managed: &[Shared<Plugin>],
    bound: &List<Shared<Plugin>>,
) -> Mem<List<Shared<Plugin>>>
    ensures { IfOk result (λ list. list ≡ map (overlaid key_of_plugin merged_plugin
        (settled_plugins managed.now)) (others key_of_plugin
        (keyed.settled key_of_plugin plugins.now) (keyed.settled key_of_plugin bound.now))) }
{
    let bound = settled(alloc, bound.as_slice())?;
    let further = others_than(alloc, plugins.as_slice(), bound)?;
    let managed = each_settled(alloc, managed)?;
    merged_over(alloc, managed.as_slice(), further)
}

/// Declared plugins, each in its place and merged as child with the bound one of its name, and then the other bound
/// ones, each merged as parent with its managed entry; all of them settled. Costs all lists, on the average.
/// Introduction to the Build Lifecycle; the places are a project rule.
pub fn bind(
    alloc: Global,
    plugins: &[Shared<Plugin>],
    managed: &[Shared<Plugin>],
    bound: List<Shared<Plugin>>,
) -> Mem<List<Shared<Plugin>>>
    ensures { IfOk result (λ list. list ≡ bound_to plugins.now managed.now bound) }
{
    let plugins = each_settled(alloc, plugins)?;
    let bound = each_settled(alloc, bound.as_slice())?;
    let declared = declared_over(alloc, &plugins, &bound)?;
    appended(declared, others_below(alloc, &plugins, managed, &bound)?)
}
