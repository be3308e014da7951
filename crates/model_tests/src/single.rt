// A plugin and its executions, merged with themselves or settled.
use crate::joining::plugins;
use model_merge::{Keyed, Mergeable, merged_execution, settled_plugin};
use model_types::Plugin;
use mvn_base::ModelError;
use mvn_shared::{Mem, Shared, Text};
use std::alloc::Global;

// The plugin at this place of a POM, if there is one.
fn plugin_at(alloc: Global, inside: &str, at: usize) -> Result<Option<Shared<Plugin>>, ModelError> {
    let plugins = plugins(alloc, inside)?;
    match plugins.get(at) {
        Some(plugin) => Ok(Some(plugin.share()?)),
        None => Ok(None),
    }
}

// The artifact of its key.
fn artifact_of(alloc: Global, plugin: Option<&Shared<Plugin>>) -> Mem<Option<Text>> {
    match plugin {
        Some(plugin) => Ok(Some(plugin.key(alloc)?.artifact)),
        None => Ok(None),
    }
}

/// The artifact of the key of the plugin at this place of a POM, if there is one. Project rule.
pub fn key_artifact(alloc: Global, inside: &str, at: usize) -> Result<Option<Text>, ModelError> {
    let plugin = plugin_at(alloc, inside, at)?;
    Ok(artifact_of(alloc, plugin.as_ref())?)
}

// Whether a plugin that is merged with itself is inherited.
fn merged_inherited(alloc: Global, plugin: Option<&Shared<Plugin>>) -> Mem<bool> {
    match plugin {
        Some(plugin) => Ok(Plugin::merged(alloc, plugin, plugin)?.inherited),
        None => Ok(false),
    }
}

/// Whether the plugin at this place of a POM is inherited once it is merged with itself; false if there is none.
/// Project rule.
pub fn is_inherited(alloc: Global, inside: &str, at: usize) -> Result<bool, ModelError> {
    let plugin = plugin_at(alloc, inside, at)?;
    Ok(merged_inherited(alloc, plugin.as_ref())?)
}

// Whether a plugin's first execution is inherited once it is merged with itself.
fn execution_inherited(alloc: Global, plugin: &Plugin) -> Mem<bool> {
    match plugin.executions.get(0) {
        Some(execution) => Ok(merged_execution(alloc, execution, execution)?.inherited),
        None => Ok(false),
    }
}

/// Whether the first execution of the plugin at this place of a POM is inherited once it is merged with itself; false
/// if there is none. Project rule.
pub fn is_execution_inherited(alloc: Global, inside: &str, at: usize) -> Result<bool, ModelError> {
    match plugin_at(alloc, inside, at)? {
        Some(plugin) => Ok(execution_inherited(alloc, &plugin)?),
        None => Ok(false),
    }
}

// How many executions a plugin has once it is settled.
fn settled_executions(alloc: Global, plugin: Option<&Shared<Plugin>>) -> Mem<usize> {
    match plugin {
        Some(plugin) => Ok(settled_plugin(alloc, plugin)?.executions.len()),
        None => Ok(0),
    }
}

/// How many executions the plugin at this place of a POM has once it is settled; 0 if there is no such plugin. Project
/// rule.
pub fn executions_left(alloc: Global, inside: &str, at: usize) -> Result<usize, ModelError> {
    let plugin = plugin_at(alloc, inside, at)?;
    Ok(settled_executions(alloc, plugin.as_ref())?)
}
