// Parts of models as texts.
use crate::shown::{push_build, push_dependencies, push_plugin, push_plugins, push_settings};
use model_types::{Build, Dependency, Plugin};
use mvn_base::Setting;
use mvn_shared::{List, Mem, Shared};
use std::alloc::Global;

/// A build.
pub fn build_text(alloc: Global, build: &Build) -> Mem<String> {
    let mut shown = String::new(alloc);
    push_build(&mut shown, build)?;
    Ok(shown)
}

/// A plugin.
pub fn plugin_text(alloc: Global, plugin: &Plugin) -> Mem<String> {
    let mut shown = String::new(alloc);
    push_plugin(&mut shown, plugin)?;
    Ok(shown)
}

/// Plugins.
pub fn plugins_text(alloc: Global, plugins: &List<Shared<Plugin>>) -> Mem<String> {
    let mut shown = String::new(alloc);
    push_plugins(&mut shown, " plugin[", plugins)?;
    Ok(shown)
}

/// Settings.
pub fn settings_text(alloc: Global, settings: &List<Setting>) -> Mem<String> {
    let mut shown = String::new(alloc);
    push_settings(&mut shown, settings)?;
    Ok(shown)
}

/// Dependencies.
pub fn needs_text(alloc: Global, needs: &List<Shared<Dependency>>) -> Mem<String> {
    let mut shown = String::new(alloc);
    push_dependencies(&mut shown, " needs[", needs)?;
    Ok(shown)
}
