// POMs and parts of POMs that are joined.
use crate::joined_lists::{both_needs, both_properties};
use inheritance::{inherit, super_pom};
use model_merge::{merged_configuration, merged_plugin, settled, with_others};
use model_types::{Dependency, Plugin, RawModel};
use mvn_base::{ModelError, Pair};
use mvn_shared::{Mem, Shared};
use row_models::{behind, build_text, field, model_text, plugin_text, settings_text, word};
use std::alloc::Global;

// A POM with its parent's.
fn inherited(alloc: Global, child: &RawModel, parent: &RawModel) -> Mem<Shared<RawModel>> {
    let model = inherit(alloc, child, parent)?;
    Shared::new(alloc, model)
}

// What a POM has with its parent's.
fn shown_inherited(alloc: Global, child: &RawModel, parent: &RawModel) -> Mem<String> {
    let model = inherited(alloc, child, parent)?;
    model_text(alloc, &model)
}

fn root(alloc: Global) -> Mem<Shared<RawModel>> {
    let root = super_pom(alloc)?;
    Shared::new(alloc, root)
}

fn built_over(alloc: Global, child: &RawModel, parent: &RawModel) -> Mem<String> {
    let model = inherited(alloc, child, parent)?;
    build_text(alloc, &model.build)
}

// How a module is built whose POM builds on no other.
fn over_super(alloc: Global, child: &RawModel) -> Mem<String> {
    let root = root(alloc)?;
    built_over(alloc, child, &root)
}

// Two plugins merged.
fn merged(alloc: Global, child: &Plugin, parent: &Plugin) -> Mem<Shared<Plugin>> {
    let merged = merged_plugin(alloc, child, parent)?;
    Shared::new(alloc, merged)
}

fn plugins(alloc: Global, child: &Plugin, parent: &Plugin) -> Mem<String> {
    let merged = merged(alloc, child, parent)?;
    plugin_text(alloc, &merged)
}

// The configurations of two plugins merged.
fn configurations(alloc: Global, child: &Plugin, parent: &Plugin) -> Mem<String> {
    let child = child.configuration.as_slice();
    let merged = merged_configuration(alloc, child, parent.configuration.as_slice())?;
    settings_text(alloc, &merged)
}

// Two lists of properties joined, and the same settled once more.
fn properties(alloc: Global, child: &[Pair], parent: &[Pair]) -> Mem<String> {
    let joined = with_others(alloc, child, parent)?;
    let again = settled(alloc, joined.as_slice())?;
    both_properties(alloc, &joined, &again)
}

// Two lists of dependencies joined, and the same settled once more.
fn needs(
    alloc: Global,
    child: &[Shared<Dependency>],
    parent: &[Shared<Dependency>],
) -> Mem<String> {
    let joined = with_others(alloc, child, parent)?;
    let again = settled(alloc, joined.as_slice())?;
    both_needs(alloc, &joined, &again)
}

// A join of two plugins.
fn joined_plugins(alloc: Global, kind: &str, child: &Plugin, parent: &Plugin) -> Mem<String> {
    match kind {
        "merged-plugin" => plugins(alloc, child, parent),
        _ => configurations(alloc, child, parent),
    }
}

// A join of the first plugins of two POMs.
fn first_plugins(alloc: Global, kind: &str, child: &RawModel, parent: &RawModel) -> Mem<String> {
    let child = child.build.base.plugins.get(0);
    let parent = parent.build.base.plugins.get(0);
    match (child, parent) {
        (Some(child), Some(parent)) => joined_plugins(alloc, kind, child, parent),
        _ => word(alloc, "no plugin"),
    }
}

// A join of two POMs.
fn joined(alloc: Global, kind: &str, child: &RawModel, parent: &RawModel) -> Mem<String> {
    let (own, others) = (&child.base, &parent.base);
    match kind {
        "inherit" => shown_inherited(alloc, child, parent),
        "properties" => properties(
            alloc,
            own.properties.as_slice(),
            others.properties.as_slice(),
        ),
        "needs" => needs(
            alloc,
            own.dependencies.as_slice(),
            others.dependencies.as_slice(),
        ),
        _ => first_plugins(alloc, kind, child, parent),
    }
}

fn told_of_child(
    alloc: Global,
    kind: &str,
    child: &RawModel,
    parent: &str,
) -> Result<String, ModelError> {
    let parent = behind(alloc, parent)?;
    Ok(joined(alloc, kind, child, &parent)?)
}

/// What becomes of a child's POM and its parent's.
pub(crate) fn told(alloc: Global, kind: &str, fields: &[&str]) -> Result<String, ModelError> {
    let child = behind(alloc, field(fields, 0))?;
    told_of_child(alloc, kind, &child, field(fields, 1))
}

/// How a module is built whose POM builds on no other.
pub(crate) fn told_over_super(alloc: Global, inside: &str) -> Result<String, ModelError> {
    let child = behind(alloc, inside)?;
    Ok(over_super(alloc, &child)?)
}
