// Lists of plugins that are joined, or settled.
use inheritance::inherited_plugins;
use model_merge::{
    absorbed, copies, each_settled, merged_lists, merged_over, merged_under, settled_plugins,
};
use model_types::Plugin;
use mvn_base::ModelError;
use mvn_shared::{List, Mem, Shared};
use row_models::behind;
use std::alloc::Global;

/// How the plugins of a POM and of its parent become one list.
#[derive(Clone, Copy)]
pub enum Way {
    /// Those of the POM, each over the parent's of its key (`merged_under`).
    Under,
    /// Those of the POM, and then those that the parent has besides (`absorbed`).
    Both,
    /// Those of the parent, and then those that the POM has besides (`merged_lists`).
    Lists,
    /// As they are inherited (`inherited_plugins`).
    Inherited,
    /// Those of the POM alone, each settled (`each_settled`).
    Each,
    /// Those of the POM alone, settled (`settled_plugins`).
    Settled,
}

// The plugins of a list.
type Plugins<'a> = &'a [Shared<Plugin>];

/// The plugins of a POM.
pub(crate) fn plugins(alloc: Global, inside: &str) -> Result<List<Shared<Plugin>>, ModelError> {
    let model = behind(alloc, inside)?;
    Ok(copies(&model.build.base.plugins)?)
}

// The name of each plugin, with a `!` after it where it has a version.
fn shown(alloc: Global, plugins: Plugins<'_>) -> Mem<String> {
    let mut shown = String::new(alloc);
    for plugin in plugins {
        shown.push_str(plugin.artifact.as_str())?;
        shown.push_str(if plugin.version.is_some() { "!" } else { "" })?;
    }
    Ok(shown)
}

// One list of two.
fn list_of(
    alloc: Global,
    way: Way,
    child: Plugins<'_>,
    parent: Plugins<'_>,
) -> Mem<List<Shared<Plugin>>> {
    match way {
        Way::Under => merged_under(alloc, child, parent),
        Way::Both => absorbed(alloc, child, parent),
        Way::Lists => merged_lists(alloc, child, parent),
        Way::Inherited => inherited_plugins(alloc, child, parent),
        Way::Each => each_settled(alloc, child),
        Way::Settled => settled_plugins(alloc, child),
    }
}

// The one list of two as a text.
fn shown_list(alloc: Global, way: Way, child: Plugins<'_>, parent: Plugins<'_>) -> Mem<String> {
    shown(alloc, list_of(alloc, way, child, parent)?.as_slice())
}

// The one list of a POM's plugins and a parent's, as a text.
fn with_parent(
    alloc: Global,
    way: Way,
    child: Plugins<'_>,
    parent: &str,
) -> Result<String, ModelError> {
    let parent = plugins(alloc, parent)?;
    Ok(shown_list(alloc, way, child, parent.as_slice())?)
}

/// The plugins of a POM and of its parent in one list: the name of each, with a `!` after it where it has a version.
/// Project rule.
pub fn joined(alloc: Global, way: Way, child: &str, parent: &str) -> Result<String, ModelError> {
    let child = plugins(alloc, child)?;
    with_parent(alloc, way, child.as_slice(), parent)
}

// A parent's plugins, with what the POM adds to each, as a text.
fn shown_over(alloc: Global, child: Plugins<'_>, parent: List<Shared<Plugin>>) -> Mem<String> {
    shown(alloc, merged_over(alloc, child, parent)?.as_slice())
}

// The plugins of the parent that a text spells, with what the POM adds to each, as a text.
fn over_parent(alloc: Global, child: Plugins<'_>, parent: &str) -> Result<String, ModelError> {
    let parent = plugins(alloc, parent)?;
    Ok(shown_over(alloc, child, parent)?)
}

/// The plugins of the parent alone, each under the POM's of its key (`merged_over`), as `joined` spells them. Project
/// rule.
pub fn joined_over(alloc: Global, child: &str, parent: &str) -> Result<String, ModelError> {
    let child = plugins(alloc, child)?;
    over_parent(alloc, child.as_slice(), parent)
}
