//! The edges from one module, firm and soft, by what its model names.

ghost use Rattle.std.specs.Prelude.{◌≡◌, ◌<◌, ◌++◌, flat_map, length, IfOk, OnOk};
ghost use Rattle.std.specs.Option.{option_copied};
ghost use Rattle.reactor.specs.Edges.{by_dependency, by_extension, by_parent, by_plugin, by_winner, edges_to, firm_upstreams, soft_edges, soft_upstreams};
ghost use Rattle.reactor.specs.Index.{IsIndex};
ghost use Rattle.reactor.specs.Naming.{stated};

use crate::index::ModuleIndex;
use crate::naming::push_named;
use model_types::{Dependency, Model, Plugin};
use mvn_base::Gav;
use mvn_shared::{List, Mem, Shared, Text};
use std::alloc::Global;

// Edges to what dependencies name.
fn push_dependencies(
    alloc: Global,
    modules: &[Shared<Model>],
    index: &ModuleIndex,
    from: u32,
    dependencies: &List<Shared<Dependency>>,
    edges: &mut Vec<(u32, u32)>,
) -> Mem<()>
    requires { IsIndex modules.now index.now }
    ensures { OnOk result (edges.new.items ≡ edges.old.items ++ edges_to from
        (flat_map (by_dependency modules.now) dependencies.now)) }
{
    for d in dependencies.as_slice() {
        let version = d.version.as_ref();
        push_named(
            alloc,
            modules,
            index,
            from,
            &d.group,
            &d.artifact,
            version,
            edges,
        )?;
    }
    Ok(())
}

// Edges to what a parent names.
fn push_parent(
    alloc: Global,
    modules: &[Shared<Model>],
    index: &ModuleIndex,
    from: u32,
    parent: &Option<Shared<Gav>>,
    edges: &mut Vec<(u32, u32)>,
) -> Mem<()>
    requires { IsIndex modules.now index.now }
    ensures { OnOk result (edges.new.items ≡ edges.old.items ++ edges_to from
        (by_parent modules.now parent.now)) }
{
    match parent {
        Some(gav) => {
            let version = Some(&gav.version);
            push_named(
                alloc,
                modules,
                index,
                from,
                &gav.group,
                &gav.artifact,
                version,
                edges,
            )
        }
        None => Ok(()),
    }
}

// Edges to what a plugin names, and then its dependencies.
fn push_plugin(
    alloc: Global,
    modules: &[Shared<Model>],
    index: &ModuleIndex,
    from: u32,
    plugin: &Plugin,
    edges: &mut Vec<(u32, u32)>,
) -> Mem<()>
    requires { IsIndex modules.now index.now }
    ensures { OnOk result (edges.new.items ≡ edges.old.items ++ edges_to from
        (by_plugin modules.now plugin.now)) }
{
    let version = plugin.version.as_ref();
    push_named(
        alloc,
        modules,
        index,
        from,
        &plugin.group,
        &plugin.artifact,
        version,
        edges,
    )?;
    push_dependencies(alloc, modules, index, from, &plugin.dependencies, edges)
}

// Edges to what plugins name.
fn push_plugins(
    alloc: Global,
    modules: &[Shared<Model>],
    index: &ModuleIndex,
    from: u32,
    plugins: &List<Shared<Plugin>>,
    edges: &mut Vec<(u32, u32)>,
) -> Mem<()>
    requires { IsIndex modules.now index.now }
    ensures { OnOk result (edges.new.items ≡ edges.old.items ++ edges_to from
        (flat_map (by_plugin modules.now) plugins.now)) }
{
    for plugin in plugins.as_slice() {
        push_plugin(alloc, modules, index, from, plugin, edges)?;
    }
    Ok(())
}

// Edges to what an extension names.
fn push_extension(
    alloc: Global,
    modules: &[Shared<Model>],
    index: &ModuleIndex,
    from: u32,
    extension: &Gav,
    edges: &mut Vec<(u32, u32)>,
) -> Mem<()>
    requires { IsIndex modules.now index.now }
    ensures { OnOk result (edges.new.items ≡ edges.old.items ++ edges_to from
        (by_extension modules.now extension.now)) }
{
    let version = if extension.version.is_empty() {
        None
    } else {
        Some(&extension.version)
    };
    push_named(
        alloc,
        modules,
        index,
        from,
        &extension.group,
        &extension.artifact,
        version,
        edges,
    )
}

// Edges to what extensions name.
fn push_extensions(
    alloc: Global,
    modules: &[Shared<Model>],
    index: &ModuleIndex,
    from: u32,
    extensions: &List<Gav>,
    edges: &mut Vec<(u32, u32)>,
) -> Mem<()>
    requires { IsIndex modules.now index.now }
    ensures { OnOk result (edges.new.items ≡ edges.old.items ++ edges_to from
        (flat_map (by_extension modules.now) extensions.now)) }
{
    for extension in extensions.as_slice() {
        push_extension(alloc, modules, index, from, extension, edges)?;
    }
    Ok(())
}

/// Adds the firm edges from a module, which are kept in any case: to the modules that its dependencies name, in their
/// order, and to its parent; an index of these modules leads to them. Costs what it names, on the average, and the
/// modules of one artifact. Guide to Working with Multiple Modules, "Reactor Sorting".
pub fn push_firm(
    alloc: Global,
    modules: &[Shared<Model>],
    index: &ModuleIndex,
    from: u32,
    model: &Model,
    edges: &mut Vec<(u32, u32)>,
) -> Mem<()>
    requires { IsIndex modules.now index.now }
    ensures { OnOk result (edges.new.items ≡ edges.old.items ++ edges_to from
        (firm_upstreams modules.now model.now)) }
{
    push_dependencies(alloc, modules, index, from, &model.base.dependencies, edges)?;
    push_parent(alloc, modules, index, from, &model.parent, edges)
}

/// Adds the firm edges from a module that a winner of its dependencies names by its group, its artifact and its version. Costs the
/// modules of one artifact. That what a dependency of a dependency names is built first is a project rule.
pub fn push_winner(
    alloc: Global,
    modules: &[Shared<Model>],
    index: &ModuleIndex,
    from: u32,
    group: &Text,
    artifact: &Text,
    version: &Text,
    edges: &mut Vec<(u32, u32)>,
) -> Mem<()>
    requires { IsIndex modules.now index.now }
    ensures { OnOk result (edges.new.items ≡ edges.old.items ++ edges_to from
        (by_winner modules.now
        (record { group = group.now; artifact = artifact.now; version = version.now }))) }
{
    push_named(
        alloc,
        modules,
        index,
        from,
        group,
        artifact,
        Some(version),
        edges,
    )
}

// Adds the soft edges from a module: to what its plugins and its extensions name.
fn push_soft(
    alloc: Global,
    modules: &[Shared<Model>],
    index: &ModuleIndex,
    from: u32,
    model: &Model,
    edges: &mut Vec<(u32, u32)>,
) -> Mem<()>
    requires { IsIndex modules.now index.now }
    ensures { OnOk result (edges.new.items ≡ edges.old.items ++ edges_to from
        (soft_upstreams modules.now model.now)) }
{
    push_plugins(
        alloc,
        modules,
        index,
        from,
        &model.build.base.plugins,
        edges,
    )?;
    push_extensions(alloc, modules, index, from, &model.build.extensions, edges)
}

/// The soft edges of all modules, each of which is left out if it closes a circle: module by module to what each plugin names, and then its
/// dependencies, and to what its extensions name. Costs what all models name, and for each the modules of its artifact. Guide to Working
/// with Multiple Modules, "Reactor Sorting"; that they are soft is a project rule.
#[tactic(auto, unfolding(crate::specs::Edges::soft_edges))]
pub fn soft_edges(
    alloc: Global,
    modules: &[Shared<Model>],
    index: &ModuleIndex,
) -> Mem<Vec<(u32, u32)>>
    requires few { length modules.now < 4294967296 }
    requires index { IsIndex modules.now index.now }
    ensures { IfOk result (λ edges. edges.items ≡ soft_edges modules.now) }
{
    let mut edges = Vec::new(alloc);
    for number in 0..modules.len() {
        push_soft(
            alloc,
            modules,
            index,
            number as u32,
            &modules[number],
            &mut edges,
        )?;
    }
    Ok(edges)
}
