//! A POM with what it inherits from its parent, part by part.

ghost use Rattle.std.specs.Prelude.{◌≡◌, IfOk};
ghost use Rattle.model_merge.specs.Keyed.{with_others};
ghost use Rattle.model_merge.specs.Keys.{key_of_pair};
ghost use Rattle.inheritance.specs.Inherit.{inherit, inherit_base, inherit_build, inherit_build_base, inherit_coordinates, inherit_outputs, inherit_sources};

use crate::placing::inherited_plugins;
use model_merge::{Item, settled, stated, stated_list, with_others};
use model_types::{Build, BuildBase, Coordinates, ModelBase, Outputs, RawModel, Sources};
use mvn_base::Pair;
use mvn_shared::{List, Mem, Shared};
use std::alloc::Global;

// The child's coordinates with what it takes over.
#[tactic(auto, unfolding(crate::specs::Inherit::inherit_coordinates))]
fn inherit_coordinates(
    alloc: Global,
    child: &Coordinates,
    parent: &Coordinates,
) -> Mem<Shared<Coordinates>>
    ensures { IfOk result (λ both. both ≡ inherit_coordinates child.now parent.now) }
{
    let group = stated(&child.group, &parent.group)?;
    let artifact = child.artifact.clone()?;
    let version = stated(&child.version, &parent.version)?;
    let packaging = child.packaging.clone()?;
    let both = Coordinates {
        group,
        artifact,
        version,
        packaging,
    };
    Shared::new(alloc, both)
}

// A child's items, and then its parent's whose keys it hasn't, each list settled. A child without one has its parent's
// alone.
fn taken_over<T: Item>(alloc: Global, child: &[T], parent: &[T]) -> Mem<List<T>>
    ensures { IfOk result (λ list. list ≡ with_others T.key_of child.now parent.now) }
{
    if child.len() == 0 {
        return settled(alloc, parent);
    }
    with_others(alloc, child, parent)
}

// A property whose name its copies share.
fn shared_name(alloc: Global, pair: Pair) -> Mem<Pair>
    ensures { IfOk result (λ same. same ≡ pair) }
{
    let Pair { name, value } = pair;
    let name = name.shared(alloc)?;
    Ok(Pair { name, value })
}

// Properties whose names their copies share: each POM below copies them, and so does what fills its texts.
fn shared_names(alloc: Global, pairs: List<Pair>) -> Mem<List<Pair>>
    ensures { IfOk result (λ same. same ≡ pairs) }
{
    let mut list = pairs.emptied()?;
    for pair in pairs.into_vec() {
        list.push(shared_name(alloc, pair)?)?;
    }
    Ok(list)
}

// The properties of both, as they are taken over.
fn properties_of(alloc: Global, child: &ModelBase, parent: &ModelBase) -> Mem<List<Pair>>
    ensures { IfOk result (λ list.
        list ≡ with_others key_of_pair child.now.properties parent.now.properties) }
{
    let properties = taken_over(
        alloc,
        child.properties.as_slice(),
        parent.properties.as_slice(),
    )?;
    shared_names(alloc, properties)
}

// The child's modules, and the lists that are joined by their keys.
#[tactic(auto, unfolding(crate::specs::Inherit::inherit_base))]
fn inherit_base(alloc: Global, child: &ModelBase, parent: &ModelBase) -> Mem<ModelBase>
    ensures { IfOk result (λ both. both ≡ inherit_base child.now parent.now) }
{
    let modules = child.modules.clone()?;
    let properties = properties_of(alloc, child, parent)?;
    let managed = taken_over(alloc, child.managed.as_slice(), parent.managed.as_slice())?;
    let dependencies = taken_over(
        alloc,
        child.dependencies.as_slice(),
        parent.dependencies.as_slice(),
    )?;
    Ok(ModelBase {
        modules,
        properties,
        managed,
        dependencies,
    })
}

// Where the child's build puts what it makes.
#[tactic(auto, unfolding(crate::specs::Inherit::inherit_outputs))]
fn inherit_outputs(alloc: Global, child: &Outputs, parent: &Outputs) -> Mem<Shared<Outputs>>
    ensures { IfOk result (λ both. both ≡ inherit_outputs child.now parent.now) }
{
    let directory = stated(&child.directory, &parent.directory)?;
    let output = stated(&child.output, &parent.output)?;
    let test_output = stated(&child.test_output, &parent.test_output)?;
    let final_name = stated(&child.final_name, &parent.final_name)?;
    let both = Outputs {
        directory,
        output,
        test_output,
        final_name,
    };
    Shared::new(alloc, both)
}

// Where the child's build finds what it reads.
#[tactic(auto, unfolding(crate::specs::Inherit::inherit_sources))]
fn inherit_sources(alloc: Global, child: &Sources, parent: &Sources) -> Mem<Shared<Sources>>
    ensures { IfOk result (λ both. both ≡ inherit_sources child.now parent.now) }
{
    let source = stated(&child.source, &parent.source)?;
    let test_source = stated(&child.test_source, &parent.test_source)?;
    let resources = stated_list(&child.resources, &parent.resources)?;
    let test_resources = stated_list(&child.test_resources, &parent.test_resources)?;
    let both = Sources {
        source,
        test_source,
        resources,
        test_resources,
    };
    Shared::new(alloc, both)
}

// The child's plugins with what it takes over.
#[tactic(auto, unfolding(crate::specs::Inherit::inherit_build_base))]
fn inherit_build_base(alloc: Global, child: &BuildBase, parent: &BuildBase) -> Mem<BuildBase>
    ensures { IfOk result (λ both. both ≡ inherit_build_base child.now parent.now) }
{
    let plugins = inherited_plugins(alloc, child.plugins.as_slice(), parent.plugins.as_slice())?;
    let managed_plugins = inherited_plugins(
        alloc,
        child.managed_plugins.as_slice(),
        parent.managed_plugins.as_slice(),
    )?;
    Ok(BuildBase {
        plugins,
        managed_plugins,
    })
}

// The child's build with what it takes over.
#[tactic(auto, unfolding(crate::specs::Inherit::inherit_build))]
fn inherit_build(alloc: Global, child: &Build, parent: &Build) -> Mem<Build>
    ensures { IfOk result (λ both. both ≡ inherit_build child.now parent.now) }
{
    let outputs = inherit_outputs(alloc, &child.outputs, &parent.outputs)?;
    let sources = inherit_sources(alloc, &child.sources, &parent.sources)?;
    let base = Shared::new(alloc, inherit_build_base(alloc, &child.base, &parent.base)?)?;
    let extensions = with_others(
        alloc,
        child.extensions.as_slice(),
        parent.extensions.as_slice(),
    )?;
    Ok(Build {
        outputs,
        sources,
        base,
        extensions,
    })
}

/// A POM with what it takes over from the one that it builds on. Costs both, on the average. POM Reference,
/// "Inheritance".
#[tactic(auto, unfolding(crate::specs::Inherit::inherit))]
pub fn inherit(alloc: Global, child: &RawModel, parent: &RawModel) -> Mem<RawModel>
    ensures { IfOk result (λ model. model ≡ inherit child.now parent.now) }
{
    let coordinates = inherit_coordinates(alloc, &child.coordinates, &parent.coordinates)?;
    let base = Shared::new(alloc, inherit_base(alloc, &child.base, &parent.base)?)?;
    let build = Shared::new(alloc, inherit_build(alloc, &child.build, &parent.build)?)?;
    let pom = child.pom.share()?;
    let own_parent = child.parent.clone()?;
    let profiles = child.profiles.share()?;
    Ok(RawModel {
        pom,
        parent: own_parent,
        coordinates,
        base,
        build,
        profiles,
    })
}
