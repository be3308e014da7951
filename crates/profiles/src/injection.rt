//! A POM with what its active profiles state.

ghost use Rattle.std.specs.Prelude.{◌≡◌, map, IfOk};
ghost use Rattle.model_merge.specs.Keyed as merging;
ghost use Rattle.model_merge.specs.Keys.{key_of_plugin};
ghost use Rattle.model_merge.specs.Merging.{merged_plugin, settled_plugin};
ghost use Rattle.profiles.specs.Contents.{absorbed_build, settled_base};
ghost use Rattle.profiles.specs.Injection.{inject, inject_base, inject_build, inject_build_base, profiles_at};

use crate::contents::{gathered_base, gathered_build};
use model_merge::{absorbed, copies, each_settled, settled};
use model_types::{Build, BuildBase, Coordinates, ModelBase, Parent, Plugin, Profile, RawModel};
use mvn_base::PomId;
use mvn_shared::{List, Mem, Shared};
use std::alloc::Global;

// Of equal keys the last one counts.
fn settled_base(alloc: Global, base: &ModelBase) -> Mem<ModelBase>
    ensures { IfOk result (λ settled. settled ≡ settled_base base.now) }
{
    let modules = copies(&base.modules)?;
    let properties = settled(alloc, base.properties.as_slice())?;
    let managed = settled(alloc, base.managed.as_slice())?;
    let dependencies = settled(alloc, base.dependencies.as_slice())?;
    Ok(ModelBase {
        modules,
        properties,
        managed,
        dependencies,
    })
}

// What a POM has itself, with what its profiles at some places have.
#[tactic(auto, unfolding(crate::specs::Injection::inject_base))]
fn inject_base(
    alloc: Global,
    own: &ModelBase,
    profiles: &[Profile],
    places: &[usize],
) -> Mem<ModelBase>
    ensures { IfOk result (λ base. base
        ≡ inject_base own.now (profiles_at profiles.now places.now)) }
{
    settled_base(alloc, &gathered_base(own, profiles, places)?)
}

// Plugins, each settled and merged with further ones.
fn absorbed_plugins(
    alloc: Global,
    own: &List<Shared<Plugin>>,
    further: &List<Shared<Plugin>>,
) -> Mem<List<Shared<Plugin>>>
    ensures { IfOk result (λ list. list ≡ merging.absorbed key_of_plugin merged_plugin
        (map settled_plugin own.now) further.now) }
{
    let own = each_settled(alloc, own.as_slice())?;
    absorbed(alloc, own.as_slice(), further.as_slice())
}

// A build's plugins, each settled and merged with further ones.
fn absorbed_build(alloc: Global, own: &BuildBase, further: &BuildBase) -> Mem<BuildBase>
    ensures { IfOk result (λ build. build ≡ absorbed_build own.now further.now) }
{
    let plugins = absorbed_plugins(alloc, &own.plugins, &further.plugins)?;
    let managed_plugins = absorbed_plugins(alloc, &own.managed_plugins, &further.managed_plugins)?;
    Ok(BuildBase {
        plugins,
        managed_plugins,
    })
}

// The plugins of a build, with those of the profiles at some places.
#[tactic(auto, unfolding(crate::specs::Injection::inject_build_base))]
fn inject_build_base(
    alloc: Global,
    own: &BuildBase,
    profiles: &[Profile],
    places: &[usize],
) -> Mem<BuildBase>
    ensures { IfOk result (λ build. build
        ≡ inject_build_base own.now (profiles_at profiles.now places.now)) }
{
    absorbed_build(alloc, own, &gathered_build(alloc, profiles, places)?)
}

// A build, with the plugins of the profiles at some places.
#[tactic(auto, unfolding(crate::specs::Injection::inject_build))]
fn inject_build(alloc: Global, own: &Build, profiles: &[Profile], places: &[usize]) -> Mem<Build>
    ensures { IfOk result (λ build. build
        ≡ inject_build own.now (profiles_at profiles.now places.now)) }
{
    let outputs = own.outputs.share()?;
    let sources = own.sources.share()?;
    let extensions = copies(&own.extensions)?;
    let base = inject_build_base(alloc, &own.base, profiles, places)?;
    Ok(Build {
        outputs,
        sources,
        base: Shared::new(alloc, base)?,
        extensions,
    })
}

// What a POM has that its profiles leave as it is.
#[derive(Drop)]
struct OwnParts {
    pom: Shared<PomId>,
    parent: Option<Shared<Parent>>,
    coordinates: Shared<Coordinates>,
}

// What a POM has with its profiles, and these.
#[derive(Drop)]
struct InjectedParts {
    base: Shared<ModelBase>,
    build: Shared<Build>,
    profiles: Shared<List<Profile>>,
}

// What the profiles of a POM leave as it is.
fn unchanged(raw: &RawModel) -> Mem<OwnParts>
    ensures { IfOk result (λ same. same ≡ (record {
      pom = raw.now.pom;
      parent = raw.now.parent;
      coordinates = raw.now.coordinates;
    })) }
{
    let pom = raw.pom.share()?;
    let parent = raw.parent.clone()?;
    let coordinates = raw.coordinates.share()?;
    Ok(OwnParts {
        pom,
        parent,
        coordinates,
    })
}

// What a POM has with its profiles at some places, and all its profiles.
fn injected(alloc: Global, raw: &RawModel, places: &[usize]) -> Mem<InjectedParts>
    ensures { IfOk result (λ injected. injected ≡ (record {
      base = inject_base raw.now.base (profiles_at raw.now.profiles places.now);
      build = inject_build raw.now.build (profiles_at raw.now.profiles places.now);
      profiles = raw.now.profiles;
    })) }
{
    let profiles = raw.profiles.as_slice();
    let kept = raw.profiles.share()?;
    let base = Shared::new(alloc, inject_base(alloc, &raw.base, profiles, places)?)?;
    let build = Shared::new(alloc, inject_build(alloc, &raw.build, profiles, places)?)?;
    Ok(InjectedParts {
        base,
        build,
        profiles: kept,
    })
}

// The POM of these parts.
fn model_of(same: OwnParts, injected: InjectedParts) -> RawModel
    ensures { result ≡ (record {
      pom = same.pom;
      parent = same.parent;
      coordinates = same.coordinates;
      base = injected.base;
      build = injected.build;
      profiles = injected.profiles;
    }) }
{
    let OwnParts {
        pom,
        parent,
        coordinates,
    } = same;
    let InjectedParts {
        base,
        build,
        profiles,
    } = injected;
    RawModel {
        pom,
        parent,
        coordinates,
        base,
        build,
        profiles,
    }
}

/// A POM with what its profiles at some places have, in the order of these: modules after its own, entries
/// at the place of the one of their key or else at the end, and plugins merged as children with the ones of
/// their names. Costs the lists that are joined, on the average, besides the merging; all else is shared.
/// POM Reference, "Profiles"; the order is a project rule.
#[tactic(auto, unfolding(crate::specs::Injection::inject))]
pub fn inject(alloc: Global, raw: &RawModel, places: &[usize]) -> Mem<RawModel>
    ensures { IfOk result (λ model. model ≡ inject raw.now places.now) }
{
    let same = unchanged(raw)?;
    let injected = injected(alloc, raw, places)?;
    Ok(model_of(same, injected))
}
