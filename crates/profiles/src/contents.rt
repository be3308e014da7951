//! What active profiles state, gathered in their order.

ghost use Rattle.std.specs.Prelude.{◌≡◌, ◌++◌, fold, slice_get, IfOk, OnOk};
ghost use Rattle.model_merge.specs.Merging as merging;
ghost use Rattle.profiles.specs.Contents.{all_behind, all_built, base_behind, base_behind_at, build_behind, build_behind_at, no_plugins};
ghost use Rattle.profiles.specs.Injection.{profiles_at};

use model_merge::{Item, copies, settled_plugins};
use model_types::{BuildBase, ModelBase, Plugin, Profile};
use mvn_shared::{List, Mem, Shared};
use std::alloc::Global;

// The items of a list, after another.
fn push_all<T: Item>(list: &mut List<T>, items: &List<T>) -> Mem<()>
    ensures { OnOk result (list.new ≡ list.old ++ items.now) }
{
    for item in items.as_slice() {
        list.push(item.copy()?)?;
    }
    Ok(())
}

// Plugins, each settled, after others.
fn push_plugins(
    alloc: Global,
    list: &mut List<Shared<Plugin>>,
    plugins: &List<Shared<Plugin>>,
) -> Mem<()>
    ensures { OnOk result (list.new ≡ list.old ++ merging.settled_plugins plugins.now) }
{
    push_all(list, &settled_plugins(alloc, plugins.as_slice())?)
}

// What a profile has, after what others have.
fn push_base(base: &mut ModelBase, profile: &Profile) -> Mem<()>
    ensures { OnOk result (base.new ≡ base_behind base.old profile.now) }
{
    push_all(&mut base.modules, &profile.base.modules)?;
    push_all(&mut base.properties, &profile.base.properties)?;
    push_all(&mut base.managed, &profile.base.managed)?;
    push_all(&mut base.dependencies, &profile.base.dependencies)
}

// The plugins of a profile, after those of others.
fn push_build(alloc: Global, build: &mut BuildBase, profile: &Profile) -> Mem<()>
    ensures { OnOk result (build.new ≡ build_behind build.old profile.now) }
{
    push_plugins(alloc, &mut build.plugins, &profile.build.plugins)?;
    push_plugins(
        alloc,
        &mut build.managed_plugins,
        &profile.build.managed_plugins,
    )
}

// What the profile at a place has, after what others have.
fn push_base_at(base: &mut ModelBase, profiles: &[Profile], place: usize) -> Mem<()>
    ensures { OnOk result (base.new ≡ base_behind_at base.old (slice_get profiles.now place)) }
{
    match profiles.get(place) {
        Some(profile) => push_base(base, profile),
        None => Ok(()),
    }
}

// The plugins of the profile at a place, after those of others.
fn push_build_at(
    alloc: Global,
    build: &mut BuildBase,
    profiles: &[Profile],
    place: usize,
) -> Mem<()>
    ensures { OnOk result (build.new ≡ build_behind_at build.old (slice_get profiles.now place)) }
{
    match profiles.get(place) {
        Some(profile) => push_build(alloc, build, profile),
        None => Ok(()),
    }
}

// A copy of the lists.
fn copy_of(own: &ModelBase) -> Mem<ModelBase>
    ensures { IfOk result (λ base. base ≡ own.now) }
{
    let modules = copies(&own.modules)?;
    let properties = copies(&own.properties)?;
    let managed = copies(&own.managed)?;
    let dependencies = copies(&own.dependencies)?;
    Ok(ModelBase {
        modules,
        properties,
        managed,
        dependencies,
    })
}

// What a POM has itself, and then what its profiles at some places have, one by one.
fn base_of(own: &ModelBase, profiles: &[Profile], places: &[usize]) -> Mem<ModelBase>
    ensures { IfOk result (λ base. base
        ≡ fold base_behind own.now (profiles_at profiles.now places.now)) }
{
    let mut base = copy_of(own)?;
    for place in places {
        push_base_at(&mut base, profiles, *place)?;
    }
    Ok(base)
}

// No plugins.
fn no_plugins(alloc: Global) -> BuildBase
    ensures { result ≡ no_plugins }
{
    BuildBase {
        plugins: List::new(alloc),
        managed_plugins: List::new(alloc),
    }
}

// The plugins of profiles at some places, one by one.
fn build_of(alloc: Global, profiles: &[Profile], places: &[usize]) -> Mem<BuildBase>
    ensures { IfOk result (λ build. build
        ≡ fold build_behind no_plugins (profiles_at profiles.now places.now)) }
{
    let mut build = no_plugins(alloc);
    for place in places {
        push_build_at(alloc, &mut build, profiles, *place)?;
    }
    Ok(build)
}

/// What a POM has itself, and then what its profiles at some places have. Costs the lists; the items are
/// shared.
#[tactic(auto, using(crate::proofs::Gathering::bases_behind))]
pub(crate) fn gathered_base(
    own: &ModelBase,
    profiles: &[Profile],
    places: &[usize],
) -> Mem<ModelBase>
    ensures { IfOk result (λ base. base
        ≡ all_behind own.now (profiles_at profiles.now places.now)) }
{
    base_of(own, profiles, places)
}

/// The plugins of profiles at some places, those of each profile settled. Costs the lists, on the average;
/// the items are shared.
#[tactic(auto, using(crate::proofs::Gathering::builds_behind))]
pub(crate) fn gathered_build(
    alloc: Global,
    profiles: &[Profile],
    places: &[usize],
) -> Mem<BuildBase>
    ensures { IfOk result (λ build. build
        ≡ all_built no_plugins (profiles_at profiles.now places.now)) }
{
    build_of(alloc, profiles, places)
}
