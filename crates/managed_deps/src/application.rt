//! Declared dependencies and plugins with what is managed for them.

ghost use Rattle.std.specs.Prelude.{◌≡◌, map, Some, IfOk};
ghost use Rattle.std.specs.Option.{option_copied, option_or};
ghost use Rattle.managed_deps.specs.Managed.{apply_one, apply_plugins, exclusions_of, find_pair, key_of, with_managed};

use crate::set::ManagedSet;
use model_merge::{Keyed, each_settled, merged_under, settled_plugins, stated};
use model_types::{Dependency, Exclusion, Plugin};
use mvn_base::Key;
use mvn_shared::{List, Mem, Shared, Text};
use std::alloc::Global;

// A list that is stated, or else the managed one.
fn exclusions_of(own: &List<Exclusion>, managed: &List<Exclusion>) -> Mem<List<Exclusion>>
    ensures { IfOk result (λ list. list ≡ exclusions_of own.now managed.now) }
{
    if own.as_slice().is_empty() {
        Ok(managed.clone()?)
    } else {
        Ok(own.clone()?)
    }
}

// What a declaration states, or else takes from a managed one.
#[derive(Drop)]
struct Taken {
    version: Option<Text>,
    scope: Option<Text>,
    optional: Text,
    exclusions: List<Exclusion>,
}

fn stated_or_managed(own: &Dependency, managed: &Dependency) -> Mem<Taken>
    ensures { IfOk result (λ taken. taken ≡ (record {
      version = option_or own.now.version managed.now.version;
      scope = option_or own.now.scope managed.now.scope;
      optional = own.now.optional;
      exclusions = exclusions_of own.now.exclusions managed.now.exclusions;
    })) }
{
    let version = stated(&own.version, &managed.version)?;
    let scope = stated(&own.scope, &managed.scope)?;
    let optional = own.optional.clone()?;
    let exclusions = exclusions_of(&own.exclusions, &managed.exclusions)?;
    Ok(Taken {
        version,
        scope,
        optional,
        exclusions,
    })
}

// A declaration of a key.
fn declared(key: Key, taken: Taken) -> Dependency
    ensures { result ≡ (record {
      group = key.group;
      artifact = key.artifact;
      version = taken.version;
      kind = key.kind;
      classifier = key.classifier;
      scope = taken.scope;
      optional = taken.optional;
      exclusions = taken.exclusions;
    }) }
{
    let Key {
        group,
        artifact,
        kind,
        classifier,
    } = key;
    let Taken {
        version,
        scope,
        optional,
        exclusions,
    } = taken;
    Dependency {
        group,
        artifact,
        version,
        kind,
        classifier,
        scope,
        optional,
        exclusions,
    }
}

// A declaration with what it takes from a managed one.
fn with_managed(alloc: Global, own: &Dependency, managed: &Dependency) -> Mem<Dependency>
    ensures { IfOk result (λ value. value ≡ with_managed own.now (Some managed.now)) }
{
    let key = own.key(alloc)?;
    let taken = stated_or_managed(own, managed)?;
    Ok(declared(key, taken))
}

// A shared declaration with what it takes from a managed one.
fn replaced(alloc: Global, own: &Dependency, managed: &Dependency) -> Mem<Shared<Dependency>>
    ensures { IfOk result (λ value. value ≡ with_managed own.now (Some managed.now)) }
{
    let value = with_managed(alloc, own, managed)?;
    Shared::new(alloc, value)
}

// What is managed under the key of a declaration.
fn managed_by<'a>(
    alloc: Global,
    set: &'a ManagedSet,
    dependency: &Dependency,
) -> Mem<Option<&'a Shared<Dependency>>>
    ensures { IfOk result (λ found.
        option_copied found ≡ find_pair set.now (key_of dependency.now)) }
{
    let key = dependency.key(alloc)?;
    Ok(set.find(&key))
}

// A declaration with what is managed under its key.
fn applied(
    alloc: Global,
    dependency: &Shared<Dependency>,
    set: &ManagedSet,
) -> Mem<Shared<Dependency>>
    ensures { IfOk result (λ value. value ≡ apply_one set.now dependency.now) }
{
    match managed_by(alloc, set, dependency)? {
        Some(managed) => replaced(alloc, dependency, managed),
        None => dependency.share(),
    }
}

/// Declarations, each with the version, the scope and the exclusions that are managed under its key where it states
/// none. `optional` isn't managed. Costs a look-up each, and the texts of those that are managed; the others are
/// shared. Introduction to the Dependency Mechanism, "Dependency Management".
pub fn apply(
    alloc: Global,
    dependencies: &[Shared<Dependency>],
    set: &ManagedSet,
) -> Mem<List<Shared<Dependency>>>
    ensures { IfOk result (λ list. list ≡ map (apply_one set.now) dependencies.now) }
{
    let mut list = List::new(alloc);
    for dependency in dependencies {
        list.push(applied(alloc, dependency, set)?)?;
    }
    Ok(list)
}

/// Plugins, each merged as child with the managed one of its name, all of them settled; of equal names in one list the
/// later counts. Costs both, on the average. POM Reference, "Plugin Management".
pub fn apply_plugins(
    alloc: Global,
    plugins: &[Shared<Plugin>],
    managed: &[Shared<Plugin>],
) -> Mem<List<Shared<Plugin>>>
    ensures { IfOk result (λ list. list ≡ apply_plugins plugins.now managed.now) }
{
    let plugins = settled_plugins(alloc, plugins)?;
    let managed = each_settled(alloc, managed)?;
    merged_under(alloc, plugins.as_slice(), managed.as_slice())
}
