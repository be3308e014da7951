//! The effective model, put together from a filled model, its plugins and its imports.

ghost use Rattle.std.specs.Prelude.{◌≡◌, Some, codes, filter, map, not, option_map, true, IfOk};
ghost use Rattle.std.specs.List.{list_all};
ghost use Rattle.model_types.specs.declared.model.Parent as parents;
ghost use Rattle.model_types.specs.declared.dependency.Dependency as entries;
ghost use Rattle.model_steps.specs.Assembly.{base_of, build_of, completed, gav_of, is_dropped, kept_as, model_of, plugins_as, settled_base, with_scope};
ghost use Rattle.model_steps.specs.Valid.{has_no_import, is_scoped};

use crate::{is_scope, once, plugins_once, text_or_empty};
use managed_deps::{ManagedSet, apply, managed};
use model_merge::{Keyed, copies, settled};
use model_types::{
    Build, BuildBase, Coordinates, Dependency, Exclusion, Model, ModelBase, Parent, RawModel,
};
use mvn_base::{Gav, Key, PomId};
use mvn_shared::{List, Mem, Shared, Text};
use std::alloc::Global;

// Whether a dependency of a POM that was read by coordinates is left out.
fn is_dropped(d: &Dependency) -> bool
    ensures { result ≡ is_dropped d.now }
{
    d.optional.as_str() == "true"
        || is_scope(&d.scope, "test")
        || is_scope(&d.scope, "provided")
        || is_scope(&d.scope, "system")
}

// The dependencies that aren't left out.
fn transitive(
    alloc: Global,
    dependencies: &List<Shared<Dependency>>,
) -> Mem<List<Shared<Dependency>>>
    ensures { IfOk result (λ list. list
        ≡ filter (λ (d : entries.Dependency). not (is_dropped d)) dependencies.now) }
{
    let mut list = List::new(alloc);
    for dependency in dependencies.as_slice() {
        if !is_dropped(dependency) {
            list.push(dependency.share()?)?;
        }
    }
    Ok(list)
}

// The dependencies of a POM that count.
fn kept_as(
    alloc: Global,
    pom: &PomId,
    dependencies: &List<Shared<Dependency>>,
) -> Mem<List<Shared<Dependency>>>
    ensures { IfOk result (λ list. list ≡ kept_as pom.now dependencies.now) }
{
    match pom {
        PomId::Path(_) => copies(dependencies),
        PomId::Gav(_) => transitive(alloc, dependencies),
    }
}

// What a dependency states beside its key.
#[derive(Drop)]
struct Stated {
    version: Option<Text>,
    scope: Text,
    optional: Text,
    exclusions: List<Exclusion>,
}

// The exclusions of a dependency.
fn exclusions_of(d: &Dependency) -> Mem<List<Exclusion>>
    ensures { IfOk result (λ list. list ≡ d.now.exclusions) }
{
    Ok(d.exclusions.clone()?)
}

// What a dependency states, with the scope `compile`.
fn with_compile(alloc: Global, d: &Dependency) -> Mem<Stated>
    ensures { IfOk result (λ it. it ≡ (record {
      version = d.now.version;
      scope = codes "compile";
      optional = d.now.optional;
      exclusions = d.now.exclusions;
    })) }
{
    let version = d.version.clone()?;
    let scope = Text::from_str(alloc, "compile")?;
    let optional = d.optional.clone()?;
    let exclusions = exclusions_of(d)?;
    Ok(Stated {
        version,
        scope,
        optional,
        exclusions,
    })
}

// A dependency of a key.
fn declared(key: Key, stated: Stated) -> Dependency
    ensures { result ≡ (record {
      group = key.group;
      artifact = key.artifact;
      version = stated.version;
      kind = key.kind;
      classifier = key.classifier;
      scope = Some stated.scope;
      optional = stated.optional;
      exclusions = stated.exclusions;
    }) }
{
    let Key {
        group,
        artifact,
        kind,
        classifier,
    } = key;
    let Stated {
        version,
        scope,
        optional,
        exclusions,
    } = stated;
    Dependency {
        group,
        artifact,
        version,
        kind,
        classifier,
        scope: Some(scope),
        optional,
        exclusions,
    }
}

// A copy of a dependency with the scope `compile`.
fn scoped(alloc: Global, d: &Dependency) -> Mem<Dependency>
    ensures { IfOk result (λ it. it ≡ record d.now { scope = Some (codes "compile") }) }
{
    let key = d.key(alloc)?;
    let stated = with_compile(alloc, d)?;
    Ok(declared(key, stated))
}

// A dependency with the scope `compile`, if it has none.
fn with_scope(alloc: Global, d: &Shared<Dependency>) -> Mem<Shared<Dependency>>
    ensures { IfOk result (λ it. it ≡ with_scope d.now) }
{
    match &d.scope {
        Some(_) => d.share(),
        None => Shared::new(alloc, scoped(alloc, d)?),
    }
}

// Copies of dependencies, each with a scope.
fn with_scopes(
    alloc: Global,
    dependencies: &List<Shared<Dependency>>,
) -> Mem<List<Shared<Dependency>>>
    ensures { IfOk result (λ list. list ≡ map with_scope dependencies.now) }
{
    let mut list = List::new(alloc);
    for dependency in dependencies.as_slice() {
        list.push(with_scope(alloc, dependency)?)?;
    }
    Ok(list)
}

// The dependencies of the effective model, of equal keys the last one.
fn completed(
    alloc: Global,
    pom: &PomId,
    set: &ManagedSet,
    dependencies: &List<Shared<Dependency>>,
) -> Mem<List<Shared<Dependency>>>
    ensures { IfOk result (λ list. list ≡ completed pom.now set.now dependencies.now) }
{
    let own = once(alloc, copies(dependencies)?)?;
    let kept = kept_as(alloc, pom, &own)?;
    let applied = apply(alloc, kept.as_slice(), set)?;
    with_scopes(alloc, &applied)
}

// What the project states besides its build.
fn base_of(alloc: Global, pom: &PomId, set: ManagedSet, base: &ModelBase) -> Mem<Shared<ModelBase>>
    ensures { IfOk result (λ it. it ≡ base_of pom.now set base.now) }
{
    let dependencies = completed(alloc, pom, &set, &base.dependencies)?;
    let managed = set.into_list(alloc)?;
    let modules = copies(&base.modules)?;
    let properties = copies(&base.properties)?;
    let base = ModelBase {
        modules,
        properties,
        managed,
        dependencies,
    };
    Shared::new(alloc, base)
}

// Plugins, each name once, and each of them settled.
fn settled_base(alloc: Global, base: &BuildBase) -> Mem<Shared<BuildBase>>
    ensures { IfOk result (λ it. it ≡ settled_base base.now) }
{
    let plugins = plugins_once(alloc, base.plugins.as_slice())?;
    let managed_plugins = plugins_once(alloc, base.managed_plugins.as_slice())?;
    let base = BuildBase {
        plugins,
        managed_plugins,
    };
    Shared::new(alloc, base)
}

// The plugins of a POM; those of a module are settled already.
fn plugins_as(alloc: Global, pom: &PomId, base: &Shared<BuildBase>) -> Mem<Shared<BuildBase>>
    ensures { IfOk result (λ it. it ≡ plugins_as pom.now base.now) }
{
    match pom {
        PomId::Path(_) => base.share(),
        PomId::Gav(_) => settled_base(alloc, base),
    }
}

// A build with these plugins, as a POM has them, and of extensions of equal keys the last one.
fn build_of(
    alloc: Global,
    pom: &PomId,
    build: &Build,
    base: &Shared<BuildBase>,
) -> Mem<Shared<Build>>
    ensures { IfOk result (λ it. it ≡ build_of build.now (plugins_as pom.now base.now)) }
{
    let outputs = build.outputs.share()?;
    let sources = build.sources.share()?;
    let base = plugins_as(alloc, pom, base)?;
    let extensions = settled(alloc, build.extensions.as_slice())?;
    let build = Build {
        outputs,
        sources,
        base,
        extensions,
    };
    Shared::new(alloc, build)
}

// The coordinates of a model.
fn gav_of(alloc: Global, coordinates: &Coordinates) -> Mem<Shared<Gav>>
    ensures { IfOk result (λ gav. gav ≡ gav_of coordinates.now) }
{
    let group = text_or_empty(alloc, &coordinates.group)?;
    let artifact = coordinates.artifact.clone()?;
    let version = text_or_empty(alloc, &coordinates.version)?;
    let gav = Gav {
        group,
        artifact,
        version,
    };
    Shared::new(alloc, gav)
}

// The coordinates of a parent, if there is one.
fn parent_of(alloc: Global, parent: &Option<Shared<Parent>>) -> Mem<Option<Shared<Gav>>>
    ensures { IfOk result (λ gav. gav ≡ option_map (λ (p : parents.Parent). p.gav) parent.now) }
{
    match parent {
        Some(parent) => Ok(Some(Shared::new(alloc, parent.gav.clone()?)?)),
        None => Ok(None),
    }
}

// A filled model with its plugins and what each of its imports manages, completed.
#[tactic(auto, unfolding(crate::specs::Assembly::model_of))]
fn composed(
    alloc: Global,
    raw: &RawModel,
    base: &Shared<BuildBase>,
    imports: &[List<Shared<Dependency>>],
) -> Mem<Model>
    ensures { IfOk result (λ model. model ≡ model_of raw.now base.now imports.now) }
{
    let set = managed(alloc, raw.base.managed.as_slice(), imports)?;
    let base_of = base_of(alloc, &raw.pom, set, &raw.base)?;
    let build = build_of(alloc, &raw.pom, &raw.build, base)?;
    let pom = raw.pom.share()?;
    let gav = gav_of(alloc, &raw.coordinates)?;
    let packaging = raw.coordinates.packaging.clone()?;
    let parent = parent_of(alloc, &raw.parent)?;
    Ok(Model {
        pom,
        gav,
        packaging,
        parent,
        base: base_of,
        build,
    })
}

/// The effective model, before it is checked, of a filled model, of its plugins and of the entries that each of its
/// imports manages, in the order of the imports. Of a key the first entry counts: the model's own without its imports,
/// then those of the imports. Of dependencies, of extensions, and of the plugins of a POM by coordinates the last one
/// of each key stands, at the place of the first: expressions may have made keys equal. A dependency takes what is
/// managed under its key, and the scope `compile` if it has none. A POM that was read by coordinates loses the
/// dependencies that are optional or of scope `test`, `provided` or `system` before that. Costs the entries, the
/// dependencies, the extensions and those plugins, on the average. Introduction to the Dependency Mechanism,
/// "Dependency Management"; that a POM by coordinates loses dependencies, and which of one key stands, are project
/// rules.
#[tactic(auto, using(crate::proofs::Completed::scoped, crate::proofs::Completed::no_import_left))]
pub fn model_of(
    alloc: Global,
    raw: &RawModel,
    base: &Shared<BuildBase>,
    imports: &[List<Shared<Dependency>>],
) -> Mem<Model>
    ensures whole { IfOk result (λ model. model ≡ model_of raw.now base.now imports.now) }
    ensures scoped { IfOk result (λ model. is_scoped model ≡ true) }
    ensures no_import { list_all has_no_import imports.now ≡ true
        → IfOk result (λ model. has_no_import model.base.managed ≡ true) }
{
    let model = composed(alloc, raw, base, imports)?;
    Ok(model)
}
