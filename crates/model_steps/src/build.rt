//! The plugins that build a module: declared ones, managed ones, and those that its packaging binds.

ghost use Rattle.std.specs.Prelude.{◌≡◌, ◌&&◌, Some, false, option_map, IfOk, IfSome};
ghost use Rattle.std.specs.Str.{bytes_eq};
ghost use Rattle.pom_source.specs.Answers.{Says, build_failed};
ghost use Rattle.model_steps.specs.Alike.{is_base_alike};
ghost use Rattle.model_steps.specs.Building.{bound_base, built, built_by};
ghost use Rattle.lifecycle.specs.Bindings.{bindings};
ghost use Rattle.managed_deps.specs.Managed.{apply_plugins};

use crate::alike::is_base_alike;
use crate::artifacts::plugins_once;
use crate::bound::Bound;
use crate::is_of_project;
use lifecycle::{bind, bindings};
use managed_deps::apply_plugins;
use model_types::{BuildBase, Plugin, RawModel};
use mvn_base::{PomId, Rule};
use mvn_shared::{List, Mem, Shared, Text};
use pom_source::{BuildFault, text_refused};
use std::alloc::Global;

// The declared plugins under their managed entries, at which nothing looks where no plugin is declared.
#[tactic(auto, using(crate::proofs::Declaring::none_declared))]
fn declared_of(alloc: Global, base: &BuildBase) -> Mem<List<Shared<Plugin>>>
    ensures { IfOk result (λ list.
        list ≡ apply_plugins base.now.plugins base.now.managed_plugins) }
{
    if base.plugins.len() == 0 {
        return Ok(List::new(alloc));
    }
    apply_plugins(
        alloc,
        base.plugins.as_slice(),
        base.managed_plugins.as_slice(),
    )
}

// The declared plugins under their managed entries, and the bound ones; the managed ones settled.
fn bound_base(
    alloc: Global,
    base: &BuildBase,
    bound: List<Shared<Plugin>>,
) -> Mem<Shared<BuildBase>>
    ensures { IfOk result (λ it. it ≡ bound_base base.now bound) }
{
    let managed = base.managed_plugins.as_slice();
    let declared = declared_of(alloc, base)?;
    let plugins = bind(alloc, declared.as_slice(), managed, bound)?;
    let managed_plugins = plugins_once(alloc, managed)?;
    let base = BuildBase {
        plugins,
        managed_plugins,
    };
    Shared::new(alloc, base)
}

// The plugins of a module of a packaging.
fn built_by(
    alloc: Global,
    pom: &PomId,
    packaging: &Text,
    base: &BuildBase,
) -> Result<Shared<BuildBase>, BuildFault>
    ensures says { Says (built_by pom.now packaging.now base.now (bindings packaging.now)) result }
    ensures cause { build_failed result ≡ false }
{
    match bindings(alloc, packaging)? {
        None => text_refused(pom, Rule::UnknownPackaging, packaging),
        Some(bound) => Ok(bound_base(alloc, base, bound)?),
    }
}

// Whether what was built serves a packaging and what a module declares.
fn serves(bound: &Bound, packaging: &Text, base: &BuildBase) -> bool
    ensures { result
        ≡ (bytes_eq bound.now.packaging packaging.now && is_base_alike bound.now.base base.now) }
{
    bound.packaging.as_str() == packaging.as_str() && is_base_alike(&bound.base, base)
}

// What was built, if it serves.
fn served(bound: &Bound, packaging: &Text, base: &BuildBase) -> Mem<Option<Shared<BuildBase>>>
    ensures { IfOk result (λ found. IfSome found (λ it.
        option_map (bound_base base.now) (bindings packaging.now) ≡ Some it)) }
{
    if !serves(bound, packaging, base) {
        return Ok(None);
    }
    Ok(Some(bound.built.share()?))
}

// What was built for the last model, if that serves.
fn kept(
    last: &Option<Shared<Bound>>,
    packaging: &Text,
    base: &BuildBase,
) -> Mem<Option<Shared<BuildBase>>>
    ensures { IfOk result (λ found. IfSome found (λ it.
        option_map (bound_base base.now) (bindings packaging.now) ≡ Some it)) }
{
    match last {
        None => Ok(None),
        Some(bound) => served(bound, packaging, base),
    }
}

// What was built for a packaging and what a module declares, to be kept.
#[tactic(auto, using(crate::proofs::Building::bound_so))]
fn bound_of(
    alloc: Global,
    packaging: &Text,
    base: &Shared<BuildBase>,
    built: &Shared<BuildBase>,
) -> Mem<Shared<Bound>>
    requires { option_map (bound_base base.now) (bindings packaging.now) ≡ Some built.now }
{
    let packaging = packaging.clone()?;
    let base = base.share()?;
    let built = built.share()?;
    let bound = Bound {
        packaging,
        base,
        built,
    };
    Shared::new(alloc, bound)
}

// The plugins of a module, kept for the next one.
#[tactic(auto, using(crate::proofs::Building::built_so))]
fn fresh(
    alloc: Global,
    last: &mut Option<Shared<Bound>>,
    pom: &PomId,
    packaging: &Text,
    base: &Shared<BuildBase>,
) -> Result<Shared<BuildBase>, BuildFault>
    ensures says { Says (built_by pom.now packaging.now base.now (bindings packaging.now)) result }
    ensures cause { build_failed result ≡ false }
{
    let built = match built_by(alloc, pom, packaging, base) {
        Ok(built) => built,
        Err(fault) => return Err(fault),
    };
    let bound = bound_of(alloc, packaging, base, &built)?;
    *last = Some(bound);
    Ok(built)
}

// The plugins of a module: those of the last one, where they serve, or else anew.
#[tactic(auto, using(crate::proofs::Building::kept_built))]
fn module_built(
    alloc: Global,
    last: &mut Option<Shared<Bound>>,
    pom: &PomId,
    packaging: &Text,
    base: &Shared<BuildBase>,
) -> Result<Shared<BuildBase>, BuildFault>
    ensures says { Says (built_by pom.now packaging.now base.now (bindings packaging.now)) result }
    ensures cause { build_failed result ≡ false }
{
    if let Some(built) = kept(last, packaging, base)? {
        return Ok(built);
    }
    fresh(alloc, last, pom, packaging, base)
}

/// The plugins of a filled model: the declared ones under their managed entries, and those that its packaging binds. An
/// unknown packaging is refused. A POM that was read by coordinates isn't built, so its plugins stay as they are.
/// Expressions may have made keys equal, so a module's plugins and its managed ones are settled: of equal names,
/// executions, dependencies and goals the last stands, at the place of the first. The last module's are kept beside it,
/// and a module with the same packaging and the same plugins, which have names and versions alone, shares them. Costs
/// the plugins, on the average. POM Reference, "Plugin Management"; Introduction to the Build Lifecycle; which of one
/// key stands is a project rule.
#[tactic(auto, unfolding(crate::specs::Building::built))]
pub fn built(
    alloc: Global,
    last: &mut Option<Shared<Bound>>,
    raw: &RawModel,
) -> Result<Shared<BuildBase>, BuildFault>
    ensures says { Says (built raw.now) result }
    ensures cause { build_failed result ≡ false }
{
    if !is_of_project(&raw.pom) {
        return Ok(raw.build.base.share()?);
    }
    let packaging = &raw.coordinates.packaging;
    module_built(alloc, last, &raw.pom, packaging, &raw.build.base)
}
