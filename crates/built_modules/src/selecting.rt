//! Gathers, for each module that is built, all that its plan is made from.

ghost use Rattle.std.specs.Prelude.{◌≡◌, nat_eq, length, map, zip, IfOk};
ghost use Rattle.std.specs.List.{IsDistinct};
ghost use Rattle.reactor_order.specs.Graph.{AreBelow};
ghost use Rattle.built_modules.specs.Selected.{AreModules, selected};

use crate::pairs::zipped;
use crate::picking::picked;
use classpaths::Resolution;
use goal_types::SourceFile;
use model_resolver::ProjectPom;
use model_types::Model;
use module_plan::SelectedModule;
use mvn_shared::{List, Mem, Shared};
use reactor::ReactorModules;
use std::alloc::Global;

// One module of its parts.
fn selected(
    parts: (
        (ProjectPom, Shared<Model>),
        (Resolution, (List<u32>, List<SourceFile>)),
    ),
) -> SelectedModule
    ensures { result ≡ selected parts }
{
    let ((pom, model), (resolution, (upstream, sources))) = parts;
    SelectedModule {
        model,
        pom: pom.bytes,
        resolution,
        upstream,
        sources,
    }
}

// The modules of their parts, one by one.
fn of_parts(
    alloc: Global,
    parts: List<
        (
            (ProjectPom, Shared<Model>),
            (Resolution, (List<u32>, List<SourceFile>)),
        ),
    >,
) -> Mem<List<SelectedModule>>
    ensures { IfOk result (λ modules. modules ≡ map selected parts) }
{
    let mut modules = List::new(alloc);
    for part in parts.into_vec() {
        modules.push(selected(part))?;
    }
    Ok(modules)
}

// The modules of their parts, all in the order of the build.
fn joined(
    alloc: Global,
    poms: List<ProjectPom>,
    models: List<Shared<Model>>,
    resolutions: List<Resolution>,
    upstreams: List<List<u32>>,
    sources: List<List<SourceFile>>,
) -> Mem<List<SelectedModule>>
    ensures { IfOk result (λ modules. modules
        ≡ map selected (zip (zip poms models) (zip resolutions (zip upstreams sources)))) }
{
    let last = zipped(alloc, upstreams, sources)?;
    let second = zipped(alloc, resolutions, last)?;
    let first = zipped(alloc, poms, models)?;
    let parts = zipped(alloc, first, second)?;
    of_parts(alloc, parts)
}

/// The modules that are built, each with all that its plan is made from: of the project's modules in the order of discovery, those of the
/// numbers that are built, with their sources. What isn't built is dropped. Costs the project's modules. Project rule.
pub fn selected_modules(
    alloc: Global,
    poms: List<ProjectPom>,
    models: List<Shared<Model>>,
    resolutions: List<Resolution>,
    built: ReactorModules,
    sources: List<List<SourceFile>>,
) -> Mem<List<SelectedModule>>
    requires poms { length poms ≡ length models }
    requires resolutions { length resolutions ≡ length models }
    requires below { AreBelow (length models) built.numbers }
    requires once { IsDistinct nat_eq built.numbers }
    requires upstreams { length built.upstreams ≡ length built.numbers }
    requires sources { length sources ≡ length built.numbers }
    ensures { IfOk result (AreModules poms models resolutions built sources) }
{
    let ReactorModules { numbers, upstreams } = built;
    let numbers = numbers.as_slice();
    let poms = picked(alloc, poms, numbers)?;
    let models = picked(alloc, models, numbers)?;
    let resolutions = picked(alloc, resolutions, numbers)?;
    let modules = joined(alloc, poms, models, resolutions, upstreams, sources)?;
    Ok(modules)
}
