//! The POMs of a project, with their coordinates and their texts.

ghost use Rattle.std.specs.Prelude.{◌≡◌, ◌≤◌, ◌+◌, length, map, IfOk};
ghost use Rattle.mvn_shared.specs.Cause.{HasCause};
ghost use Rattle.mvn_base.specs.Limits.{most_modules};
ghost use Rattle.profiles.specs.Judging.{TellsOn};
ghost use Rattle.pom_source.specs.Answers.{Says, build_failed};
ghost use Rattle.pom_source.specs.Worlds.{World};
ghost use Rattle.lineage.specs.Stores.{Holds};
ghost use Rattle.project_models.specs.Found.{project_poms, with_own_text};

use discovery::{ModulePom, discover};
use lineage::{Store, raw_gav};
use model_resolver::ProjectPom;
use mvn_shared::{List, Mem};
use pom_source::{BuildFault, Given, PomSource};
use std::alloc::Global;

// A POM that was discovered, with its coordinates as it says them and with its text. Neither its path nor its text is
// copied.
fn found_pom(alloc: Global, listed: ModulePom) -> Mem<ProjectPom>
    ensures { IfOk result (λ pom. pom ≡ with_own_text listed) }
{
    let ModulePom { path, raw, bytes } = listed;
    let gav = raw_gav(alloc, &raw)?;
    Ok(ProjectPom { path, gav, bytes })
}

// The POMs of all modules that were found.
fn found_poms(alloc: Global, modules: List<ModulePom>) -> Mem<List<ProjectPom>>
    ensures { IfOk result (λ poms. poms ≡ map with_own_text modules) }
{
    let mut poms = List::new(alloc);
    for listed in modules.into_vec() {
        poms.push(found_pom(alloc, listed)?)?;
    }
    Ok(poms)
}

/// The POMs of the project in the order of their declaration, each with its coordinates as it says them and with its
/// text, or the first refusal. Each POM's file is read and parsed once, and what it says stays in the store. Costs what
/// `discover` costs. Guide to Working with Multiple Modules.
#[tactic(auto, using(crate::proofs::Paths::poms_found, crate::proofs::Paths::some_poms, crate::proofs::Paths::few_poms))]
pub fn project_poms<P: PomSource>(
    alloc: Global,
    store: &mut Store,
    source: &mut P,
    given: &Given,
) -> Result<List<ProjectPom>, BuildFault>
    ensures says { (world : World) → P.fits_poms source.old world → Holds world given.now store.old
        → Says (project_poms world given.now) result }
    ensures any { IfOk result (λ poms. 1 ≤ length poms) }
    ensures few { IfOk result (λ poms. length poms ≤ 1 + most_modules) }
    ensures same { TellsOn P.tells_same source.old source.new }
    ensures holds { (world : World) → P.fits_poms source.old world → Holds world given.now store.old
        → Holds world given.now store.new }
    ensures cause { HasCause (P.faults source.old) (P.faults source.new) (build_failed result) }
{
    let found = discover(alloc, store, source, given)?;
    let poms = found_poms(alloc, found)?;
    Ok(poms)
}
