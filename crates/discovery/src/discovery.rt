//! The POMs of a project, found from the root's POM on.

ghost use Rattle.std.specs.Prelude.{◌≡◌, ◌≤◌, ◌+◌, ◌∷◌, ◌++◌, [], length, Ok, Some, IfOk};
ghost use Rattle.mvn_shared.specs.Cause.{HasCause};
ghost use Rattle.mvn_base.specs.Limits.{most_modules};
ghost use Rattle.profiles.specs.Judging.{TellsOn};
ghost use Rattle.pom_source.specs.Answers.{Says, build_failed};
ghost use Rattle.pom_source.specs.Worlds.{World};
ghost use Rattle.pom_source.specs.declared.found.Given as givens;
ghost use Rattle.lineage.specs.Beside.{read_at};
ghost use Rattle.lineage.specs.Stores.{Holds, KeepsLines, KeepsRead};
ghost use Rattle.discovery.specs.Discovery.{begun, collected, discovered, with_module, with_none, with_pom};

use crate::{FoundPoms, Listed, ModulePom, Progress, Waiting, listed_by, named, root};
use lineage::Store;
use mvn_base::MOST_MODULES;
use mvn_shared::{List, Mem};
use pom_source::{BuildFault, Given, PomSource};
use std::alloc::Global;

// One POM more, whose modules come before those that wait.
fn put(found: FoundPoms, waiting: Waiting, pom: ModulePom, modules: List<Listed>) -> Mem<Progress>
    ensures found { IfOk result (λ progress. progress.found ≡ found ++ pom ∷ []) }
    ensures waiting { IfOk result (λ progress. progress.waiting ≡ modules ++ waiting) }
{
    let waiting = waiting.after(modules)?;
    let found = found.with(pom)?;
    Ok(Progress { found, waiting })
}

// One POM more, with the modules that it lists.
#[tactic(auto, using(crate::proofs::Counting::one_longer))]
fn with_pom<P: PomSource>(
    alloc: Global,
    store: &mut Store,
    source: &mut P,
    given: &Given,
    found: FoundPoms,
    waiting: Waiting,
    pom: ModulePom,
) -> Result<Progress, BuildFault>
    ensures says { (world : World) → P.fits_poms source.old world → Holds world given.now store.old
        → read_at world pom.path ≡ Ok (Some pom.raw)
        → Says (with_pom world given.now found waiting pom) result }
    ensures one { IfOk result (λ progress. length progress.found ≡ length found + 1) }
    ensures fit { (world : World) → P.fits_poms source.old world → P.fits_poms source.new world }
    ensures same { TellsOn P.tells_same source.old source.new }
    ensures holds { (world : World) → P.fits_poms source.old world → Holds world given.now store.old
        → read_at world pom.path ≡ Ok (Some pom.raw) → Holds world given.now store.new }
    ensures keeps { KeepsRead store.old store.new }
    ensures keeps_lines { KeepsLines store.old store.new }
    ensures cause { HasCause (P.faults source.old) (P.faults source.new) (build_failed result) }
{
    let modules = listed_by(alloc, store, source, given, &pom)?;
    let progress = put(found, waiting, pom, modules)?;
    Ok(progress)
}

// The POM of the module that is next, and what it lists.
#[tactic(auto, using(lineage::proofs::Telling::told_both, crate::proofs::Projects::named_there))]
fn with_module<P: PomSource>(
    alloc: Global,
    store: &mut Store,
    source: &mut P,
    given: &Given,
    found: FoundPoms,
    waiting: Waiting,
    listed: &Listed,
) -> Result<Progress, BuildFault>
    ensures says { (world : World) → P.fits_poms source.old world → Holds world given.now store.old
        → Says (with_module world given.now found waiting listed.now) result }
    ensures one { IfOk result (λ progress. length progress.found ≡ length found + 1) }
    ensures fit { (world : World) → P.fits_poms source.old world → P.fits_poms source.new world }
    ensures same { TellsOn P.tells_same source.old source.new }
    ensures holds { (world : World) → P.fits_poms source.old world → Holds world given.now store.old
        → Holds world given.now store.new }
    ensures keeps { KeepsRead store.old store.new }
    ensures keeps_lines { KeepsLines store.old store.new }
    ensures cause { HasCause (P.faults source.old) (P.faults source.new) (build_failed result) }
{
    match named(alloc, store, source, false, listed, &found) {
        Ok(pom) => with_pom(alloc, store, source, given, found, waiting, pom),
        Err(fault) => Err(fault),
    }
}

// The POM of a module that isn't needed afterwards, and what it lists.
fn with_next<P: PomSource>(
    alloc: Global,
    store: &mut Store,
    source: &mut P,
    given: &Given,
    found: FoundPoms,
    waiting: Waiting,
    listed: Listed,
) -> Result<Progress, BuildFault>
    ensures says { (world : World) → P.fits_poms source.old world → Holds world given.now store.old
        → Says (with_module world given.now found waiting listed) result }
    ensures one { IfOk result (λ progress. length progress.found ≡ length found + 1) }
    ensures fit { (world : World) → P.fits_poms source.old world → P.fits_poms source.new world }
    ensures same { TellsOn P.tells_same source.old source.new }
    ensures holds { (world : World) → P.fits_poms source.old world → Holds world given.now store.old
        → Holds world given.now store.new }
    ensures keeps { KeepsRead store.old store.new }
    ensures keeps_lines { KeepsLines store.old store.new }
    ensures cause { HasCause (P.faults source.old) (P.faults source.new) (build_failed result) }
{
    with_module(alloc, store, source, given, found, waiting, &listed)
}

// What there is if no more POMs may come: a module that waits is one too many.
#[tactic(auto, using(lineage::proofs::Telling::untold))]
fn with_none<P: PomSource>(
    alloc: Global,
    store: &mut Store,
    source: &mut P,
    progress: Progress,
) -> Result<List<ModulePom>, BuildFault>
    ensures says { (world : World) (given : givens.Given) → P.fits_poms source.old world
        → Holds world given store.old
        → Says (with_none world progress.found progress.waiting) result }
    ensures none { IfOk result (λ list. list ≡ progress.found) }
    ensures fit { (world : World) → P.fits_poms source.old world → P.fits_poms source.new world }
    ensures same { TellsOn P.tells_same source.old source.new }
    ensures holds { (world : World) (given : givens.Given) → P.fits_poms source.old world
        → Holds world given store.old → Holds world given store.new }
    ensures keeps { KeepsRead store.old store.new }
    ensures keeps_lines { KeepsLines store.old store.new }
    ensures cause { HasCause (P.faults source.old) (P.faults source.new) (build_failed result) }
{
    let Progress { found, waiting } = progress;
    let Some((listed, _)) = waiting.next() else {
        return Ok(found.into_list());
    };
    let pom = named(alloc, store, source, true, &listed, &found)?;
    let found = found.with(pom)?;
    Ok(found.into_list())
}

// What is found, with the POMs of the modules that wait.
#[tactic(auto, using(lineage::proofs::Telling::told_both, crate::proofs::Collecting::collected_end, crate::proofs::Collecting::collected_fails))]
fn collected<P: PomSource>(
    alloc: Global,
    store: &mut Store,
    source: &mut P,
    given: &Given,
    progress: Progress,
) -> Result<List<ModulePom>, BuildFault>
    ensures says { (world : World) → P.fits_poms source.old world → Holds world given.now store.old
        → Says (collected world given.now most_modules progress.found progress.waiting) result }
    ensures any { IfOk result (λ list. length progress.found ≤ length list) }
    ensures few { IfOk result (λ list. length list ≤ length progress.found + most_modules) }
    ensures fit { (world : World) → P.fits_poms source.old world → P.fits_poms source.new world }
    ensures same { TellsOn P.tells_same source.old source.new }
    ensures holds { (world : World) → P.fits_poms source.old world → Holds world given.now store.old
        → Holds world given.now store.new }
    ensures keeps { KeepsRead store.old store.new }
    ensures keeps_lines { KeepsLines store.old store.new }
    ensures cause { HasCause (P.faults source.old) (P.faults source.new) (build_failed result) }
{
    let mut progress = progress;
    for _ in 0..MOST_MODULES {
        let Progress { found, waiting } = progress;
        let Some((listed, waiting)) = waiting.next() else {
            return Ok(found.into_list());
        };
        progress = match with_next(alloc, store, source, given, found, waiting, listed) {
            Ok(progress) => progress,
            Err(fault) => return Err(fault),
        };
    }
    match with_none(alloc, store, source, progress) {
        Ok(list) => Ok(list),
        Err(fault) => Err(fault),
    }
}

// The POM by which the project begins, and the modules that it lists.
#[tactic(auto, using(lineage::proofs::Telling::told_both, crate::proofs::Projects::root_there))]
fn begun<P: PomSource>(
    alloc: Global,
    store: &mut Store,
    source: &mut P,
    given: &Given,
) -> Result<Progress, BuildFault>
    ensures says { (world : World) → P.fits_poms source.old world → Holds world given.now store.old
        → Says (begun world given.now) result }
    ensures one { IfOk result (λ progress. length progress.found ≡ 1) }
    ensures fit { (world : World) → P.fits_poms source.old world → P.fits_poms source.new world }
    ensures same { TellsOn P.tells_same source.old source.new }
    ensures holds { (world : World) → P.fits_poms source.old world → Holds world given.now store.old
        → Holds world given.now store.new }
    ensures keeps { KeepsRead store.old store.new }
    ensures keeps_lines { KeepsLines store.old store.new }
    ensures cause { HasCause (P.faults source.old) (P.faults source.new) (build_failed result) }
{
    let pom = root(alloc, store, source)?;
    let found = FoundPoms::new(alloc);
    let waiting = Waiting::new(alloc);
    match with_pom(alloc, store, source, given, found, waiting, pom) {
        Ok(progress) => Ok(progress),
        Err(fault) => Err(fault),
    }
}

/// All POMs of the project, in the order of their declaration: `pom.xml`, and after each POM those of the modules that
/// it and its active profiles list, each with its own modules before the next. A module is a folder with a file
/// `pom.xml`, or else a file. Or the first refusal: what a POM's text breaks, or modules in a POM whose packaging isn't
/// `pom`; and for each module an expression in its text, no POM, a POM that was met, or one POM more than 1,024. So
/// there are 1 to 1,024 POMs, whatever the source tells. Each POM's file is read once: its bytes are in the POM, and
/// what it says stays in the store, with which of its profiles are active. `Source` comes only if the source's count of
/// faults rose. Costs the POMs' bytes, and the criteria of their profiles. Guide to Working with Multiple Modules; POM
/// Reference, "Aggregation"; the order of refusals and the limit are project rules.
#[tactic(auto, using(lineage::proofs::Telling::told_both))]
pub fn discover<P: PomSource>(
    alloc: Global,
    store: &mut Store,
    source: &mut P,
    given: &Given,
) -> Result<List<ModulePom>, BuildFault>
    ensures says { (world : World) → P.fits_poms source.old world → Holds world given.now store.old
        → Says (discovered world given.now) result }
    ensures any { IfOk result (λ list. 1 ≤ length list) }
    ensures few { IfOk result (λ list. length list ≤ 1 + most_modules) }
    ensures fit { (world : World) → P.fits_poms source.old world → P.fits_poms source.new world }
    ensures same { TellsOn P.tells_same source.old source.new }
    ensures holds { (world : World) → P.fits_poms source.old world → Holds world given.now store.old
        → Holds world given.now store.new }
    ensures keeps { KeepsRead store.old store.new }
    ensures keeps_lines { KeepsLines store.old store.new }
    ensures cause { HasCause (P.faults source.old) (P.faults source.new) (build_failed result) }
{
    let progress = begun(alloc, store, source, given)?;
    match collected(alloc, store, source, given, progress) {
        Ok(list) => Ok(list),
        Err(fault) => Err(fault),
    }
}
