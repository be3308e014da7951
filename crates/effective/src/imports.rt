//! The steps after inheritance, and what the imports of a model stand for.

ghost use Rattle.std.specs.Prelude.{◌≡◌, [], ◌∷◌, false, true, Ok, IfErr, IfOk};
ghost use Rattle.std.specs.List.{list_all, list_any};
ghost use Rattle.mvn_shared.specs.Cause.{HasCause};
ghost use Rattle.profiles.specs.Judging.{TellsOn};
ghost use Rattle.managed_deps.specs.Managed.{is_import};
ghost use Rattle.pom_source.specs.Answers.{Fails, Says, build_failed};
ghost use Rattle.pom_source.specs.Worlds.{World};
ghost use Rattle.model_types.specs.declared.model.RawModel as models;
ghost use Rattle.lineage.specs.Lineage.{is_in, lineage, next_poms};
ghost use Rattle.model_steps.specs.Valid.{has_no_import};
ghost use Rattle.effective.specs.Lawful.{IsLawful};
ghost use Rattle.effective.specs.Effective.{ended, entry, full, import_found, imported, imports_from, managed_of, whole};
ghost use Rattle.effective.specs.Kept.{AreKept, HoldsAll, IsBuilt, IsEntry, IsFound, IsImport, IsRead, OrFails};
ghost use Rattle.effective.specs.Serving.{serves};

use crate::{BuiltModel, Entries, Import, ImportLists, RunStore, lineage_with, wanted};
use lineage::{Joined, next_poms};
use model_steps::{checked, filled, import_gav, is_import, model_of};
use model_types::{BuildBase, Dependency, Model, RawModel};
use mvn_base::{Gav, PomId, Rule};
use mvn_shared::{List, Mem, Shared};
use pom_source::{BuildFault, Given, PomSource, gav_refused};
use std::alloc::Global;

// A POM with all that it builds on, filled: what was joined for it.
#[tactic(auto, using(crate::proofs::Asking::full_says))]
fn full(alloc: Global, given: &Given, joined: &Joined) -> Result<RawModel, BuildFault>
    ensures says { (world : World) (raw : models.RawModel)
        → lineage world given.now raw ≡ Ok joined.now → Says (full world given.now raw) result }
    ensures cause { build_failed result ≡ false }
{
    match filled(alloc, given, &joined.model) {
        Ok(full) => Ok(full),
        Err(fault) => Err(fault),
    }
}

// A full model with its plugins and the entries of its imports, completed and checked.
#[tactic(auto, using(crate::proofs::Replacing::lawful))]
fn ended(
    alloc: Global,
    full: &RawModel,
    base: &Shared<BuildBase>,
    imports: &List<Entries>,
) -> Result<Model, BuildFault>
    ensures says { Says (ended full.now base.now imports.now) result }
    ensures lawful { list_all has_no_import imports.now ≡ true → IfOk result IsLawful }
    ensures cause { build_failed result ≡ false }
{
    let model = model_of(alloc, full, base, imports.as_slice())?;
    match checked(alloc, model) {
        Ok(model) => Ok(model),
        Err(fault) => Err(fault),
    }
}

// A full model of which the imports are known, in all further steps.
fn with_imports(
    alloc: Global,
    model: &RawModel,
    base: &Shared<BuildBase>,
    imports: ImportLists,
) -> Result<BuiltModel, BuildFault>
    ensures gives { IfOk result (λ built. ended model.now base.now imports.lists ≡ Ok built.model) }
    ensures fails { IfErr result (Fails (ended model.now base.now imports.lists)) }
    ensures below { IfOk result (λ built. built.below ≡ imports.below) }
    ensures lawful { IfOk result (λ built. IsLawful built.model) }
    ensures cause { build_failed result ≡ false }
{
    match ended(alloc, model, base, &imports.lists) {
        Ok(model) => Ok(BuiltModel {
            below: imports.below,
            model,
        }),
        Err(fault) => Err(fault),
    }
}

// What an import stands for: kept, or built and then kept.
#[cycle(built)]
#[tactic(auto, using(lineage::proofs::Telling::untold))]
fn imported<P: PomSource>(
    alloc: Global,
    store: &mut RunStore,
    source: &mut P,
    given: &Given,
    left: u32,
    pom: &PomId,
    building: &List<PomId>,
    gav: &Gav,
) -> Result<Shared<Import>, BuildFault>
    ensures says { (world : World) → P.fits_poms source.old world
        → HoldsAll world given.now store.old
        → OrFails (IsImport world given.now gav.now)
        (imported world given.now left pom.now building.now gav.now) result }
    ensures serves { IfOk result (λ import. serves left building.now import.below ≡ true) }
    ensures fit { (world : World) → P.fits_poms source.old world → P.fits_poms source.new world }
    ensures same { TellsOn P.tells_same source.old source.new }
    ensures holds { (world : World) → P.fits_poms source.old world
        → HoldsAll world given.now store.old → HoldsAll world given.now store.new }
    ensures cause { HasCause (P.faults source.old) (P.faults source.new) (build_failed result) }
{
    if let Some(kept) = store.find_import(left, building, gav)? {
        return Ok(kept);
    }
    let import = match fresh(alloc, store, source, given, left, pom, building, gav) {
        Ok(import) => import,
        Err(fault) => return Err(fault),
    };
    store.keep_import(gav, &import)?;
    Ok(import)
}

// What an import stands for, if it isn't kept.
#[cycle(built)]
#[tactic(auto, using(lineage::proofs::Telling::untold, crate::proofs::Importing::imported_zero, crate::proofs::Importing::imported_more, crate::proofs::Standing::is_import_of, crate::proofs::Standing::import_serves, crate::proofs::Standing::low))]
fn fresh<P: PomSource>(
    alloc: Global,
    store: &mut RunStore,
    source: &mut P,
    given: &Given,
    left: u32,
    pom: &PomId,
    building: &List<PomId>,
    gav: &Gav,
) -> Result<Shared<Import>, BuildFault>
    ensures says { (world : World) → P.fits_poms source.old world
        → HoldsAll world given.now store.old
        → OrFails (IsImport world given.now gav.now)
        (imported world given.now left pom.now building.now gav.now) result }
    ensures serves { IfOk result (λ import. serves left building.now import.below ≡ true) }
    ensures fit { (world : World) → P.fits_poms source.old world → P.fits_poms source.new world }
    ensures same { TellsOn P.tells_same source.old source.new }
    ensures holds { (world : World) → P.fits_poms source.old world
        → HoldsAll world given.now store.old → HoldsAll world given.now store.new }
    ensures cause { HasCause (P.faults source.old) (P.faults source.new) (build_failed result) }
{
    if left == 0 {
        return gav_refused(alloc, pom, Rule::ImportCycle, gav);
    }
    let further = left - 1;
    match import_found(alloc, store, source, given, further, pom, building, gav) {
        Ok(import) => Ok(Shared::new(alloc, import.deeper(further))?),
        Err(fault) => Err(fault),
    }
}

// What an import's POM stands for, if further POMs may be built.
#[cycle(built)]
#[tactic(auto, using(lineage::proofs::Telling::told_both, crate::proofs::Standing::is_found, crate::proofs::Knowing::found_stops, crate::proofs::Knowing::found_fails))]
fn import_found<P: PomSource>(
    alloc: Global,
    store: &mut RunStore,
    source: &mut P,
    given: &Given,
    left: u32,
    pom: &PomId,
    building: &List<PomId>,
    gav: &Gav,
) -> Result<Import, BuildFault>
    ensures says { (world : World) → P.fits_poms source.old world
        → HoldsAll world given.now store.old
        → OrFails (IsFound world given.now gav.now)
        (import_found world given.now (imported world given.now left) pom.now building.now gav.now)
        result }
    ensures serves { IfOk result (λ import. serves left building.now import.below ≡ true) }
    ensures fit { (world : World) → P.fits_poms source.old world → P.fits_poms source.new world }
    ensures same { TellsOn P.tells_same source.old source.new }
    ensures holds { (world : World) → P.fits_poms source.old world
        → HoldsAll world given.now store.old → HoldsAll world given.now store.new }
    ensures cause { HasCause (P.faults source.old) (P.faults source.new) (build_failed result) }
{
    let raw = match wanted(alloc, store, source, pom, building, gav) {
        Ok(raw) => raw,
        Err(fault) => return Err(fault),
    };
    match import_read(alloc, store, source, given, left, building, &raw) {
        Ok(import) => Ok(import),
        Err(fault) => Err(fault),
    }
}

// What an imported POM that was read stands for.
#[cycle(built)]
#[tactic(auto, using(lineage::proofs::Telling::untold, lineage::proofs::Telling::told_both, crate::proofs::Standing::is_read, crate::proofs::Standing::read_serves, crate::proofs::Asking::managed_stops))]
fn import_read<P: PomSource>(
    alloc: Global,
    store: &mut RunStore,
    source: &mut P,
    given: &Given,
    left: u32,
    building: &List<PomId>,
    raw: &Shared<RawModel>,
) -> Result<Import, BuildFault>
    ensures says { (world : World) → P.fits_poms source.old world
        → HoldsAll world given.now store.old
        → OrFails (IsRead world given.now raw.now)
        (managed_of (whole world given.now (imported world given.now left raw.now.pom
        (next_poms building.now raw.now.pom)) raw.now)) result }
    ensures serves { is_in raw.now.pom building.now ≡ false
        → IfOk result (λ import. serves left building.now import.below ≡ true) }
    ensures fit { (world : World) → P.fits_poms source.old world → P.fits_poms source.new world }
    ensures same { TellsOn P.tells_same source.old source.new }
    ensures holds { (world : World) → P.fits_poms source.old world
        → HoldsAll world given.now store.old → HoldsAll world given.now store.new }
    ensures cause { HasCause (P.faults source.old) (P.faults source.new) (build_failed result) }
{
    let joined = lineage_with(alloc, store, source, given, raw)?;
    let building = next_poms(building, &raw.pom)?;
    let model = whole(alloc, store, source, given, left, &building, raw, &joined)?;
    Ok(Import::of_model(&raw.pom, model)?)
}

/// A POM that was read, and what it builds on, in all further steps: the POMs that are being built are given, its own
/// among them, and `left` more may be built. Or the first refusal; `Source` comes only if the source's count of faults
/// rose. Costs what its imports cost, as far as they aren't kept, and the model, on the average. Maven Model Builder,
/// "Model building"; the limit is a project rule.
#[cycle(built)]
#[tactic(auto, using(lineage::proofs::Telling::untold))]
pub fn whole<P: PomSource>(
    alloc: Global,
    store: &mut RunStore,
    source: &mut P,
    given: &Given,
    left: u32,
    building: &List<PomId>,
    raw: &Shared<RawModel>,
    joined: &Joined,
) -> Result<BuiltModel, BuildFault>
    ensures says { (world : World) → P.fits_poms source.old world
        → HoldsAll world given.now store.old → lineage world given.now raw.now ≡ Ok joined.now
        → OrFails (IsBuilt world given.now raw.now)
        (whole world given.now (imported world given.now left raw.now.pom building.now) raw.now)
        result }
    ensures serves { IfOk result (λ built. serves left building.now built.below ≡ true) }
    ensures lawful { IfOk result (λ built. IsLawful built.model) }
    ensures fit { (world : World) → P.fits_poms source.old world → P.fits_poms source.new world }
    ensures same { TellsOn P.tells_same source.old source.new }
    ensures holds { (world : World) → P.fits_poms source.old world
        → HoldsAll world given.now store.old → HoldsAll world given.now store.new }
    ensures cause { HasCause (P.faults source.old) (P.faults source.new) (build_failed result) }
{
    let model = full(alloc, given, joined)?;
    over_full(alloc, store, source, given, left, building, raw, &model)
}

// A POM that was filled, in all further steps.
#[cycle(built)]
#[tactic(auto, using(lineage::proofs::Telling::told_both, lineage::proofs::Telling::untold, crate::proofs::Standing::is_built, crate::proofs::Standing::built_fails))]
fn over_full<P: PomSource>(
    alloc: Global,
    store: &mut RunStore,
    source: &mut P,
    given: &Given,
    left: u32,
    building: &List<PomId>,
    raw: &Shared<RawModel>,
    model: &RawModel,
) -> Result<BuiltModel, BuildFault>
    ensures says { (world : World) → P.fits_poms source.old world
        → HoldsAll world given.now store.old → full world given.now raw.now ≡ Ok model.now
        → OrFails (IsBuilt world given.now raw.now)
        (whole world given.now (imported world given.now left raw.now.pom building.now) raw.now)
        result }
    ensures serves { IfOk result (λ built. serves left building.now built.below ≡ true) }
    ensures lawful { IfOk result (λ built. IsLawful built.model) }
    ensures fit { (world : World) → P.fits_poms source.old world → P.fits_poms source.new world }
    ensures same { TellsOn P.tells_same source.old source.new }
    ensures holds { (world : World) → P.fits_poms source.old world
        → HoldsAll world given.now store.old → HoldsAll world given.now store.new }
    ensures cause { HasCause (P.faults source.old) (P.faults source.new) (build_failed result) }
{
    let base = store.built(alloc, model)?;
    let imports = imports(alloc, store, source, given, left, &raw.pom, building, model)?;
    match with_imports(alloc, model, &base, imports) {
        Ok(built) => Ok(built),
        Err(fault) => Err(fault),
    }
}

// Whether an import is among some managed entries.
fn has_import(managed: &[Shared<Dependency>]) -> bool
    ensures { result ≡ list_any is_import managed.now }
{
    managed.iter().any(|item| is_import(item))
}

// What the imports of a full model manage.
#[cycle(built)]
#[tactic(auto, using(crate::proofs::Standing::none_kept, lineage::proofs::Telling::told_both, lineage::proofs::Telling::untold, crate::proofs::Standing::way_fails, crate::proofs::Standing::none_yet, crate::proofs::Standing::one_more, crate::proofs::Standing::all_done, crate::proofs::Standing::both_served))]
fn imports<P: PomSource>(
    alloc: Global,
    store: &mut RunStore,
    source: &mut P,
    given: &Given,
    left: u32,
    pom: &PomId,
    building: &List<PomId>,
    full: &RawModel,
) -> Result<ImportLists, BuildFault>
    ensures says { (world : World) → P.fits_poms source.old world
        → HoldsAll world given.now store.old
        → OrFails (AreKept world given.now pom.now full.now.base.managed)
        (imports_from pom.now (imported world given.now left pom.now building.now) []
        full.now.base.managed) result }
    ensures serves { IfOk result (λ imports. serves left building.now imports.below ≡ true) }
    ensures fit { (world : World) → P.fits_poms source.old world → P.fits_poms source.new world }
    ensures same { TellsOn P.tells_same source.old source.new }
    ensures holds { (world : World) → P.fits_poms source.old world
        → HoldsAll world given.now store.old → HoldsAll world given.now store.new }
    ensures cause { HasCause (P.faults source.old) (P.faults source.new) (build_failed result) }
{
    if !has_import(full.base.managed.as_slice()) {
        return Ok(ImportLists::none(alloc));
    }
    let mut done = ImportLists::none(alloc);
    for item in full.base.managed.as_slice() {
        let more = match entry(alloc, store, source, given, left, pom, building, item) {
            Ok(more) => more,
            Err(fault) => return Err(fault),
        };
        done = done.and(more)?;
    }
    Ok(done)
}

// The list of the entries of one import.
fn alone(alloc: Global, import: Shared<Import>) -> Mem<ImportLists>
    ensures lists { IfOk result (λ imports. imports.lists ≡ import.managed ∷ []) }
    ensures below { IfOk result (λ imports. imports.below ≡ import.below) }
{
    let imports = ImportLists::of_import(alloc, &import)?;
    Ok(imports)
}

// The entries that a managed one stands for, if it is an import.
#[cycle(built)]
#[tactic(auto, using(lineage::proofs::Telling::untold, crate::proofs::Standing::no_import, crate::proofs::Standing::one_import))]
fn entry<P: PomSource>(
    alloc: Global,
    store: &mut RunStore,
    source: &mut P,
    given: &Given,
    left: u32,
    pom: &PomId,
    building: &List<PomId>,
    item: &Shared<Dependency>,
) -> Result<ImportLists, BuildFault>
    ensures says { (world : World) → P.fits_poms source.old world
        → HoldsAll world given.now store.old
        → OrFails (IsEntry world given.now pom.now item.now)
        (entry pom.now (imported world given.now left pom.now building.now) item.now) result }
    ensures serves { IfOk result (λ imports. serves left building.now imports.below ≡ true) }
    ensures fit { (world : World) → P.fits_poms source.old world → P.fits_poms source.new world }
    ensures same { TellsOn P.tells_same source.old source.new }
    ensures holds { (world : World) → P.fits_poms source.old world
        → HoldsAll world given.now store.old → HoldsAll world given.now store.new }
    ensures cause { HasCause (P.faults source.old) (P.faults source.new) (build_failed result) }
{
    if !is_import(item) {
        return Ok(ImportLists::none(alloc));
    }
    let gav = import_gav(alloc, pom, item)?;
    let import = imported(alloc, store, source, given, left, pom, building, &gav)?;
    Ok(alone(alloc, import)?)
}
