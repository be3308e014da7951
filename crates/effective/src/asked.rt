//! The effective model of a POM that is asked for by its path or its coordinates.

ghost use Rattle.std.specs.Prelude.{◌≡◌, [], ◌∷◌, Ok, IfOk};
ghost use Rattle.mvn_shared.specs.Cause.{HasCause};
ghost use Rattle.profiles.specs.Judging.{TellsOn};
ghost use Rattle.pom_source.specs.Answers.{Says, build_failed};
ghost use Rattle.pom_source.specs.Worlds.{World};
ghost use Rattle.pom_source.specs.declared.found.Given as givens;
ghost use Rattle.effective.specs.Kept.{HoldsAll};
ghost use Rattle.effective.specs.Lawful.{IsLawful};
ghost use Rattle.effective.specs.Absence.{IsAbsentExactly, has_pom};
ghost use Rattle.lineage.specs.Lineage.{lineage};
ghost use Rattle.effective.specs.Effective.{asked, asked_path, effective, imported, whole};

use crate::{RunStore, asked_gav, lineage_of, whole};
use lineage::{Joined, read_at};
use model_types::{Model, RawModel};
use mvn_base::PomId;
use mvn_shared::{List, Mem, Shared, Text};
use pom_source::{BuildFault, Given, PomSource};
use std::alloc::Global;

// A list of one POM.
fn only(alloc: Global, pom: &PomId) -> Mem<List<PomId>>
    ensures { IfOk result (λ list. list ≡ pom.now ∷ []) }
{
    let mut list = List::new(alloc);
    list.push(pom.clone()?)?;
    Ok(list)
}

// The POM at a path of the project.
fn asked_path<P: PomSource>(
    alloc: Global,
    store: &mut RunStore,
    source: &mut P,
    path: &Text,
) -> Result<Shared<RawModel>, BuildFault>
    ensures says { (world : World) (given : givens.Given) → P.fits_poms source.old world
        → HoldsAll world given store.old → Says (asked_path world path.now) result }
    ensures fit { (world : World) → P.fits_poms source.old world → P.fits_poms source.new world }
    ensures same { TellsOn P.tells_same source.old source.new }
    ensures holds { (world : World) (given : givens.Given) → P.fits_poms source.old world
        → HoldsAll world given store.old → HoldsAll world given store.new }
    ensures cause { HasCause (P.faults source.old) (P.faults source.new) (build_failed result) }
{
    match read_at(alloc, &mut store.lineages, source, path)? {
        Some(raw) => Ok(raw),
        None => Err(BuildFault::Absent),
    }
}

// The POM that is asked for.
fn asked<P: PomSource>(
    alloc: Global,
    store: &mut RunStore,
    source: &mut P,
    pom: &PomId,
) -> Result<Shared<RawModel>, BuildFault>
    ensures says { (world : World) (given : givens.Given) → P.fits_poms source.old world
        → HoldsAll world given store.old → Says (asked world pom.now) result }
    ensures fit { (world : World) → P.fits_poms source.old world → P.fits_poms source.new world }
    ensures same { TellsOn P.tells_same source.old source.new }
    ensures holds { (world : World) (given : givens.Given) → P.fits_poms source.old world
        → HoldsAll world given store.old → HoldsAll world given store.new }
    ensures cause { HasCause (P.faults source.old) (P.faults source.new) (build_failed result) }
{
    match pom {
        PomId::Path(path) => match asked_path(alloc, store, source, path) {
            Ok(raw) => Ok(raw),
            Err(fault) => Err(fault),
        },
        PomId::Gav(gav) => match asked_gav(alloc, store, source, gav) {
            Ok(raw) => Ok(raw),
            Err(fault) => Err(fault),
        },
    }
}

// A POM with all that it builds on, in all further steps, where no other is being built.
#[tactic(auto, using(lineage::proofs::Telling::untold, crate::proofs::Standing::built_gives))]
fn from_joined<P: PomSource>(
    alloc: Global,
    store: &mut RunStore,
    source: &mut P,
    given: &Given,
    raw: &Shared<RawModel>,
    joined: &Joined,
) -> Result<Model, BuildFault>
    ensures says { (world : World) → P.fits_poms source.old world
        → HoldsAll world given.now store.old
        → lineage world given.now raw.now ≡ Ok joined.now
        → Says (whole world given.now (imported world given.now 31 raw.now.pom
        (raw.now.pom ∷ [])) raw.now) result }
    ensures lawful { IfOk result IsLawful }
    ensures fit { (world : World) → P.fits_poms source.old world → P.fits_poms source.new world }
    ensures same { TellsOn P.tells_same source.old source.new }
    ensures holds { (world : World) → P.fits_poms source.old world
        → HoldsAll world given.now store.old
        → HoldsAll world given.now store.new }
    ensures cause { HasCause (P.faults source.old) (P.faults source.new) (build_failed result) }
{
    let building = only(alloc, &raw.pom)?;
    match whole(alloc, store, source, given, 31, &building, raw, joined) {
        Ok(built) => Ok(built.model),
        Err(fault) => Err(fault),
    }
}

// The POM that is asked for, in all steps.
#[tactic(auto, using(lineage::proofs::Telling::told_both, crate::proofs::Asking::whole_stops))]
fn modelled<P: PomSource>(
    alloc: Global,
    store: &mut RunStore,
    source: &mut P,
    given: &Given,
    pom: &PomId,
) -> Result<Model, BuildFault>
    ensures says { (world : World) → P.fits_poms source.old world
        → HoldsAll world given.now store.old
        → Says (effective world given.now pom.now) result }
    ensures lawful { IfOk result IsLawful }
    ensures fit { (world : World) → P.fits_poms source.old world → P.fits_poms source.new world }
    ensures same { TellsOn P.tells_same source.old source.new }
    ensures holds { (world : World) → P.fits_poms source.old world
        → HoldsAll world given.now store.old
        → HoldsAll world given.now store.new }
    ensures cause { HasCause (P.faults source.old) (P.faults source.new) (build_failed result) }
{
    let raw = asked(alloc, store, source, pom)?;
    let joined = lineage_of(alloc, store, source, given, pom, &raw)?;
    match from_joined(alloc, store, source, given, &raw, &joined) {
        Ok(model) => Ok(model),
        Err(fault) => Err(fault),
    }
}

/// The effective model of a POM, like `effective`, with a store of what was read in the run. What the store keeps is so
/// in each world that fits the source, before the call and after it. Costs the POM, its parents and its imports, as far
/// as they weren't read before, and the model; an import that was built before costs a copy of its entries.
#[tactic(auto, using(crate::proofs::Presence::absent_exactly))]
pub fn effective_with<P: PomSource>(
    alloc: Global,
    store: &mut RunStore,
    source: &mut P,
    given: &Given,
    pom: &PomId,
) -> Result<Model, BuildFault>
    ensures says { (world : World) → P.fits_poms source.old world
        → HoldsAll world given.now store.old
        → Says (effective world given.now pom.now) result }
    ensures absent { (world : World) → P.fits_poms source.old world
        → HoldsAll world given.now store.old → IsAbsentExactly (has_pom world pom.now) result }
    ensures lawful { IfOk result IsLawful }
    ensures fit { (world : World) → P.fits_poms source.old world → P.fits_poms source.new world }
    ensures same { TellsOn P.tells_same source.old source.new }
    ensures holds { (world : World) → P.fits_poms source.old world
        → HoldsAll world given.now store.old
        → HoldsAll world given.now store.new }
    ensures cause { HasCause (P.faults source.old) (P.faults source.new) (build_failed result) }
{
    match modelled(alloc, store, source, given, pom) {
        Ok(model) => Ok(model),
        Err(fault) => Err(fault),
    }
}

/// The effective model of a POM, or its first refusal; absent exactly where the source has no such POM. The steps, in
/// this order: the POM and its parents, each with its active profiles, and what is inherited; expressions and folders;
/// managed plugins, and the goals that the packaging binds; imports; what is managed, and scopes; and what is checked
/// in the end. In every world that fits the source the answer is this world's. `Source` only where its count of faults
/// rose. Costs the POMs that are read, and for each what is joined, on the average. Maven Model Builder, "Model
/// building"; POM Reference, "The Effective POM".
pub fn effective<P: PomSource>(
    alloc: Global,
    source: &mut P,
    given: &Given,
    pom: &PomId,
) -> Result<Model, BuildFault>
    ensures says { (world : World) → P.fits_poms source.old world
        → Says (effective world given.now pom.now) result }
    ensures absent { (world : World) → P.fits_poms source.old world
        → IsAbsentExactly (has_pom world pom.now) result }
    ensures lawful { IfOk result IsLawful }
    ensures fit { (world : World) → P.fits_poms source.old world → P.fits_poms source.new world }
    ensures same { TellsOn P.tells_same source.old source.new }
    ensures cause { HasCause (P.faults source.old) (P.faults source.new) (build_failed result) }
{
    let mut store = RunStore::new(alloc);
    match effective_with(alloc, &mut store, source, given, pom) {
        Ok(model) => Ok(model),
        Err(fault) => Err(fault),
    }
}
