//! A POM looked up by its coordinates, as it is asked for or imported.

ghost use Rattle.std.specs.Prelude.{◌≡◌, false, IfOk};
ghost use Rattle.mvn_shared.specs.Cause.{HasCause};
ghost use Rattle.profiles.specs.Judging.{TellsOn};
ghost use Rattle.pom_source.specs.Answers.{Says, build_failed};
ghost use Rattle.pom_source.specs.Worlds.{World};
ghost use Rattle.pom_source.specs.declared.found.Given as givens;
ghost use Rattle.lineage.specs.Lineage.{is_in, known_at};
ghost use Rattle.effective.specs.Effective.{read_found};
ghost use Rattle.effective.specs.Kept.{HoldsAll};
ghost use Rattle.effective.specs.Knowing.{raw_at, said_at, unbuilt};

use crate::run_store::RunStore;
use lineage::{Candidate, is_in, pom_at, pom_of, text_of};
use model_types::RawModel;
use mvn_base::{Gav, PomId, Rule};
use mvn_shared::{List, Shared};
use pom_source::{BuildFault, PomSource, gav_refused};
use std::alloc::Global;

// The POM of coordinates, and what it says.
fn known<P: PomSource>(
    alloc: Global,
    store: &mut RunStore,
    source: &mut P,
    gav: &Gav,
) -> Result<Option<Shared<Candidate>>, BuildFault>
    ensures says { (world : World) (given : givens.Given) → P.fits_poms source.old world
        → HoldsAll world given store.old
        → Says (known_at world gav.now) result }
    ensures fit { (world : World) → P.fits_poms source.old world → P.fits_poms source.new world }
    ensures same { TellsOn P.tells_same source.old source.new }
    ensures holds { (world : World) (given : givens.Given) → P.fits_poms source.old world
        → HoldsAll world given store.old → HoldsAll world given store.new }
    ensures cause { HasCause (P.faults source.old) (P.faults source.new) (build_failed result) }
{
    let found = pom_at(alloc, &mut store.lineages, source, gav)?;
    Ok(found)
}

// What the POM of coordinates says by what is known of it.
#[tactic(auto, using(lineage::proofs::Telling::untold))]
fn said_at<P: PomSource>(
    alloc: Global,
    store: &mut RunStore,
    source: &mut P,
    gav: &Gav,
) -> Result<Shared<RawModel>, BuildFault>
    ensures says { (world : World) (given : givens.Given) → P.fits_poms source.old world
        → HoldsAll world given store.old
        → Says (said_at world gav.now) result }
    ensures fit { (world : World) → P.fits_poms source.old world → P.fits_poms source.new world }
    ensures same { TellsOn P.tells_same source.old source.new }
    ensures holds { (world : World) (given : givens.Given) → P.fits_poms source.old world
        → HoldsAll world given store.old → HoldsAll world given store.new }
    ensures cause { HasCause (P.faults source.old) (P.faults source.new) (build_failed result) }
{
    match known(alloc, store, source, gav)? {
        Some(found) => match text_of(&found) {
            Ok(raw) => Ok(raw),
            Err(fault) => Err(fault),
        },
        None => Err(BuildFault::Absent),
    }
}

/// What the POM of coordinates says, that is asked for. Costs its bytes the first time, and the coordinates after that.
pub fn asked_gav<P: PomSource>(
    alloc: Global,
    store: &mut RunStore,
    source: &mut P,
    gav: &Gav,
) -> Result<Shared<RawModel>, BuildFault>
    ensures says { (world : World) (given : givens.Given) → P.fits_poms source.old world
        → HoldsAll world given store.old
        → Says (read_found (world.by_gav gav.now)) result }
    ensures fit { (world : World) → P.fits_poms source.old world → P.fits_poms source.new world }
    ensures same { TellsOn P.tells_same source.old source.new }
    ensures holds { (world : World) (given : givens.Given) → P.fits_poms source.old world
        → HoldsAll world given store.old → HoldsAll world given store.new }
    ensures cause { HasCause (P.faults source.old) (P.faults source.new) (build_failed result) }
{
    match said_at(alloc, store, source, gav) {
        Ok(raw) => Ok(raw),
        Err(fault) => Err(fault),
    }
}

// What an imported POM says, if it isn't being built already.
#[tactic(auto, using(crate::proofs::Knowing::known_apart))]
fn unbuilt(
    alloc: Global,
    pom: &PomId,
    building: &List<PomId>,
    gav: &Gav,
    found: &Candidate,
) -> Result<Shared<RawModel>, BuildFault>
    ensures says { Says (unbuilt pom.now building.now gav.now found.now) result }
    ensures apart { IfOk result (λ raw. is_in raw.pom building.now ≡ false) }
    ensures cause { build_failed result ≡ false }
{
    if is_in(pom_of(found), building) {
        return gav_refused(alloc, pom, Rule::ImportCycle, gav);
    }
    match text_of(found) {
        Ok(raw) => Ok(raw),
        Err(fault) => Err(fault),
    }
}

/// What an import's POM says, if it is there and isn't being built already. Costs its bytes the first time, and the
/// coordinates and a comparison with those that are being built after that.
#[tactic(auto, using(lineage::proofs::Telling::untold))]
pub fn wanted<P: PomSource>(
    alloc: Global,
    store: &mut RunStore,
    source: &mut P,
    pom: &PomId,
    building: &List<PomId>,
    gav: &Gav,
) -> Result<Shared<RawModel>, BuildFault>
    ensures says { (world : World) (given : givens.Given) → P.fits_poms source.old world
        → HoldsAll world given store.old
        → Says (raw_at world pom.now building.now gav.now) result }
    ensures fit { (world : World) → P.fits_poms source.old world → P.fits_poms source.new world }
    ensures same { TellsOn P.tells_same source.old source.new }
    ensures apart { IfOk result (λ raw. is_in raw.pom building.now ≡ false) }
    ensures holds { (world : World) (given : givens.Given) → P.fits_poms source.old world
        → HoldsAll world given store.old → HoldsAll world given store.new }
    ensures cause { HasCause (P.faults source.old) (P.faults source.new) (build_failed result) }
{
    match known(alloc, store, source, gav)? {
        None => gav_refused(alloc, pom, Rule::ImportNotFound, gav),
        Some(found) => match unbuilt(alloc, pom, building, gav, &found) {
            Ok(raw) => Ok(raw),
            Err(fault) => Err(fault),
        },
    }
}
