//! The lineage of a POM, with the store of a run.

ghost use Rattle.std.specs.Prelude.{◌≡◌, Ok};
ghost use Rattle.mvn_shared.specs.Cause.{HasCause};
ghost use Rattle.profiles.specs.Judging.{TellsOn};
ghost use Rattle.pom_source.specs.Answers.{Says, build_failed};
ghost use Rattle.pom_source.specs.Worlds.{World};
ghost use Rattle.lineage.specs.Lineage.{lineage};
ghost use Rattle.effective.specs.Effective.{asked, asked_path};
ghost use Rattle.effective.specs.Kept.{HoldsAll};

use crate::run_store::RunStore;
use lineage::{Joined, lineage, module_lineage};
use model_types::RawModel;
use mvn_base::PomId;
use mvn_shared::{Shared, Text};
use pom_source::{BuildFault, Given, PomSource};
use std::alloc::Global;

/// A POM over all that it builds on, with a store of what was read in the run. Costs what `lineage` costs.
pub fn lineage_with<P: PomSource>(
    alloc: Global,
    store: &mut RunStore,
    source: &mut P,
    given: &Given,
    raw: &Shared<RawModel>,
) -> Result<Shared<Joined>, BuildFault>
    ensures says { (world : World) → P.fits_poms source.old world
        → HoldsAll world given.now store.old
        → Says (lineage world given.now raw.now) result }
    ensures fit { (world : World) → P.fits_poms source.old world → P.fits_poms source.new world }
    ensures same { TellsOn P.tells_same source.old source.new }
    ensures holds { (world : World) → P.fits_poms source.old world
        → HoldsAll world given.now store.old
        → HoldsAll world given.now store.new }
    ensures cause { HasCause (P.faults source.old) (P.faults source.new) (build_failed result) }
{
    match lineage(alloc, &mut store.lineages, source, given, raw) {
        Ok(joined) => Ok(joined),
        Err(fault) => Err(fault),
    }
}

// The POM at a path of the project over all that it builds on, which may be a parent, too.
#[tactic(auto, using(crate::proofs::Asking::read_there))]
fn module_with<P: PomSource>(
    alloc: Global,
    store: &mut RunStore,
    source: &mut P,
    given: &Given,
    path: &Text,
    raw: &Shared<RawModel>,
) -> Result<Shared<Joined>, BuildFault>
    ensures says { (world : World) → P.fits_poms source.old world
        → HoldsAll world given.now store.old
        → asked_path world path.now ≡ Ok raw.now → Says (lineage world given.now raw.now) result }
    ensures fit { (world : World) → P.fits_poms source.old world → P.fits_poms source.new world }
    ensures same { TellsOn P.tells_same source.old source.new }
    ensures holds { (world : World) → P.fits_poms source.old world
        → HoldsAll world given.now store.old
        → asked_path world path.now ≡ Ok raw.now → HoldsAll world given.now store.new }
    ensures cause { HasCause (P.faults source.old) (P.faults source.new) (build_failed result) }
{
    match module_lineage(alloc, &mut store.lineages, source, given, path, raw) {
        Ok(joined) => Ok(joined),
        Err(fault) => Err(fault),
    }
}

/// The POM that was asked for, over all that it builds on. What a module of packaging `pom` comes to is kept for the
/// modules whose parent it is. Costs what `module_lineage` costs.
pub fn lineage_of<P: PomSource>(
    alloc: Global,
    store: &mut RunStore,
    source: &mut P,
    given: &Given,
    pom: &PomId,
    raw: &Shared<RawModel>,
) -> Result<Shared<Joined>, BuildFault>
    ensures says { (world : World) → P.fits_poms source.old world
        → HoldsAll world given.now store.old
        → asked world pom.now ≡ Ok raw.now → Says (lineage world given.now raw.now) result }
    ensures fit { (world : World) → P.fits_poms source.old world → P.fits_poms source.new world }
    ensures same { TellsOn P.tells_same source.old source.new }
    ensures holds { (world : World) → P.fits_poms source.old world
        → HoldsAll world given.now store.old
        → asked world pom.now ≡ Ok raw.now → HoldsAll world given.now store.new }
    ensures cause { HasCause (P.faults source.old) (P.faults source.new) (build_failed result) }
{
    match pom {
        PomId::Path(path) => module_with(alloc, store, source, given, path, raw),
        PomId::Gav(_) => lineage_with(alloc, store, source, given, raw),
    }
}
