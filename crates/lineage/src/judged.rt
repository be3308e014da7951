//! The active profiles of a POM, found once a run for each path.

ghost use Rattle.std.specs.Prelude.{◌≡◌, Ok, Some, IfOk, OnSome};
ghost use Rattle.mvn_shared.specs.Cause.{HasCause};
ghost use Rattle.profiles.specs.Judging.{TellsOn};
ghost use Rattle.pom_source.specs.Answers.{Says, build_failed};
ghost use Rattle.pom_source.specs.Worlds.{World};
ghost use Rattle.lineage.specs.Beside.{read_at};
ghost use Rattle.lineage.specs.Reading.{active_places};
ghost use Rattle.lineage.specs.Stores.{Holds, IsThere, KeepsLines, KeepsRead, places_in};

use crate::{Origin, Store};
use model_types::RawModel;
use mvn_shared::{List, Shared, Text};
use pom_source::{BuildFault, Given, PomSource};
use profiles::active;
use std::alloc::Global;

/// The places of a POM's active profiles, ascending. `Source` comes only if the source's count of faults rose. Costs
/// the criteria of its profiles. Introduction to Build Profiles.
#[tactic(auto, using(crate::proofs::Telling::untold, crate::proofs::Telling::fits_after))]
pub fn active_places<P: PomSource>(
    alloc: Global,
    source: &mut P,
    given: &Given,
    raw: &RawModel,
) -> Result<Shared<List<usize>>, BuildFault>
    ensures says { (world : World) → P.fits_poms source.old world
        → Says (Ok (active_places given.now world.there raw.now)) result }
    ensures fit { (world : World) → P.fits_poms source.old world → P.fits_poms source.new world }
    ensures same { TellsOn P.tells_same source.old source.new }
    ensures cause { HasCause (P.faults source.old) (P.faults source.new) (build_failed result) }
{
    let defines = given.defines.as_slice();
    let places = active(alloc, raw, &given.machine, defines, &given.choice, source)?;
    Ok(Shared::new(alloc, places)?)
}

/// The places of the active profiles of the POM at a path of the project, where `raw` is what was read at this path: as
/// they were found before, or found and kept. They stay in the store, so that the profiles of a module are looked at
/// once a run. `Source` comes only if the source's count of faults rose. Costs the criteria of its profiles the first
/// time, and the path after that. Project rule.
#[tactic(auto, using(crate::proofs::Telling::untold, crate::proofs::Judging::serves_raw, crate::proofs::Judging::are_active, crate::proofs::Kept::untouched_active))]
pub fn active_at<P: PomSource>(
    alloc: Global,
    store: &mut Store,
    source: &mut P,
    given: &Given,
    path: &Text,
    raw: &RawModel,
) -> Result<Shared<List<usize>>, BuildFault>
    ensures says { (world : World) → P.fits_poms source.old world → Holds world given.now store.old
        → read_at world path.now ≡ Ok (Some raw.now)
        → Says (Ok (active_places given.now world.there raw.now)) result }
    ensures fit { (world : World) → P.fits_poms source.old world → P.fits_poms source.new world }
    ensures same { TellsOn P.tells_same source.old source.new }
    ensures holds { (world : World) → P.fits_poms source.old world → Holds world given.now store.old
        → read_at world path.now ≡ Ok (Some raw.now) → Holds world given.now store.new }
    ensures kept { IfOk result (λ places. places_in store.new path.now ≡ Some places) }
    ensures unasked { OnSome (places_in store.old path.now) (source.new ≡ source.old) }
    ensures keeps { KeepsRead store.old store.new }
    ensures keeps_lines { KeepsLines store.old store.new }
    ensures cause { HasCause (P.faults source.old) (P.faults source.new) (build_failed result) }
{
    if let Some(kept) = store.find_active(path)? {
        return Ok(kept);
    }
    let places = match active_places(alloc, source, given, raw) {
        Ok(places) => places,
        Err(fault) => return Err(fault),
    };
    store.keep_active(path, &places)?;
    Ok(places)
}

/// The places of the active profiles of a POM that an origin led to: kept, if the origin has a path. Costs what
/// `active_at` does.
#[tactic(auto, using(crate::proofs::Judging::at_beside))]
pub fn active_from<P: PomSource>(
    alloc: Global,
    store: &mut Store,
    source: &mut P,
    given: &Given,
    origin: &Origin,
    raw: &RawModel,
) -> Result<Shared<List<usize>>, BuildFault>
    ensures says { (world : World) → P.fits_poms source.old world → Holds world given.now store.old
        → IsThere world origin.now raw.now
        → Says (Ok (active_places given.now world.there raw.now)) result }
    ensures fit { (world : World) → P.fits_poms source.old world → P.fits_poms source.new world }
    ensures same { TellsOn P.tells_same source.old source.new }
    ensures holds { (world : World) → P.fits_poms source.old world → Holds world given.now store.old
        → IsThere world origin.now raw.now → Holds world given.now store.new }
    ensures keeps { KeepsRead store.old store.new }
    ensures keeps_lines { KeepsLines store.old store.new }
    ensures cause { HasCause (P.faults source.old) (P.faults source.new) (build_failed result) }
{
    match origin {
        Origin::Beside(path, _) => active_at(alloc, store, source, given, path, raw),
        Origin::Elsewhere(_) => active_places(alloc, source, given, raw),
    }
}
