//! The POM of coordinates, looked up and read once a run.

ghost use Rattle.std.specs.Prelude.{◌≡◌, false, Some, IfOk, OnSome};
ghost use Rattle.mvn_shared.specs.Cause.{HasCause};
ghost use Rattle.profiles.specs.Judging.{TellsOn};
ghost use Rattle.pom_source.specs.Answers.{Says, build_failed};
ghost use Rattle.pom_source.specs.Worlds.{World};
ghost use Rattle.pom_source.specs.declared.found.Given as givens;
ghost use Rattle.lineage.specs.declared.origin.Candidate.TheVariants.{Refused};
ghost use Rattle.lineage.specs.Lineage.{known, known_at, known_of};
ghost use Rattle.lineage.specs.Reading.{read};
ghost use Rattle.lineage.specs.Stores.{Holds, KeepsLines, KeepsRead, known_in};

use crate::{Candidate, Store, read};
use mvn_base::{Gav, PomId, Refusal};
use mvn_shared::{Mem, Shared};
use pom_source::{BuildFault, Found, PomSource};
use std::alloc::Global;

// What is known of a POM that is refused.
fn refused_pom(alloc: Global, pom: &PomId, refusal: Refusal) -> Mem<Shared<Candidate>>
    ensures { IfOk result (λ found. found ≡ Refused pom.now refusal) }
{
    let pom = pom.clone()?;
    Shared::new(alloc, Candidate::Refused(pom, refusal))
}

// What is known of a POM that was found.
fn known(alloc: Global, found: &Found) -> Result<Shared<Candidate>, BuildFault>
    ensures says { Says (known found.now.pom (read found.now.pom found.now.bytes)) result }
    ensures cause { build_failed result ≡ false }
{
    match read(alloc, &found.pom, &found.bytes) {
        Ok(raw) => Ok(Shared::new(alloc, Candidate::Read(raw))?),
        Err(BuildFault::Refused(refusal)) => Ok(refused_pom(alloc, &found.pom, refusal)?),
        Err(BuildFault::Absent) => Err(BuildFault::Absent),
        Err(BuildFault::Source) => Err(BuildFault::Source),
        Err(BuildFault::Memory) => Err(BuildFault::Memory),
    }
}

// What is known of a POM that was looked for.
fn known_of(alloc: Global, found: &Option<Found>) -> Result<Option<Shared<Candidate>>, BuildFault>
    ensures says { Says (known_of found.now) result }
    ensures cause { build_failed result ≡ false }
{
    match found {
        Some(found) => {
            let known = known(alloc, found)?;
            Ok(Some(known))
        }
        None => Ok(None),
    }
}

// The POM of coordinates, asked for and read.
#[tactic(auto, using(crate::proofs::Telling::told_once, crate::proofs::Telling::untold))]
fn known_anew<P: PomSource>(
    alloc: Global,
    source: &mut P,
    gav: &Gav,
) -> Result<Option<Shared<Candidate>>, BuildFault>
    ensures says { (world : World) → P.fits_poms source.old world
        → Says (known_at world gav.now) result }
    ensures fit { (world : World) → P.fits_poms source.old world → P.fits_poms source.new world }
    ensures same { TellsOn P.tells_same source.old source.new }
    ensures cause { HasCause (P.faults source.old) (P.faults source.new) (build_failed result) }
{
    let found = source.by_gav(gav)?;
    match known_of(alloc, &found) {
        Ok(known) => Ok(known),
        Err(fault) => Err(fault),
    }
}

/// The POM of coordinates, and what it says: as it was found before, or looked up, read and kept; none if there is no
/// such POM. What was found stays in the store and isn't asked for again: the model or the refusal of its text, or that
/// there is none, but never that the source failed. `Source` comes only if the source's count of faults rose. Costs the
/// POM's bytes the first time, and the coordinates after that. Project rule.
#[tactic(auto, using(crate::proofs::Telling::untold, crate::proofs::Kept::untouched_known))]
pub fn pom_at<P: PomSource>(
    alloc: Global,
    store: &mut Store,
    source: &mut P,
    gav: &Gav,
) -> Result<Option<Shared<Candidate>>, BuildFault>
    ensures says { (world : World) (given : givens.Given) → P.fits_poms source.old world
        → Holds world given store.old
        → Says (known_at world gav.now) result }
    ensures fit { (world : World) → P.fits_poms source.old world → P.fits_poms source.new world }
    ensures same { TellsOn P.tells_same source.old source.new }
    ensures holds { (world : World) (given : givens.Given) → P.fits_poms source.old world
        → Holds world given store.old → Holds world given store.new }
    ensures kept { IfOk result (λ found. known_in store.new gav.now ≡ Some found) }
    ensures unasked { OnSome (known_in store.old gav.now) (source.new ≡ source.old) }
    ensures keeps { KeepsRead store.old store.new }
    ensures keeps_lines { KeepsLines store.old store.new }
    ensures cause { HasCause (P.faults source.old) (P.faults source.new) (build_failed result) }
{
    if let Some(kept) = store.find_known(gav)? {
        return Ok(kept);
    }
    let found = match known_anew(alloc, source, gav) {
        Ok(found) => found,
        Err(fault) => return Err(fault),
    };
    store.keep_known(gav, &found)?;
    Ok(found)
}
