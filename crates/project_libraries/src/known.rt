//! What is known of a coordinate's POM, which is built at most once.

ghost use Rattle.std.specs.Prelude.{◌≡◌, List as Items, None, IfOk};
ghost use Rattle.std.specs.HashMap.{get};
ghost use Rattle.mvn_shared.specs.Cause.{HasCause};
ghost use Rattle.mvn_base.specs.declared.refusal.PomId.TheVariants as ids;
ghost use Rattle.model_types.specs.declared.model.Model as models;
ghost use Rattle.profiles.specs.Judging.{TellsOn};
ghost use Rattle.pom_source.specs.Answers.{Built, Says, build_failed};
ghost use Rattle.pom_source.specs.Worlds.{World};
ghost use Rattle.mvn_base.specs.Gav.{gav_eq};
ghost use Rattle.effective.specs.Effective.{effective};
ghost use Rattle.effective.specs.Kept.{HoldsAll};
ghost use Rattle.mediation.specs.Faults.{lookup_failed};
ghost use Rattle.project_libraries.specs.Holding.{HoldsKnown};
ghost use Rattle.project_libraries.specs.Known.{known_at, known_of};

use crate::memo::{find_known, keep_known};
use effective::{RunStore, effective_with};
use mediation::{Known, Library, LookupFault};
use model_types::Model;
use mvn_base::{Gav, PomId};
use mvn_shared::{Mem, Shared};
use pom_source::{BuildFault, Given, PomSource};
use std::alloc::Global;
use std::collections::HashMap;

// A POM of this effective model.
fn library_of(alloc: Global, model: Model) -> Mem<Library>
    ensures { IfOk result (λ library. library ≡ model) }
{
    let model = Shared::new(alloc, model)?;
    Library::new(alloc, model)
}

// What an effective model comes to, or the fault.
fn known_of(alloc: Global, built: Result<Model, BuildFault>) -> Result<Known, LookupFault>
    ensures says { (said : Built models.Model) → Says said built
        → IfOk result (λ known. known ≡ known_of said) }
    ensures failed { lookup_failed result ≡ build_failed built }
{
    match built {
        Ok(model) => Ok(Known::Model(library_of(alloc, model)?)),
        Err(BuildFault::Refused(refusal)) => Ok(Known::Refused(refusal.rule)),
        Err(BuildFault::Absent) => Ok(Known::Missing),
        Err(BuildFault::Source) => Err(LookupFault::Failed),
        Err(BuildFault::Memory) => Err(LookupFault::Memory),
    }
}

// The POM of coordinates.
fn pom_of(gav: &Gav) -> Mem<PomId>
    ensures { IfOk result (λ pom. pom ≡ ids.Gav gav.now) }
{
    Ok(PomId::Gav(gav.clone()?))
}

// What the POM of coordinates comes to.
#[tactic(auto, using(lineage::proofs::Telling::untold))]
fn built<P: PomSource>(
    alloc: Global,
    source: &mut P,
    store: &mut RunStore,
    given: &Given,
    gav: &Gav,
) -> Result<Known, LookupFault>
    ensures tells { (world : World) → P.fits_poms source.old world
        → HoldsAll world given.now store.old
        → IfOk result (λ known. known ≡ known_of (effective world given.now (ids.Gav gav.now))) }
    ensures fit { (world : World) → P.fits_poms source.old world → P.fits_poms source.new world }
    ensures holds { (world : World) → P.fits_poms source.old world
        → HoldsAll world given.now store.old → HoldsAll world given.now store.new }
    ensures same { TellsOn P.tells_same source.old source.new }
    ensures cause { HasCause (P.faults source.old) (P.faults source.new) (lookup_failed result) }
{
    let pom = pom_of(gav)?;
    let built = effective_with(alloc, store, source, given, &pom);
    known_of(alloc, built)
}

// What is known of a coordinate's POM, which is built and kept.
#[tactic(auto, using(lineage::proofs::Telling::untold, crate::proofs::Keeping::known_built, crate::proofs::Keeping::known_put))]
fn built_anew<P: PomSource>(
    alloc: Global,
    source: &mut P,
    store: &mut RunStore,
    given: &Given,
    memo: &mut HashMap<Gav, Known>,
    gav: &Gav,
) -> Result<Known, LookupFault>
    requires { get gav_eq memo.old gav.now ≡ None }
    ensures tells { (world : World) (own : Items models.Model) → P.fits_poms source.old world
        → HoldsAll world given.now store.old → HoldsKnown world given.now own (get gav_eq memo.old)
        → IfOk result (λ known. known ≡ known_at world given.now own gav.now) }
    ensures fit { (world : World) → P.fits_poms source.old world → P.fits_poms source.new world }
    ensures holds { (world : World) → P.fits_poms source.old world
        → HoldsAll world given.now store.old → HoldsAll world given.now store.new }
    ensures kept { (world : World) (own : Items models.Model) → P.fits_poms source.old world
        → HoldsAll world given.now store.old → HoldsKnown world given.now own (get gav_eq memo.old)
        → HoldsKnown world given.now own (get gav_eq memo.new) }
    ensures same { TellsOn P.tells_same source.old source.new }
    ensures cause { HasCause (P.faults source.old) (P.faults source.new) (lookup_failed result) }
{
    match built(alloc, source, store, given, gav) {
        Ok(known) => {
            keep_known(memo, gav, &known)?;
            Ok(known)
        }
        Err(fault) => Err(fault),
    }
}

/// What is known of a coordinate's POM: what is kept, and else what is built and kept. Costs a copy of what is kept, or
/// the effective model.
#[tactic(auto, using(lineage::proofs::Telling::untold, crate::proofs::Keeping::known_kept))]
pub(crate) fn known_at<P: PomSource>(
    alloc: Global,
    source: &mut P,
    store: &mut RunStore,
    given: &Given,
    memo: &mut HashMap<Gav, Known>,
    gav: &Gav,
) -> Result<Known, LookupFault>
    ensures tells { (world : World) (own : Items models.Model) → P.fits_poms source.old world
        → HoldsAll world given.now store.old → HoldsKnown world given.now own (get gav_eq memo.old)
        → IfOk result (λ known. known ≡ known_at world given.now own gav.now) }
    ensures fit { (world : World) → P.fits_poms source.old world → P.fits_poms source.new world }
    ensures holds { (world : World) → P.fits_poms source.old world
        → HoldsAll world given.now store.old → HoldsAll world given.now store.new }
    ensures kept { (world : World) (own : Items models.Model) → P.fits_poms source.old world
        → HoldsAll world given.now store.old → HoldsKnown world given.now own (get gav_eq memo.old)
        → HoldsKnown world given.now own (get gav_eq memo.new) }
    ensures same { TellsOn P.tells_same source.old source.new }
    ensures cause { HasCause (P.faults source.old) (P.faults source.new) (lookup_failed result) }
{
    if let Some(known) = find_known(memo, gav)? {
        return Ok(known);
    }
    built_anew(alloc, source, store, given, memo, gav)
}
