//! The effective models of a project's POMs.

ghost use Rattle.std.specs.Prelude.{◌≡◌, length, IfOk};
ghost use Rattle.std.specs.List.{AllByRecursion};
ghost use Rattle.mvn_base.specs.declared.refusal.PomId.TheVariants as ids;
ghost use Rattle.mvn_shared.specs.Cause.{HasCause};
ghost use Rattle.profiles.specs.Judging.{TellsOn};
ghost use Rattle.pom_source.specs.Answers.{Says, build_failed};
ghost use Rattle.pom_source.specs.Worlds.{World};
ghost use Rattle.effective.specs.Effective.{effective};
ghost use Rattle.effective.specs.Kept.{HoldsAll};
ghost use Rattle.effective.specs.Lawful.{IsLawful};
ghost use Rattle.project_models.specs.Found.{models_of};

use effective::{RunStore, effective_with};
use model_resolver::ProjectPom;
use model_types::Model;
use mvn_base::PomId;
use mvn_shared::{List, Shared};
use pom_source::{BuildFault, Given, PomSource};
use std::alloc::Global;

// The effective model of a POM.
fn model_of<P: PomSource>(
    alloc: Global,
    store: &mut RunStore,
    source: &mut P,
    given: &Given,
    pom: &PomId,
) -> Result<Shared<Model>, BuildFault>
    ensures says { (world : World) → P.fits_poms source.old world
        → HoldsAll world given.now store.old
        → Says (effective world given.now pom.now) result }
    ensures lawful { IfOk result IsLawful }
    ensures fit { (world : World) → P.fits_poms source.old world → P.fits_poms source.new world }
    ensures same { TellsOn P.tells_same source.old source.new }
    ensures holds { (world : World) → P.fits_poms source.old world
        → HoldsAll world given.now store.old
        → HoldsAll world given.now store.new }
    ensures cause { HasCause (P.faults source.old) (P.faults source.new) (build_failed result) }
{
    match effective_with(alloc, store, source, given, pom) {
        Ok(model) => Ok(Shared::new(alloc, model)?),
        Err(fault) => Err(fault),
    }
}

// The effective model of one of the project's POMs.
#[tactic(auto, using(lineage::proofs::Telling::untold))]
fn model_at<P: PomSource>(
    alloc: Global,
    store: &mut RunStore,
    source: &mut P,
    given: &Given,
    pom: &ProjectPom,
) -> Result<Shared<Model>, BuildFault>
    ensures says { (world : World) → P.fits_poms source.old world
        → HoldsAll world given.now store.old
        → Says (effective world given.now (ids.Path pom.now.path)) result }
    ensures lawful { IfOk result IsLawful }
    ensures fit { (world : World) → P.fits_poms source.old world → P.fits_poms source.new world }
    ensures same { TellsOn P.tells_same source.old source.new }
    ensures holds { (world : World) → P.fits_poms source.old world
        → HoldsAll world given.now store.old
        → HoldsAll world given.now store.new }
    ensures cause { HasCause (P.faults source.old) (P.faults source.new) (build_failed result) }
{
    let id = PomId::Path(pom.path.clone()?);
    match model_of(alloc, store, source, given, &id) {
        Ok(model) => Ok(model),
        Err(fault) => Err(fault),
    }
}

/// The effective model of each of the project's POMs, in their order, or the first refusal. A parent or an import that
/// several have is read and built once. Costs what effective models cost. Maven Model Builder, "Model building".
#[tactic(auto, using(lineage::proofs::Telling::told_both, crate::proofs::Each::none_yet, crate::proofs::Each::one_more, crate::proofs::Each::one_fails, crate::proofs::Each::all_done, crate::proofs::Each::all_more))]
pub fn models_of<P: PomSource>(
    alloc: Global,
    store: &mut RunStore,
    source: &mut P,
    given: &Given,
    poms: &[ProjectPom],
) -> Result<List<Shared<Model>>, BuildFault>
    ensures says { (world : World) → P.fits_poms source.old world
        → HoldsAll world given.now store.old
        → Says (models_of world given.now poms.now) result }
    ensures paired { IfOk result (λ models. length models ≡ length poms.now) }
    ensures lawful { IfOk result (AllByRecursion IsLawful) }
    ensures same { TellsOn P.tells_same source.old source.new }
    ensures holds { (world : World) → P.fits_poms source.old world
        → HoldsAll world given.now store.old
        → HoldsAll world given.now store.new }
    ensures cause { HasCause (P.faults source.old) (P.faults source.new) (build_failed result) }
{
    let mut models = List::new(alloc);
    for pom in poms {
        let model = match model_at(alloc, store, source, given, pom) {
            Ok(model) => model,
            Err(fault) => return Err(fault),
        };
        models.push(model)?;
    }
    Ok(models)
}
