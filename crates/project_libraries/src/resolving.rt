//! What the modules of a project are built with.

ghost use Rattle.std.specs.Prelude.{◌≡◌, Err, false, length, IfOk, IfSome};
ghost use Rattle.mvn_shared.specs.Cause.{HasCause};
ghost use Rattle.mvn_outside.specs.Shelf.{files_now};
ghost use Rattle.pom_source.specs.Answers.{Says, build_failed};
ghost use Rattle.pom_source.specs.declared.fault.BuildFault.TheVariants as fault;
ghost use Rattle.effective.specs.Kept.{HoldsAll};
ghost use Rattle.model_resolver.specs.Devices.{Counted, IsCounted};
ghost use Rattle.model_resolver.specs.Finding.{world_of};
ghost use Rattle.mediation.specs.Libraries.{Libraries};
ghost use Rattle.mediation.specs.Telling.{TellsOn};
ghost use Rattle.project_libraries.specs.Known.{libraries_of};
ghost use Rattle.project_libraries.specs.Resolving.{Resolves, ResolvesModule, managed_by, refused_at};

use crate::memo::known_modules;
use crate::run_lookup::{RunLookup, Whole};
use classpaths::Resolution;
use effective::RunStore;
use managed_deps::{ManagedSet, managed};
use mediation::{Lookup, MediationFault};
use model_resolver::{Failures, ModelResolver, ProjectPom, ProjectPoms};
use model_types::Model;
use mvn_base::{Place, PomId, Refusal, Rule};
use mvn_outside::{Remote, Shelf, Tree};
use mvn_shared::{List, Shared, Text};
use pom_source::{BuildFault, Given};
use resolution::{KeptRows, mediate};
use std::alloc::Global;

// A module's refusal.
fn refused(pom: &ProjectPom, rule: Rule, place: Text) -> Result<Resolution, BuildFault>
    ensures says { Says (Err (fault.Refused (refused_at pom.now rule place))) result }
    ensures cause { build_failed result ≡ false }
{
    let pom = PomId::Path(pom.path.clone()?);
    let place = Place::Name(place);
    Err(BuildFault::Refused(Refusal { pom, rule, place }))
}

// What a module comes to, with what it manages.
#[tactic(auto, using(crate::proofs::Modules::module_refused))]
fn mediated<L: Lookup>(
    alloc: Global,
    lookup: &mut L,
    rows: &mut KeptRows,
    pom: &ProjectPom,
    model: &Model,
    set: &ManagedSet,
) -> Result<Resolution, BuildFault>
    requires { set.now ≡ managed_by model.now }
    ensures resolves { (libraries : Libraries) → L.fits lookup.old libraries
        → ResolvesModule libraries pom.now model.now result }
    ensures same { (libraries : Libraries) → L.fits lookup.old libraries
        → L.fits lookup.new libraries }
    ensures alike { TellsOn L.tells_same lookup.old lookup.new }
    ensures cause { HasCause (L.faults lookup.old) (L.faults lookup.new) (build_failed result) }
{
    match mediate(alloc, model.base.dependencies.as_slice(), set, lookup, rows) {
        Ok(resolution) => Ok(resolution),
        Err(MediationFault::Refused { rule, place }) => refused(pom, rule, place),
        Err(MediationFault::Lookup) => Err(BuildFault::Source),
        Err(MediationFault::Memory) => Err(BuildFault::Memory),
    }
}

// What a module comes to.
#[tactic(auto, using(mediation::proofs::Telling::untold))]
fn resolve_module<L: Lookup>(
    alloc: Global,
    lookup: &mut L,
    rows: &mut KeptRows,
    pom: &ProjectPom,
    model: &Model,
) -> Result<Resolution, BuildFault>
    ensures resolves { (libraries : Libraries) → L.fits lookup.old libraries
        → ResolvesModule libraries pom.now model.now result }
    ensures same { (libraries : Libraries) → L.fits lookup.old libraries
        → L.fits lookup.new libraries }
    ensures alike { TellsOn L.tells_same lookup.old lookup.new }
    ensures cause { HasCause (L.faults lookup.old) (L.faults lookup.new) (build_failed result) }
{
    let set = managed(alloc, model.base.managed.as_slice(), &[])?;
    mediated(alloc, lookup, rows, pom, model, &set)
}

// What each module comes to.
#[tactic(auto, using(mediation::proofs::Telling::untold, mediation::proofs::Telling::told_both))]
fn resolve_each<L: Lookup>(
    alloc: Global,
    lookup: &mut L,
    poms: &[ProjectPom],
    models: &[Shared<Model>],
) -> Result<List<Resolution>, BuildFault>
    requires paired { length models.now ≡ length poms.now }
    ensures resolves { (libraries : Libraries) → L.fits lookup.old libraries
        → Resolves libraries poms.now models.now result }
    ensures long { IfOk result (λ resolutions. length resolutions ≡ length models.now) }
    ensures alike { TellsOn L.tells_same lookup.old lookup.new }
    ensures cause { HasCause (L.faults lookup.old) (L.faults lookup.new) (build_failed result) }
{
    let mut list = List::new(alloc);
    let mut rows = KeptRows::new(alloc);
    for at in 0..models.len() {
        match resolve_module(alloc, lookup, &mut rows, &poms[at], models[at].value()) {
            Ok(resolution) => list.push(resolution)?,
            Err(fault) => return Err(fault),
        }
    }
    Ok(list)
}

// What each module comes to, by a look-up that tells after all calls what it tells after one.
fn resolve_kept<L: Whole>(
    alloc: Global,
    lookup: &mut L,
    poms: &[ProjectPom],
    models: &[Shared<Model>],
) -> Result<List<Resolution>, BuildFault>
    requires paired { length models.now ≡ length poms.now }
    ensures resolves { (libraries : Libraries) → L.fits lookup.old libraries
        → Resolves libraries poms.now models.now result }
    ensures long { IfOk result (λ resolutions. length resolutions ≡ length models.now) }
    ensures same { L.tells_same lookup.old lookup.new }
    ensures cause { HasCause (L.faults lookup.old) (L.faults lookup.new) (build_failed result) }
{
    resolve_each(alloc, lookup, poms, models)
}

/// What each module is built with, in order: its own dependencies are mediated, under what it manages, among the
/// libraries of the run; or the first refusal, which names the module's POM. A dependency that is a module is known by
/// that module's effective model, any other by what its POM comes to; one that is missing or refused leads to nothing,
/// and ends nothing. `store` is what was read in the run. `Source` comes exactly if a device failed. Costs what
/// mediation costs for each module, and the coordinates of the modules; a POM that many need is built once.
/// Introduction to the Dependency Mechanism; Guide to Working with Multiple Modules.
pub fn resolve_modules<T: Tree, S: Shelf, R: Remote>(
    alloc: Global,
    tree: &mut T,
    shelf: &mut S,
    remote: &mut R,
    failures: &mut Failures,
    given: &Given,
    poms: &[ProjectPom],
    models: &[Shared<Model>],
    store: &mut RunStore,
) -> Result<List<Resolution>, BuildFault>
    requires paired { length models.now ≡ length poms.now }
    ensures says { IfSome (T.files tree.old) (λ files. IfSome (S.told shelf.old) (λ told.
        IfSome (R.files remote.old) (λ there.
        HoldsAll (world_of poms.now files (files_now told) there) given.now store.old
        → Resolves (libraries_of files (files_now told) there given.now poms.now models.now)
        poms.now models.now result))) }
    ensures long { IfOk result (λ resolutions. length resolutions ≡ length models.now) }
    ensures tree { T.files tree.new ≡ T.files tree.old }
    ensures shelf { S.told shelf.new ≡ S.told shelf.old }
    ensures remote { R.files remote.new ≡ R.files remote.old }
    ensures counted { Counted failures.old.first failures.new.first
        (record {
          tree = T.faults tree.old;
          shelf = S.faults shelf.old;
          remote = R.faults remote.old;
        })
        (record {
          tree = T.faults tree.new;
          shelf = S.faults shelf.new;
          remote = R.faults remote.new;
        }) }
    ensures noted { IsCounted failures.old → IsCounted failures.new }
    ensures cause { HasCause failures.old.count failures.new.count (build_failed result) }
{
    let mut memo = match known_modules(alloc, models) {
        Ok(memo) => memo,
        Err(_) => return Err(BuildFault::Memory),
    };
    let known = match ProjectPoms::of(alloc, poms) {
        Ok(known) => known,
        Err(_) => return Err(BuildFault::Memory),
    };
    let source = ModelResolver {
        alloc,
        tree,
        shelf,
        remote,
        project: &known,
        failures: *failures,
    };
    let mut lookup = RunLookup {
        source,
        store,
        given,
        own: models,
        memo: &mut memo,
    };
    let found = resolve_kept(alloc, &mut lookup, poms, models);
    *failures = lookup.source.failures;
    found
}
