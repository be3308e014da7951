//! From a project's devices to its modules.

ghost use Rattle.std.specs.Prelude.{◌≡◌, ◌≤◌, ◌+◌, [], None, Ok, false, length, zip, IfErr, IfOk};
ghost use Rattle.std.specs.List.{AllByRecursion};
ghost use Rattle.mvn_shared.specs.Cause.{HasCause};
ghost use Rattle.mvn_base.specs.Limits.{most_modules};
ghost use Rattle.effective.specs.Kept.{HoldsAll};
ghost use Rattle.effective.specs.Lawful.{IsLawful};
ghost use Rattle.model_resolver.specs.Devices.{Counted, IsCounted};
ghost use Rattle.model_resolver.specs.Finding.{world_of};
ghost use Rattle.lineage.specs.Stores.{Holds};
ghost use Rattle.pom_source.specs.Answers.{Fails, Says, build_failed};
ghost use Rattle.pom_source.specs.Worlds.{World};
ghost use Rattle.project_models.specs.Found.{models_of, project_poms};
ghost use Rattle.project_models.specs.Models.{AreModules, Gives, first_double, modules_of, project_models, single};
ghost use Rattle.project_models.specs.Telling.{IfTold};

use crate::doubles::{first_double, refuse};
use crate::whole::Whole;
use crate::{models_of, own_store, project_poms};
use effective::RunStore;
use lineage::Store;
use model_resolver::{Failures, ModelResolver, ProjectPom, ProjectPoms};
use model_types::Model;
use mvn_outside::{Remote, Shelf, Tree};
use mvn_shared::{List, Shared};
use pom_source::{BuildFault, Given};
use std::alloc::Global;

/// The modules of a project, in the order in which they are listed: their POMs, their effective models, and what was
/// read and built for them, which serves the rest of the run.
#[derive(Drop)]
pub struct ProjectModels {
    pub poms: List<ProjectPom>,
    pub models: List<Shared<Model>>,
    pub store: RunStore,
}

// The POMs of a project, of a source whose calls count as one.
fn poms_in<P: Whole>(
    alloc: Global,
    store: &mut Store,
    source: &mut P,
    given: &Given,
) -> Result<List<ProjectPom>, BuildFault>
    ensures says { (world : World) → P.fits_poms source.old world → Holds world given.now store.old
        → Says (project_poms world given.now) result }
    ensures any { IfOk result (λ poms. 1 ≤ length poms) }
    ensures few { IfOk result (λ poms. length poms ≤ 1 + most_modules) }
    ensures same { P.tells_same source.old source.new }
    ensures holds { (world : World) → P.fits_poms source.old world → Holds world given.now store.old
        → Holds world given.now store.new }
    ensures cause { HasCause (P.faults source.old) (P.faults source.new) (build_failed result) }
{
    project_poms(alloc, store, source, given)
}

// Their effective models, of such a source.
fn models_in<P: Whole>(
    alloc: Global,
    store: &mut RunStore,
    source: &mut P,
    given: &Given,
    poms: &[ProjectPom],
) -> Result<List<Shared<Model>>, BuildFault>
    ensures says { (world : World) → P.fits_poms source.old world
        → HoldsAll world given.now store.old
        → Says (models_of world given.now poms.now) result }
    ensures paired { IfOk result (λ models. length models ≡ length poms.now) }
    ensures lawful { IfOk result (AllByRecursion IsLawful) }
    ensures same { P.tells_same source.old source.new }
    ensures holds { (world : World) → P.fits_poms source.old world
        → HoldsAll world given.now store.old
        → HoldsAll world given.now store.new }
    ensures cause { HasCause (P.faults source.old) (P.faults source.new) (build_failed result) }
{
    models_of(alloc, store, source, given, poms)
}

// The POMs of a project, over its devices.
fn find_poms<T: Tree, S: Shelf, R: Remote>(
    alloc: Global,
    store: &mut Store,
    tree: &mut T,
    shelf: &mut S,
    remote: &mut R,
    failures: &mut Failures,
    given: &Given,
) -> Result<List<ProjectPom>, BuildFault>
    ensures says { IfTold (T.files tree.old) (S.told shelf.old) (R.files remote.old)
        (λ files local there. Holds (world_of [] files local there) given.now store.old
        → Says (project_poms (world_of [] files local there) given.now) result) }
    ensures any { IfOk result (λ poms. 1 ≤ length poms) }
    ensures few { IfOk result (λ poms. length poms ≤ 1 + most_modules) }
    ensures holds { IfTold (T.files tree.old) (S.told shelf.old) (R.files remote.old)
        (λ files local there. Holds (world_of [] files local there) given.now store.old
        → Holds (world_of [] files local there) given.now store.new) }
    ensures tree { T.files tree.new ≡ T.files tree.old }
    ensures shelf { S.told shelf.new ≡ S.told shelf.old }
    ensures remote { R.files remote.new ≡ R.files remote.old }
    ensures counted { Counted failures.old.first failures.new.first
        (record {
          tree = T.faults tree.old;
          shelf = S.faults shelf.old;
          remote = R.faults remote.old;
        })
        (record {
          tree = T.faults tree.new;
          shelf = S.faults shelf.new;
          remote = R.faults remote.new;
        }) }
    ensures noted { IsCounted failures.old → IsCounted failures.new }
    ensures cause { HasCause failures.old.count failures.new.count (build_failed result) }
{
    let none = List::new(alloc);
    let known = match ProjectPoms::of(alloc, none.as_slice()) {
        Ok(known) => known,
        Err(_) => return Err(BuildFault::Memory),
    };
    let mut resolver = ModelResolver {
        alloc,
        tree,
        shelf,
        remote,
        project: &known,
        failures: *failures,
    };
    let poms = poms_in(alloc, store, &mut resolver, given);
    *failures = resolver.failures;
    poms
}

// The effective models of a project's POMs, over its devices.
fn find_models<T: Tree, S: Shelf, R: Remote>(
    alloc: Global,
    store: &mut RunStore,
    tree: &mut T,
    shelf: &mut S,
    remote: &mut R,
    failures: &mut Failures,
    given: &Given,
    poms: &List<ProjectPom>,
) -> Result<List<Shared<Model>>, BuildFault>
    ensures says { IfTold (T.files tree.old) (S.told shelf.old) (R.files remote.old)
        (λ files local there. HoldsAll (world_of poms.now files local there) given.now store.old
        → Says (models_of (world_of poms.now files local there) given.now poms.now) result) }
    ensures paired { IfOk result (λ models. length models ≡ length poms.now) }
    ensures lawful { IfOk result (AllByRecursion IsLawful) }
    ensures holds { IfTold (T.files tree.old) (S.told shelf.old) (R.files remote.old)
        (λ files local there. HoldsAll (world_of poms.now files local there) given.now store.old
        → HoldsAll (world_of poms.now files local there) given.now store.new) }
    ensures tree { T.files tree.new ≡ T.files tree.old }
    ensures shelf { S.told shelf.new ≡ S.told shelf.old }
    ensures remote { R.files remote.new ≡ R.files remote.old }
    ensures counted { Counted failures.old.first failures.new.first
        (record {
          tree = T.faults tree.old;
          shelf = S.faults shelf.old;
          remote = R.faults remote.old;
        })
        (record {
          tree = T.faults tree.new;
          shelf = S.faults shelf.new;
          remote = R.faults remote.new;
        }) }
    ensures noted { IsCounted failures.old → IsCounted failures.new }
    ensures cause { HasCause failures.old.count failures.new.count (build_failed result) }
{
    let list = poms.as_slice();
    let known = match ProjectPoms::of(alloc, list) {
        Ok(known) => known,
        Err(_) => return Err(BuildFault::Memory),
    };
    let mut resolver = ModelResolver {
        alloc,
        tree,
        shelf,
        remote,
        project: &known,
        failures: *failures,
    };
    let models = models_in(alloc, store, &mut resolver, given, list);
    *failures = resolver.failures;
    models
}

// The refusal of the first module whose coordinates one before it has, if there is one.
#[tactic(auto, using(crate::proofs::Giving::fails_double))]
fn refused_double(
    alloc: Global,
    poms: &[ProjectPom],
    models: &List<Shared<Model>>,
) -> Result<(), BuildFault>
    ensures none { IfOk result (λ all. first_double [] (zip poms.now models.now) ≡ None) }
    ensures refused { IfErr result (Fails (single poms.now models.now)) }
    ensures cause { build_failed result ≡ false }
{
    let double = first_double(alloc, poms, models)?;
    match double {
        None => Ok(()),
        Some(double) => refuse(&double),
    }
}

// The modules, unless two of them have the same coordinates.
#[tactic(auto, using(crate::proofs::Giving::are_modules, crate::proofs::Giving::gives_modules, crate::proofs::Giving::fails_listed))]
fn single(
    alloc: Global,
    poms: List<ProjectPom>,
    models: List<Shared<Model>>,
    store: RunStore,
) -> Result<ProjectModels, BuildFault>
    requires paired { length models ≡ length poms }
    requires any { 1 ≤ length poms }
    requires few { length poms ≤ 1 + most_modules }
    requires lawful { AllByRecursion IsLawful models }
    ensures says { Gives (single poms models) result }
    ensures modules { IfOk result (λ found. AreModules found.poms found.models) }
    ensures poms { IfOk result (λ found. found.poms ≡ poms) }
    ensures store { IfOk result (λ found. found.store ≡ store) }
    ensures cause { build_failed result ≡ false }
{
    let list = poms.as_slice();
    match refused_double(alloc, list, &models) {
        Ok(()) => Ok(ProjectModels {
            poms,
            models,
            store,
        }),
        Err(fault) => Err(fault),
    }
}

// The modules of a project whose POMs were found, over what is kept of them.
fn over_store<T: Tree, S: Shelf, R: Remote>(
    alloc: Global,
    store: RunStore,
    tree: &mut T,
    shelf: &mut S,
    remote: &mut R,
    failures: &mut Failures,
    given: &Given,
    poms: List<ProjectPom>,
) -> Result<ProjectModels, BuildFault>
    requires any { 1 ≤ length poms }
    requires few { length poms ≤ 1 + most_modules }
    ensures says { IfTold (T.files tree.old) (S.told shelf.old) (R.files remote.old)
        (λ files local there. HoldsAll (world_of poms files local there) given.now store
        → Gives (modules_of files local there given.now poms) result) }
    ensures modules { IfOk result (λ found. AreModules found.poms found.models) }
    ensures holds { IfTold (T.files tree.old) (S.told shelf.old) (R.files remote.old)
        (λ files local there. HoldsAll (world_of poms files local there) given.now store
        → IfOk result (λ found. HoldsAll (world_of found.poms files local there)
        given.now found.store)) }
    ensures tree { T.files tree.new ≡ T.files tree.old }
    ensures shelf { S.told shelf.new ≡ S.told shelf.old }
    ensures remote { R.files remote.new ≡ R.files remote.old }
    ensures counted { Counted failures.old.first failures.new.first
        (record {
          tree = T.faults tree.old;
          shelf = S.faults shelf.old;
          remote = R.faults remote.old;
        })
        (record {
          tree = T.faults tree.new;
          shelf = S.faults shelf.new;
          remote = R.faults remote.new;
        }) }
    ensures noted { IsCounted failures.old → IsCounted failures.new }
    ensures cause { HasCause failures.old.count failures.new.count (build_failed result) }
{
    let mut run = store;
    match find_models(alloc, &mut run, tree, shelf, remote, failures, given, &poms) {
        Ok(models) => single(alloc, poms, models, run),
        Err(fault) => Err(fault),
    }
}

// The modules of a project, with a store of what was read of the POMs.
#[tactic(auto, using(model_resolver::proofs::Counting::counted_none))]
fn with_poms<T: Tree, S: Shelf, R: Remote>(
    alloc: Global,
    store: Store,
    tree: &mut T,
    shelf: &mut S,
    remote: &mut R,
    failures: &mut Failures,
    given: &Given,
    poms: List<ProjectPom>,
) -> Result<ProjectModels, BuildFault>
    requires any { 1 ≤ length poms }
    requires few { length poms ≤ 1 + most_modules }
    ensures says { IfTold (T.files tree.old) (S.told shelf.old) (R.files remote.old)
        (λ files local there. Holds (world_of [] files local there) given.now store
        → project_poms (world_of [] files local there) given.now ≡ Ok poms
        → Gives (modules_of files local there given.now poms) result) }
    ensures modules { IfOk result (λ found. AreModules found.poms found.models) }
    ensures holds { IfTold (T.files tree.old) (S.told shelf.old) (R.files remote.old)
        (λ files local there. Holds (world_of [] files local there) given.now store
        → project_poms (world_of [] files local there) given.now ≡ Ok poms
        → IfOk result (λ found. HoldsAll (world_of found.poms files local there)
        given.now found.store)) }
    ensures tree { T.files tree.new ≡ T.files tree.old }
    ensures shelf { S.told shelf.new ≡ S.told shelf.old }
    ensures remote { R.files remote.new ≡ R.files remote.old }
    ensures counted { Counted failures.old.first failures.new.first
        (record {
          tree = T.faults tree.old;
          shelf = S.faults shelf.old;
          remote = R.faults remote.old;
        })
        (record {
          tree = T.faults tree.new;
          shelf = S.faults shelf.new;
          remote = R.faults remote.new;
        }) }
    ensures noted { IsCounted failures.old → IsCounted failures.new }
    ensures cause { HasCause failures.old.count failures.new.count (build_failed result) }
{
    match own_store(alloc, store, &poms) {
        Ok(run) => over_store(alloc, run, tree, shelf, remote, failures, given, poms),
        Err(_) => Err(BuildFault::Memory),
    }
}

/// The modules of the project in `tree`, in the order in which they are listed, or the first refusal: what discovery
/// refuses; then what the effective models refuse, module by module; then the first module whose effective coordinates
/// one before it has, with the path of that one. A POM that coordinates name is looked up among the project's POMs
/// first, then in the local repository, then in the remote one. What was read and built stays in the store, for the
/// world of these devices. `Source` comes only where a device failed, and then `failures.first` names it. Each POM's
/// file is read and parsed once; costs what effective models cost besides, and the coordinates of the modules. Guide to
/// Working with Multiple Modules; Maven Model Builder, "Model building".
#[tactic(auto, using(model_resolver::proofs::Counting::counted_twice))]
pub fn project_models<T: Tree, S: Shelf, R: Remote>(
    alloc: Global,
    tree: &mut T,
    shelf: &mut S,
    remote: &mut R,
    failures: &mut Failures,
    given: &Given,
) -> Result<ProjectModels, BuildFault>
    ensures says { IfTold (T.files tree.old) (S.told shelf.old) (R.files remote.old)
        (λ files local there. Gives (project_models files local there given.now) result) }
    ensures modules { IfOk result (λ found. AreModules found.poms found.models) }
    ensures holds { IfTold (T.files tree.old) (S.told shelf.old) (R.files remote.old)
        (λ files local there. IfOk result (λ found.
        HoldsAll (world_of found.poms files local there) given.now found.store)) }
    ensures tree { T.files tree.new ≡ T.files tree.old }
    ensures shelf { S.told shelf.new ≡ S.told shelf.old }
    ensures remote { R.files remote.new ≡ R.files remote.old }
    ensures counted { Counted failures.old.first failures.new.first
        (record {
          tree = T.faults tree.old;
          shelf = S.faults shelf.old;
          remote = R.faults remote.old;
        })
        (record {
          tree = T.faults tree.new;
          shelf = S.faults shelf.new;
          remote = R.faults remote.new;
        }) }
    ensures noted { IsCounted failures.old → IsCounted failures.new }
    ensures cause { HasCause failures.old.count failures.new.count (build_failed result) }
{
    let mut store = Store::new(alloc);
    match find_poms(alloc, &mut store, tree, shelf, remote, failures, given) {
        Ok(poms) => with_poms(alloc, store, tree, shelf, remote, failures, given, poms),
        Err(fault) => Err(fault),
    }
}
