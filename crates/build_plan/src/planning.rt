// Makes the plan of a project that devices hold.
ghost use Rattle.std.specs.Prelude.{◌≡◌, ℕ, ◌≤◌, ◌<◌, false, None, Err, Option, is_some, length, IfOk, IfSome};
ghost use Rattle.mvn_shared.specs.Cause.{HasCause};
ghost use Rattle.mvn_shared.specs.Files.{Files};
ghost use Rattle.mvn_outside.specs.Shelf.{files_now};
ghost use Rattle.effective.specs.Kept.{HoldsAll};
ghost use Rattle.model_resolver.specs.Devices.{Counted, IsCounted};
ghost use Rattle.model_resolver.specs.Finding.{world_of};
ghost use Rattle.project_models.specs.Models.{AreModules};
ghost use Rattle.project_models.specs.Telling.{IfTold};
ghost use Rattle.reactor.specs.Reactor.{Answers, AreInOrder};
ghost use Rattle.build_plan.specs.Planning.{plan_failed, plan_fault, AreResolved, IsPlan, IsProject, KnowsFiles, NamesWord, Plans};

use crate::reading::{Reactor, plan_built};
use classpaths::Resolution;
use cli_words::CommandLine;
use model_resolver::{Failures, PomDevice, ProjectPom};
use model_types::Model;
use module_plan::Planned;
use mvn_outside::{Remote, Shelf, Tree};
use mvn_shared::{List, Shared};
use pom_source::{BuildFault, Given};
use project_libraries::resolve_modules;
use project_models::{ProjectModels, project_models};
use reactor::{ReactorFault, ReactorModules, reactor_modules};
use std::alloc::Global;
use thiserror::Error;

/// Why there is no plan: what a POM or the plan is refused for, a device that failed, or want of memory; or the word at a place means no
/// module that is built.
#[derive(Debug, Drop, Error)]
pub enum PlanFault {
    #[error("{0}")]
    Build(BuildFault),
    #[error("selector {0} names no module that is built")]
    Unknown(usize),
}

/// What planning gave: a plan, or why there is none; and the device that failed, if one did.
#[derive(Drop)]
pub struct Planning<A> {
    pub answer: A,
    pub failed: Option<PomDevice>,
}

// The modules of a project, in the order of discovery, with what the dependencies of each lead to.
#[derive(Drop)]
struct Resolved {
    poms: List<ProjectPom>,
    models: List<Shared<Model>>,
    resolutions: List<Resolution>,
}

// Why no modules are built, as a fault of planning.
fn fault_of(fault: ReactorFault) -> PlanFault
    ensures same { result ≡ plan_fault fault }
    ensures quiet { plan_failed (Err result) ≡ false }
{
    match fault {
        ReactorFault::Refused(refusal) => PlanFault::Build(BuildFault::Refused(refusal)),
        ReactorFault::Unknown(place) => PlanFault::Unknown(place),
        ReactorFault::Memory => PlanFault::Build(BuildFault::Memory),
    }
}

// The modules that are built, of those whose dependencies are resolved.
fn reactor_of(
    alloc: Global,
    models: &List<Shared<Model>>,
    resolutions: &List<Resolution>,
    line: &CommandLine,
) -> Result<ReactorModules, ReactorFault>
    requires few { length models.now < 4294967296 }
    ensures says { Answers models.now resolutions.now line.now result }
    ensures order { IfOk result (AreInOrder (length models.now)) }
{
    reactor_modules(alloc, models.as_slice(), resolutions.as_slice(), line)
}

// The plan of modules whose dependencies are resolved: they are put in order, and the command line selects of them.
fn plan_resolved<T: Tree, S: Shelf>(
    alloc: Global,
    tree: &mut T,
    shelf: &mut S,
    failures: &mut Failures,
    given: &Given,
    line: &CommandLine,
    project: Resolved,
) -> Result<Planned, PlanFault>
    requires workers { (1 ≤ line.now.workers) × (line.now.workers ≤ 16) }
    requires modules { AreModules project.poms project.models }
    requires resolved { length project.resolutions ≡ length project.models }
    ensures says { (remote : Option Files)
        → IfTold (T.files tree.old) (S.told shelf.old) remote (λ files local there.
        AreResolved files local there given.now line.now
        (record { poms = project.poms; models = project.models }) project.resolutions
        → Plans files local there given.now line.now result) }
    ensures made { IfOk result (IsPlan line.now) }
    ensures present { IfOk result (KnowsFiles (S.told shelf.old)) }
    ensures word { NamesWord line.now result }
    ensures tree { T.files tree.new ≡ T.files tree.old }
    ensures shelf { S.told shelf.new ≡ S.told shelf.old }
    ensures counted { (remote : ℕ) → Counted failures.old.first failures.new.first
        (record { tree = T.faults tree.old; shelf = S.faults shelf.old; remote = remote })
        (record { tree = T.faults tree.new; shelf = S.faults shelf.new; remote = remote }) }
    ensures noted { IsCounted failures.old → IsCounted failures.new }
    ensures cause { HasCause failures.old.count failures.new.count (plan_failed result) }
{
    let Resolved {
        poms,
        models,
        resolutions,
    } = project;
    match reactor_of(alloc, &models, &resolutions, line) {
        Ok(built) => {
            let reactor = Reactor {
                poms,
                models,
                resolutions,
                built,
            };
            plan_built(alloc, tree, shelf, failures, given, line, reactor)
        }
        Err(fault) => Err(fault_of(fault)),
    }
}

// The plan of a project's modules: their dependencies are resolved.
fn plan_found<T: Tree, S: Shelf, R: Remote>(
    alloc: Global,
    tree: &mut T,
    shelf: &mut S,
    remote: &mut R,
    failures: &mut Failures,
    given: &Given,
    line: &CommandLine,
    found: ProjectModels,
) -> Result<Planned, PlanFault>
    requires workers { (1 ≤ line.now.workers) × (line.now.workers ≤ 16) }
    requires modules { AreModules found.poms found.models }
    ensures says { IfTold (T.files tree.old) (S.told shelf.old) (R.files remote.old)
        (λ files local there.
        HoldsAll (world_of found.poms files local there) given.now found.store
        → IsProject files local there given.now line.now
        (record { poms = found.poms; models = found.models })
        → Plans files local there given.now line.now result) }
    ensures made { IfOk result (IsPlan line.now) }
    ensures present { IfOk result (KnowsFiles (S.told shelf.old)) }
    ensures word { NamesWord line.now result }
    ensures tree { T.files tree.new ≡ T.files tree.old }
    ensures shelf { S.told shelf.new ≡ S.told shelf.old }
    ensures remote { R.files remote.new ≡ R.files remote.old }
    ensures counted { Counted failures.old.first failures.new.first
        (record {
          tree = T.faults tree.old;
          shelf = S.faults shelf.old;
          remote = R.faults remote.old;
        })
        (record {
          tree = T.faults tree.new;
          shelf = S.faults shelf.new;
          remote = R.faults remote.new;
        }) }
    ensures noted { IsCounted failures.old → IsCounted failures.new }
    ensures cause { HasCause failures.old.count failures.new.count (plan_failed result) }
{
    let ProjectModels {
        poms,
        models,
        store,
    } = found;
    let mut store = store;
    match resolve_modules(
        alloc,
        tree,
        shelf,
        remote,
        failures,
        given,
        poms.as_slice(),
        models.as_slice(),
        &mut store,
    ) {
        Ok(resolutions) => {
            let project = Resolved {
                poms,
                models,
                resolutions,
            };
            plan_resolved(alloc, tree, shelf, failures, given, line, project)
        }
        Err(fault) => Err(PlanFault::Build(fault)),
    }
}

// The plan of a project.
fn plan_counted<T: Tree, S: Shelf, R: Remote>(
    alloc: Global,
    tree: &mut T,
    shelf: &mut S,
    remote: &mut R,
    failures: &mut Failures,
    given: &Given,
    line: &CommandLine,
) -> Result<Planned, PlanFault>
    requires workers { (1 ≤ line.now.workers) × (line.now.workers ≤ 16) }
    ensures says { IfTold (T.files tree.old) (S.told shelf.old) (R.files remote.old)
        (λ files local there. Plans files local there given.now line.now result) }
    ensures made { IfOk result (IsPlan line.now) }
    ensures present { IfOk result (KnowsFiles (S.told shelf.old)) }
    ensures word { NamesWord line.now result }
    ensures tree { T.files tree.new ≡ T.files tree.old }
    ensures shelf { S.told shelf.new ≡ S.told shelf.old }
    ensures remote { R.files remote.new ≡ R.files remote.old }
    ensures counted { Counted failures.old.first failures.new.first
        (record {
          tree = T.faults tree.old;
          shelf = S.faults shelf.old;
          remote = R.faults remote.old;
        })
        (record {
          tree = T.faults tree.new;
          shelf = S.faults shelf.new;
          remote = R.faults remote.new;
        }) }
    ensures noted { IsCounted failures.old → IsCounted failures.new }
    ensures cause { HasCause failures.old.count failures.new.count (plan_failed result) }
{
    match project_models(alloc, tree, shelf, remote, failures, given) {
        Ok(found) => plan_found(alloc, tree, shelf, remote, failures, given, line, found),
        Err(fault) => Err(PlanFault::Build(fault)),
    }
}

/// The plan of the project in `tree` for a command line of 1 to 16 workers, or the first refusal: of a POM that is read, of an effective
/// model, of two modules with the same coordinates, of what dependencies lead to, of modules that stand on one another in a circle; then
/// the first word that means no module that is built; then sources that are too many, and a plan that is too large. Only the modules that
/// the words select are in the plan, in the order of the build, for the phase and the workers of the line; one fetches nothing where no
/// goal up to the phase needs a classpath. POMs are looked up in the project's folder, in the local repository and in the remote one.
/// `Source` comes exactly if a device failed, and then it is named: its own count rose, and no other's changed. Costs what effective
/// models and mediation cost, and the sources. Guide to Working with Multiple Modules; Introduction to the Dependency Mechanism;
/// Introduction to the Build Lifecycle.
#[tactic(auto, using(crate::proofs::Failing::failed_is, crate::proofs::Failing::none_counted))]
pub fn plan_build<T: Tree, S: Shelf, R: Remote>(
    alloc: Global,
    tree: &mut T,
    shelf: &mut S,
    remote: &mut R,
    given: &Given,
    line: &CommandLine,
) -> Planning<Result<Planned, PlanFault>>
    requires workers { (1 ≤ line.now.workers) × (line.now.workers ≤ 16) }
    ensures says { IfSome (T.files tree.old) (λ files. IfSome (S.told shelf.old) (λ told.
        IfSome (R.files remote.old) (λ there.
        Plans files (files_now told) there given.now line.now result.answer))) }
    ensures made { IfOk result.answer (IsPlan line.now) }
    ensures present { IfOk result.answer (KnowsFiles (S.told shelf.old)) }
    ensures word { NamesWord line.now result.answer }
    ensures tree { T.files tree.new ≡ T.files tree.old }
    ensures shelf { S.told shelf.new ≡ S.told shelf.old }
    ensures remote { R.files remote.new ≡ R.files remote.old }
    ensures counted { Counted None result.failed
        (record {
          tree = T.faults tree.old;
          shelf = S.faults shelf.old;
          remote = R.faults remote.old;
        })
        (record {
          tree = T.faults tree.new;
          shelf = S.faults shelf.new;
          remote = R.faults remote.new;
        }) }
    ensures failed { is_some result.failed ≡ plan_failed result.answer }
{
    let mut failures = Failures::none();
    let answer = plan_counted(alloc, tree, shelf, remote, &mut failures, given, line);
    Planning {
        answer,
        failed: failures.first,
    }
}
