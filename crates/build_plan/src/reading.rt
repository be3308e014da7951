// From the modules that are built to their plan: their sources are read, and they are numbered.
ghost use Rattle.std.specs.Prelude.{◌≡◌, ℕ, ◌≤◌, ◌++◌, [], ◌∷◌, Option, Ok, filter_map, length, slice_get, IfOk, IfSome, OnOk};
ghost use Rattle.mvn_shared.specs.Cause.{HasCause};
ghost use Rattle.mvn_shared.specs.Files.{Files};
ghost use Rattle.pom_source.specs.declared.found.Given as givens;
ghost use Rattle.model_resolver.specs.Devices.{Counted, IsCounted};
ghost use Rattle.pom_source.specs.Answers.{Says, build_failed};
ghost use Rattle.project_models.specs.Models.{AreModules};
ghost use Rattle.project_models.specs.Telling.{IfTold};
ghost use Rattle.reactor_order.specs.Graph.{AreBelow};
ghost use Rattle.sources.specs.Modules.{module_sources};
ghost use Rattle.built_modules.specs.Selected.{AreSelected};
ghost use Rattle.build_plan.specs.Planning.{built_models, plan_failed, sources_of, IsPlan, IsReactor, KnowsFiles, NamesWord, Plans};

use crate::planning::PlanFault;
use built_modules::selected_modules;
use classpaths::Resolution;
use cli_words::CommandLine;
use goal_types::SourceFile;
use model_resolver::{Failures, ProjectPom};
use model_types::Model;
use module_plan::Planned;
use mvn_outside::{Shelf, Tree};
use mvn_shared::{List, Mem, Shared};
use plan_numbers::plan_selected;
use pom_source::{BuildFault, Given};
use reactor::ReactorModules;
use sources::module_sources;
use std::alloc::Global;

/// What a project's modules are planned from, in the order of discovery; and those that are built.
#[derive(Drop)]
pub(crate) struct Reactor {
    pub(crate) poms: List<ProjectPom>,
    pub(crate) models: List<Shared<Model>>,
    pub(crate) resolutions: List<Resolution>,
    pub(crate) built: ReactorModules,
}

// Puts the model of a number to others.
fn push_model(models: &List<Shared<Model>>, number: u32, list: &mut List<Shared<Model>>) -> Mem<()>
    ensures { OnOk result
        (list.new ≡ list.old ++ filter_map (λ n. slice_get models.now n) (number ∷ [])) }
{
    match models.get(number as usize) {
        Some(model) => {
            list.push(model.share()?)?;
            Ok(())
        }
        None => Ok(()),
    }
}

// The models of the modules that are built.
#[tactic(auto, using(crate::proofs::Lists::one_by_one))]
fn built_models(
    alloc: Global,
    models: &List<Shared<Model>>,
    built: &ReactorModules,
) -> Mem<List<Shared<Model>>>
    ensures { IfOk result (λ list. list ≡ built_models models.now built.now) }
{
    let mut list = List::new(alloc);
    for number in built.numbers.as_slice() {
        push_model(models, *number, &mut list)?;
    }
    Ok(list)
}

// The sources of the modules that are built.
fn built_sources<T: Tree>(
    alloc: Global,
    tree: &mut T,
    failures: &mut Failures,
    given: &Given,
    models: &List<Shared<Model>>,
    built: &ReactorModules,
) -> Result<List<List<SourceFile>>, BuildFault>
    requires below { AreBelow (length models.now) built.now.numbers }
    ensures says { IfSome (T.files tree.old) (λ files. Says
        (module_sources files given.now.machine.root (built_models models.now built.now)) result) }
    ensures long { IfOk result (λ sources. length sources ≡ length built.now.numbers) }
    ensures same { T.files tree.new ≡ T.files tree.old }
    ensures counted { (shelf remote : ℕ) → Counted failures.old.first failures.new.first
        (record { tree = T.faults tree.old; shelf = shelf; remote = remote })
        (record { tree = T.faults tree.new; shelf = shelf; remote = remote }) }
    ensures noted { IsCounted failures.old → IsCounted failures.new }
    ensures cause { HasCause failures.old.count failures.new.count (build_failed result) }
{
    match built_models(alloc, models, built) {
        Ok(chosen) => module_sources(alloc, tree, failures, given, chosen.as_slice()),
        Err(_) => Err(BuildFault::Memory),
    }
}

// The plan of the modules that are built, with their sources.
fn plan_read<S: Shelf>(
    alloc: Global,
    shelf: &mut S,
    failures: &mut Failures,
    line: &CommandLine,
    reactor: Reactor,
    sources: List<List<SourceFile>>,
) -> Result<Planned, PlanFault>
    requires workers { (1 ≤ line.now.workers) × (line.now.workers ≤ 16) }
    requires modules { AreModules reactor.poms reactor.models }
    requires resolved { length reactor.resolutions ≡ length reactor.models }
    requires selected { AreSelected reactor.models reactor.resolutions reactor.built }
    requires sources { length sources ≡ length reactor.built.numbers }
    ensures says { (tree remote : Option Files) (given : givens.Given)
        → IfTold tree (S.told shelf.old) remote (λ files local there.
        IsReactor files local there given line.now
        (record { poms = reactor.poms; models = reactor.models }) reactor.resolutions reactor.built
        → sources_of files local there given line.now
        (record { poms = reactor.poms; models = reactor.models }) reactor.built ≡ Ok sources
        → Plans files local there given line.now result) }
    ensures made { IfOk result (IsPlan line.now) }
    ensures present { IfOk result (KnowsFiles (S.told shelf.old)) }
    ensures word { NamesWord line.now result }
    ensures same { S.told shelf.new ≡ S.told shelf.old }
    ensures counted { (tree remote : ℕ) → Counted failures.old.first failures.new.first
        (record { tree = tree; shelf = S.faults shelf.old; remote = remote })
        (record { tree = tree; shelf = S.faults shelf.new; remote = remote }) }
    ensures noted { IsCounted failures.old → IsCounted failures.new }
    ensures cause { HasCause failures.old.count failures.new.count (plan_failed result) }
{
    let Reactor {
        poms,
        models,
        resolutions,
        built,
    } = reactor;
    let modules = match selected_modules(alloc, poms, models, resolutions, built, sources) {
        Ok(modules) => modules,
        Err(_) => return Err(PlanFault::Build(BuildFault::Memory)),
    };
    match plan_selected(alloc, shelf, failures, line.phase, line.workers, modules) {
        Ok(planned) => Ok(planned),
        Err(fault) => Err(PlanFault::Build(fault)),
    }
}

/// The plan of the modules that are built: their sources are read, and then they are numbered. Costs the sources, and what
/// `plan_selected` costs.
pub(crate) fn plan_built<T: Tree, S: Shelf>(
    alloc: Global,
    tree: &mut T,
    shelf: &mut S,
    failures: &mut Failures,
    given: &Given,
    line: &CommandLine,
    reactor: Reactor,
) -> Result<Planned, PlanFault>
    requires workers { (1 ≤ line.now.workers) × (line.now.workers ≤ 16) }
    requires modules { AreModules reactor.poms reactor.models }
    requires resolved { length reactor.resolutions ≡ length reactor.models }
    requires selected { AreSelected reactor.models reactor.resolutions reactor.built }
    ensures says { (remote : Option Files)
        → IfTold (T.files tree.old) (S.told shelf.old) remote (λ files local there.
        IsReactor files local there given.now line.now
        (record { poms = reactor.poms; models = reactor.models }) reactor.resolutions reactor.built
        → Plans files local there given.now line.now result) }
    ensures made { IfOk result (IsPlan line.now) }
    ensures present { IfOk result (KnowsFiles (S.told shelf.old)) }
    ensures word { NamesWord line.now result }
    ensures tree { T.files tree.new ≡ T.files tree.old }
    ensures shelf { S.told shelf.new ≡ S.told shelf.old }
    ensures counted { (remote : ℕ) → Counted failures.old.first failures.new.first
        (record { tree = T.faults tree.old; shelf = S.faults shelf.old; remote = remote })
        (record { tree = T.faults tree.new; shelf = S.faults shelf.new; remote = remote }) }
    ensures noted { IsCounted failures.old → IsCounted failures.new }
    ensures cause { HasCause failures.old.count failures.new.count (plan_failed result) }
{
    match built_sources(
        alloc,
        tree,
        failures,
        given,
        &reactor.models,
        &reactor.built,
    ) {
        Ok(sources) => plan_read(alloc, shelf, failures, line, reactor, sources),
        Err(fault) => Err(PlanFault::Build(fault)),
    }
}
