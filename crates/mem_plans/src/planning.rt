// The plan of a project over repositories in memory.
ghost use Rattle.std.specs.Prelude.{◌<◌, ◌≤◌, ◌^◌, length, Some, IfOk};
ghost use Rattle.event_core.specs.SoundPlans.{IsSoundPlan};
ghost use Rattle.run_law.specs.Given.{IsPresent};
ghost use Rattle.mvn_outside.specs.Shelf.{files_now};
ghost use Rattle.outside_mem.specs.FilesNamed.{files_named};
ghost use Rattle.outside_mem.specs.Shelf.{shelf_told};
ghost use Rattle.build_plan.specs.Planning.{IsPlan, KnowsFiles};

use build_core::Plan;
use build_plan::{PlanFault, Planning, plan_build};
use cli_words::CommandLine;
use goal_types::SourceFile;
use module_plan::Planned;
use mvn_base::{Choice, FailMode, Machine, Phase};
use mvn_shared::{List, Mem, OutOfMemory, Text};
use outside_mem::{MemFile, MemRemote, MemShelf, MemTree, NoFailures};
use pom_source::Given;
use std::alloc::Global;

fn no_text(alloc: Global) -> Text {
    Text::of(String::new(alloc))
}

// A machine of which these alone may be known.
fn machine_of(alloc: Global, root: Text, jdk: Text, os_name: Text, os_family: Text) -> Machine {
    Machine {
        root,
        env: List::new(alloc),
        system: List::new(alloc),
        jdk,
        os_name,
        os_family,
        os_arch: no_text(alloc),
        os_version: no_text(alloc),
    }
}

// A machine of which nothing is known.
fn machine(alloc: Global) -> Machine {
    machine_of(
        alloc,
        no_text(alloc),
        no_text(alloc),
        no_text(alloc),
        no_text(alloc),
    )
}

// No profile is switched on or off.
fn choice(alloc: Global) -> Choice {
    Choice {
        on: List::new(alloc),
        off: List::new(alloc),
    }
}

fn given(alloc: Global) -> Given {
    Given {
        machine: machine(alloc),
        defines: List::new(alloc),
        choice: choice(alloc),
        ci: List::new(alloc),
    }
}

// What the words `install -T N` ask for.
fn install(alloc: Global, workers: u32) -> CommandLine {
    CommandLine {
        workers,
        phase: Phase::Install,
        choice: choice(alloc),
        defines: List::new(alloc),
        projects: List::new(alloc),
        also_make: false,
        also_make_dependents: false,
        from: None,
        mode: FailMode::AtEnd,
        tree: false,
        full: false,
        generated: None,
    }
}

// What planning gives on a machine of which nothing is known.
fn planning(
    alloc: Global,
    tree: &mut MemTree<NoFailures>,
    shelf: &mut MemShelf<NoFailures>,
    remote: &mut MemRemote<NoFailures>,
    line: &CommandLine,
) -> Planning<Result<Planned, PlanFault>>
    requires workers { (1 ≤ line.now.workers) × (line.now.workers ≤ 16) }
    ensures made { IfOk result.answer (IsPlan line.now) }
    ensures present { IfOk result.answer (KnowsFiles (Some (shelf_told shelf.old))) }
{
    let given = given(alloc);
    plan_build(alloc, tree, shelf, remote, &given, line)
}

// What is planned, where the project isn't refused.
fn planned(
    alloc: Global,
    tree: &mut MemTree<NoFailures>,
    shelf: &mut MemShelf<NoFailures>,
    remote: &mut MemRemote<NoFailures>,
    line: &CommandLine,
) -> Mem<Planned>
    ensures made { IfOk result (IsPlan line.now) }
    ensures present { IfOk result (KnowsFiles (Some (shelf_told shelf.old))) }
{
    if line.workers < 1 || line.workers > 16 {
        return Err(OutOfMemory);
    }
    let Planning { answer, failed: _ } = planning(alloc, tree, shelf, remote, line);
    match answer {
        Ok(planned) => Ok(planned),
        Err(_) => Err(OutOfMemory),
    }
}

// The plan of a project for so many workers, over these repositories.
#[tactic(auto, using(crate::proofs::Planned::is_sound, build_plan::proofs::Few::few_events, build_plan::proofs::Few::few_names, crate::proofs::Planned::knows))]
fn plan_over(
    alloc: Global,
    tree: &mut MemTree<NoFailures>,
    shelf: &mut MemShelf<NoFailures>,
    remote: &mut MemRemote<NoFailures>,
    workers: u32,
) -> Mem<Plan>
    ensures sound { IfOk result IsSoundPlan }
    ensures few { IfOk result (λ plan. plan.events < 2 ^ 32) }
    ensures names { IfOk result (λ plan. length plan.names < 2 ^ 32) }
    ensures present { IfOk result (λ plan. IsPresent plan (files_now (shelf_told shelf.old))) }
{
    let line = install(alloc, workers);
    match planned(alloc, tree, shelf, remote, &line) {
        Ok(planned) => Ok(planned.plan),
        Err(short) => Err(short),
    }
}

// The plan of a project for so many workers.
#[tactic(auto, using(crate::proofs::Planned::knows_first))]
fn plan_of(
    alloc: Global,
    tree: &mut MemTree<NoFailures>,
    local: &List<MemFile>,
    remote: &mut MemRemote<NoFailures>,
    workers: u32,
) -> Mem<Plan>
    ensures sound { IfOk result IsSoundPlan }
    ensures few { IfOk result (λ plan. plan.events < 2 ^ 32) }
    ensures names { IfOk result (λ plan. length plan.names < 2 ^ 32) }
    ensures present { IfOk result (λ plan. IsPresent plan (files_named local.now)) }
{
    let mut shelf = MemShelf::<NoFailures>::without_failures(alloc, local.clone()?)?;
    plan_over(alloc, tree, &mut shelf, remote, workers)
}

// The plan of a project for so many workers, with the remote repository made from its files.
fn over_tree(
    alloc: Global,
    tree: &mut MemTree<NoFailures>,
    local: &List<MemFile>,
    remote: &List<MemFile>,
    workers: u32,
) -> Mem<Plan>
    ensures sound { IfOk result IsSoundPlan }
    ensures few { IfOk result (λ plan. plan.events < 2 ^ 32) }
    ensures names { IfOk result (λ plan. length plan.names < 2 ^ 32) }
    ensures present { IfOk result (λ plan. IsPresent plan (files_named local.now)) }
{
    let mut remote = MemRemote::<NoFailures>::without_failures(alloc, remote.clone()?)?;
    plan_of(alloc, tree, local, &mut remote, workers)
}

/// The plan of an install of the project by so many workers, from 1 to 16. Fails as for want of memory also where there are more or none,
/// or the project is refused. Costs what planning costs, and a copy of the lists. Project rule.
pub fn plan(
    alloc: Global,
    tree: &List<SourceFile>,
    local: &List<MemFile>,
    remote: &List<MemFile>,
    workers: u32,
) -> Mem<Plan>
    ensures sound { IfOk result IsSoundPlan }
    ensures few { IfOk result (λ plan. plan.events < 2 ^ 32) }
    ensures names { IfOk result (λ plan. length plan.names < 2 ^ 32) }
    ensures present { IfOk result (λ plan. IsPresent plan (files_named local.now)) }
{
    let mut tree = MemTree::<NoFailures>::without_failures(alloc, tree.clone()?)?;
    over_tree(alloc, &mut tree, local, remote, workers)
}
