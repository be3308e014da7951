// Makes, plans and builds the generated project that a line asks for.
ghost use Rattle.std.specs.Prelude.{◌≡◌, ◌<◌, ◌≤◌, ◌^◌, length, map, replicate, IfOk};
ghost use Rattle.event_core.specs.SoundPlans.{IsSoundPlan};
ghost use Rattle.mvn_outside.specs.Shelf.{files_now};
ghost use Rattle.call_plan.specs.Found.{given_of};
ghost use Rattle.outside_mem.specs.FilesNamed.{files_named};
ghost use Rattle.outside_mem.specs.Shelf.{shelf_told};
ghost use Rattle.outside_mem.specs.Tree.{tree_files};
ghost use Rattle.run_law.specs.Given.{IsPresent};
ghost use Rattle.generated.specs.Generated.{Generates};
ghost use Rattle.generated.specs.Made.{empty_shelf, fresh_hand, project, remote};
ghost use Rattle.generated.specs.States.{outside, state};
ghost use Rattle.generated.specs.SummedUp.{SumsUp};

use crate::{made_hands, summary_of};
use build_outcome::{Call, nothing};
use call_plan::{given_of, plan_by_first};
use cli_words::CommandLine;
use gates::Builtin;
use make_project::{Project, generated};
use module_plan::Planned;
use mvn_base::Machine;
use mvn_call::build_by_first;
use mvn_devices::Devices;
use mvn_shared::{List, Mem};
use outside_mem::{MemFile, MemRemote, MemShelf, MemTree, NoFailures};
use pom_source::Given;
use std::alloc::Global;
use std::sync::Wait;
use std::thread::Threads;

/// The types of what is made, in memory.
pub type MemOutside = (
    MemTree<NoFailures>,
    MemShelf<NoFailures>,
    MemRemote<NoFailures>,
    Builtin,
);

// Builds what was planned, and sums it up.
fn build_summed<W: Threads + Wait + Sync>(
    rt: &W,
    alloc: Global,
    poms: u32,
    planned: &Planned,
    devices: Devices<MemOutside>,
) -> Call<()>
    requires sound { IsSoundPlan planned.now.plan }
    requires few { planned.now.plan.events < 2 ^ 32 }
    requires names { length planned.now.plan.names < 2 ^ 32 }
    requires enough { planned.now.plan.workers ≤ length devices.hands.items }
    requires present { IsPresent planned.now.plan (files_now (shelf_told devices.shelf)) }
    ensures sums { SumsUp poms planned.now (outside devices.shelf devices.hands.items)
        result.trace result.answers result.outcome }
{
    let call = build_by_first(rt, alloc, false, planned, devices);
    let files = call.devices.shelf.names();
    let outcome = summary_of(alloc, poms, planned, &call.outcome, files);
    Call {
        outcome,
        devices: (),
        trace: call.trace,
        answers: call.answers,
    }
}

// What is answered of a line, by what is given to its POMs, over a project, a repository and hands that were made.
fn build_made<W: Threads + Wait + Sync>(
    rt: &W,
    alloc: Global,
    poms: u32,
    given: &Given,
    line: &CommandLine,
    devices: Devices<MemOutside>,
) -> Call<()>
    requires given { given.now ≡ given_of given.now.machine line.now }
    requires workers { (1 ≤ line.now.workers) × (line.now.workers ≤ 16) }
    requires tree { tree_files devices.tree ≡ project poms }
    requires shelf { shelf_told devices.shelf ≡ empty_shelf }
    requires hands { map state devices.hands.items
        ≡ replicate line.now.workers (fresh_hand remote) }
    ensures generates { Generates poms line.now given.now.machine result.trace result.answers
        result.outcome }
{
    let mut devices = devices;
    let planning = plan_by_first(alloc, given, line, &mut devices);
    let answer = planning.answer;
    match answer {
        Ok(Ok(planned)) => build_summed(rt, alloc, poms, &planned, devices),
        Ok(Err(outcome)) => nothing(alloc, (), Ok(outcome)),
        Err(error) => nothing(alloc, (), Err(error)),
    }
}

// What is answered of a line, by what is given to its POMs, over a project, with a repository and hands that are made.
fn build_by_hands<W: Threads + Wait + Sync>(
    rt: &W,
    alloc: Global,
    poms: u32,
    given: &Given,
    line: &CommandLine,
    tree: MemTree<NoFailures>,
    files: &List<MemFile>,
) -> Mem<Call<()>>
    requires given { given.now ≡ given_of given.now.machine line.now }
    requires workers { (1 ≤ line.now.workers) × (line.now.workers ≤ 16) }
    requires tree { tree_files tree ≡ project poms }
    requires remote { files_named files.now ≡ remote }
    ensures generates { IfOk result (λ call. Generates poms line.now given.now.machine call.trace
        call.answers call.outcome) }
{
    let shelf = MemShelf::without_failures(alloc, List::new(alloc))?;
    let hands = made_hands(alloc, files, line.workers)?;
    let devices = Devices { tree, shelf, hands };
    Ok(build_made(rt, alloc, poms, given, line, devices))
}

// What is answered of a line, by what is given to its POMs, with a project, a repository and hands that are made.
fn build_given<W: Threads + Wait + Sync>(
    rt: &W,
    alloc: Global,
    poms: u32,
    given: &Given,
    line: &CommandLine,
) -> Mem<Call<()>>
    requires given { given.now ≡ given_of given.now.machine line.now }
    requires workers { (1 ≤ line.now.workers) × (line.now.workers ≤ 16) }
    ensures generates { IfOk result (λ call. Generates poms line.now given.now.machine call.trace
        call.answers call.outcome) }
{
    let Project { tree, remote } = generated(alloc, poms)?;
    build_by_hands(rt, alloc, poms, given, line, tree, &remote)
}

// What is answered of a line, with what is given to its POMs, a project, a repository and hands that are made.
fn make_and_build<W: Threads + Wait + Sync>(
    rt: &W,
    alloc: Global,
    poms: u32,
    line: &CommandLine,
    machine: Machine,
) -> Mem<Call<()>>
    requires workers { (1 ≤ line.now.workers) × (line.now.workers ≤ 16) }
    ensures generates { IfOk result (λ call. Generates poms line.now machine call.trace call.answers
        call.outcome) }
{
    let given = given_of(alloc, machine, line)?;
    build_given(rt, alloc, poms, &given, line)
}

/// Builds the generated project of so many POMs as the line says, by as many hands as it has workers, over objects in
/// memory that never fail and with the built-in goals. Answers with the summary in place of the report, or with what is
/// answered in place of a plan. May wait. Costs what planning and building cost. Project rule.
pub fn build_generated<W: Threads + Wait + Sync>(
    rt: &W,
    alloc: Global,
    poms: u32,
    line: &CommandLine,
    machine: Machine,
) -> Call<()>
    requires workers { (1 ≤ line.now.workers) × (line.now.workers ≤ 16) }
    ensures generates { Generates poms line.now machine result.trace result.answers
        result.outcome }
{
    match make_and_build(rt, alloc, poms, line, machine) {
        Ok(call) => call,
        Err(error) => nothing(alloc, (), Err(error)),
    }
}
