// The plan of a project in memory.
use build_plan::{PlanFault, Planning, plan_build};
use cli_words::{CommandLine, WordError};
use model_resolver::PomDevice;
use module_plan::Planned;
use mvn_shared::{List, Mem, OutOfMemory};
use outside_mem::{Calls, MemRemote, MemShelf, MemTree};
use pom_source::{BuildFault, Given};
use row_projects::{Files, Shown, describe, given_by, line, push_fault, push_plan, push_unknown};
use std::alloc::Global;
use std::mem::replace;

/// A device, and the number of its call that fails.
pub(crate) type Failing<'a> = (&'a str, u64);

/// No call.
pub(crate) const NONE: Failing<'static> = ("", 0);

// The calls of a device that fail.
fn calls(alloc: Global, failing: Failing, device: &str) -> Mem<List<u64>> {
    let mut calls = List::new(alloc);
    if failing.0 == device {
        calls.push(failing.1)?;
    }
    Ok(calls)
}

// The tree of files, which are taken out.
fn tree_of(alloc: Global, files: &mut Files, failing: Failing) -> Mem<MemTree<Calls>> {
    let calls = calls(alloc, failing, "tree")?;
    let files = replace(&mut files.tree, List::new(alloc));
    MemTree::new(alloc, files, &calls)
}

fn shelf_of(alloc: Global, files: &mut Files, failing: Failing) -> Mem<MemShelf<Calls>> {
    let calls = calls(alloc, failing, "shelf")?;
    let files = replace(&mut files.local, List::new(alloc));
    MemShelf::new(alloc, files, &calls)
}

fn remote_of(alloc: Global, files: &mut Files, failing: Failing) -> Mem<MemRemote<Calls>> {
    let calls = calls(alloc, failing, "remote")?;
    let files = replace(&mut files.remote, List::new(alloc));
    MemRemote::new(alloc, files, &calls)
}

// What planning gives for a command line.
fn planned(
    alloc: Global,
    tree: &mut MemTree<Calls>,
    shelf: &mut MemShelf<Calls>,
    remote: &mut MemRemote<Calls>,
    given: &Given,
    line: &CommandLine,
) -> Mem<Planning<Result<Planned, PlanFault>>> {
    if line.workers < 1 || line.workers > 16 {
        return Err(OutOfMemory);
    }
    Ok(plan_build(alloc, tree, shelf, remote, given, line))
}

// What planning gives over this tree and repository, and the remote repository of files, which are taken out.
fn planning_over(
    alloc: Global,
    tree: &mut MemTree<Calls>,
    shelf: &mut MemShelf<Calls>,
    files: &mut Files,
    given: &Given,
    line: &CommandLine,
    failing: Failing,
) -> Mem<Planning<Result<Planned, PlanFault>>> {
    let mut remote = remote_of(alloc, files, failing)?;
    planned(alloc, tree, shelf, &mut remote, given, line)
}

// What planning gives over this tree, and both repositories of files, which are taken out.
fn planning_in(
    alloc: Global,
    tree: &mut MemTree<Calls>,
    files: &mut Files,
    given: &Given,
    line: &CommandLine,
    failing: Failing,
) -> Mem<Planning<Result<Planned, PlanFault>>> {
    let mut shelf = shelf_of(alloc, files, failing)?;
    planning_over(alloc, tree, &mut shelf, files, given, line, failing)
}

// What planning gives over files, which are taken out.
fn planning(
    alloc: Global,
    files: &mut Files,
    given: &Given,
    line: &CommandLine,
    failing: Failing,
) -> Mem<Planning<Result<Planned, PlanFault>>> {
    let mut tree = tree_of(alloc, files, failing)?;
    planning_in(alloc, &mut tree, files, given, line, failing)
}

fn device(failed: Option<PomDevice>) -> &'static str {
    match failed {
        Some(PomDevice::Tree) => "tree",
        Some(PomDevice::Shelf) => "shelf",
        Some(PomDevice::Remote) => "remote",
        None => "none",
    }
}

// The device that failed.
fn push_failed(text: &mut String, failed: Option<PomDevice>) -> Mem<()> {
    text.push_str("fault ")?;
    text.push_str(device(failed))?;
    Ok(())
}

// Why there is no plan.
fn push_plan_fault(
    alloc: Global,
    text: &mut String,
    fault: &PlanFault,
    failed: Option<PomDevice>,
) -> Mem<()> {
    match fault {
        PlanFault::Build(BuildFault::Source) => push_failed(text, failed),
        PlanFault::Build(fault) => push_fault(alloc, text, fault),
        PlanFault::Unknown(place) => push_unknown(alloc, text, *place),
    }
}

// What is told of what planning gives.
fn push_planning(
    alloc: Global,
    text: &mut String,
    planning: &Planning<Result<Planned, PlanFault>>,
    shown: Shown,
) -> Mem<()> {
    match &planning.answer {
        Ok(planned) => push_plan(alloc, text, &planned.plan, shown),
        Err(fault) => push_plan_fault(alloc, text, fault, planning.failed),
    }
}

// What is told for a command line on a machine that isn't described yet.
fn push_given(
    alloc: Global,
    text: &mut String,
    files: &mut Files,
    given: &mut Given,
    line: &CommandLine,
    failing: Failing,
    shown: Shown,
) -> Mem<()> {
    describe(&mut given.machine)?;
    let planning = planning(alloc, files, given, line, failing)?;
    push_planning(alloc, text, &planning, shown)
}

// What is told for a command line.
fn push_line(
    alloc: Global,
    text: &mut String,
    files: &mut Files,
    line: &mut CommandLine,
    failing: Failing,
    shown: Shown,
) -> Mem<()> {
    let mut given = given_by(alloc, line);
    push_given(alloc, text, files, &mut given, line, failing, shown)
}

fn push_no_line(text: &mut String) -> Mem<()> {
    text.push_str("no command line")?;
    Ok(())
}

// What is told for words, if they are a command line.
fn push_if_line(
    alloc: Global,
    text: &mut String,
    files: &mut Files,
    line: &mut Result<CommandLine, WordError>,
    failing: Failing,
    shown: Shown,
) -> Mem<()> {
    match line {
        Ok(line) => push_line(alloc, text, files, line, failing, shown),
        Err(_) => push_no_line(text),
    }
}

/// What is told of the plan of files for the words of a command line, or why there is none. The files are taken out.
pub(crate) fn push_planned(
    alloc: Global,
    text: &mut String,
    files: &mut Files,
    words: &str,
    failing: Failing,
    shown: Shown,
) -> Mem<()> {
    let mut line = line(alloc, words);
    push_if_line(alloc, text, files, &mut line, failing, shown)
}
