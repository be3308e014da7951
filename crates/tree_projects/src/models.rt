// The effective models of the POMs of a project.
use crate::answer::{Counts, answer_text};
use crate::{MemPoms, Project};
use effective::{RunStore, effective_with};
use mvn_base::PomId;
use mvn_shared::{Mem, Text};
use outside_mem::NoFailures;
use pom_source::Given;
use std::alloc::Global;

// The model of a POM as a line.
fn line_of(
    alloc: Global,
    source: &mut MemPoms<NoFailures>,
    store: &mut RunStore,
    given: &Given,
    pom: &PomId,
) -> anyhow::Result<String> {
    let answer = effective_with(alloc, store, source, given, pom);
    answer_text(alloc, &answer)
}

// The model of the POM at a path, as a line.
fn model_line(
    alloc: Global,
    source: &mut MemPoms<NoFailures>,
    store: &mut RunStore,
    given: &Given,
    path: &Text,
) -> anyhow::Result<String> {
    let pom = PomId::Path(path.clone()?);
    line_of(alloc, source, store, given, &pom)
}

// Counts the model of a POM.
fn counted_model(
    alloc: Global,
    source: &mut MemPoms<NoFailures>,
    store: &mut RunStore,
    given: &Given,
    pom: &PomId,
    counts: Counts,
) -> Counts {
    let answer = effective_with(alloc, store, source, given, pom);
    counts.with_answer(&answer)
}

// Counts the model of the POM at a path.
fn counted(
    alloc: Global,
    source: &mut MemPoms<NoFailures>,
    store: &mut RunStore,
    given: &Given,
    path: &Text,
    counts: Counts,
) -> Mem<Counts> {
    let pom = PomId::Path(path.clone()?);
    Ok(counted_model(alloc, source, store, given, &pom, counts))
}

fn print_with(
    rt: &HostRuntime,
    project: &mut Project,
    store: &mut RunStore,
    given: &Given,
) -> anyhow::Result<()> {
    let alloc = rt.alloc();
    for path in project.paths.as_slice() {
        let line = model_line(alloc, &mut project.source, store, given, path)?;
        println!(rt; "{path} {line}")?;
    }
    Ok(())
}

/// Prints each POM of a project with its model.
pub(crate) fn print(rt: &HostRuntime, project: &mut Project, given: &Given) -> anyhow::Result<()> {
    let mut store = RunStore::new(rt.alloc());
    print_with(rt, project, &mut store, given)
}

fn counts_with(
    alloc: Global,
    project: &mut Project,
    store: &mut RunStore,
    given: &Given,
) -> Mem<Counts> {
    let mut counts = Counts::none();
    for path in project.paths.as_slice() {
        counts = counted(alloc, &mut project.source, store, given, path, counts)?;
    }
    Ok(counts)
}

// How many POMs have a model, and of how many dependencies and plugins.
fn counts(alloc: Global, project: &mut Project, given: &Given) -> Mem<Counts> {
    let mut store = RunStore::new(alloc);
    counts_with(alloc, project, &mut store, given)
}

/// Prints how many POMs of a project have a model, and of how many dependencies and plugins.
pub(crate) fn count(rt: &HostRuntime, project: &mut Project, given: &Given) -> anyhow::Result<()> {
    let poms = project.paths.len();
    let Counts {
        models,
        dependencies,
        plugins,
    } = counts(rt.alloc(), project, given)?;
    println!(rt; "{models} models of {poms} POMs, {dependencies} dependencies, {plugins} plugins")?;
    Ok(())
}
