// The numbers of one module of a plan.
ghost use Rattle.std.specs.Prelude.{◌≡◌, ◌<◌, length, map, IfOk};
ghost use Rattle.module_plan.specs.Numbers.{number_of, numbers_of};
ghost use Rattle.module_plan.specs.Plans.{budget_of, own_file};
ghost use Rattle.mvn_base.specs.Gav.{lock_name};
ghost use Rattle.module_plan.specs.Ready.{numbers_with, part_of, part_with};

use crate::entries::entries_of;
use crate::ready::Ready;
use crate::{FileList, Output, Places, is_pom};
use build_core::{Entry, OwnFile, PlanModule};
use classpaths::Resolution;
use model_types::Model;
use mvn_base::{FileName, Gav, MOST_OUTPUT, lock_name};
use mvn_shared::{List, Mem, Shared, Text};
use std::alloc::Global;

/// The most bytes that the kept outputs of all modules may have together. Project rule.
const MOST_OUTPUTS: u64 = 2_147_483_648;

// The numbers of a module.
#[derive(Drop)]
struct Numbers {
    batch: List<u32>,
    fetch: List<u32>,
    own_name: u32,
    own: List<OwnFile>,
    entries: List<Entry>,
}

/// A module of a plan, and what is shown of it.
#[derive(Drop)]
pub struct Part {
    pub planned: PlanModule,
    pub model: Shared<Model>,
    pub resolution: Resolution,
    pub unbound: List<Text>,
}

// The numbers of names.
fn name_numbers(alloc: Global, names: &Places<Text>, some: &[Text]) -> Mem<List<u32>>
    requires few_names { length names.now < 4294967296 }
    ensures { IfOk result (λ list. list ≡ numbers_of names.now some.now) }
{
    let mut list = List::new(alloc);
    for name in some {
        list.push(names.place(name))?;
    }
    Ok(list)
}

// The numbers of files.
fn file_numbers(alloc: Global, files: &FileList, some: &[FileName]) -> Mem<List<u32>>
    requires few_files { length files.now < 4294967296 }
    ensures { IfOk result (λ list. list ≡ numbers_of files.now some.now) }
{
    let mut list = List::new(alloc);
    for name in some {
        list.push(files.number(name.as_text()))?;
    }
    Ok(list)
}

// The file of an output.
fn own_file(files: &FileList, output: &Output) -> OwnFile
    requires few_files { length files.now < 4294967296 }
    ensures { result ≡ own_file files.now output.now }
{
    OwnFile {
        slot: output.slot,
        file: files.number(output.name.as_text()),
    }
}

// The files of outputs.
fn own_files(alloc: Global, files: &FileList, outputs: &[Output]) -> Mem<List<OwnFile>>
    requires few_files { length files.now < 4294967296 }
    ensures { IfOk result (λ list. list ≡ map (own_file files.now) outputs.now) }
{
    let mut list = List::new(alloc);
    for output in outputs {
        list.push(own_file(files, output))?;
    }
    Ok(list)
}

// The number of a module's own lock.
fn own_name(alloc: Global, names: &Places<Text>, gav: &Gav) -> Mem<u32>
    requires few_names { length names.now < 4294967296 }
    ensures { IfOk result (λ number. number ≡ number_of names.now (lock_name gav.now)) }
{
    let name = lock_name(alloc, gav)?;
    Ok(names.place(&name))
}

// The most bytes that the kept outputs of one of so many modules may have.
fn budget_of(count: usize) -> u64
    ensures { result ≡ budget_of count }
{
    MOST_OUTPUT.min(MOST_OUTPUTS / (count as u64).max(1))
}

// The numbers of a module that is ready.
fn numbers_of(
    alloc: Global,
    built: &Places<Gav>,
    names: &Places<Text>,
    files: &FileList,
    ready: &Ready,
) -> Mem<Numbers>
    requires few_built { length built.now < 4294967296 }
    requires few_names { length names.now < 4294967296 }
    requires few_files { length files.now < 4294967296 }
    ensures { IfOk result (λ n. n ≡ numbers_with built.now names.now files.now ready.now) }
{
    let own_name = own_name(alloc, names, &ready.selected.model.gav)?;
    let batch = name_numbers(alloc, names, ready.locks.as_slice())?;
    let fetch = file_numbers(alloc, files, ready.fetch.as_slice())?;
    let own = own_files(alloc, files, ready.outputs.as_slice())?;
    let calls = ready.goals.calls.as_slice();
    let winners = ready.selected.resolution.winners.as_slice();
    let entries = entries_of(alloc, built, files, calls, winners)?;
    Ok(Numbers {
        batch,
        fetch,
        own_name,
        own,
        entries,
    })
}

// A module of the plan, of its numbers.
#[tactic(auto, unfolding(crate::specs::Ready::module_with))]
fn assembled(gav: Gav, numbers: Numbers, ready: Ready, count: usize) -> Part
    ensures { result ≡ part_with gav numbers ready count }
{
    let needs_artifact = !is_pom(&ready.selected.model);
    let selected = ready.selected;
    let goals = ready.goals;
    let planned = PlanModule {
        gav,
        upstream: selected.upstream,
        batch: numbers.batch,
        fetch: numbers.fetch,
        own_name: numbers.own_name,
        own: numbers.own,
        pom: selected.pom,
        goals: goals.calls,
        sources: selected.sources,
        entries: numbers.entries,
        budget: budget_of(count),
        installs: goals.installs,
        needs_artifact,
    };
    Part {
        planned,
        model: selected.model,
        resolution: selected.resolution,
        unbound: goals.unbound,
    }
}

/// A copy of coordinates. Costs their length.
pub fn copy_of(gav: &Gav) -> Mem<Gav>
    ensures { IfOk result (λ copy. copy ≡ gav.now) }
{
    Ok(gav.clone()?)
}

// A module's coordinates, and its numbers.
#[derive(Drop)]
struct Labels {
    gav: Gav,
    numbers: Numbers,
}

fn labels_of(
    alloc: Global,
    built: &Places<Gav>,
    names: &Places<Text>,
    files: &FileList,
    ready: &Ready,
) -> Mem<Labels>
    requires few_built { length built.now < 4294967296 }
    requires few_names { length names.now < 4294967296 }
    requires few_files { length files.now < 4294967296 }
    ensures gav { IfOk result (λ l. l.gav ≡ ready.now.selected.model.gav) }
    ensures numbers { IfOk result (λ l.
        l.numbers ≡ numbers_with built.now names.now files.now ready.now) }
{
    let gav = copy_of(&ready.selected.model.gav)?;
    let numbers = numbers_of(alloc, built, names, files, ready)?;
    Ok(Labels { gav, numbers })
}

/// A module of the plan, by the coordinates of all that are built and by the plan's names and files. Costs its names; what it was made
/// from is moved.
pub fn part_of(
    alloc: Global,
    built: &Places<Gav>,
    names: &Places<Text>,
    files: &FileList,
    ready: Ready,
) -> Mem<Part>
    requires few_built { length built.now < 4294967296 }
    requires few_names { length names.now < 4294967296 }
    requires few_files { length files.now < 4294967296 }
    ensures { IfOk result (λ part. part ≡ part_of built.now names.now files.now ready) }
{
    let Labels { gav, numbers } = labels_of(alloc, built, names, files, &ready)?;
    Ok(assembled(gav, numbers, ready, built.len()))
}
