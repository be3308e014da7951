// Puts numbers in place of the names and files of the modules that are built.
ghost use Rattle.std.specs.Prelude.{◌≡◌, ◌≤◌, length, map, IfOk};
ghost use Rattle.std.specs.List.{AllByRecursion};
ghost use Rattle.module_plan.specs.Plans.{most_events};
ghost use Rattle.module_plan.specs.Ready.{all_ready_events, ready, ready_files, ready_names};
ghost use Rattle.module_plan.specs.Uses.{gavs};
ghost use Rattle.plan_numbers.specs.Whole.{HasGav, numbered_few, numbered_if, numbered_with};

use crate::events::count_events;
use crate::tables::{files_of, names_of};
use module_plan::{FileList, Parts, Places, Ready, SelectedModule, copy_of, made_ready, parts_of};
use mvn_base::{FileName, Gav, Phase};
use mvn_shared::{List, Mem, Text};
use std::alloc::Global;

/// The names, the files and the modules of a plan, with what is shown of them.
#[derive(Drop)]
pub struct Numbered {
    pub names: List<Text>,
    pub files: List<FileName>,
    pub parts: Parts,
    /// The greatest number of its events.
    pub events: u64,
}

// The coordinates of the modules.
fn gavs_of(alloc: Global, modules: &[SelectedModule]) -> Mem<List<Gav>>
    ensures { IfOk result (λ list. list ≡ gavs modules.now) }
{
    let mut list = List::new(alloc);
    for selected in modules {
        list.push(copy_of(&selected.model.gav)?)?;
    }
    Ok(list)
}

// The modules made ready.
fn all_ready(
    alloc: Global,
    phase: Phase,
    built: &Places<Gav>,
    modules: List<SelectedModule>,
) -> Mem<List<Ready>>
    requires names { AllByRecursion HasGav modules }
    ensures { IfOk result (λ list. list ≡ map (ready phase built.now) modules) }
{
    let mut list = List::new(alloc);
    for selected in modules.into_vec() {
        list.push(made_ready(alloc, phase, built, selected)?)?;
    }
    Ok(list)
}

// The names and the files of modules.
#[derive(Drop)]
struct Tables {
    names: Places<Text>,
    files: FileList,
}

fn tables_of(alloc: Global, modules: &[Ready]) -> Mem<Tables>
    ensures names { IfOk result (λ t. t.names ≡ ready_names modules.now) }
    ensures files { IfOk result (λ t. t.files ≡ ready_files modules.now) }
{
    let files = files_of(alloc, modules)?;
    let names = Places::of(alloc, names_of(alloc, modules)?)?;
    Ok(Tables { names, files })
}

// The numbers of modules with these names and files.
#[tactic(auto, using(crate::proofs::Joined::put_together, crate::proofs::Counting::few_built, crate::proofs::Counting::few_names, crate::proofs::Counting::few_files))]
fn numbered_by(
    alloc: Global,
    built: &Places<Gav>,
    tables: Tables,
    modules: List<Ready>,
    events: u64,
) -> Mem<Numbered>
    requires each { length built.now ≡ length modules }
    requires few { all_ready_events modules ≤ most_events }
    requires names { tables.names ≡ ready_names modules }
    requires files { tables.files ≡ ready_files modules }
    ensures { IfOk result (λ n. n ≡ numbered_with built.now modules events) }
{
    let Tables { names, files } = tables;
    let parts = parts_of(alloc, built, &names, &files, modules)?;
    let list = files.into_list(alloc)?;
    Ok(Numbered {
        names: names.into_items(),
        files: list,
        parts,
        events,
    })
}

// The names, the files and the modules of the plan of modules that are ready, whose events are counted.
fn numbered_with(
    alloc: Global,
    built: &Places<Gav>,
    modules: List<Ready>,
    events: u64,
) -> Mem<Numbered>
    requires each { length built.now ≡ length modules }
    requires few { all_ready_events modules ≤ most_events }
    ensures { IfOk result (λ n. n ≡ numbered_with built.now modules events) }
{
    let tables = tables_of(alloc, modules.as_slice())?;
    numbered_by(alloc, built, tables, modules, events)
}

// The names, the files and the modules of the plan of modules that are ready; nothing if they have too many events.
#[tactic(auto, using(crate::proofs::Counting::is_few, crate::proofs::Joined::some_few, crate::proofs::Joined::none_few))]
fn numbered_few(alloc: Global, built: &Places<Gav>, modules: List<Ready>) -> Mem<Option<Numbered>>
    requires each { length built.now ≡ length modules }
    ensures { IfOk result (λ n. n ≡ numbered_few built.now modules) }
{
    match count_events(modules.as_slice()) {
        Some(events) => Ok(Some(numbered_with(alloc, built, modules, events)?)),
        None => Ok(None),
    }
}

/// The names, the files and the modules of the plan of modules that are built, in the order of the build, up to a phase; nothing if it has
/// more than 4,194,304 events, which are counted first. Nearly linear in the names of their dependencies. Guide to Working with Multiple
/// Modules; Introduction to the Build Lifecycle; the number is a project rule.
#[tactic(auto, using(crate::proofs::Joined::same_count, crate::proofs::Joined::given))]
pub fn number_modules(
    alloc: Global,
    phase: Phase,
    modules: List<SelectedModule>,
) -> Mem<Option<Numbered>>
    requires names { AllByRecursion HasGav modules }
    ensures { IfOk result (λ n. n ≡ numbered_if phase modules) }
{
    let built = Places::of(alloc, gavs_of(alloc, modules.as_slice())?)?;
    let ready = all_ready(alloc, phase, &built, modules)?;
    numbered_few(alloc, &built, ready)
}
