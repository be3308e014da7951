// The entries of a module's classpaths.
ghost use Rattle.std.specs.Prelude.{◌≡◌, ◌<◌, ◌++◌, [], ◌∷◌, true, ◌&&◌, filter, length, if◌then◌else◌, IfOk, OnOk};
ghost use Rattle.classpaths.specs.Classpaths.{artifact_file, has_scope, is_on};
ghost use Rattle.classpaths.specs.declared.classpath.Kind.TheVariants as kinds;
ghost use Rattle.module_plan.specs.Plans.{entries_of, entry_of, kept_output, origin_of};
ghost use Rattle.module_plan.specs.Uses.{has_names, used_by};

use crate::{FileList, Places, artifact_file, has_names, needs_path, slot_of};
use build_core::{Entry, Origin};
use classpaths::{Kind, Resolved};
use collector::Scope;
use goal_types::{GoalCall, Slot};
use mvn_base::{FileName, Gav, handler};
use mvn_shared::{List, Mem, Shared};
use std::alloc::Global;

// Whether a classpath has the dependencies of a scope.
fn has_scope(kind: Kind, scope: Scope) -> bool
    ensures { result ≡ has_scope kind scope }
{
    match (kind, scope) {
        (Kind::Compile, Scope::Compile | Scope::Provided) => true,
        (Kind::Runtime, Scope::Compile | Scope::Runtime) => true,
        (Kind::Test, _) => true,
        _ => false,
    }
}

// An output of a module, if there is one.
fn kept_output(place: u32, slot: Option<Slot>) -> Origin
    ensures { result ≡ kept_output place slot }
{
    match slot {
        Some(slot) => Origin::Module(place, slot),
        None => Origin::Nothing,
    }
}

// Where the bytes of a dependency come from, by the name of its file.
fn origin_of(
    alloc: Global,
    built: &Places<Gav>,
    files: &FileList,
    winner: &Resolved,
    name: &FileName,
) -> Mem<Origin>
    requires name { name.now ≡ artifact_file winner.now }
    requires few_built { length built.now < 4294967296 }
    requires few_files { length files.now < 4294967296 }
    ensures { IfOk result (λ origin. origin ≡ origin_of built.now files.now winner.now) }
{
    if built.has(&winner.gav) {
        let place = built.place(&winner.gav);
        let slot = slot_of(alloc, winner)?;
        return Ok(kept_output(place, slot));
    }
    Ok(Origin::File(files.number(name.as_text())))
}

// The entry of a dependency.
fn entry_of(alloc: Global, built: &Places<Gav>, files: &FileList, winner: &Resolved) -> Mem<Entry>
    requires names { has_names winner.now ≡ true }
    requires few_built { length built.now < 4294967296 }
    requires few_files { length files.now < 4294967296 }
    ensures { IfOk result (λ entry. entry ≡ entry_of built.now files.now winner.now) }
{
    let is_jar = handler(alloc, &winner.kind)?.on_classpath;
    let name = artifact_file(alloc, winner)?;
    let origin = origin_of(alloc, built, files, winner, &name)?;
    Ok(Entry {
        name,
        compile: has_scope(Kind::Compile, winner.scope) && is_jar,
        runtime: has_scope(Kind::Runtime, winner.scope) && is_jar,
        test: has_scope(Kind::Test, winner.scope) && is_jar,
        origin,
    })
}

// Whether a dependency is on some classpath.
fn is_on(alloc: Global, winner: &Resolved) -> Mem<bool>
    ensures { IfOk result (λ it. it ≡ is_on kinds.Test winner.now) }
{
    let rule = handler(alloc, &winner.kind)?;
    Ok(rule.on_classpath)
}

// Puts the entry of a dependency to others, if it has valid names and is on some classpath.
fn push_entry(
    alloc: Global,
    built: &Places<Gav>,
    files: &FileList,
    winner: &Resolved,
    entries: &mut List<Entry>,
) -> Mem<()>
    requires few_built { length built.now < 4294967296 }
    requires few_files { length files.now < 4294967296 }
    ensures { OnOk result (entries.new ≡ (if has_names winner.now && is_on kinds.Test winner.now
        then entries.old ++ entry_of built.now files.now winner.now ∷ [] else entries.old)) }
{
    if !has_names(winner) {
        return Ok(());
    }
    if !is_on(alloc, winner)? {
        return Ok(());
    }
    entries.push(entry_of(alloc, built, files, winner)?)
}

// The entries of all dependencies.
#[tactic(auto, using(crate::proofs::EntryWalks::one_entry_more))]
fn all_entries(
    alloc: Global,
    built: &Places<Gav>,
    files: &FileList,
    winners: &[Shared<Resolved>],
) -> Mem<List<Entry>>
    requires few_built { length built.now < 4294967296 }
    requires few_files { length files.now < 4294967296 }
    ensures { IfOk result (λ entries. entries
        ≡ entries_of built.now files.now (filter has_names winners.now)) }
{
    let mut entries = List::new(alloc);
    for winner in winners {
        push_entry(alloc, built, files, winner, &mut entries)?;
    }
    Ok(entries)
}

/// The entries of a module's classpaths, by its goals and its dependencies: none where no goal needs a classpath. Costs their names.
/// Introduction to the Dependency Mechanism, "Dependency Scope".
pub fn entries_of(
    alloc: Global,
    built: &Places<Gav>,
    files: &FileList,
    calls: &[GoalCall],
    winners: &[Shared<Resolved>],
) -> Mem<List<Entry>>
    requires few_built { length built.now < 4294967296 }
    requires few_files { length files.now < 4294967296 }
    ensures { IfOk result (λ entries. entries
        ≡ entries_of built.now files.now (used_by calls.now winners.now)) }
{
    if !needs_path(calls) {
        return Ok(List::new(alloc));
    }
    all_entries(alloc, built, files, winners)
}
