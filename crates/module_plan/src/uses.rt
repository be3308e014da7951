// What the goals of a module use of its dependencies: files, and the locks that cover them.
ghost use Rattle.std.specs.Prelude.{◌≡◌, [], true, not, ◌&&◌, filter, fold, if◌then◌else◌, IfOk, OnOk};
ghost use Rattle.std.specs.FinMap as finite;
ghost use Rattle.mvn_base.specs.Gav.{lock_name};
ghost use Rattle.classpaths.specs.Classpaths.{files_of, with_name};
ghost use Rattle.module_plan.specs.Numbers.{ascending, with_text, with_texts};
ghost use Rattle.module_plan.specs.Uses.{fetched_files, fetched_locks, has_names, is_selected, used_by};

use crate::files::FileList;
use crate::installed::pom_file;
use crate::places::Places;
use crate::winners::{artifact_file, has_names, needs_path};
use classpaths::Resolved;
use goal_types::GoalCall;
use mvn_base::{FileName, Gav, lock_name};
use mvn_shared::{Bytes, FileMap, List, Mem, Shared, Text};
use std::alloc::Global;

// Puts the files of a dependency to others, unless it is built in this run.
#[tactic(auto, using(crate::proofs::Naming::gav_of))]
fn add_files(alloc: Global, files: &mut FileList, built: &Places<Gav>, winner: &Resolved) -> Mem<()>
    requires names { has_names winner.now ≡ true }
    ensures { OnOk result (files.new
        ≡ fold with_name files.old (files_of (is_selected built.now) winner.now)) }
{
    if built.has(&winner.gav) {
        return Ok(());
    }
    if winner.pom_found {
        files.add(pom_file(alloc, &winner.gav)?)?;
    }
    files.add(artifact_file(alloc, winner)?)
}

// Adds the files of a dependency to those that are fetched, if its names are valid.
fn add_named(alloc: Global, files: &mut FileList, built: &Places<Gav>, winner: &Resolved) -> Mem<()>
    ensures { OnOk result (files.new ≡ (if has_names winner.now
        then fold with_name files.old (files_of (is_selected built.now) winner.now)
        else files.old)) }
{
    if !has_names(winner) {
        return Ok(());
    }
    add_files(alloc, files, built, winner)
}

// The files of all dependencies.
#[tactic(auto, using(crate::proofs::Walks::one_file_more))]
fn all_files(alloc: Global, built: &Places<Gav>, winners: &[Shared<Resolved>]) -> Mem<FileList>
    ensures { IfOk result (λ list. list
        ≡ fetched_files built.now (filter has_names winners.now)) }
{
    let mut files = FileList::new(alloc);
    for winner in winners {
        add_named(alloc, &mut files, built, winner)?;
    }
    Ok(files)
}

/// The files that are fetched for a module, by its goals and its dependencies: none where no goal needs a classpath. Costs their names.
/// Maven's repository layout.
pub fn fetched_files(
    alloc: Global,
    built: &Places<Gav>,
    calls: &[GoalCall],
    winners: &[Shared<Resolved>],
) -> Mem<List<FileName>>
    ensures { IfOk result (λ list. list
        ≡ fetched_files built.now (used_by calls.now winners.now)) }
{
    if !needs_path(calls) {
        return Ok(List::new(alloc));
    }
    let files = all_files(alloc, built, winners)?;
    files.into_list(alloc)
}

/// Puts a text to a set of them. Logarithmic time.
pub fn add_text(alloc: Global, texts: &mut FileMap, text: Text) -> Mem<()>
    ensures { OnOk result (texts.new ≡ with_text texts.old text) }
{
    texts.insert(text, Bytes::of(Vec::new(alloc)))
}

// Puts the lock of a dependency to others, unless it is built in this run.
fn add_lock(alloc: Global, locks: &mut FileMap, built: &Places<Gav>, winner: &Resolved) -> Mem<()>
    ensures { OnOk result (locks.new
        ≡ (if has_names winner.now && not (is_selected built.now winner.now.gav)
        then with_text locks.old (lock_name winner.now.gav) else locks.old)) }
{
    if !has_names(winner) {
        return Ok(());
    }
    if built.has(&winner.gav) {
        return Ok(());
    }
    let name = lock_name(alloc, &winner.gav)?;
    add_text(alloc, locks, name)
}

// The locks of all dependencies.
#[tactic(auto, using(crate::proofs::Walks::one_lock_more))]
fn all_locks(alloc: Global, built: &Places<Gav>, winners: &[Shared<Resolved>]) -> Mem<FileMap>
    ensures { IfOk result (λ set. set ≡ with_texts finite.empty
        (fetched_locks built.now (filter has_names winners.now))) }
{
    let mut locks = FileMap::new(alloc);
    for winner in winners {
        add_lock(alloc, &mut locks, built, winner)?;
    }
    Ok(locks)
}

/// The texts of a set, ascending. Costs their length.
pub fn texts_of(alloc: Global, set: &FileMap) -> Mem<List<Text>>
    ensures { IfOk result (λ list. list ≡ finite.keys set.now) }
{
    Ok(List::of(set.names(alloc)?))
}

// The locks that cover the files that are fetched, where some goal needs a classpath.
fn used_locks(
    alloc: Global,
    built: &Places<Gav>,
    calls: &[GoalCall],
    winners: &[Shared<Resolved>],
) -> Mem<FileMap>
    ensures { IfOk result (λ set. set ≡ with_texts finite.empty
        (fetched_locks built.now (used_by calls.now winners.now))) }
{
    if !needs_path(calls) {
        return Ok(FileMap::new(alloc));
    }
    all_locks(alloc, built, winners)
}

/// The locks that cover the files that are fetched for a module, ascending, each once: none where no goal needs a classpath. Costs their
/// names, each in logarithmic time. Resolver, "Named Locks".
#[tactic(auto, unfolding(crate::specs::Numbers::ascending))]
pub fn fetched_locks(
    alloc: Global,
    built: &Places<Gav>,
    calls: &[GoalCall],
    winners: &[Shared<Resolved>],
) -> Mem<List<Text>>
    ensures { IfOk result (λ list. list
        ≡ ascending (fetched_locks built.now (used_by calls.now winners.now))) }
{
    let locks = used_locks(alloc, built, calls, winners)?;
    texts_of(alloc, &locks)
}
