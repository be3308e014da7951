// The names and the files of a plan.
ghost use Rattle.std.specs.Prelude.{◌≡◌, [], fold, flat_map, IfOk, OnOk};
ghost use Rattle.std.specs.FinMap as finite;
ghost use Rattle.classpaths.specs.Classpaths.{with_name};
ghost use Rattle.module_plan.specs.Numbers.{ascending, with_texts};
ghost use Rattle.module_plan.specs.Ready.{files_in, names_in, ready_files, ready_locks, ready_names};

use module_plan::{FileList, Output, Ready, add_text, texts_of};
use mvn_base::{FileName, lock_name};
use mvn_shared::{FileMap, List, Mem, Text};
use std::alloc::Global;

// Puts copies of texts to a set.
fn add_texts(alloc: Global, set: &mut FileMap, texts: &[Text]) -> Mem<()>
    ensures { OnOk result (set.new ≡ with_texts set.old texts.now) }
{
    for text in texts {
        add_text(alloc, set, text.clone()?)?;
    }
    Ok(())
}

// Puts the locks of a module to others: its own, and those of what is fetched for it.
fn add_locks(alloc: Global, set: &mut FileMap, ready: &Ready) -> Mem<()>
    ensures { OnOk result (set.new ≡ with_texts set.old (ready_locks ready.now)) }
{
    let own = lock_name(alloc, &ready.selected.model.gav)?;
    add_text(alloc, set, own)?;
    add_texts(alloc, set, ready.locks.as_slice())
}

// The locks of all modules.
fn all_locks(alloc: Global, modules: &[Ready]) -> Mem<FileMap>
    ensures { IfOk result (λ set. set
        ≡ with_texts finite.empty (flat_map ready_locks modules.now)) }
{
    let mut set = FileMap::new(alloc);
    for ready in modules {
        add_locks(alloc, &mut set, ready)?;
    }
    Ok(set)
}

/// The names that are locked, ascending, each once. Costs their length, each in logarithmic time. Resolver, "Named Locks".
#[tactic(auto, unfolding(module_plan::specs::Numbers::ascending))]
pub(crate) fn names_of(alloc: Global, modules: &[Ready]) -> Mem<List<Text>>
    ensures { IfOk result (λ names. names ≡ ready_names modules.now) }
{
    let set = all_locks(alloc, modules)?;
    texts_of(alloc, &set)
}

// A copy of a name.
fn copy_of(name: &FileName) -> Mem<FileName>
    ensures { IfOk result (λ copy. copy ≡ name.now) }
{
    Ok(name.clone()?)
}

// Puts the names of files to others.
fn add_names(files: &mut FileList, names: &[FileName]) -> Mem<()>
    ensures { OnOk result (files.new ≡ fold with_name files.old names.now) }
{
    for name in names {
        files.add(copy_of(name)?)?;
    }
    Ok(())
}

// Puts the names of outputs to others.
fn add_outputs(files: &mut FileList, outputs: &[Output]) -> Mem<()>
    ensures { OnOk result (files.new ≡ fold with_name files.old (names_in outputs.now)) }
{
    for output in outputs {
        files.add(copy_of(&output.name)?)?;
    }
    Ok(())
}

// Puts the files of a module to others: those that are fetched for it, and then its own.
#[tactic(auto, using(module_plan::proofs::Walks::fold_append))]
fn add_files(files: &mut FileList, ready: &Ready) -> Mem<()>
    ensures { OnOk result (files.new ≡ fold with_name files.old (files_in ready.now)) }
{
    add_names(files, ready.fetch.as_slice())?;
    add_outputs(files, ready.outputs.as_slice())
}

/// The files in the order of their first mention. Costs their length, on the average. Project rule.
pub(crate) fn files_of(alloc: Global, modules: &[Ready]) -> Mem<FileList>
    ensures { IfOk result (λ files. files ≡ ready_files modules.now) }
{
    let mut files = FileList::new(alloc);
    for ready in modules {
        add_files(&mut files, ready)?;
    }
    Ok(files)
}
