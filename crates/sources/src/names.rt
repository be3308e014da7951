// The names of the files below folders.
ghost use Rattle.std.specs.Prelude.{◌≡◌, IfSome, OnOk};
ghost use Rattle.mvn_shared.specs.Cause.{HasCause};
ghost use Rattle.sources.specs.Sources.{ListsIn, ListsNames, PutsBelow, SortsNames, sources_failed, with_names};

use crate::sources::SourcesFault;
use mvn_base::MOST_FILES;
use mvn_outside::{ListFault, Tree};
use mvn_shared::{Bytes, FileMap, List, Mem, Text};
use std::alloc::Global;

// Puts names to a set of them.
fn put_names(alloc: Global, names: &mut FileMap, more: List<Text>) -> Mem<()>
    ensures { OnOk result (names.new ≡ with_names names.old more) }
{
    for name in more.into_vec() {
        names.insert(name, Bytes::of(Vec::new(alloc)))?;
    }
    Ok(())
}

// Puts the names of the files below a folder to a set.
fn put_below<T: Tree>(
    alloc: Global,
    tree: &mut T,
    folder: &Text,
    names: &mut FileMap,
) -> Result<(), SourcesFault>
    ensures puts { IfSome (T.files tree.old) (λ files.
        PutsBelow files folder.now names.old names.new result) }
    ensures same { T.files tree.new ≡ T.files tree.old }
    ensures cause { HasCause (T.faults tree.old) (T.faults tree.new) (sources_failed result) }
{
    let below = match tree.list(folder) {
        Ok(below) => below,
        Err(ListFault::Failed) => return Err(SourcesFault::Failed),
        Err(ListFault::TooMany) => return Err(SourcesFault::TooMany),
        Err(ListFault::Memory) => return Err(SourcesFault::Memory),
    };
    match put_names(alloc, names, below) {
        Ok(()) => Ok(()),
        Err(_) => Err(SourcesFault::Memory),
    }
}

// The names of the files below folders, as a set.
#[tactic(auto, unfolding(crate::specs::Sources::names_in))]
fn names_in<T: Tree>(alloc: Global, tree: &mut T, folders: &[Text]) -> Result<FileMap, SourcesFault>
    ensures lists { IfSome (T.files tree.old) (λ files. ListsIn files folders.now result) }
    ensures same { T.files tree.new ≡ T.files tree.old }
    ensures cause { HasCause (T.faults tree.old) (T.faults tree.new) (sources_failed result) }
{
    let mut names = FileMap::new(alloc);
    for folder in folders {
        match put_below(alloc, tree, folder, &mut names) {
            Ok(()) => {}
            Err(fault) => return Err(fault),
        }
    }
    Ok(names)
}

// The names of a set in order, if they aren't too many.
fn in_order(alloc: Global, names: &FileMap) -> Result<List<Text>, SourcesFault>
    ensures { SortsNames names.now result }
{
    if names.len() > MOST_FILES {
        return Err(SourcesFault::TooMany);
    }
    match names.names(alloc) {
        Ok(names) => Ok(List::of(names)),
        Err(_) => Err(SourcesFault::Memory),
    }
}

/// The names of the files below folders, ascending, each once. Costs a listing of each folder, and logarithmic time for each name.
pub(crate) fn source_names<T: Tree>(
    alloc: Global,
    tree: &mut T,
    folders: &[Text],
) -> Result<List<Text>, SourcesFault>
    ensures lists { IfSome (T.files tree.old) (λ files. ListsNames files folders.now result) }
    ensures same { T.files tree.new ≡ T.files tree.old }
    ensures cause { HasCause (T.faults tree.old) (T.faults tree.new) (sources_failed result) }
{
    match names_in(alloc, tree, folders) {
        Ok(names) => in_order(alloc, &names),
        Err(fault) => Err(fault),
    }
}
