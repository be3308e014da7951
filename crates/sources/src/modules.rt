// Reads the sources of several modules, within one limit for all of them.
ghost use Rattle.std.specs.Prelude.{◌≡◌, ◌+◌, length, IfOk, IfSome};
ghost use Rattle.mvn_shared.specs.Cause.{HasCause};
ghost use Rattle.sources.specs.Earlier.{AreThere};
ghost use Rattle.sources.specs.Sources.{first_of, GivesAll, PutsSources, TakesRoom, sources_failed};

use crate::earlier::Earlier;
use crate::names::source_names;
use crate::sources::{SourcesFault, read_sources};
use goal_types::SourceFile;
use mvn_base::{MOST_FILES, MOST_SOURCES};
use mvn_outside::Tree;
use mvn_shared::{List, Text};
use std::alloc::Global;

// The files alone; the room that they leave is kept.
fn kept(
    read: Result<(List<SourceFile>, u64), SourcesFault>,
    room: &mut u64,
) -> Result<List<SourceFile>, SourcesFault>
    ensures value { result ≡ first_of read }
    ensures left { IfOk read (λ r. room.new ≡ r.1) }
{
    match read {
        Ok((sources, left)) => {
            *room = left;
            Ok(sources)
        }
        Err(fault) => Err(fault),
    }
}

// The sources of one module more, of the room that is left.
#[tactic(auto, using(crate::proofs::SourcesRead::names_take))]
fn take_sources<T: Tree>(
    alloc: Global,
    tree: &mut T,
    folders: &[Text],
    count: &mut usize,
    room: &mut u64,
    earlier: &Earlier,
) -> Result<List<SourceFile>, SourcesFault>
    requires there { IfSome (T.files tree.old) (λ files. AreThere files earlier.now) }
    ensures takes { IfSome (T.files tree.old) (λ files.
        TakesRoom files folders.now count.old room.old count.new room.new result) }
    ensures same { T.files tree.new ≡ T.files tree.old }
    ensures cause { HasCause (T.faults tree.old) (T.faults tree.new) (sources_failed result) }
{
    let names = match source_names(alloc, tree, folders) {
        Ok(names) => names,
        Err(fault) => return Err(fault),
    };
    if names.len() > *count {
        return Err(SourcesFault::TooMany);
    }
    *count -= names.len();
    let read = read_sources(alloc, tree, earlier, names.as_slice(), *room);
    kept(read, room)
}

// Puts the sources of one module more to those of the modules before.
#[tactic(auto, using(crate::proofs::SourcesRead::puts_sources, crate::proofs::SourcesRead::puts_none))]
fn push_sources<T: Tree>(
    alloc: Global,
    tree: &mut T,
    folders: &[Text],
    count: &mut usize,
    room: &mut u64,
    earlier: &mut Earlier,
) -> Result<(), SourcesFault>
    requires there { IfSome (T.files tree.old) (λ files. AreThere files earlier.old) }
    ensures puts { IfSome (T.files tree.old) (λ files. PutsSources files folders.now
        count.old room.old count.new room.new earlier.old earlier.new result) }
    ensures one { IfOk result (λ done. length earlier.new ≡ length earlier.old + 1) }
    ensures same { T.files tree.new ≡ T.files tree.old }
    ensures cause { HasCause (T.faults tree.old) (T.faults tree.new) (sources_failed result) }
{
    match earlier.note_last() {
        Ok(()) => {}
        Err(_) => return Err(SourcesFault::Memory),
    }
    let sources = match take_sources(alloc, tree, folders, count, room, earlier) {
        Ok(sources) => sources,
        Err(fault) => return Err(fault),
    };
    match earlier.push(sources) {
        Ok(()) => Ok(()),
        Err(_) => Err(SourcesFault::Memory),
    }
}

/// The sources of several modules, of each the files below its folders, with their paths and bytes, ascending by path, each once. All
/// together at most 65,536 files of at most 256 MiB; a file of two modules counts twice, but is read once, for the first of them, and its
/// bytes are copied for the others. A folder is listed for each module that has it. No file is read for more bytes than are still
/// allowed. Costs the listings, and logarithmic time for each name. Maven's Standard Directory Layout.
pub fn all_sources<T: Tree>(
    alloc: Global,
    tree: &mut T,
    modules: &[List<Text>],
) -> Result<List<List<SourceFile>>, SourcesFault>
    ensures gives { IfSome (T.files tree.old) (λ files. GivesAll files modules.now result) }
    ensures each { IfOk result (λ sources. length sources ≡ length modules.now) }
    ensures same { T.files tree.new ≡ T.files tree.old }
    ensures cause { HasCause (T.faults tree.old) (T.faults tree.new) (sources_failed result) }
{
    let mut earlier = Earlier::new(alloc);
    let mut count = MOST_FILES;
    let mut room = MOST_SOURCES;
    for folders in modules {
        match push_sources(
            alloc,
            tree,
            folders.as_slice(),
            &mut count,
            &mut room,
            &mut earlier,
        ) {
            Ok(()) => {}
            Err(fault) => return Err(fault),
        }
    }
    Ok(earlier.into_lists())
}
