// Reads the sources of a project.
ghost use Rattle.std.specs.Prelude.{◌≡◌, ◌+◌, [], ◌∷◌, IfSome, IfOk};
ghost use Rattle.mvn_shared.specs.Cause.{HasCause};
ghost use Rattle.mvn_base.specs.Limits.{most_sources};
ghost use Rattle.sources.specs.Earlier.{AreThere};
ghost use Rattle.sources.specs.Sources.{first_of, GivesSources, ReadsOne, ReadsSources, sources_at, sources_failed, sources_len};

use crate::earlier::{Earlier, read_once};
use crate::names::source_names;
use goal_types::SourceFile;
use mvn_base::MOST_SOURCES;
use mvn_outside::{ReadFault, Tree};
use mvn_shared::{List, Mem, Text};
use std::alloc::Global;
use thiserror::Error;

/// Why the sources can't be read.
#[derive(Clone, Copy, Debug, Error)]
pub enum SourcesFault {
    /// The tree failed.
    #[error("the project folder failed")]
    Failed,
    /// There are too many files, or too many bytes in them.
    #[error("there are too many source files or bytes")]
    TooMany,
    #[error("out of memory")]
    Memory,
}

fn copy_of(text: &Text) -> Mem<Text>
    ensures { IfOk result (λ copy. copy ≡ text.now) }
{
    Ok(text.clone()?)
}

// Reads a file, and puts it after the sources. Answers the room that it leaves. One that isn't there any more is left
// out.
fn push_source<T: Tree>(
    tree: &mut T,
    earlier: &Earlier,
    name: &Text,
    room: u64,
    sources: &mut List<SourceFile>,
) -> Result<u64, SourcesFault>
    requires there { IfSome (T.files tree.old) (λ files. AreThere files earlier.now) }
    ensures reads { IfSome (T.files tree.old) (λ files.
        ReadsOne room sources.old (sources_at files (name.now ∷ [])) sources.new result) }
    ensures left { IfOk result (λ left.
        left + sources_len sources.new ≡ room + sources_len sources.old) }
    ensures same { T.files tree.new ≡ T.files tree.old }
    ensures cause { HasCause (T.faults tree.old) (T.faults tree.new) (sources_failed result) }
{
    let bytes = match read_once(tree, earlier, name, room) {
        Ok(Some(bytes)) => bytes,
        Ok(None) => return Ok(room),
        Err(ReadFault::TooLarge) => return Err(SourcesFault::TooMany),
        Err(ReadFault::Failed) => return Err(SourcesFault::Failed),
        Err(ReadFault::Memory) => return Err(SourcesFault::Memory),
    };
    let left = room - bytes.len() as u64;
    let Ok(path) = copy_of(name) else {
        return Err(SourcesFault::Memory);
    };
    match sources.push(SourceFile { path, bytes }) {
        Ok(()) => Ok(left),
        Err(_) => Err(SourcesFault::Memory),
    }
}

/// The files of these names, with their bytes, and the room that they leave. Those that were read before aren't read again. Costs the
/// files.
pub(crate) fn read_sources<T: Tree>(
    alloc: Global,
    tree: &mut T,
    earlier: &Earlier,
    names: &[Text],
    room: u64,
) -> Result<(List<SourceFile>, u64), SourcesFault>
    requires there { IfSome (T.files tree.old) (λ files. AreThere files earlier.now) }
    ensures reads { IfSome (T.files tree.old) (λ files.
        ReadsSources room (sources_at files names.now) (first_of result)) }
    ensures left { IfOk result (λ read. read.1 + sources_len read.0 ≡ room) }
    ensures same { T.files tree.new ≡ T.files tree.old }
    ensures cause { HasCause (T.faults tree.old) (T.faults tree.new) (sources_failed result) }
{
    let mut sources = List::new(alloc);
    let mut left = room;
    for name in names {
        match push_source(tree, earlier, name, left, &mut sources) {
            Ok(rest) => left = rest,
            Err(fault) => return Err(fault),
        }
    }
    Ok((sources, left))
}

// The files alone.
fn sources_alone(
    read: Result<(List<SourceFile>, u64), SourcesFault>,
) -> Result<List<SourceFile>, SourcesFault>
    ensures { result ≡ first_of read }
{
    match read {
        Ok((sources, _)) => Ok(sources),
        Err(fault) => Err(fault),
    }
}

// The files of these names, where none were read before.
#[tactic(auto, using(crate::proofs::ReadBefore::none_are_there))]
fn read_anew<T: Tree>(
    alloc: Global,
    tree: &mut T,
    names: &[Text],
) -> Result<List<SourceFile>, SourcesFault>
    ensures reads { IfSome (T.files tree.old) (λ files.
        ReadsSources most_sources (sources_at files names.now) result) }
    ensures same { T.files tree.new ≡ T.files tree.old }
    ensures cause { HasCause (T.faults tree.old) (T.faults tree.new) (sources_failed result) }
{
    let nothing = Earlier::new(alloc);
    sources_alone(read_sources(alloc, tree, &nothing, names, MOST_SOURCES))
}

/// The files below the folders, each with its path and bytes, ascending by path, each once. At most 65,536 files of at most 256 MiB
/// together. Each file is read once, for no more bytes than are still allowed. Costs the listings, and logarithmic time for each name.
/// Maven's Standard Directory Layout.
pub fn project_sources<T: Tree>(
    alloc: Global,
    tree: &mut T,
    folders: &[Text],
) -> Result<List<SourceFile>, SourcesFault>
    ensures gives { IfSome (T.files tree.old) (λ files. GivesSources files folders.now result) }
    ensures same { T.files tree.new ≡ T.files tree.old }
    ensures cause { HasCause (T.faults tree.old) (T.faults tree.new) (sources_failed result) }
{
    match source_names(alloc, tree, folders) {
        Ok(names) => read_anew(alloc, tree, names.as_slice()),
        Err(fault) => Err(fault),
    }
}
