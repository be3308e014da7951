// What a stop may leave of a repository in memory, as the files of a new one.
ghost use Rattle.std.specs.Prelude.{◌≡◌, ◌++◌, [], ◌∷◌, if◌then◌else◌, map, fold, IfOk, OnOk};
ghost use Rattle.mvn_outside.specs.Shelf.{with_publish};
ghost use Rattle.outside_mem.specs.FilesNamed.{files_named};
ghost use Rattle.outside_mem.specs.Image.{as_file, files_named_in, image_after, names_of, chosen, is_among};

use crate::remote::{MemFile, file_map};
use mvn_outside::Published;
use mvn_shared::{List, Mem, Text};
use std::alloc::Global;

// The file that a publish makes.
fn file_of(publish: &Published) -> Mem<MemFile>
    ensures { IfOk result (λ file. file ≡ as_file publish.now) }
{
    Ok(MemFile {
        name: publish.name.clone()?,
        bytes: publish.bytes.clone()?,
    })
}

// Adds the files of publishes.
fn add_all(files: &mut Vec<MemFile>, publishes: &[Published]) -> Mem<()>
    ensures { OnOk result (files.new.items ≡ files.old.items ++ map as_file publishes.now) }
{
    for publish in publishes {
        files.push(file_of(publish)?)?;
    }
    Ok(())
}

// Whether a name is among these.
fn is_among(names: &[Text], name: &[u8]) -> bool
    ensures { result ≡ is_among names.now name.now }
{
    names.iter().any(|other| name == other.as_bytes())
}

// Adds the file of a publish, if its name is among these.
fn add_if_named(files: &mut Vec<MemFile>, publish: &Published, names: &[Text]) -> Mem<()>
    ensures { OnOk result (files.new.items ≡ files.old.items
        ++ (if is_among names.now publish.now.name then as_file publish.now ∷ [] else [])) }
{
    if is_among(names, publish.name.as_text().as_bytes()) {
        files.push(file_of(publish)?)?;
    }
    Ok(())
}

// Adds the files of those publishes whose names are among these.
fn add_named(files: &mut Vec<MemFile>, publishes: &[Published], names: &[Text]) -> Mem<()>
    ensures { OnOk result (files.new.items ≡ files.old.items
        ++ files_named_in names.now publishes.now) }
{
    for publish in publishes {
        add_if_named(files, publish, names)?;
    }
    Ok(())
}

// Adds a name if it is wanted.
fn add_if(found: &mut Vec<Text>, name: &Text, wanted: bool) -> Mem<()>
    ensures { OnOk result (found.new.items ≡ found.old.items
        ++ (if wanted then name.now ∷ [] else [])) }
{
    if wanted {
        found.push(name.clone()?)?;
    }
    Ok(())
}

// The names whose item is true; a missing item counts as false.
fn chosen(alloc: Global, names: &[Text], newest: &[bool]) -> Mem<Vec<Text>>
    ensures { IfOk result (λ found. found.items ≡ chosen names.now newest.now) }
{
    let mut found = Vec::new(alloc);
    for at in 0..names.len() {
        if at >= newest.len() {
            return Ok(found);
        }
        add_if(&mut found, &names[at], newest[at])?;
    }
    Ok(found)
}

// Of the names of publishes, each once and ascending, those whose item is true.
#[tactic(auto, using(crate::proofs::Moments::names_same))]
fn chosen_names(alloc: Global, publishes: &[Published], newest: &[bool]) -> Mem<Vec<Text>>
    ensures { IfOk result (λ found. found.items ≡ chosen (names_of publishes.now) newest.now) }
{
    let mut files = Vec::new(alloc);
    add_all(&mut files, publishes)?;
    let names = file_map(alloc, List::of(files))?.names(alloc)?;
    chosen(alloc, names.as_slice(), newest)
}

// A copy of files.
fn copied(files: &List<MemFile>) -> Mem<Vec<MemFile>>
    ensures { IfOk result (λ copy. copy.items ≡ files.now) }
{
    Ok(files.clone()?.into_vec())
}

/// The files of an image, as a list: the opening files, those of the settled publishes, and of the later ones those whose names
/// are chosen.
pub(crate) fn image_files(
    alloc: Global,
    given: &List<MemFile>,
    settled: &[Published],
    later: &[Published],
    newest: &[bool],
) -> Mem<List<MemFile>>
    ensures { IfOk result (λ files. files_named files
        ≡ image_after (fold with_publish (files_named given.now)
        settled.now) later.now newest.now) }
{
    let mut files = copied(given)?;
    add_all(&mut files, settled)?;
    let names = chosen_names(alloc, later, newest)?;
    add_named(&mut files, later, names.as_slice())?;
    Ok(List::of(files))
}
