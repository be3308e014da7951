// The versions of an artifact in a repository on a disk.
ghost use Rattle.std.specs.Prelude.{◌≡◌, ◌≤◌, true, length, IfOk};
ghost use Rattle.mvn_base.specs.Names.{is_group, is_name};
ghost use Rattle.mvn_base.specs.Limits.{most_versions};

use crate::fault::fault_of;
use crate::paths::full_path;
use crate::reading_look::{entries_of, is_file, is_folder};
use mvn_base::artifact_folder;
use mvn_outside::{DeviceFault, ListFault, list_versions};
use mvn_shared::{List, Mem, Text};
use std::alloc::Global;
use std::fs::DirEntry;
use std::{io, rt};

// The name that the POM of a version has in a repository.
fn pom_of(alloc: Global, folder: &Text, artifact: &Text, version: &str) -> Mem<Text> {
    let file = format!(in alloc; "{artifact}-{version}.pom")?;
    let inside = full_path(alloc, folder.as_str(), version)?;
    Ok(Text::of(full_path(alloc, inside.as_str(), file.as_str())?))
}

// Whether a file has this name in a repository.
fn is_at<R: rt::Files + AllocGlobal>(rt: &R, root: &str, name: &Text) -> Result<bool, DeviceFault> {
    let path = full_path(rt.alloc(), root, name.as_str())?;
    is_file(rt, path.as_str())
}

// Takes in the name that the POM of a version has to have, where a file has it.
fn take_pom<R: rt::Files + AllocGlobal>(
    rt: &R,
    root: &str,
    pom: Text,
    poms: &mut Vec<Text>,
) -> Result<(), ListFault> {
    if !is_at(rt, root, &pom)? {
        return Ok(());
    }
    match poms.push(pom) {
        Ok(()) => Ok(()),
        Err(_) => Err(ListFault::Memory),
    }
}

// Takes in the POM that belongs to an entry of an artifact's folder, where a file is there.
fn take_entry<R: rt::Files + AllocGlobal + Clone + Drop>(
    rt: &R,
    root: &str,
    folder: &Text,
    artifact: &Text,
    entry: &io::Result<DirEntry<R>>,
    poms: &mut Vec<Text>,
) -> Result<(), ListFault> {
    match entry {
        Ok(entry) => {
            let pom = pom_of(rt.alloc(), folder, artifact, entry.file_name())?;
            take_pom(rt, root, pom, poms)
        }
        Err(e) => Err(ListFault::from(fault_of(e))),
    }
}

// Takes in the POMs of an artifact's folder, which has this path of the system: for each name there, the file that the POM of this
// version has to be.
fn take_poms<R: rt::Files + AllocGlobal + Clone + Drop>(
    rt: &R,
    root: &str,
    path: &str,
    folder: &Text,
    artifact: &Text,
    poms: &mut Vec<Text>,
) -> Result<(), ListFault> {
    for entry in entries_of(rt, path)? {
        take_entry(rt, root, folder, artifact, &entry, poms)?;
    }
    Ok(())
}

// The POMs of an artifact's folder, which need not be there.
fn poms_in<R: rt::Files + AllocGlobal + Clone + Drop>(
    rt: &R,
    root: &str,
    folder: &Text,
    artifact: &Text,
) -> Result<Vec<Text>, ListFault> {
    let mut poms = Vec::new(rt.alloc());
    let path = full_path(rt.alloc(), root, folder.as_str())?;
    if is_folder(rt, path.as_str())? {
        take_poms(rt, root, path.as_str(), folder, artifact, &mut poms)?;
    }
    Ok(poms)
}

/// The versions of an artifact, in the order of their POMs' names: the valid ones among the names in its folder whose POM is a file
/// there, links followed; `TooMany` where there are more than 4,096. Costs one look at each of these names, whatever else lies below
/// them, and a sort. Repository layout of Maven.
pub fn versions_below<R: rt::Files + AllocGlobal + Clone + Drop>(
    rt: &R,
    root: &str,
    group: &Text,
    artifact: &Text,
) -> Result<List<Text>, ListFault>
    requires group { is_group group.now ≡ true }
    requires artifact { is_name artifact.now ≡ true }
    ensures { IfOk result (λ versions. length versions ≤ most_versions) }
{
    let alloc = rt.alloc();
    let folder = artifact_folder(alloc, group, artifact)?;
    let mut poms = poms_in(rt, root, &folder, artifact)?;
    poms.sort().map_err(|_| ListFault::Memory)?;
    list_versions(alloc, &poms, group, artifact)
}
