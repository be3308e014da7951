// The POMs of a repository.
use crate::MemPoms;
use crate::reading::{all_files, pom_bytes};
use mvn_base::{Gav, PomId};
use mvn_outside::{ReadFault, Tree};
use mvn_shared::{Bytes, Mem, Text};
use outside_mem::NoFailures;
use pom_source::Found;
use std::alloc::Global;

// The group that folders stand for.
fn group_of(alloc: Global, folders: &str) -> Mem<Text> {
    Ok(Text::of(folders.replace(alloc, '/', ".")?))
}

// Whether a file has the name of the POM of an artifact's version.
fn is_pom_name(name: &str, artifact: &str, version: &str) -> bool {
    let rest = name.strip_prefix(artifact).unwrap_or("");
    let rest = rest.strip_prefix("-").unwrap_or("");
    rest.strip_prefix(version).unwrap_or("") == ".pom"
}

// The folders of the group, the artifact and the version that the path of a POM names.
fn parts_at(path: &str) -> Option<(&str, &str, &str)> {
    let (folder, name) = path.rsplit_once('/')?;
    let (above, version) = folder.rsplit_once('/')?;
    let (folders, artifact) = above.rsplit_once('/')?;
    if is_pom_name(name, artifact, version) {
        Some((folders, artifact, version))
    } else {
        None
    }
}

fn gav_of(alloc: Global, folders: &str, artifact: &str, version: &str) -> Mem<Gav> {
    let group = group_of(alloc, folders)?;
    let artifact = Text::from_str(alloc, artifact)?;
    let version = Text::from_str(alloc, version)?;
    Ok(Gav {
        group,
        artifact,
        version,
    })
}

// Puts a POM under coordinates.
fn put_pom(source: &mut MemPoms<NoFailures>, gav: Gav, bytes: Bytes) -> Mem<()> {
    let pom = PomId::Gav(gav.clone()?);
    source.put_found(gav, Found { pom, bytes })
}

// Puts a file of a repository under the coordinates that its path names, if it is a POM.
fn put_file<T: Tree>(
    source: &mut MemPoms<NoFailures>,
    tree: &mut T,
    alloc: Global,
    path: &Text,
) -> Result<(), ReadFault> {
    let Some((folders, artifact, version)) = parts_at(path.as_str()) else {
        return Ok(());
    };
    let Some(bytes) = pom_bytes(tree, alloc, path)? else {
        return Ok(());
    };
    let gav = gav_of(alloc, folders, artifact, version)?;
    put_pom(source, gav, bytes)?;
    Ok(())
}

/// Puts each POM of a repository's tree under its coordinates.
pub fn put_library<T: Tree>(
    source: &mut MemPoms<NoFailures>,
    tree: &mut T,
    alloc: Global,
) -> anyhow::Result<()> {
    let paths = all_files(tree, alloc)?;
    for path in paths.as_slice() {
        put_file(source, tree, alloc, path)?;
    }
    Ok(())
}
