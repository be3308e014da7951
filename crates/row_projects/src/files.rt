// The files of a project and of both repositories.
use crate::poms::{Coordinates, pom_of};
use goal_types::SourceFile;
use mvn_base::{FileName, Gav, file_of, valid_group, valid_name, valid_version};
use mvn_shared::{Bytes, List, Mem, Text};
use outside_mem::MemFile;
use row_fields::unescaped;
use std::alloc::Global;

/// Files by where they stand.
#[derive(Drop)]
pub struct Files {
    pub tree: List<SourceFile>,
    pub local: List<MemFile>,
    pub remote: List<MemFile>,
}

/// No files.
pub fn no_files(alloc: Global) -> Files {
    Files {
        tree: List::new(alloc),
        local: List::new(alloc),
        remote: List::new(alloc),
    }
}

/// One more file of the project.
pub(crate) fn put_file(alloc: Global, files: &mut Files, path: &str, bytes: &[u8]) -> Mem<()> {
    let path = Text::from_str(alloc, path)?;
    let bytes = Bytes::from_slice(alloc, bytes)?;
    files.tree.push(SourceFile { path, bytes })
}

/// One more POM of the project, with a field in it after the coordinates demo:ARTIFACT:1.0.
pub(crate) fn put_module(
    alloc: Global,
    files: &mut Files,
    path: &str,
    artifact: &str,
    inside: &str,
) -> Mem<()> {
    let pom = pom_of(alloc, ("demo", artifact, "1.0"), inside)?;
    put_file(alloc, files, path, pom.as_slice())
}

// The name of a file of a repository, of valid names alone.
fn file_name(
    alloc: Global,
    gav: &Gav,
    classifier: &Text,
    extension: &Text,
) -> Mem<Option<FileName>> {
    let named = valid_group(gav.group.as_bytes())
        && valid_name(gav.artifact.as_bytes())
        && valid_version(gav.version.as_bytes())
        && classifier.is_empty()
        && valid_name(extension.as_bytes());
    if !named {
        return Ok(None);
    }
    Ok(Some(file_of(alloc, gav, classifier, extension)?))
}

fn gav(alloc: Global, named: Coordinates) -> Mem<Gav> {
    let group = Text::from_str(alloc, named.0)?;
    let artifact = Text::from_str(alloc, named.1)?;
    let version = Text::from_str(alloc, named.2)?;
    Ok(Gav {
        group,
        artifact,
        version,
    })
}

// The name of the POM of these coordinates, if it has one.
fn name_of(alloc: Global, gav: &Gav) -> Mem<Option<FileName>> {
    let pom = Text::from_str(alloc, "pom")?;
    file_name(alloc, gav, &Text::of(String::new(alloc)), &pom)
}

fn pom_name(alloc: Global, named: Coordinates) -> Mem<Option<FileName>> {
    let gav = gav(alloc, named)?;
    name_of(alloc, &gav)
}

// One more POM of a repository, of these bytes, if its coordinates name a file.
fn put_pom(alloc: Global, list: &mut List<MemFile>, named: Coordinates, bytes: Bytes) -> Mem<()> {
    match pom_name(alloc, named)? {
        Some(name) => list.push(MemFile { name, bytes }),
        None => Ok(()),
    }
}

// One more POM of a repository: its coordinates, and what is in it.
fn put_library(alloc: Global, list: &mut List<MemFile>, field: &str) -> Mem<()> {
    let (group, rest) = field.split_once(' ').unwrap_or((field, ""));
    let (artifact, rest) = rest.split_once(' ').unwrap_or((rest, ""));
    let (version, inside) = rest.split_once(' ').unwrap_or((rest, ""));
    let named = (group, artifact, version);
    let bytes = pom_of(alloc, named, inside)?;
    put_pom(alloc, list, named, bytes)
}

// One more file of the project: its path, its artifact, and what is in the POM.
fn put_named(alloc: Global, files: &mut Files, field: &str) -> Mem<()> {
    let (path, rest) = field.split_once(' ').unwrap_or((field, ""));
    let (artifact, inside) = rest.split_once(' ').unwrap_or((rest, ""));
    put_module(alloc, files, path, artifact, inside)
}

// One more file of the project: its path and its bytes.
fn put_any(alloc: Global, files: &mut Files, field: &str) -> Mem<()> {
    let (path, bytes) = field.split_once(' ').unwrap_or((field, ""));
    let bytes = unescaped(alloc, bytes)?;
    put_file(alloc, files, path, bytes.as_slice())
}

// One more file, by its first word.
fn put(alloc: Global, files: &mut Files, field: &str) -> Mem<()> {
    let (kind, rest) = field.split_once(' ').unwrap_or((field, ""));
    match kind {
        "m" => put_named(alloc, files, rest),
        "f" => put_any(alloc, files, rest),
        "l" => put_library(alloc, &mut files.local, rest),
        _ => put_library(alloc, &mut files.remote, rest),
    }
}

/// Puts in the files of the fields after the first.
pub fn put_fields(alloc: Global, files: &mut Files, fields: &[&str]) -> Mem<()> {
    for at in 1..fields.len() {
        put(alloc, files, fields[at])?;
    }
    Ok(())
}
