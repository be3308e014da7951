// Rows about repositories: what is published, and what a remote gives.
use crate::told_of_file;
use mvn_base::{FileName, Gav, valid_group, valid_name};
use mvn_outside::{Area, ListFault, Remote, Shelf, put, settle, stage, sweep};
use mvn_shared::{List, Mem, Text};
use outside_real::{RealArea, RealRemote, RealShelf};
use row_fields::{file_name, gav, word};
use std::alloc::Global;

// An artifact of org.demo in version 1.0.
fn demo(alloc: Global, artifact: &str) -> Mem<Gav> {
    gav(alloc, "org.demo", artifact, "1.0")
}

// The name of the POM of an artifact.
fn pom_of(alloc: Global, gav: &Gav) -> Mem<Option<FileName>> {
    let pom = Text::from_str(alloc, "pom")?;
    file_name(alloc, gav, &Text::of(String::new(alloc)), &pom)
}

// The name of the POM of an artifact of org.demo in version 1.0.
fn pom_name(alloc: Global, artifact: &str) -> Mem<Option<FileName>> {
    let gav = demo(alloc, artifact)?;
    pom_of(alloc, &gav)
}

// The first staging folder of the repository in a folder, as a process of this name uses it.
fn area<'a>(rt: &'a HostRuntime, folder: &str, process: &str) -> Mem<RealArea<'a, HostRuntime>> {
    let process = Text::from_str(rt.alloc(), process)?;
    let staging = Text::of(format!(in rt.alloc(); "{folder}/.staging/0")?);
    Ok(RealArea::new(rt, staging, process))
}

// Whether a shelf takes the bytes under the name, and settles.
fn takes<S: Shelf>(shelf: &mut S, area: &mut S::Area, name: &FileName, bytes: &[u8]) -> bool {
    match stage(area, bytes) {
        Ok(piece) => put(shelf, area, piece, name).is_ok() && settle(shelf).is_ok(),
        Err(_) => false,
    }
}

// Whether the repository in a folder takes the bytes under the name, staged in this area, and settles.
fn is_taken_by<'a>(
    rt: &'a HostRuntime,
    folder: &str,
    area: &mut RealArea<'a, HostRuntime>,
    name: &FileName,
    bytes: &[u8],
) -> Mem<bool> {
    let root = Text::from_str(rt.alloc(), folder)?;
    Ok(takes(&mut RealShelf::new(rt, root), area, name, bytes))
}

// Whether the repository in a folder takes the bytes under the name, and settles.
fn is_taken(rt: &HostRuntime, folder: &str, name: &FileName, bytes: &[u8]) -> Mem<bool> {
    let mut area = area(rt, folder, "one")?;
    is_taken_by(rt, folder, &mut area, name, bytes)
}

fn answer(alloc: Global, is_done: bool, done: &str) -> Mem<String> {
    word(alloc, if is_done { done } else { "a fault" })
}

// Whether a repository takes bytes as the POM of an artifact.
fn is_published(rt: &HostRuntime, folder: &str, artifact: &str, bytes: &str) -> Mem<bool> {
    match &pom_name(rt.alloc(), artifact)? {
        Some(name) => is_taken(rt, folder, name, bytes.as_bytes()),
        None => Ok(false),
    }
}

/// Whether a repository takes bytes as the POM of an artifact, in words.
pub(crate) fn publish(rt: &HostRuntime, folder: &str, artifact: &str, bytes: &str) -> Mem<String> {
    let is_published = is_published(rt, folder, artifact, bytes)?;
    answer(rt.alloc(), is_published, "published")
}

/// Whether a repository's first staging folder can be swept.
pub(crate) fn swept(rt: &HostRuntime, folder: &str) -> Mem<String> {
    let mut area = area(rt, folder, "one")?;
    answer(rt.alloc(), sweep(&mut area).is_ok(), "swept")
}

fn swept_if(rt: &HostRuntime, folder: &str, is_held: bool) -> Mem<String> {
    if is_held {
        return swept(rt, folder);
    }
    word(rt.alloc(), "a fault")
}

/// Whether a repository's first staging folder can be swept while another user of it holds a piece there.
pub(crate) fn swept_beside(rt: &HostRuntime, folder: &str) -> Mem<String> {
    let mut other = area(rt, folder, "two")?;
    let is_held = other.begin().is_ok();
    swept_if(rt, folder, is_held)
}

// What a remote gives of a name.
fn fetched(rt: &HostRuntime, folder: &str, name: &FileName, limit: u64) -> Mem<String> {
    let root = Text::from_str(rt.alloc(), folder)?;
    let mut remote = RealRemote::new(rt, root);
    told_of_file(rt.alloc(), &remote.fetch(name, limit))
}

/// What a remote gives of the POM of `a`.
pub(crate) fn fetch(rt: &HostRuntime, folder: &str, limit: u64) -> Mem<String> {
    match &pom_name(rt.alloc(), "a")? {
        Some(name) => fetched(rt, folder, name, limit),
        None => word(rt.alloc(), "no name"),
    }
}

fn counted(alloc: Global, found: &Result<List<Text>, ListFault>) -> Mem<String> {
    match found {
        Ok(versions) => {
            let count = versions.len();
            Ok(format!(in alloc; "{count} versions")?)
        }
        Err(_) => word(alloc, "a fault"),
    }
}

// How many versions of an artifact a remote lists.
fn versions_of<R: Remote>(alloc: Global, remote: &mut R, gav: &Gav) -> Mem<String> {
    if valid_group(gav.group.as_bytes()) && valid_name(gav.artifact.as_bytes()) {
        return counted(alloc, &remote.versions(&gav.group, &gav.artifact));
    }
    word(alloc, "no name")
}

// How many versions of an artifact the remote in a folder lists.
fn versions_in(rt: &HostRuntime, folder: &str, gav: &Gav) -> Mem<String> {
    let root = Text::from_str(rt.alloc(), folder)?;
    let mut remote = RealRemote::new(rt, root);
    versions_of(rt.alloc(), &mut remote, gav)
}

/// How many versions of the artifact `a` a remote lists.
pub(crate) fn versions(rt: &HostRuntime, folder: &str) -> Mem<String> {
    let gav = demo(rt.alloc(), "a")?;
    versions_in(rt, folder, &gav)
}
