// The files of a project, as a source of POMs.
use crate::poms::{Coordinates, pom_of, push_listed};
use mvn_shared::{Bytes, List, Mem, Text};
use outside_mem::Calls;
use std::alloc::Global;
use tree_projects::MemPoms;

/// A project in memory.
pub type Project = MemPoms<Calls>;

/// A project without files, whose calls with these numbers fail.
pub fn empty(alloc: Global, failing: &List<u64>) -> Mem<Project> {
    let calls = Calls::new(alloc, failing)?;
    Ok(MemPoms::new(alloc, calls))
}

// One more file, of these bytes.
fn put_bytes(alloc: Global, project: &mut Project, path: &str, bytes: &[u8]) -> Mem<()> {
    let path = Text::from_str(alloc, path)?;
    let bytes = Bytes::from_slice(alloc, bytes)?;
    project.put_file(path, bytes)
}

const PLAIN: Coordinates<'static> = ("g", "a", "1");

// One more POM, with this in it after its coordinates.
fn put(
    alloc: Global,
    project: &mut Project,
    path: &str,
    named: Coordinates,
    inside: &str,
) -> Mem<()> {
    let pom = pom_of(alloc, named, inside)?;
    put_bytes(alloc, project, path, pom.as_slice())
}

// One more file: its path, and what is in the POM.
fn put_field(alloc: Global, project: &mut Project, field: &str) -> Mem<()> {
    let (path, inside) = field.split_once(' ').unwrap_or((field, ""));
    put(alloc, project, path, PLAIN, inside)
}

// One more file: its path, its artifact, and what is in the POM.
fn put_named(alloc: Global, project: &mut Project, field: &str) -> Mem<()> {
    let (path, rest) = field.split_once(' ').unwrap_or((field, ""));
    let (artifact, inside) = rest.split_once(' ').unwrap_or((rest, ""));
    put(alloc, project, path, ("demo", artifact, "1.0"), inside)
}

// Puts in the files with artifacts of the fields after the first.
fn put_all_named(alloc: Global, project: &mut Project, fields: &[&str]) -> Mem<()> {
    for at in 1..fields.len() {
        put_named(alloc, project, fields[at])?;
    }
    Ok(())
}

// Puts in the files of the fields after the first.
fn put_fields(alloc: Global, project: &mut Project, fields: &[&str]) -> Mem<()> {
    for at in 1..fields.len() {
        put_field(alloc, project, fields[at])?;
    }
    Ok(())
}

const NEXT: &str = "<packaging>pom</packaging><modules><module>m</module></modules>";

// One more POM in a folder.
fn put_in(alloc: Global, project: &mut Project, folder: &str, inside: &str) -> Mem<()> {
    let path = format!(in alloc; "{folder}pom.xml")?;
    put(alloc, project, path.as_str(), PLAIN, inside)
}

// POMs of which each lists the next, from this folder on.
fn put_below(alloc: Global, project: &mut Project, folder: &mut String, count: u32) -> Mem<()> {
    for _ in 1..count {
        put_in(alloc, project, folder.as_str(), NEXT)?;
        folder.push_str("m/")?;
    }
    put_in(alloc, project, folder.as_str(), "")
}

// Puts in POMs of which each lists the next.
fn put_deep(alloc: Global, project: &mut Project, count: u32) -> Mem<()> {
    let mut folder = String::new(alloc);
    put_below(alloc, project, &mut folder, count)
}

// One more POM, which the root lists.
fn put_listed(alloc: Global, project: &mut Project, root: &mut String, number: u32) -> Mem<()> {
    push_listed(alloc, root, number)?;
    let path = format!(in alloc; "m{number}/pom.xml")?;
    put(alloc, project, path.as_str(), PLAIN, "")
}

// A POM that lists as many modules, whose text is written into an empty one.
fn put_root(alloc: Global, project: &mut Project, root: &mut String, count: u32) -> Mem<()> {
    root.push_str("<packaging>pom</packaging><modules>")?;
    for number in 0..count {
        put_listed(alloc, project, root, number)?;
    }
    root.push_str("</modules>")?;
    put(alloc, project, "pom.xml", PLAIN, root.as_str())
}

// Puts in a POM that lists as many modules.
fn put_wide(alloc: Global, project: &mut Project, count: u32) -> Mem<()> {
    let mut root = String::new(alloc);
    put_root(alloc, project, &mut root, count)
}

/// Puts in the files of a row with this first word: those of its fields, or as many as it says.
pub fn put_row(
    alloc: Global,
    project: &mut Project,
    kind: &str,
    row: &str,
    fields: &[&str],
) -> Mem<()> {
    let count = row.parse::<u32>().unwrap_or(0);
    match kind {
        "select" => put_all_named(alloc, project, fields),
        "discover-deep" => put_deep(alloc, project, count),
        "discover-wide" => put_wide(alloc, project, count),
        _ => put_fields(alloc, project, fields),
    }
}
