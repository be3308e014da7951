// Projects of so many modules, or of so many sources.
use crate::files::{Files, put_file, put_module};
use crate::poms::push_listed;
use mvn_shared::Mem;
use std::alloc::Global;

const ON_FIRST: &str =
    "<dependencies><dependency><groupId>demo</groupId><artifactId>m0</artifactId><version>1.0</version></dependency></dependencies>";

// The module of this number; all but the first depend on the first.
fn put_number(alloc: Global, files: &mut Files, artifact: &str, inside: &str) -> Mem<()> {
    let path = format!(in alloc; "{artifact}/pom.xml")?;
    put_module(alloc, files, path.as_str(), artifact, inside)
}

// Puts in the module of this number, and the root lists it.
fn put_listed(alloc: Global, files: &mut Files, root: &mut String, number: u32) -> Mem<()> {
    push_listed(alloc, root, number)?;
    let artifact = format!(in alloc; "m{number}")?;
    let inside = if number == 0 { "" } else { ON_FIRST };
    put_number(alloc, files, artifact.as_str(), inside)
}

/// Puts in a root of so many modules `m0`, `m1`, .., of which each but the first depends on the first. The root's text is written into an
/// empty one.
pub fn put_wide(alloc: Global, files: &mut Files, root: &mut String, count: u32) -> Mem<()> {
    root.push_str("<packaging>pom</packaging><modules>")?;
    for number in 0..count {
        put_listed(alloc, files, root, number)?;
    }
    root.push_str("</modules>")?;
    put_module(alloc, files, "pom.xml", "root", root.as_str())
}

fn put_source(alloc: Global, files: &mut Files, number: u32) -> Mem<()> {
    let path = format!(in alloc; "b/src/main/java/S{number}")?;
    put_file(alloc, files, path.as_str(), "".as_bytes())
}

const TWO: &str =
    "<packaging>pom</packaging><modules><module>a</module><module>b</module></modules>";

/// Puts in a root of the modules `a` and `b`, where `b` has so many empty sources.
pub fn put_many(alloc: Global, files: &mut Files, count: u32) -> Mem<()> {
    put_module(alloc, files, "pom.xml", "root", TWO)?;
    put_module(alloc, files, "a/pom.xml", "a", "")?;
    put_module(alloc, files, "b/pom.xml", "b", "")?;
    for number in 0..count {
        put_source(alloc, files, number)?;
    }
    Ok(())
}
