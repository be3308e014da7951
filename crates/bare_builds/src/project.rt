// A project of modules that have nothing but their POM.
use goal_types::SourceFile;
use mvn_shared::{Bytes, List, Mem, Text};
use std::alloc::Global;

fn put(alloc: Global, files: &mut List<SourceFile>, path: &str, pom: &str) -> Mem<()> {
    let path = Text::from_str(alloc, path)?;
    let bytes = Bytes::from_slice(alloc, pom.as_bytes())?;
    files.push(SourceFile { path, bytes })?;
    Ok(())
}

// The path of a module's POM.
fn path_of(alloc: Global, number: u32) -> Mem<String> {
    Ok(format!(in alloc; "m{number}/pom.xml")?)
}

// The POM of a module without modules of its own.
fn module_pom(alloc: Global, number: u32) -> Mem<String> {
    Ok(format!(in alloc;
        "<project><modelVersion>4.0.0</modelVersion><groupId>g</groupId><artifactId>m{number}</artifactId><version>1</version><packaging>pom</packaging><modules></modules></project>"
    )?)
}

// The POM of the root, with these modules.
fn root_pom(alloc: Global, modules: &str) -> Mem<String> {
    Ok(format!(in alloc;
        "<project><modelVersion>4.0.0</modelVersion><groupId>g</groupId><artifactId>root</artifactId><version>1</version><packaging>pom</packaging><modules>{modules}</modules></project>"
    )?)
}

fn put_module(alloc: Global, files: &mut List<SourceFile>, number: u32) -> Mem<()> {
    let path = path_of(alloc, number)?;
    let pom = module_pom(alloc, number)?;
    put(alloc, files, path.as_str(), pom.as_str())
}

fn push_listed(alloc: Global, modules: &mut String, number: u32) -> Mem<()> {
    let listed = format!(in alloc; "<module>m{number}</module>")?;
    modules.push_str(listed.as_str())?;
    Ok(())
}

// The POMs of so many modules, and what lists them in the root's.
fn put_modules(
    alloc: Global,
    files: &mut List<SourceFile>,
    modules: &mut String,
    count: u32,
) -> Mem<()> {
    for number in 0..count {
        push_listed(alloc, modules, number)?;
        put_module(alloc, files, number)?;
    }
    Ok(())
}

/// The POMs of so many modules and their root, after the files that are there.
pub(crate) fn put_poms(alloc: Global, files: &mut List<SourceFile>, count: u32) -> Mem<()> {
    let mut modules = String::new(alloc);
    put_modules(alloc, files, &mut modules, count)?;
    let root = root_pom(alloc, modules.as_str())?;
    put(alloc, files, "pom.xml", root.as_str())
}
