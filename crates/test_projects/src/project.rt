// A project's files, and those of both repositories.
use goal_types::SourceFile;
use mvn_base::{FileName, Gav, file_of, valid_group, valid_name, valid_version};
use mvn_shared::{Bytes, List, Mem, Text};
use outside_mem::MemFile;
use std::alloc::Global;

/// The files of a project's folder and of both repositories, and the names that a build may give files.
#[derive(Drop)]
pub struct Project {
    pub tree: List<SourceFile>,
    pub local: List<MemFile>,
    pub remote: List<MemFile>,
    pub names: List<FileName>,
}

/// No files.
pub fn empty(alloc: Global) -> Project {
    Project {
        tree: List::new(alloc),
        local: List::new(alloc),
        remote: List::new(alloc),
        names: List::new(alloc),
    }
}

// The coordinates of an artifact.
fn gav(alloc: Global, group: &str, artifact: &str) -> Mem<Gav> {
    let group = Text::from_str(alloc, group)?;
    let artifact = Text::from_str(alloc, artifact)?;
    let version = Text::from_str(alloc, "1")?;
    Ok(Gav {
        group,
        artifact,
        version,
    })
}

// The name of a file of coordinates, if it has one.
fn file_name(alloc: Global, gav: &Gav, extension: &str) -> Mem<Option<FileName>> {
    let none = Text::from_str(alloc, "")?;
    let extension = Text::from_str(alloc, extension)?;
    let named = valid_group(gav.group.as_bytes())
        && valid_name(gav.artifact.as_bytes())
        && valid_version(gav.version.as_bytes())
        && none.is_empty()
        && valid_name(extension.as_bytes());
    if !named {
        return Ok(None);
    }
    Ok(Some(file_of(alloc, gav, &none, &extension)?))
}

// The name of a file of an artifact, if it has one.
fn name_of(alloc: Global, group: &str, artifact: &str, extension: &str) -> Mem<Option<FileName>> {
    let gav = gav(alloc, group, artifact)?;
    file_name(alloc, &gav, extension)
}

// One more name that a file may have.
fn put_name(
    alloc: Global,
    project: &mut Project,
    group: &str,
    artifact: &str,
    extension: &str,
) -> Mem<()> {
    if let Some(name) = name_of(alloc, group, artifact, extension)? {
        project.names.push(name)?;
    }
    Ok(())
}

/// One more file of the project's folder.
pub fn put_file(alloc: Global, project: &mut Project, path: &str, bytes: &[u8]) -> Mem<()> {
    let path = Text::from_str(alloc, path)?;
    let bytes = Bytes::from_slice(alloc, bytes)?;
    project.tree.push(SourceFile { path, bytes })?;
    Ok(())
}

// The text of a POM, with this in it after its coordinates.
fn pom_of(alloc: Global, group: &str, artifact: &str, inside: &str) -> Mem<String> {
    Ok(format!(in alloc;
        "<project><modelVersion>4.0.0</modelVersion><groupId>{group}</groupId><artifactId>{artifact}</artifactId><version>1</version>{inside}</project>"
    )?)
}

/// One more POM of the project, of the module demo:ARTIFACT:1, with this in it.
pub fn put_module(
    alloc: Global,
    project: &mut Project,
    path: &str,
    artifact: &str,
    inside: &str,
) -> Mem<()> {
    let pom = pom_of(alloc, "demo", artifact, inside)?;
    put_file(alloc, project, path, pom.as_bytes())?;
    put_name(alloc, project, "demo", artifact, "pom")?;
    put_name(alloc, project, "demo", artifact, "jar")
}

// One more file of a repository, of the library x:ARTIFACT:1.
fn put_part(
    alloc: Global,
    files: &mut List<MemFile>,
    artifact: &str,
    extension: &str,
    bytes: &[u8],
) -> Mem<()> {
    if let Some(name) = name_of(alloc, "x", artifact, extension)? {
        let bytes = Bytes::from_slice(alloc, bytes)?;
        files.push(MemFile { name, bytes })?;
    }
    Ok(())
}

/// The POM of the library x:ARTIFACT:1 in a repository, and its jar, where it has one.
pub fn put_library(
    alloc: Global,
    files: &mut List<MemFile>,
    artifact: &str,
    inside: &str,
    jar: bool,
) -> Mem<()> {
    let pom = pom_of(alloc, "x", artifact, inside)?;
    put_part(alloc, files, artifact, "pom", pom.as_bytes())?;
    if jar {
        put_part(alloc, files, artifact, "jar", artifact.as_bytes())?;
    }
    Ok(())
}

/// The names of the library x:ARTIFACT:1.
pub fn put_library_names(alloc: Global, project: &mut Project, artifact: &str) -> Mem<()> {
    put_name(alloc, project, "x", artifact, "pom")?;
    put_name(alloc, project, "x", artifact, "jar")
}

/// One more dependency on the artifact.
pub fn push_dependency(alloc: Global, list: &mut String, group: &str, artifact: &str) -> Mem<()> {
    let text = format!(in alloc;
        "<dependency><groupId>{group}</groupId><artifactId>{artifact}</artifactId><version>1</version></dependency>"
    )?;
    list.push_str(text.as_str())?;
    Ok(())
}

/// What a POM has in it for such a list.
pub fn dependencies(alloc: Global, list: &str) -> Mem<String> {
    Ok(format!(in alloc; "<dependencies>{list}</dependencies>")?)
}
