// The files of a project and of both repositories, and the names that its build may give a file.
use mvn_base::{FileName, Gav, file_of, valid_group, valid_name, valid_version};
use mvn_shared::{Bytes, List, Mem, Text};
use outside_mem::MemFile;
use row_fields::unescaped;
use std::alloc::Global;
use test_projects::Project;
use test_projects::project::put_file;

fn gav(alloc: Global, group: &str, artifact: &str, version: &str) -> Mem<Gav> {
    let group = Text::from_str(alloc, group)?;
    let artifact = Text::from_str(alloc, artifact)?;
    let version = Text::from_str(alloc, version)?;
    Ok(Gav {
        group,
        artifact,
        version,
    })
}

// The front of a POM: its coordinates.
fn front_of(alloc: Global, gav: &Gav) -> Mem<String> {
    let group = &gav.group;
    let artifact = &gav.artifact;
    let version = &gav.version;
    Ok(format!(in alloc;
        "<project><modelVersion>4.0.0</modelVersion><groupId>{group}</groupId><artifactId>{artifact}</artifactId><version>{version}</version>"
    )?)
}

fn push_front(alloc: Global, gav: &Gav, pom: &mut Bytes) -> Mem<()> {
    pom.extend_from_slice(front_of(alloc, gav)?.as_bytes())
}

fn push_unescaped(alloc: Global, field: &str, pom: &mut Bytes) -> Mem<()> {
    pom.extend_from_slice(unescaped(alloc, field)?.as_slice())
}

// The text of a POM, with this in it after its coordinates.
fn push_pom(alloc: Global, gav: &Gav, inside: &str, pom: &mut Bytes) -> Mem<()> {
    push_front(alloc, gav, pom)?;
    push_unescaped(alloc, inside, pom)?;
    pom.extend_from_slice("</project>".as_bytes())
}

// The name of a file, of valid names alone.
fn valid_file(
    alloc: Global,
    gav: &Gav,
    classifier: &Text,
    extension: &Text,
) -> Mem<Option<FileName>> {
    let named = valid_group(gav.group.as_bytes())
        && valid_name(gav.artifact.as_bytes())
        && valid_version(gav.version.as_bytes())
        && classifier.is_empty()
        && valid_name(extension.as_bytes());
    if !named {
        return Ok(None);
    }
    Ok(Some(file_of(alloc, gav, classifier, extension)?))
}

// The name of the file of these coordinates with this extension, if it has one.
fn name_of(alloc: Global, gav: &Gav, extension: &str) -> Mem<Option<FileName>> {
    let extension = Text::from_str(alloc, extension)?;
    valid_file(alloc, gav, &Text::of(String::new(alloc)), &extension)
}

// One more name, if the file of these coordinates with this extension has one.
fn put_name(alloc: Global, names: &mut List<FileName>, gav: &Gav, extension: &str) -> Mem<()> {
    match name_of(alloc, gav, extension)? {
        Some(name) => names.push(name),
        None => Ok(()),
    }
}

// The names of the POM and the jar of these coordinates.
fn put_names(alloc: Global, names: &mut List<FileName>, gav: &Gav) -> Mem<()> {
    put_name(alloc, names, gav, "pom")?;
    put_name(alloc, names, gav, "jar")
}

// The POM of these coordinates, with this in it, or their jar.
fn bytes_of(alloc: Global, gav: &Gav, inside: &str, extension: &str) -> Mem<Bytes> {
    if extension != "pom" {
        return unescaped(alloc, inside);
    }
    let mut pom = Bytes::of(Vec::new(alloc));
    push_pom(alloc, gav, inside, &mut pom)?;
    Ok(pom)
}

// One more POM of the project, of these coordinates.
fn put_module_of(
    alloc: Global,
    project: &mut Project,
    path: &str,
    gav: &Gav,
    inside: &str,
) -> Mem<()> {
    put_names(alloc, &mut project.names, gav)?;
    let pom = bytes_of(alloc, gav, inside, "pom")?;
    put_file(alloc, project, path, pom.as_slice())
}

// One more POM of the project: its path, its artifact, and what is in it.
fn put_module(alloc: Global, project: &mut Project, field: &str) -> Mem<()> {
    let (path, rest) = field.split_once(' ').unwrap_or((field, ""));
    let (artifact, inside) = rest.split_once(' ').unwrap_or((rest, ""));
    let gav = gav(alloc, "demo", artifact, "1.0")?;
    put_module_of(alloc, project, path, &gav, inside)
}

// One more file of the project: its path and its bytes.
fn put_any(alloc: Global, project: &mut Project, field: &str) -> Mem<()> {
    let (path, bytes) = field.split_once(' ').unwrap_or((field, ""));
    put_file(alloc, project, path, unescaped(alloc, bytes)?.as_slice())
}

// One more file of this name.
fn put_under(
    alloc: Global,
    files: &mut List<MemFile>,
    name: FileName,
    gav: &Gav,
    inside: &str,
    extension: &str,
) -> Mem<()> {
    let bytes = bytes_of(alloc, gav, inside, extension)?;
    files.push(MemFile { name, bytes })
}

// One more file, if it has a name.
fn put_in(
    alloc: Global,
    files: &mut List<MemFile>,
    gav: &Gav,
    inside: &str,
    extension: &str,
) -> Mem<()> {
    match name_of(alloc, gav, extension)? {
        Some(name) => put_under(alloc, files, name, gav, inside, extension),
        None => Ok(()),
    }
}

// One more file of the remote or the local repository, of these coordinates.
fn put_stored_of(
    alloc: Global,
    project: &mut Project,
    is_remote: bool,
    gav: &Gav,
    inside: &str,
    extension: &str,
) -> Mem<()> {
    put_names(alloc, &mut project.names, gav)?;
    if is_remote {
        put_in(alloc, &mut project.remote, gav, inside, extension)
    } else {
        put_in(alloc, &mut project.local, gav, inside, extension)
    }
}

// One more file of the remote or the local repository: its coordinates, and what is in it.
fn put_stored(
    alloc: Global,
    project: &mut Project,
    is_remote: bool,
    field: &str,
    extension: &str,
) -> Mem<()> {
    let (group, rest) = field.split_once(' ').unwrap_or((field, ""));
    let (artifact, rest) = rest.split_once(' ').unwrap_or((rest, ""));
    let (version, inside) = rest.split_once(' ').unwrap_or((rest, ""));
    let gav = gav(alloc, group, artifact, version)?;
    put_stored_of(alloc, project, is_remote, &gav, inside, extension)
}

// One more file, by its first word.
fn put(alloc: Global, project: &mut Project, field: &str) -> Mem<()> {
    let (kind, rest) = field.split_once(' ').unwrap_or((field, ""));
    match kind {
        "m" => put_module(alloc, project, rest),
        "f" => put_any(alloc, project, rest),
        "r" => put_stored(alloc, project, true, rest, "pom"),
        "j" => put_stored(alloc, project, true, rest, "jar"),
        "l" => put_stored(alloc, project, false, rest, "pom"),
        _ => put_stored(alloc, project, false, rest, "jar"),
    }
}

/// Puts in the files of fields, with a bar between two of them.
pub(crate) fn put_fields(alloc: Global, project: &mut Project, fields: &str) -> Mem<()> {
    for field in fields.split('|') {
        put(alloc, project, field)?;
    }
    Ok(())
}
