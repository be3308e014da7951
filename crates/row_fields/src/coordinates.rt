// Coordinates, and names of files.
use mvn_base::{FileName, Gav, file_of, valid_group, valid_name, valid_version};
use mvn_shared::{Mem, Text};
use std::alloc::Global;

/// The coordinates of a group, an artifact and a version.
pub fn gav(alloc: Global, group: &str, artifact: &str, version: &str) -> Mem<Gav> {
    let group = Text::from_str(alloc, group)?;
    let artifact = Text::from_str(alloc, artifact)?;
    let version = Text::from_str(alloc, version)?;
    Ok(Gav {
        group,
        artifact,
        version,
    })
}

/// The name of a file, of valid names alone.
pub fn file_name(
    alloc: Global,
    gav: &Gav,
    classifier: &Text,
    extension: &Text,
) -> Mem<Option<FileName>> {
    let named = valid_group(gav.group.as_bytes())
        && valid_name(gav.artifact.as_bytes())
        && valid_version(gav.version.as_bytes())
        && (classifier.is_empty() || valid_name(classifier.as_bytes()))
        && valid_name(extension.as_bytes());
    if !named {
        return Ok(None);
    }
    Ok(Some(file_of(alloc, gav, classifier, extension)?))
}
