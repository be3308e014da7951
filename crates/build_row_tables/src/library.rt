// The files of the library x:y:1.
use mvn_base::{FileName, Gav, file_of, valid_group, valid_name, valid_version};
use mvn_shared::{Bytes, List, Mem, Text};
use outside_mem::MemFile;
use std::alloc::Global;

/// A file of the library: its extension, and its text.
pub(crate) type Part = (&'static str, &'static str);

// The coordinates of the library.
fn gav(alloc: Global) -> Mem<Gav> {
    let group = Text::from_str(alloc, "x")?;
    let artifact = Text::from_str(alloc, "y")?;
    let version = Text::from_str(alloc, "1")?;
    Ok(Gav {
        group,
        artifact,
        version,
    })
}

// The name of a file of coordinates with this extension, if it has one.
fn file_name(alloc: Global, gav: &Gav, extension: &str) -> Mem<Option<FileName>> {
    let none = Text::from_str(alloc, "")?;
    let extension = Text::from_str(alloc, extension)?;
    let named = valid_group(gav.group.as_bytes())
        && valid_name(gav.artifact.as_bytes())
        && valid_version(gav.version.as_bytes())
        && none.is_empty()
        && valid_name(extension.as_bytes());
    if !named {
        return Ok(None);
    }
    Ok(Some(file_of(alloc, gav, &none, &extension)?))
}

// One more file of the library.
fn put_part(alloc: Global, files: &mut List<MemFile>, part: &Part) -> Mem<()> {
    let gav = gav(alloc)?;
    if let Some(name) = file_name(alloc, &gav, part.0)? {
        let bytes = Bytes::from_slice(alloc, part.1.as_bytes())?;
        files.push(MemFile { name, bytes })?;
    }
    Ok(())
}

/// These files of the library.
pub(crate) fn files_of(alloc: Global, parts: &[Part]) -> Mem<List<MemFile>> {
    let mut files = List::new(alloc);
    for part in parts {
        put_part(alloc, &mut files, part)?;
    }
    Ok(files)
}
