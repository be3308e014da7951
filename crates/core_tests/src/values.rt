// Lists, shared values and maps of files (`mvn_shared`).
use mvn_shared::{Bytes, FileMap, List, Mem, Shared, Text};
use std::alloc::Global;
use std::test::Fail;

#[test]
fn a_list_is_a_vec(rt: HostRuntime) -> Result<(), Fail> {
    let list = List::of(Vec::from_slice(rt.alloc(), &[3u32, 5])?);
    assert!(rt; list.emptied()?.is_empty());
    Ok(())
}

#[test]
fn a_value_is_shared(rt: HostRuntime) -> Result<(), Fail> {
    let shared = Shared::new(rt.alloc(), 3u32)?;
    assert!(rt; *shared.share()?.value() == 3);
    Ok(())
}

// A file at each of three paths.
fn files(alloc: Global) -> Mem<FileMap> {
    let mut files = FileMap::new(alloc);
    for path in ["src/b", "src-x/c", "src/a/d"] {
        let path = Text::from_str(alloc, path)?;
        files.insert(path, Bytes::of(Vec::new(alloc)))?;
    }
    Ok(files)
}

// Whether these are the names of the two files below `src`.
fn are_below(names: &[Text]) -> bool {
    match names {
        [d, b] => d.as_str() == "src/a/d" && b.as_str() == "src/b",
        _ => false,
    }
}

// Whether those two lie below a folder, which is there and is no file.
fn lie_below(alloc: Global, files: &FileMap, folder: &Text) -> Mem<bool> {
    let names = files.names_below(alloc, folder)?;
    let below = are_below(names.as_slice());
    Ok(below && files.is_there(folder) && files.get(folder).is_none())
}

// How many files there are, and how many names.
fn counts(alloc: Global, files: &FileMap) -> Mem<(usize, usize)> {
    Ok((files.len(), files.names(alloc)?.len()))
}

#[test]
fn files_lie_below_their_folders(rt: HostRuntime) -> Result<(), Fail> {
    let files = files(rt.alloc())?;
    let folder = Text::from_str(rt.alloc(), "src")?;
    assert!(rt; lie_below(rt.alloc(), &files, &folder)?);
    assert_eq!(rt; counts(rt.alloc(), &files)?, (3, 3));
    Ok(())
}
