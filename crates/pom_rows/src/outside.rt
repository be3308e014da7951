// The files that the rows know.
use goal_types::SourceFile;
use mvn_shared::{Bytes, List, Mem, Text};
use outside_mem::{Calls, MemTree};
use row_models::words;
use std::alloc::Global;

// An empty file at a path.
fn empty(alloc: Global, path: &Text) -> Mem<SourceFile> {
    let path = path.clone()?;
    let bytes = Bytes::of(Vec::new(alloc));
    Ok(SourceFile { path, bytes })
}

fn push_files(alloc: Global, files: &mut List<SourceFile>, paths: &[Text]) -> Mem<()> {
    for path in paths {
        files.push(empty(alloc, path)?)?;
    }
    Ok(())
}

fn files_at(alloc: Global, paths: &[Text]) -> Mem<List<SourceFile>> {
    let mut files = List::new(alloc);
    push_files(alloc, &mut files, paths)?;
    Ok(files)
}

// The files at these paths.
fn files(alloc: Global, paths: &str) -> Mem<List<SourceFile>> {
    let paths = words(alloc, paths)?;
    files_at(alloc, paths.as_slice())
}

// The numbers of the calls that fail.
fn failing(alloc: Global, fails: bool) -> Mem<List<u64>> {
    let mut failing = List::new(alloc);
    if fails {
        failing.push(0u64)?;
    }
    Ok(failing)
}

/// The files at these paths. The first call fails where that is wanted.
pub(crate) fn tree(alloc: Global, paths: &str, fails: bool) -> Mem<MemTree<Calls>> {
    let failing = failing(alloc, fails)?;
    let files = files(alloc, paths)?;
    MemTree::new(alloc, files, &failing)
}
