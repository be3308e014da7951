// Tests of objects in memory (`outside_mem`), and of calls over any object (`mvn_outside`).
use goal_types::SourceFile;
use mvn_base::{FileName, Gav, file_of, valid_group, valid_name, valid_version};
use mvn_outside::{Area, Files, Remote, Shelf, Sink, Tree, put, settle, stage, sweep, write_all};
use mvn_shared::{Bytes, List, Mem, Text};
use outside_mem::{Calls, Failures, MemArea, MemRemote, MemShelf, MemSink, MemTree, NoFailures};
use std::alloc::Global;
use std::test::Fail;

// The first call alone.
fn first(alloc: Global) -> Mem<List<u64>> {
    Ok(List::of(Vec::from_slice(alloc, &[0u64])?))
}

#[test]
fn the_calls_of_a_list_fail(rt: HostRuntime) -> Result<(), Fail> {
    let mut calls = Calls::new(rt.alloc(), &first(rt.alloc())?)?;
    assert!(rt; calls.count_call() && !calls.next_fails());
    assert_eq!(rt; calls.faults(), 1);
    Ok(())
}

/// A tree with the file a/b.
pub(crate) fn tree(alloc: Global) -> Mem<MemTree<NoFailures>> {
    let path = Text::from_str(alloc, "a/b")?;
    let bytes = Bytes::from_slice(alloc, b"x")?;
    let mut files = List::new(alloc);
    files.push(SourceFile { path, bytes })?;
    MemTree::without_failures(alloc, files)
}

// Whether the folder is there, is no file, and has one entry.
fn has_one_entry<T: Tree>(tree: &mut T, folder: &Text) -> bool {
    matches!(tree.has(folder), Ok(true))
        && matches!(tree.read(folder, 1), Ok(None))
        && matches!(tree.list(folder), Ok(list) if list.len() == 1)
}

#[test]
fn a_tree_without_failures_answers(rt: HostRuntime) -> Result<(), Fail> {
    let folder = Text::from_str(rt.alloc(), "a")?;
    let mut tree = tree(rt.alloc())?;
    assert!(rt; has_one_entry(&mut tree, &folder));
    Ok(())
}

#[test]
fn a_sink_keeps_what_is_written(rt: HostRuntime) -> Result<(), Fail> {
    let mut sink = MemSink::without_failures(rt.alloc());
    assert!(rt; write_all(&mut sink, b"one").is_ok());
    assert!(rt; sink.bytes() == b"one".as_slice());
    Ok(())
}

// a:a:a
fn gav(alloc: Global) -> Mem<Gav> {
    let group = Text::from_str(alloc, "a")?;
    let artifact = group.clone()?;
    let version = group.clone()?;
    Ok(Gav {
        group,
        artifact,
        version,
    })
}

// The name of a file of these coordinates, of valid names alone.
fn name_of(alloc: Global, gav: &Gav, none: &Text) -> Mem<Option<FileName>> {
    let named = valid_group(gav.group.as_bytes())
        && valid_name(gav.artifact.as_bytes())
        && valid_version(gav.version.as_bytes())
        && none.is_empty();
    if !named {
        return Ok(None);
    }
    Ok(Some(file_of(alloc, gav, none, &gav.artifact)?))
}

// The name of the file a of a:a:a, if it has one.
fn found_name(alloc: Global) -> Mem<Option<FileName>> {
    let gav = gav(alloc)?;
    name_of(alloc, &gav, &Text::of(String::new(alloc)))
}

// The name of the file a of a:a:a, or a failure.
fn name(alloc: Global) -> Result<FileName, Fail> {
    match found_name(alloc)? {
        Some(name) => Ok(name),
        None => Err(Fail::new("no name")),
    }
}

// Whether the repository takes three bytes under the name, and settles; the area is swept.
fn takes(
    shelf: &mut MemShelf<NoFailures>,
    area: &mut MemArea<NoFailures>,
    name: &FileName,
) -> bool {
    let Ok(piece) = stage(area, b"one") else {
        return false;
    };
    if put(shelf, area, piece, name).is_err() {
        return false;
    }
    settle(shelf).is_ok() && sweep(area).is_ok()
}

// What the repository and the area have then: pieces, names, and whether three bytes are read.
fn left_of(
    shelf: &mut MemShelf<NoFailures>,
    area: &MemArea<NoFailures>,
    name: &FileName,
) -> (u64, u64, bool) {
    let is_read = matches!(shelf.read(name, 3), Ok(Some(_)));
    (area.pieces(), shelf.names(), is_read)
}

// Whether a repository that takes three bytes has them then, and its area no piece.
fn keeps(
    shelf: &mut MemShelf<NoFailures>,
    area: &mut MemArea<NoFailures>,
    name: &FileName,
) -> bool {
    takes(shelf, area, name) && left_of(shelf, area, name) == (0, 1, true)
}

#[test]
fn a_repository_keeps_what_is_put(rt: HostRuntime) -> Result<(), Fail> {
    let name = name(rt.alloc())?;
    let mut area = MemArea::without_failures(rt.alloc());
    let mut shelf = MemShelf::without_failures(rt.alloc(), List::new(rt.alloc()))?;
    assert!(rt; keeps(&mut shelf, &mut area, &name));
    Ok(())
}

// Whether the first fetch fails, and the second finds nothing.
fn fails_once(remote: &mut MemRemote<Calls>, name: &FileName) -> bool {
    remote.fetch(name, 3).is_err() && matches!(remote.fetch(name, 3), Ok(None))
}

// A remote without files, whose first call fails.
fn failing_remote(alloc: Global) -> Mem<MemRemote<Calls>> {
    let first = first(alloc)?;
    MemRemote::new(alloc, List::new(alloc), &first)
}

#[test]
fn a_remote_fails_where_it_is_told_to(rt: HostRuntime) -> Result<(), Fail> {
    let name = name(rt.alloc())?;
    let mut remote = failing_remote(rt.alloc())?;
    assert!(rt; fails_once(&mut remote, &name));
    Ok(())
}
