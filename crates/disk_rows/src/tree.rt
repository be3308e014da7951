// Rows about the files of a tree.
use crate::told_of_file;
use mvn_outside::{Files, ListFault, Tree};
use mvn_shared::{List, Mem, Text};
use outside_real::RealTree;
use row_fields::word;
use std::alloc::Global;

fn has<T: Files>(alloc: Global, tree: &mut T, path: &Text) -> Mem<String> {
    match tree.has(path) {
        Ok(true) => word(alloc, "there"),
        Ok(false) => word(alloc, "not there"),
        Err(_) => word(alloc, "a fault"),
    }
}

fn push_names(shown: &mut String, names: &[Text]) -> Mem<()> {
    for name in names {
        shown.push_str(" ")?;
        shown.push_str(name.as_str())?;
    }
    Ok(())
}

// The names of files; none where they weren't listed.
fn listed(alloc: Global, found: &Result<List<Text>, ListFault>) -> Mem<String> {
    let mut shown = String::from_str(alloc, "files:")?;
    if let Ok(names) = found {
        push_names(&mut shown, names.as_slice())?;
    }
    Ok(shown)
}

// What is told of a row about the file or the folder at a path.
fn told_at<T: Tree>(alloc: Global, tree: &mut T, kind: &str, path: &Text) -> Mem<String> {
    match kind {
        "has" => has(alloc, tree, path),
        "list" => listed(alloc, &tree.list(path)),
        _ => told_of_file(alloc, &tree.read(path, 5)),
    }
}

fn told_of_path(rt: &HostRuntime, kind: &str, path: &Text) -> Mem<String> {
    let root = Text::from_str(rt.alloc(), ".")?;
    let mut tree = RealTree::new(rt, root);
    told_at(rt.alloc(), &mut tree, kind, path)
}

/// What is told of a row.
pub(crate) fn told(rt: &HostRuntime, kind: &str, path: &str) -> Mem<String> {
    let path = Text::from_str(rt.alloc(), path)?;
    told_of_path(rt, kind, &path)
}
