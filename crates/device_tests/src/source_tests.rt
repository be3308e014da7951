// Tests of the sources of a project (`sources`).
use crate::memory::tree;
use mvn_outside::Tree;
use mvn_shared::{Mem, Text};
use sources::project_sources;
use std::alloc::Global;
use std::test::Fail;

// How many sources are below the folder `a`.
fn count<T: Tree>(alloc: Global, tree: &mut T) -> Mem<Option<usize>> {
    let folders = [Text::from_str(alloc, "a")?];
    match project_sources(alloc, tree, &folders) {
        Ok(sources) => Ok(Some(sources.len())),
        Err(_) => Ok(None),
    }
}

#[test]
fn the_sources_below_a_folder_are_read(rt: HostRuntime) -> Result<(), Fail> {
    let mut tree = tree(rt.alloc())?;
    let count = count(rt.alloc(), &mut tree)?;
    assert_eq!(rt; count.unwrap_or(0), 1);
    Ok(())
}
