// How POMs are read from a tree.
use mvn_base::POM_LIMIT;
use mvn_outside::{ListFault, ReadFault, Tree};
use mvn_shared::{Bytes, List, Mem, Text};
use std::alloc::Global;

// More bytes than a POM may have.
fn too_many(alloc: Global) -> Mem<Bytes> {
    Ok(Bytes::of(vec![in alloc; b' '; 1 + POM_LIMIT as usize]?))
}

/// The bytes of a file; of one that is too large for a POM so many that it is refused for it.
pub(crate) fn pom_bytes<T: Tree>(
    tree: &mut T,
    alloc: Global,
    path: &Text,
) -> Result<Option<Bytes>, ReadFault> {
    match tree.read(path, POM_LIMIT) {
        Ok(found) => Ok(found),
        Err(ReadFault::TooLarge) => Ok(Some(too_many(alloc)?)),
        Err(fault) => Err(fault),
    }
}

/// All files below a folder, ascending.
pub(crate) fn all_files<T: Tree>(tree: &mut T, alloc: Global) -> Result<List<Text>, ListFault> {
    let root = Text::from_str(alloc, "")?;
    tree.list(&root)
}
