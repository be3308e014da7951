// What stands under the names of a repository.
use mvn_base::FileName;
use mvn_outside::{ReadFault, Shelf};
use mvn_shared::{Bytes, List, Mem, OutOfMemory};
use outside_mem::{Failures, MemShelf};
use std::alloc::Global;

// What stands under a name; a call that fails is made again, since a call fails once.
fn file<F: Failures>(shelf: &mut MemShelf<F>, name: &FileName) -> Mem<Option<Bytes>> {
    for _ in 0..3u32 {
        match shelf.read(name, u64::MAX) {
            Ok(found) => return Ok(found),
            Err(ReadFault::Failed) => {}
            Err(_) => return Err(OutOfMemory),
        }
    }
    Err(OutOfMemory)
}

/// Adds the file under each of these names, in their order.
pub fn put_files_under<F: Failures>(
    shelf: &mut MemShelf<F>,
    names: &[FileName],
    files: &mut List<Option<Bytes>>,
) -> Mem<()> {
    for name in names {
        files.push(file(shelf, name)?)?;
    }
    Ok(())
}

/// The file under each of these names, in their order.
pub fn files_under<F: Failures>(
    alloc: Global,
    shelf: &mut MemShelf<F>,
    names: &[FileName],
) -> Mem<List<Option<Bytes>>> {
    let mut files = List::new(alloc);
    put_files_under(shelf, names, &mut files)?;
    Ok(files)
}

/// Whether at this place stands the same in both.
pub fn same_at(one: &[Option<Bytes>], other: &[Option<Bytes>], at: usize) -> bool {
    match (one.get(at), other.get(at)) {
        (Some(one), Some(other)) => one == other,
        _ => false,
    }
}
