// The files of a staging folder. A process holds each of its own locked until it is published or removed, and the system ends a
// lock with the process that holds it: so what nobody holds was left by a process that has ended.
use crate::fault::{fault_of, is_absent};
use crate::look::is_no_link;
use mvn_outside::DeviceFault;
use std::fs::{DirEntry, File, OpenFile, OpenOptions, TryLockError};
use std::io::ErrorKind;
use std::os::unix::fs::MetadataExt;
use std::{fs, io, rt};

// What came of a lock.
#[derive(Clone, Copy)]
enum Lock {
    /// It is taken.
    Taken,
    /// Another process holds the file.
    Held,
    /// The file can't be locked: not every disk has locks.
    Unknown,
}

fn lock_of(answer: Result<(), TryLockError>) -> Lock {
    match answer {
        Ok(()) => Lock::Taken,
        Err(TryLockError::WouldBlock) => Lock::Held,
        Err(TryLockError::Error(_)) => Lock::Unknown,
    }
}

// Locks a new file; nothing where a sweep came first, which removes it.
fn held(file: File) -> Result<Option<File>, DeviceFault> {
    if let Lock::Held = lock_of(file.try_lock()) {
        return Ok(None);
    }
    match file.metadata() {
        Ok(metadata) => if metadata.nlink() == 0 {
            Ok(None)
        } else {
            Ok(Some(file))
        },
        Err(e) => Err(fault_of(&e)),
    }
}

/// A new empty file at a path, held by this process; nothing where the path is taken, or where a sweep took the file before it was
/// locked.
pub(crate) fn new_piece<R: rt::Files<File = File>>(
    rt: &R,
    path: &str,
) -> Result<Option<File>, DeviceFault> {
    match rt.open_file(OpenOptions::new().append(true).create_new(true), path) {
        Ok(file) => held(file),
        Err(e) => if e.kind() == ErrorKind::AlreadyExists {
            Ok(None)
        } else {
            Err(fault_of(&e))
        },
    }
}

/// Removes a file, if it is there.
pub(crate) fn remove_piece<R: rt::Files>(rt: &R, path: &str) -> Result<(), DeviceFault> {
    match rt.remove_file(path) {
        Ok(()) => Ok(()),
        Err(e) => if is_absent(&e) {
            Ok(())
        } else {
            Err(fault_of(&e))
        },
    }
}

// Passes over a file that is gone, or that this user may not open or remove.
fn unless_denied(answer: io::Result<()>) -> Result<(), DeviceFault> {
    match answer {
        Ok(()) => Ok(()),
        Err(e) => if is_absent(&e) || e.kind() == ErrorKind::PermissionDenied {
            Ok(())
        } else {
            Err(fault_of(&e))
        },
    }
}

// Removes the file at a path, unless a process holds it.
fn remove_left<R: rt::Files<File = File>>(rt: &R, path: &str) -> Result<(), DeviceFault> {
    if !is_no_link(rt, path)? {
        return Ok(());
    }
    let file = match rt.open_file(OpenOptions::new().read(true), path) {
        Ok(file) => file,
        Err(e) => return unless_denied(Err(e)),
    };
    match lock_of(file.try_lock_shared()) {
        Lock::Taken => unless_denied(rt.remove_file(path)),
        Lock::Held | Lock::Unknown => Ok(()),
    }
}

// Removes an entry of a staging folder, unless a process holds it.
fn remove_entry<R: rt::Files<File = File> + AllocGlobal + Clone + Drop>(
    rt: &R,
    entry: &io::Result<DirEntry<R>>,
) -> Result<(), DeviceFault> {
    match entry {
        Ok(entry) => remove_left(rt, entry.path().to_string_lossy()),
        Err(e) => if is_absent(e) {
            Ok(())
        } else {
            Err(fault_of(e))
        },
    }
}

/// Removes the files of a staging folder that no process holds; nothing where there is no folder. Folders, links and what this user
/// may not remove are left, and so is everything on a disk whose files can't be locked. Costs four calls for each file.
pub(crate) fn sweep_folder<R: rt::Files<File = File> + AllocGlobal + Clone + Drop>(
    rt: &R,
    folder: &str,
) -> Result<(), DeviceFault> {
    let entries = match fs::read_dir(rt, folder) {
        Ok(entries) => entries,
        Err(e) => return if e.kind() == ErrorKind::NotFound {
            Ok(())
        } else {
            Err(fault_of(&e))
        },
    };
    for entry in entries {
        remove_entry(rt, &entry)?;
    }
    Ok(())
}
