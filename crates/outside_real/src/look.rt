// What stands at a path of the system.
use crate::reading_look::if_there;
use mvn_outside::DeviceFault;
use std::rt;

/// Whether a file stands at a path, links followed.
pub(crate) fn is_file<R: rt::Files>(rt: &R, path: &str) -> Result<bool, DeviceFault> {
    match if_there(rt.metadata(path))? {
        Some(metadata) => Ok(metadata.is_file()),
        None => Ok(false),
    }
}

/// Whether a folder stands at a path, links followed.
pub(crate) fn is_folder<R: rt::Files>(rt: &R, path: &str) -> Result<bool, DeviceFault> {
    match if_there(rt.metadata(path))? {
        Some(metadata) => Ok(metadata.is_dir()),
        None => Ok(false),
    }
}

/// Whether a file stands at a path itself, and no link to one.
pub(crate) fn is_no_link<R: rt::Files>(rt: &R, path: &str) -> Result<bool, DeviceFault> {
    match if_there(rt.symlink_metadata(path))? {
        Some(metadata) => Ok(metadata.is_file()),
        None => Ok(false),
    }
}
