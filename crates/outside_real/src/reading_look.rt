// What stands at a path of the system, as its answer says it: nothing where the path leads nowhere.
ghost use Rattle.std.specs.Prelude.{◌≡◌};
ghost use Rattle.outside_real.specs.Look.{if_there};

use crate::fault::{fault_of, is_absent};
use mvn_outside::DeviceFault;
use std::fs::{Metadata, ReadDir};
use std::{fs, io, rt};

/// What an answer of the system says of a path: nothing stands there where an error says that it leads nowhere. Any other error is a
/// fault. Costs nothing. Project rule.
pub fn if_there(answer: io::Result<Metadata>) -> Result<Option<Metadata>, DeviceFault>
    ensures { result ≡ if_there answer }
{
    match answer {
        Ok(metadata) => Ok(Some(metadata)),
        Err(e) => if is_absent(&e) {
            Ok(None)
        } else {
            Err(fault_of(&e))
        },
    }
}

/// What stands at a path, links followed; nothing where it leads nowhere.
pub(crate) fn found<R: rt::Files>(rt: &R, path: &str) -> Result<Option<Metadata>, DeviceFault> {
    if_there(rt.metadata(path))
}

/// Whether a file stands at a path, links followed.
pub(crate) fn is_file<R: rt::Files>(rt: &R, path: &str) -> Result<bool, DeviceFault> {
    match found(rt, path)? {
        Some(metadata) => Ok(metadata.is_file()),
        None => Ok(false),
    }
}

/// Whether a folder stands at a path, links followed.
pub(crate) fn is_folder<R: rt::Files>(rt: &R, path: &str) -> Result<bool, DeviceFault> {
    match found(rt, path)? {
        Some(metadata) => Ok(metadata.is_dir()),
        None => Ok(false),
    }
}

/// The entries of a folder.
pub(crate) fn entries_of<R: rt::Files + AllocGlobal + Clone + Drop>(
    rt: &R,
    path: &str,
) -> Result<ReadDir<R>, DeviceFault> {
    match fs::read_dir(rt, path) {
        Ok(entries) => Ok(entries),
        Err(e) => Err(fault_of(&e)),
    }
}
