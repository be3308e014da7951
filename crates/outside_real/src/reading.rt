// Reading a file of the system, up to a limit.
ghost use Rattle.std.specs.Prelude.{◌≤◌, IfOk, IfSome, length, vec_len};

use crate::fault::{fault_of, is_absent};
use mvn_outside::ReadFault;
use mvn_shared::Bytes;
use std::alloc::Global;
use std::fs::OpenOptions;
use std::io::{ErrorKind, Read};
use std::rt;

/// How many bytes are asked of the system at a time, at most.
const PART: usize = 65536;

// Room for the bytes that a file is said to have and one more, so that its end shows; never more than a part.
fn room_for(alloc: Global, len: u64) -> Result<Vec<u8>, ReadFault> {
    let size = if len < PART as u64 {
        len as usize + 1
    } else {
        PART
    };
    vec![in alloc; 0u8; size].map_err(|_| ReadFault::Memory)
}

// The next bytes, none at the end. A call that a signal cut off is made again.
fn read_some<F: Read>(file: &mut F, part: &mut [u8]) -> Result<usize, ReadFault>
    ensures { IfOk result (λ count. count ≤ length part.new) }
{
    for _ in 0..u64::MAX {
        match file.read(part) {
            Ok(count) => return Ok(count),
            Err(e) => {
                if e.kind() != ErrorKind::Interrupted {
                    return Err(ReadFault::from(fault_of(&e)));
                }
            }
        }
    }
    Err(ReadFault::Failed)
}

// All that is left to read of a file that is said to have so many bytes, up to the limit.
fn read_rest<F: Read>(
    alloc: Global,
    file: &mut F,
    len: u64,
    limit: u64,
) -> Result<Vec<u8>, ReadFault>
    ensures { IfOk result (λ bytes. vec_len bytes ≤ limit) }
{
    let mut bytes = Vec::new(alloc);
    let mut part = room_for(alloc, len)?;
    for _ in 0..u64::MAX {
        let count = read_some(file, &mut part)?;
        if count == 0 {
            return Ok(bytes);
        }
        if count as u64 > limit - bytes.len() as u64 {
            return Err(ReadFault::TooLarge);
        }
        if bytes.extend_from_slice(&part[..count]).is_err() {
            return Err(ReadFault::Memory);
        }
    }
    Err(ReadFault::Failed)
}

/// The bytes of the file at a path of the system, up to a limit; nothing where there is no file. A folder is none.
pub fn read_file<R: rt::Files>(
    rt: &R,
    alloc: Global,
    path: &str,
    limit: u64,
) -> Result<Option<Bytes>, ReadFault>
    ensures { IfOk result (λ found. IfSome found (λ bytes. length bytes ≤ limit)) }
{
    let len = match rt.metadata(path) {
        Ok(metadata) => {
            if !metadata.is_file() {
                return Ok(None);
            }
            metadata.len()
        }
        Err(e) => return if is_absent(&e) {
            Ok(None)
        } else {
            Err(ReadFault::from(fault_of(&e)))
        },
    };
    if len > limit {
        return Err(ReadFault::TooLarge);
    }
    let mut file = match rt.open_file(OpenOptions::new().read(true), path) {
        Ok(file) => file,
        Err(e) => return if is_absent(&e) {
            Ok(None)
        } else {
            Err(ReadFault::from(fault_of(&e)))
        },
    };
    let bytes = read_rest(alloc, &mut file, len, limit)?;
    Ok(Some(Bytes::of(bytes)))
}
