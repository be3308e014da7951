// Reading from and writing to a child's pipes.
ghost use Rattle.std.specs.Prelude.{◌≤◌, ◌<◌, length, IfOk};

use crate::Failed;
use crate::count::fault_of;
use libc::net::{POLLIN, POLLOUT, poll};
use libc::types::pollfd;
use mvn_outside::DeviceFault;
use std::io::{ErrorKind, Read, Write};

/// How often the system is asked again where a signal cut it off.
const TRIES: usize = 1024;

/// How many bytes a pipe takes at once that is said to be ready, without a wait. POSIX, `PIPE_BUF`, as Linux has it.
const WHOLE: usize = 4096;

/// Which of a child's two pipes can be served without a wait.
#[derive(Clone, Copy)]
pub(crate) struct Ready {
    /// Its input takes bytes, or nobody reads it.
    pub input: bool,
    /// Its output has bytes, or has ended.
    pub output: bool,
}

/// Waits until one of the two can be served. Descriptors below 0 aren't looked at.
pub(crate) fn wait_for_either(input: i32, output: i32) -> Result<Ready, Failed> {
    for _ in 0..TRIES {
        let mut asked = [
            pollfd {
                fd: input,
                events: POLLOUT,
                revents: 0,
            },
            pollfd {
                fd: output,
                events: POLLIN,
                revents: 0,
            },
        ];
        if poll(&mut asked, -1) >= 0 {
            return Ok(Ready {
                input: asked[0].revents != 0,
                output: asked[1].revents != 0,
            });
        }
    }
    Err(Failed)
}

/// The next bytes of a stream, none at its end. It waits for them, and reads again where a signal cut it off.
pub(crate) fn read_some<F: Read>(file: &mut F, into: &mut [u8]) -> Result<usize, Failed>
    ensures { IfOk result (λ count. count ≤ length into.new) }
{
    for _ in 0..TRIES {
        match file.read(into) {
            Ok(count) => return Ok(count),
            Err(e) => {
                if e.kind() != ErrorKind::Interrupted {
                    return Err(Failed);
                }
            }
        }
    }
    Err(Failed)
}

/// Writes to a stream as many bytes as it takes at once, at least one where there is one. What nobody will read any more
/// counts as taken.
pub(crate) fn write_some<F: Write>(file: &mut F, bytes: &[u8]) -> Result<usize, DeviceFault>
    ensures within { IfOk result (λ count. count ≤ length bytes.now) }
    ensures progress { IfOk result (λ count. 0 < length bytes.now → 0 < count) }
{
    let part = &bytes[..bytes.len().min(WHOLE)];
    for _ in 0..TRIES {
        match file.write(part) {
            Ok(count) => {
                if count > 0 || bytes.is_empty() {
                    return Ok(count);
                }
                return Err(DeviceFault::Failed);
            }
            Err(e) => match e.kind() {
                ErrorKind::Interrupted => {}
                ErrorKind::BrokenPipe => return Ok(bytes.len()),
                _ => return Err(fault_of(&e)),
            },
        }
    }
    Err(DeviceFault::Failed)
}
