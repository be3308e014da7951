// Writing to a stream of the system.
ghost use Rattle.std.specs.Prelude.{◌<◌, ◌≤◌, length, IfOk};

use crate::fault::fault_of;
use mvn_outside::DeviceFault;
use std::io::{ErrorKind, Write};

/// One write to a stream: at least one byte where there is one, since a caller would wait for a stream that takes none. A call that a
/// signal cut off is made again.
pub(crate) fn write_some<W: Write>(out: &mut W, bytes: &[u8]) -> Result<usize, DeviceFault>
    ensures within { IfOk result (λ count. count ≤ length bytes.now) }
    ensures progress { IfOk result (λ count. 0 < length bytes.now → 0 < count) }
{
    for _ in 0..u64::MAX {
        match out.write(bytes) {
            Ok(count) => {
                if count > 0 || bytes.is_empty() {
                    return Ok(count);
                }
                return Err(DeviceFault::Failed);
            }
            Err(e) => if e.kind() != ErrorKind::Interrupted {
                return Err(fault_of(&e));
            },
        }
    }
    Err(DeviceFault::Failed)
}
