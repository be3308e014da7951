// What an error of the system is told as.
ghost use Rattle.std.specs.Prelude.{◌≡◌};
ghost use Rattle.std.specs.IoError.{error_kind};
ghost use Rattle.outside_real.specs.Faults.{fault_of, is_absent};

use mvn_outside::DeviceFault;
use std::io::{self, ErrorKind};

/// An error of the system, as a fault.
pub fn fault_of(e: &io::Error) -> DeviceFault
    ensures { result ≡ fault_of (error_kind e.now) }
{
    match e.kind() {
        ErrorKind::OutOfMemory => DeviceFault::Memory,
        _ => DeviceFault::Failed,
    }
}

/// Whether an error says that no such file is there.
pub fn is_absent(e: &io::Error) -> bool
    ensures { result ≡ is_absent (error_kind e.now) }
{
    matches!(
        e.kind(),
        ErrorKind::NotFound
            | ErrorKind::NotADirectory
            | ErrorKind::InvalidFilename
            | ErrorKind::FilesystemLoop
    )
}
