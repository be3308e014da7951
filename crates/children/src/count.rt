// Counting faults: each function hands its answer on, and raises the count where the answer is a fault.
ghost use Rattle.std.specs.Prelude.{◌≡◌, is_err};
ghost use Rattle.mvn_shared.specs.Cause.{HasCause, HasRisen};
ghost use Rattle.mvn_outside.specs.Faults.{device_failed};

use crate::Failed;
use mvn_outside::DeviceFault;
use std::io::{self, ErrorKind};

/// The count after one fault more.
pub(crate) fn raised(faults: u64) -> u64
    ensures { HasRisen faults result }
{
    faults.saturating_add(1)
}

/// Counts a fault, which may be want of memory.
pub(crate) fn counted<T: Drop>(
    faults: &mut u64,
    answer: Result<T, DeviceFault>,
) -> Result<T, DeviceFault>
    ensures answer { result ≡ answer }
    ensures cause { HasCause faults.old faults.new (device_failed result) }
{
    if let Err(DeviceFault::Failed) = &answer {
        *faults = raised(*faults);
    }
    answer
}

/// Counts a fault.
pub(crate) fn counted_failed<T: Drop>(
    faults: &mut u64,
    answer: Result<T, Failed>,
) -> Result<T, Failed>
    ensures answer { result ≡ answer }
    ensures cause { HasCause faults.old faults.new (is_err result) }
{
    if answer.is_err() {
        *faults = raised(*faults);
    }
    answer
}

/// An error of the system, as a fault.
pub(crate) fn fault_of(e: &io::Error) -> DeviceFault {
    match e.kind() {
        ErrorKind::OutOfMemory => DeviceFault::Memory,
        _ => DeviceFault::Failed,
    }
}
