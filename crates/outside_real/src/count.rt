// Counting faults: each function hands its answer on, and raises the count where the answer is a fault.
ghost use Rattle.std.specs.Prelude.{◌≡◌};
ghost use Rattle.mvn_shared.specs.Cause.{HasCause, HasRisen};
ghost use Rattle.mvn_outside.specs.Faults.{device_failed, read_failed, list_failed};

use mvn_outside::{DeviceFault, ListFault, ReadFault};

// The count after one fault more.
fn raised(faults: u64) -> u64
    ensures { HasRisen faults result }
{
    faults.saturating_add(1)
}

/// Counts a fault of a device.
pub fn counted<T: Drop>(faults: &mut u64, answer: Result<T, DeviceFault>) -> Result<T, DeviceFault>
    ensures answer { result ≡ answer }
    ensures cause { HasCause faults.old faults.new (device_failed result) }
{
    if let Err(DeviceFault::Failed) = &answer {
        *faults = raised(*faults);
    }
    answer
}

/// Counts a fault of a read.
pub fn counted_read<T: Drop>(faults: &mut u64, answer: Result<T, ReadFault>) -> Result<T, ReadFault>
    ensures answer { result ≡ answer }
    ensures cause { HasCause faults.old faults.new (read_failed result) }
{
    if let Err(ReadFault::Failed) = &answer {
        *faults = raised(*faults);
    }
    answer
}

/// Counts a fault of a listing.
pub fn counted_list<T: Drop>(faults: &mut u64, answer: Result<T, ListFault>) -> Result<T, ListFault>
    ensures answer { result ≡ answer }
    ensures cause { HasCause faults.old faults.new (list_failed result) }
{
    if let Err(ListFault::Failed) = &answer {
        *faults = raised(*faults);
    }
    answer
}
