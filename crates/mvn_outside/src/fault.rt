//! Why a device gave no answer, a file wasn't read or names weren't listed.

use mvn_shared::OutOfMemory;
use thiserror::Error;

/// Why a device gave no answer: it failed, or memory ran out. A device is any object outside: the project's folder, the
/// repository, a staging area, the output, and what runs the goals.
#[derive(Clone, Copy, Debug, Error)]
pub enum DeviceFault {
    #[error("the device failed")]
    Failed,
    #[error("out of memory")]
    Memory,
}

/// Why a file wasn't read: the device failed, the file has more bytes than the caller takes, or memory ran out.
#[derive(Clone, Copy, Debug, Error)]
pub enum ReadFault {
    #[error("the device failed")]
    Failed,
    #[error("the file is too large")]
    TooLarge,
    #[error("out of memory")]
    Memory,
}

/// Why names weren't listed: the device failed, there are more than the caller takes, or memory ran out.
#[derive(Clone, Copy, Debug, Error)]
pub enum ListFault {
    #[error("the device failed")]
    Failed,
    #[error("there are too many names")]
    TooMany,
    #[error("out of memory")]
    Memory,
}

impl From<OutOfMemory> for DeviceFault {
    ghost use Rattle.std.specs.Prelude.{◌≡◌};
    ghost use Rattle.mvn_outside.specs.declared.fault.DeviceFault.TheVariants.{Memory};

    ghost from_gives = { λ _ e. e ≡ Memory };

    fn from(_: OutOfMemory) -> Self {
        DeviceFault::Memory
    }
}

impl From<OutOfMemory> for ReadFault {
    ghost use Rattle.std.specs.Prelude.{◌≡◌};
    ghost use Rattle.mvn_outside.specs.declared.fault.ReadFault.TheVariants.{Memory};

    ghost from_gives = { λ _ e. e ≡ Memory };

    fn from(_: OutOfMemory) -> Self {
        ReadFault::Memory
    }
}

impl From<OutOfMemory> for ListFault {
    ghost use Rattle.std.specs.Prelude.{◌≡◌};
    ghost use Rattle.mvn_outside.specs.declared.fault.ListFault.TheVariants.{Memory};

    ghost from_gives = { λ _ e. e ≡ Memory };

    fn from(_: OutOfMemory) -> Self {
        ListFault::Memory
    }
}

impl From<DeviceFault> for ReadFault {
    ghost use Rattle.std.specs.Prelude.{◌≡◌};
    ghost use Rattle.mvn_outside.specs.Faults.{read_fault};

    ghost from_gives = { λ fault e. e ≡ read_fault fault };

    fn from(fault: DeviceFault) -> Self {
        match fault {
            DeviceFault::Failed => ReadFault::Failed,
            DeviceFault::Memory => ReadFault::Memory,
        }
    }
}

impl From<DeviceFault> for ListFault {
    ghost use Rattle.std.specs.Prelude.{◌≡◌};
    ghost use Rattle.mvn_outside.specs.Faults.{list_fault};

    ghost from_gives = { λ fault e. e ≡ list_fault fault };

    fn from(fault: DeviceFault) -> Self {
        match fault {
            DeviceFault::Failed => ListFault::Failed,
            DeviceFault::Memory => ListFault::Memory,
        }
    }
}
