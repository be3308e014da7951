//! `BuildFault`: why a POM has no effective model.

ghost use Rattle.std.specs.Prelude.{◌≡◌};

use mvn_base::{ModelError, Refusal};
use mvn_outside::DeviceFault;
use mvn_shared::OutOfMemory;
use std::alloc::AllocError;
use thiserror::Error;

/// Why a POM has no effective model: a rule isn't met, the source has no such POM, the source failed, or memory ran out.
#[derive(Debug, Drop, Error)]
pub enum BuildFault {
    #[error("{0}")]
    Refused(Refusal),
    /// The source has no such POM.
    #[error("the source has no such POM")]
    Absent,
    /// The source failed; its count of faults rose.
    #[error("the source failed")]
    Source,
    #[error("out of memory")]
    Memory,
}

impl From<OutOfMemory> for BuildFault {
    ghost use Rattle.pom_source.specs.declared.fault.BuildFault.TheVariants.{Memory};

    ghost from_gives = { λ _ e. e ≡ Memory };

    fn from(_: OutOfMemory) -> Self {
        BuildFault::Memory
    }
}

impl From<AllocError> for BuildFault {
    ghost use Rattle.pom_source.specs.declared.fault.BuildFault.TheVariants.{Memory};

    ghost from_gives = { λ _ e. e ≡ Memory };

    fn from(_: AllocError) -> Self {
        BuildFault::Memory
    }
}

impl From<DeviceFault> for BuildFault {
    ghost use Rattle.pom_source.specs.Answers.{device_fault};

    ghost from_gives = { λ fault e. e ≡ device_fault fault };

    fn from(fault: DeviceFault) -> Self {
        match fault {
            DeviceFault::Failed => BuildFault::Source,
            DeviceFault::Memory => BuildFault::Memory,
        }
    }
}

impl From<ModelError> for BuildFault {
    ghost use Rattle.pom_source.specs.Answers.{model_fault};

    ghost from_gives = { λ error e. e ≡ model_fault error };

    fn from(error: ModelError) -> Self {
        match error {
            ModelError::Refused(refusal) => BuildFault::Refused(refusal),
            ModelError::Memory => BuildFault::Memory,
        }
    }
}
