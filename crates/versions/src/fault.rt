//! `RequirementError`: why a text is no version requirement.

ghost use Rattle.std.specs.Prelude.{◌≡◌};

use mvn_shared::OutOfMemory;
use thiserror::Error;

/// Why a text is no requirement.
#[derive(Clone, Copy, Debug, Error)]
pub enum RequirementError {
    /// The first byte with which no requirement goes on, or the closing bracket of bounds that cross.
    #[error("no version requirement from byte {place}")]
    BadRange { place: u64 },
    #[error("out of memory")]
    Memory,
}

impl From<OutOfMemory> for RequirementError {
    ghost use Rattle.versions.specs.declared.fault.RequirementError.TheVariants.{Memory};

    ghost from_gives = { λ _ e. e ≡ Memory };

    fn from(_: OutOfMemory) -> Self {
        RequirementError::Memory
    }
}
