//! `ModelError`: why a POM has no model, which is a refusal or want of memory.

ghost use Rattle.std.specs.Prelude.{◌≡◌};

use crate::refusal::Refusal;
use mvn_shared::OutOfMemory;
use thiserror::Error;

/// Why a POM has no model: it is refused, or memory ran out.
#[derive(Debug, Drop, Error)]
pub enum ModelError {
    #[error("{0}")]
    Refused(Refusal),
    #[error("out of memory")]
    Memory,
}

impl From<OutOfMemory> for ModelError {
    ghost use Rattle.mvn_base.specs.declared.fault.ModelError.TheVariants.{Memory};

    ghost from_gives = { λ _ e. e ≡ Memory };

    fn from(_: OutOfMemory) -> Self {
        ModelError::Memory
    }
}
