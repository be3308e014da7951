//! `MediationFault`: why a project's dependencies have no winners.

ghost use Rattle.std.specs.Prelude.{◌≡◌};

use mvn_base::Rule;
use mvn_shared::{OutOfMemory, Text};
use thiserror::Error;

/// Why a project's dependencies have no winners.
#[derive(Debug, Drop, Error)]
pub enum MediationFault {
    /// The project is refused, by a rule and the name that it is met at.
    #[error("the project breaks {rule} at {place}")]
    Refused { rule: Rule, place: Text },
    /// The look-up failed.
    #[error("the look-up failed")]
    Lookup,
    #[error("out of memory")]
    Memory,
}

impl From<OutOfMemory> for MediationFault {
    ghost use Rattle.mediation.specs.declared.fault.MediationFault.TheVariants.{Memory};

    ghost from_gives = { λ _ e. e ≡ Memory };

    fn from(_: OutOfMemory) -> Self {
        MediationFault::Memory
    }
}
