//! `FillFault`: why a text isn't filled.

ghost use Rattle.interpolation.specs.Tables.{IsRefusal};

use mvn_base::Rule;
use mvn_shared::{OutOfMemory, Text};
use std::alloc::{AllocError, Global};
use thiserror::Error;

/// Why a text isn't filled: a rule, with the name or the element that it is about, or memory ran out.
#[derive(Debug, Drop, Error)]
pub enum FillFault {
    #[error("the text breaks {rule} at {place}")]
    Refused { rule: Rule, place: Text },
    #[error("out of memory")]
    Memory,
}

impl From<OutOfMemory> for FillFault {
    ghost use Rattle.std.specs.Prelude.{◌≡◌};
    ghost use Rattle.interpolation.specs.declared.fault.FillFault.TheVariants.{Memory};

    ghost from_gives = { λ _ e. e ≡ Memory };

    fn from(_: OutOfMemory) -> Self {
        FillFault::Memory
    }
}

impl From<AllocError> for FillFault {
    ghost use Rattle.std.specs.Prelude.{◌≡◌};
    ghost use Rattle.interpolation.specs.declared.fault.FillFault.TheVariants.{Memory};

    ghost from_gives = { λ _ e. e ≡ Memory };

    fn from(_: AllocError) -> Self {
        FillFault::Memory
    }
}

/// A refusal by a rule.
pub(crate) fn refused(alloc: Global, rule: Rule, place: &str) -> FillFault
    ensures { IsRefusal rule place.now result }
{
    match Text::from_str(alloc, place) {
        Ok(place) => FillFault::Refused { rule, place },
        Err(_) => FillFault::Memory,
    }
}
