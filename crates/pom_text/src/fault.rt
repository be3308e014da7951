//! `TextFault`: why bytes are no POM text, with the rule and the byte.

use mvn_base::Rule;
use mvn_shared::OutOfMemory;
use thiserror::Error;

/// Why bytes are no POM text: the rule that isn't met, and the byte at which that shows, from 0. Own rules.
#[derive(Clone, Copy, Debug, PartialEq, Eq, Error)]
pub enum TextFault {
    #[error("{rule} at byte {place}")]
    Refused { rule: Rule, place: u64 },
    #[error("out of memory")]
    Memory,
}

impl From<OutOfMemory> for TextFault {
    ghost use Rattle.std.specs.Prelude.{◌≡◌};
    ghost use Rattle.pom_text.specs.declared.fault.TextFault.TheVariants.{Memory};

    ghost from_gives = { λ _ e. e ≡ Memory };

    fn from(_: OutOfMemory) -> Self {
        TextFault::Memory
    }
}
