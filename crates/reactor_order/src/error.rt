//! Why modules have no order: a cycle, or want of memory.

use mvn_shared::{List, OutOfMemory};
use std::fmt;
use thiserror::Error;

/// Modules of which each has the next as an upstream, and the last the first.
#[derive(Drop)]
pub struct Cycle {
    pub list: List<u32>,
}

impl fmt::Debug for Cycle {
    fn fmt<W: fmt::Write>(&self, f: &mut fmt::Formatter<W>) -> fmt::Result {
        let length = self.list.len();
        write!(f, "Cycle of {length}")
    }
}

/// Why modules have no order.
#[derive(Debug, Drop, Error)]
pub enum OrderError {
    #[error("modules depend on one another in a cycle")]
    Cycle(Cycle),
    #[error("out of memory")]
    Memory,
}

impl From<OutOfMemory> for OrderError {
    ghost use Rattle.std.specs.Prelude.{◌≡◌};
    ghost use Rattle.reactor_order.specs.declared.error.OrderError.TheVariants.{Memory};

    ghost from_gives = { λ _ e. e ≡ Memory };

    fn from(_: OutOfMemory) -> Self {
        OrderError::Memory
    }
}
