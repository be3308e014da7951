//! Why no modules are selected: an unknown word, or want of memory.

use mvn_shared::OutOfMemory;
use std::alloc::AllocError;
use thiserror::Error;

/// Why no modules are selected: the word at a place means none that is built, or want of memory.
#[derive(Clone, Copy, Debug, Error)]
pub enum SelectionFault {
    #[error("selector {0} names no module that is built")]
    Unknown(usize),
    #[error("out of memory")]
    Memory,
}

impl From<OutOfMemory> for SelectionFault {
    ghost use Rattle.std.specs.Prelude.{◌≡◌};
    ghost use Rattle.reactor.specs.declared.fault.SelectionFault.TheVariants.{Memory};

    ghost from_gives = { λ _ e. e ≡ Memory };

    fn from(_: OutOfMemory) -> Self {
        SelectionFault::Memory
    }
}

impl From<AllocError> for SelectionFault {
    ghost use Rattle.std.specs.Prelude.{◌≡◌};
    ghost use Rattle.reactor.specs.declared.fault.SelectionFault.TheVariants.{Memory};

    ghost from_gives = { λ _ e. e ≡ Memory };

    fn from(_: AllocError) -> Self {
        SelectionFault::Memory
    }
}
