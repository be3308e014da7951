//! `Failed`: the one fault of calls that take no memory.

use thiserror::Error;

/// A stream or a child failed. It is the one fault of calls that take no memory.
#[derive(Clone, Copy, Debug, PartialEq, Eq, Error)]
#[error("the device failed")]
pub struct Failed;
