//! The steps of a script: what a worker may do for its module.

use build_core::Mode;

/// What a worker does for its module that a script speaks of.
#[derive(Clone, Copy)]
pub enum Deed {
    /// A name is taken.
    Take(Mode, u32),
    /// A name is freed that is held.
    Free,
    /// A file is read.
    Read(u32),
    /// A file is published.
    Publish(u32),
    /// The goal's answer is kept.
    Answer(u32),
}
