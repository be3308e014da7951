//! What a build does with its other modules once one has failed.

/// What is still built once a module has failed. Maven's command-line options `-fae`, `-ff` and `-fn`.
#[derive(Clone, Copy)]
pub enum FailMode {
    /// Each module that doesn't stand on a failed one is built.
    AtEnd,
    /// No further module is begun.
    Fast,
    /// Each module is built, and none counts as failed.
    Never,
}
