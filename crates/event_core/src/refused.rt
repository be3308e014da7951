//! The causes for which an event may not come now.

use build_core::State;
use thiserror::Error;

/// Why an event may not come now: the first that holds, in this order. Project rule.
#[derive(Clone, Copy, Debug, Error)]
pub enum NotEnabled {
    /// This number of the event is too large.
    #[error("number {0} of the event is too large")]
    Range(u32),
    /// The module that is to begin or to be skipped isn't waiting, or no upstream of it is lost.
    #[error("the module is not waiting, or no upstream of it is lost")]
    Module(State),
    /// This upstream isn't built: the first such one.
    #[error("upstream module {0} is not built")]
    Upstream(u32),
    /// The worker builds this module.
    #[error("the worker builds module {0}")]
    Worker(u32),
    /// This worker's hold excludes the one that is asked for: the least such worker.
    #[error("worker {0} holds the name")]
    Lock(u32),
    /// The worker holds this name, which isn't below: the greatest that it holds.
    #[error("the worker holds name {0}, which is not below this one")]
    Unordered(u32),
    /// The event isn't allowed in this stage: 1 without a module, 2 while names are taken shared, 3 while files are fetched, 4
    /// while files are read, 5 while goals are answered, 6 while it is installed, 7 where only frees and an end may follow.
    #[error("the event is not allowed in this stage ({0})")]
    Stage(u32),
    /// Another file is due: this one.
    #[error("file {0} is due")]
    File(u32),
}
