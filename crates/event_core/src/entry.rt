//! An event of a run together with what it carries: bytes or an answer.

use build_core::Event;
use goal_types::GoalAnswer;
use mvn_shared::Bytes;

/// What an event of a run carries.
#[derive(Drop)]
pub enum Carried {
    /// Nothing, or what isn't told.
    Nothing,
    /// The bytes that were published.
    Published(Bytes),
    /// The answer that was kept.
    Answered(GoalAnswer),
}

/// An event of a run, with what it carries. Project rule.
#[derive(Drop)]
pub struct RunEntry {
    pub event: Event,
    pub carried: Carried,
}
