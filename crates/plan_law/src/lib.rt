//! The plan of a project's modules in build order is sound, which is what the build asks of a plan.
//!
//! These are laws alone: functions that do nothing, each with what holds as its clauses.
#![tactic(auto)]

pub mod law;

pub use law::{one_ascending, planned_is_sound, two_modules};
