//! A number makes the outline of a small build, for measurements of the event core; other outlines have as many modules as one asks for.
//!
//! Any build will do, so no clause says which one a number gives; the stored run of `bench_events` holds these.
#![tactic(auto)]

mod builds;
mod draws;

pub use builds::{bare, linked, of_nothing, push_absent, small, wide};
pub use draws::Draws;
