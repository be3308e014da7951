//! A project over repositories in memory is planned, for programs of rows and measurements.
#![tactic(auto)]

pub mod planning;

pub use planning::plan;
