//! Finds which dependencies a POM manages, and gives declarations the version, scope and exclusions that are managed.
//!
//! 1. `set::managed` takes the first entry of each key: the POM's own entries before those of its imports.
//! 2. `application::apply` and `application::apply_plugins` fill declarations from the managed entries.
#![tactic(auto)]

mod application;
mod row;
mod set;

pub use application::{apply, apply_plugins};
pub use set::{ManagedSet, managed};
