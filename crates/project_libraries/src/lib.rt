//! Gives what each module of a project is built with, over the other modules and two repositories.
//!
//! 1. `memo::known_modules` keeps the effective models of the modules by their coordinates.
//! 2. `known::known_at` builds the model of any other coordinates at most once, by `effective::effective_with`.
//! 3. `available_versions::available` lists the versions of an artifact among the modules and in both repositories.
//! 4. `run_lookup::RunLookup` answers mediation by steps 2 and 3.
//! 5. `resolving::resolve_modules` resolves each module, by `resolution::mediate`.
#![tactic(auto)]

mod available_versions;
mod known;
mod listing;
mod memo;
mod resolving;
mod run_lookup;

pub use available_versions::{Versions, available};
pub use resolving::resolve_modules;
