//! A project whose modules have nothing but their POM is built over objects in memory, so that turns over the board are nearly all that a
//! worker does.
//!
//! 1. `project::put_poms` makes the POMs.
//! 2. `building::events_of` plans the project once, builds it as many times as it is told, and counts the events.
#![tactic(auto)]

mod building;
mod project;

pub use building::events_of;
