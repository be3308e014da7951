//! Reads what a POM says from its elements, or gives its first refusal in document order.
//!
//! 1. `walk::first_fault` walks through the elements by the read table, `table::TABLE`, and finds the first one that is
//!    refused.
//! 2. `read::read_model` reads the coordinates, the parent and the other parts, with the defaults of absent elements.
//! 3. `base::model_base` and `build::build` read what a project states, and `profile::profiles` reads the profiles.
//! 4. `property::properties` and `setting::configuration` read the elements of any name.
#![tactic(auto)]

pub mod base;
pub mod build;
mod dependency;
pub mod element;
pub mod fault;
pub mod item;
pub mod pairs;
mod places;
mod plugin;
mod profile;
pub mod property;
mod read;
pub mod setting;
mod table;
pub mod walk;

pub use read::read_model;
