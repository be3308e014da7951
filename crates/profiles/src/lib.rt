//! Finds which profiles of a POM are active, and gives the POM with what they state.
//!
//! It is the activation and injection of profiles of the Introduction to Build Profiles:
//!
//! 1. `judge::Judge::is_chosen` judges a profile by the switches and by its criteria, which `criteria` evaluates.
//! 2. `activation::active` gives the places of the active profiles; those active by default count where none is chosen.
//! 3. `injection::inject` adds what the active profiles state, in the order of their places.
#![tactic(auto)]

mod activation;
mod contents;
mod criteria;
mod file_text;
mod injection;
mod judge;
mod lookup;

pub use activation::active;
pub use file_text::basedir_of;
pub use injection::inject;
pub use lookup::behind;
