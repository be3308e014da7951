//! Finds the winner of each key in a project's dependency graph: the nearest declaration, and of equally near ones the
//! first.
//!
//! It is the dependency mediation of Maven Resolver, nearest wins, as a search breadth first:
//!
//! 1. `levels::find_winners` begins with what the project declares, which is the first level.
//! 2. `levels::decide` takes one declaration after another: the first of a key wins, and later ones get its place.
//! 3. `pick::chosen` picks the winner's version: the stated one, or the highest available one that its range admits.
//! 4. `known::ask_model` asks for the POM of that version; a POM that is missing or refused leads to nothing.
//! 5. `levels::edges_below` gives what the winner's POM declares, by `collector::edges`.
//! 6. `levels::add_level` expands all winners of a level in order, which makes the next level, until a level has none.
//!
//! A winner keeps what is known of its POM, so that losing declarations can be listed later without a look-up.
#![tactic(auto)]

mod fault;
mod jars;
mod known;
mod law;
mod levels;
mod library;
mod pick;
mod row;
mod winner;

pub use fault::MediationFault;
pub use jars::{Jars, jar_with, jars_of};
pub use known::{Known, Lookup, LookupFault, ask_model, ask_versions};
pub use law::nearest_wins;
pub use levels::{DependencyGraph, find_winners};
pub use library::Library;
pub use pick::{MOST_WINNERS, chosen};
pub use winner::{Winner, Winners};
