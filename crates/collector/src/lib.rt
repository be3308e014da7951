//! Gives the edges of each node of the dependency graph, from one POM's dependencies, what the project manages and what
//! is excluded.
//!
//! It is the collection of Maven Resolver, one node at a time:
//!
//! 1. `declared::direct_edges` gives the edges of the project itself.
//! 2. `transitive::edges` gives those of a POM below the project, without what is optional, excluded or not transitive.
//! 3. `exclusions::Exclusions` has what is excluded below an edge; `set::ExclusionSet` finds one in a few steps.
//!
//! `law` states what nearest wins means on such edges; its functions do nothing when they run.
#![tactic(auto)]

mod chain;
mod declared;
mod edge;
mod exclusions;
mod hash;
pub mod law;
mod node;
mod put;
mod scope;
mod set;
mod transitive;

pub use declared::direct_edges;
pub use edge::Edge;
pub use exclusions::Exclusions;
pub use law::{declarations_ascend, first_declaration_wins, nearest_and_first};
pub use scope::Scope;
pub use set::ExclusionSet;
pub use transitive::edges;
