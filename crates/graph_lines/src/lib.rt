//! Lines of text spell a dependency graph: libraries in memory, and a project over them.
//!
//! A line is a word and its fields, with spaces between and `-` for what isn't stated: `managed GROUP ARTIFACT VERSION TYPE SCOPE
//! EXCLUSIONS`, what the project manages; `pom GROUP ARTIFACT VERSION`, where a library begins; `needs GROUP ARTIFACT VERSION TYPE SCOPE
//! OPTIONAL EXCLUSIONS`, a dependency of that library, or of the project where none has begun. Exclusions are `group:artifact`, with
//! commas between; a library's versions stand in ascending order.
//!
//! 1. `lines::Graph::line` takes one line more, of which `models` makes a dependency or a coordinate.
//! 2. `lines::Graph::end` ends a library, and puts its model among the libraries.
//! 3. `libraries::MemLibraries` looks a project's dependencies up.
//!
//! Only `MemLibraries` has clauses: what lines are read as is said by the stored run of `bench_graphs`.
#![tactic(auto)]

mod libraries;
mod lines;
mod models;
mod told;

pub use libraries::MemLibraries;
pub use lines::Graph;
