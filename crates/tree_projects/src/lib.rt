//! A line of text asks for the effective models of the POMs of a project on a disk, and is answered by each model as JSON, or by counts.
//!
//! A line is a word, the folder of a project and the folder of a repository, of which the last may be left out. For `print`, each file
//! `pom.xml` below the project's folder is printed by its path, ascending, with its effective model as JSON or why it has none; for any
//! other word, how many have a model, and of how many dependencies and plugins. A POM is looked up by its coordinates in the project
//! first; of equal ones the first by path counts. The project's folder counts as `/w`.
//!
//! 1. `library::put_library` reads the POMs of the repository.
//! 2. `project::Project::put_tree` reads those of the project.
//! 3. `models::print` prints the model of each, or `models::count` counts them, from `poms::MemPoms`, a source of POMs in memory.
//!
//! Only `MemPoms` has clauses. The rest serves the program `print_models` alone, whose stored run and `tests/effective.sh` say what is
//! right.
#![tactic(auto)]

mod answer;
mod library;
mod lines_reading;
mod machine_given;
mod models;
mod poms;
mod project;
mod reading;

pub use library::put_library;
pub use lines_reading::print_line;
pub use machine_given::given;
pub use poms::MemPoms;
pub use project::Project;
