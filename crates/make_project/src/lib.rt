//! A project of as many POMs as one asks for is generated in memory, with the remote repository that it needs.
//!
//! 1. `tree::generated` gives the files of the project: a root, and modules (`poms::module_pom`) each of which stands
//!    on another and on a library.
//! 2. `repository::remote_files` gives the files of the libraries.
//! 3. `told::summary` gives what a build of it tells in place of the report.
//!
//! All of this is a project rule.
#![tactic(auto)]

mod poms;
mod repository;
mod told;
mod tree;

pub use told::{summary, summary_with};
pub use tree::{Project, generated};
