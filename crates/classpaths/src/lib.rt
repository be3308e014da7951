//! Gives the classpaths of a project and the files that are fetched for it, from what it is built with.
#![tactic(auto)]

mod classpath;
mod files;
mod law;
mod names;
mod resolution;

pub use classpath::Kind;
pub use law::{each_file_once, first_of_two_artifacts, test_has_all};
pub use resolution::{Note, Resolution, Resolved};
