//! The files below the source folders of the modules that are built are read with their bytes, at most 65,536 files
//! of 256 MiB together.
//!
//! `sources_of_modules::module_sources` does it for the modules that are built, in these steps:
//!
//! 1. `folders::source_folders` gives the folders that a model's sources are in.
//! 2. `modules::all_sources` goes from module to module, within the limit that all modules share.
//! 3. `names::source_names` lists the names of the files below a module's folders, ascending.
//! 4. `sources::read_sources` reads those files, and copies the bytes that `earlier::Earlier` has of modules
//!    before.
#![tactic(auto)]

mod earlier;
mod folders;
mod modules;
mod names;
mod sources;
mod sources_of_modules;

pub use modules::all_sources;
pub use sources::{SourcesFault, project_sources};
pub use sources_of_modules::module_sources;
