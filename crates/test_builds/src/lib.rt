//! Builds of a project over objects in memory run, by one worker and by several, and are compared by what they leave.
//!
//! What a build leaves is its exit status, its report, its files and the answers of its goals. Programs of rows alone use the crate.
//!
//! 1. `building::build_by` installs a project by so many workers; `calling::called_over` makes the call.
//! 2. `left::left_of` takes what the call left.
//! 3. `images::push_images` builds again over each image that a stop may leave of the repository between two publishes.
//! 4. `many::push_random` builds projects that are made from numbers by one worker and by several, and compares what they leave.
//! 5. `touched::is_untouched` compares a build in which calls fail with one in which none does.
#![tactic(auto)]

pub mod building;
pub mod calling;
pub mod images;
pub mod left;
pub mod many;
mod touched;

pub use building::{build, build_by, build_local};
pub use images::{build_calm, push_images};
pub use left::Left;
pub use many::push_random;
