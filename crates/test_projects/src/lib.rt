//! Numbers make projects in memory, and say which calls of a build's objects fail and what its goals answer, so that what builds leave
//! can be compared.
//!
//! What a number gives is promised by no clause: any project will do, and the stored runs hold these. Programs of rows alone use the
//! crate. What they do with it, step by step:
//!
//! 1. `random::random_project` makes the files of a project's folder and of both repositories; `project` makes single ones.
//! 2. `hands::put_workers` makes hands with the built-in goals over objects in memory. `faults::calls` says which calls fail, and
//!    `waiting::Meeting` which goals and fetches wait for one another; `world::World` says both what goals answer and what fails.
//! 3. `files::files_under` takes what a build left under the names of a repository.
//! 4. `files::same_at`, `answers::all_stand` and `whole::are_whole` compare what builds left.
#![tactic(auto)]

pub mod answers;
pub mod draws;
pub mod faults;
pub mod files;
pub mod hands;
pub mod project;
pub mod random;
pub mod waiting;
pub mod whole;
pub mod world;

pub use answers::all_stand;
pub use draws::Draws;
pub use faults::{Device, Faults};
pub use files::{files_under, put_files_under, same_at};
pub use hands::{Manner, Worker, calm, hand_with, put_workers};
pub use project::Project;
pub use random::random_project;
pub use waiting::{Meeting, WaitingGate, WaitingRemote};
pub use whole::{are_whole, bytes_of};
pub use world::World;
