//! A worker has one turn at a time over the board that all share, in which it adds one event of the build, or none.
//!
//! 1. `turns::taken` waits for the turn, and gives the board.
//! 2. `turns::next_task` tells an idle worker what it builds, a `task::Task`, or skips a module.
//! 3. `turns::try_name` takes a name where no other holds it, and `turns::free_name` frees one.
//! 4. `events::publish_piece` publishes bytes that were staged before (`staging::stage_bytes`).
//! 5. `events::read_file` and `events::copy_output` give the bytes of an entry, which `gathered::Gathered` keeps.
//! 6. `requests::ask_for` makes the request of a goal outside turns, and `events::keep_answer` keeps its answer.
//! 7. `turns::end_module` ends the module.
//!
//! `hands::Worker` says what a worker's hand shows.
//!
//! Laws, functions that do nothing: `turned::turns_leave`, `hands::hands_are_counted`,
//! `gathering::entries_are_gathered`, `gathering::first_entry_decides` and `requests::requests_are_defined`.
#![tactic(auto)]

pub mod events;
pub mod gathered;
pub mod gathering;
pub mod hands;
pub mod looks;
pub mod requests;
pub mod staging;
pub mod task;
pub mod turned;
pub mod turns;

pub use events::{copy_output, keep_answer, publish_piece, read_file};
pub use gathered::{Gathered, place_before};
pub use gathering::{entries_are_gathered, first_entry_decides};
pub use hands::{Worker, hands_are_counted};
pub use looks::first_absent;
pub use requests::{ask_for, first_request, needed_entries, requests_are_defined};
pub use staging::{publish_end, stage_bytes};
pub use task::Task;
pub use turned::turns_leave;
pub use turns::{Assigned, Reached, end_module, free_name, next_task, try_name};
