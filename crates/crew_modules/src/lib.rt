//! A worker builds a module that has begun with its hand to its end, over the board that all workers share.
//!
//! `building::build_module` takes a module through these steps, and ends it early where one fails:
//!
//! 1. Make ready: `fetching::make_ready` takes the batch of names (`batch::take_batch`), first shared. Where a file
//!    of the fetch list is absent, it frees the batch, takes it exclusively, and fetches, stages and publishes each
//!    file that is still absent.
//! 2. Gather: `gathering::gather` reads each file of the classpaths once, and copies what upstreams keep. Then
//!    `batch::free_all` frees the batch.
//! 3. Answer goals: `goals::answer_goals` asks the gate goal by goal outside turns, and keeps each answer in a
//!    turn.
//! 4. Install: `installing::install` takes the name of a module that is to be installed, and publishes its files.
//! 5. End: `end::end_holding` frees the names that are held, and ends the module as built or by what stopped it.
//!
//! A law, a function that does nothing: `unended::building_ends_none`.
#![tactic(auto)]

pub mod batch;
pub mod building;
pub mod end;
pub mod fetching;
pub mod gathering;
pub mod goals;
pub mod installing;
pub mod pieces;
pub mod unended;

pub use batch::{free_all, take_batch, take_name};
pub use building::build_module;
pub use end::end_holding;
pub use fetching::make_ready;
pub use gathering::gather;
pub use goals::answer_goals;
pub use installing::install;
pub use unended::building_ends_none;
