//! A complete run of a build whose entries fit its hands, in which no module ends by a fault or want of memory,
//! ends as the sequential build does.
//!
//! These are laws alone: functions that do nothing, each with what holds as its clauses.
//!
//! 1. Whole runs: `confluence::run_confluence`, `isolation::faults_stay_apart`, `rerun::again_the_same`,
//!    `closed_form::one_closed_form` and `bound::runs_fit_in`.
//! 2. What stays so while other workers go on: `others::others_leave_alone`, `moments::nothing_goes_back`,
//!    `locks::locks_guard` and `endings::endings_stay`.
//! 3. What a worker relies on, turn by turn: `crew_scripts::absent_files_decide`, `gathering::entries_are_summed`,
//!    `goals::goals_come_in_order` and `frees::last_free_decides`.
//! 4. Hands: `hands::hands_fit_together` says that a run fits where each worker's entries fit what its own hand
//!    tells.
#![tactic(auto)]

pub mod bound;
pub mod closed_form;
pub mod confluence;
pub mod crew_scripts;
pub mod endings;
pub mod frees;
pub mod gathering;
pub mod goals;
pub mod hands;
pub mod isolation;
pub mod locks;
pub mod moments;
pub mod others;
pub mod rerun;

pub use bound::runs_fit_in;
pub use closed_form::one_closed_form;
pub use confluence::run_confluence;
pub use crew_scripts::absent_files_decide;
pub use endings::{endings_stay, own_entries_change_little};
pub use frees::last_free_decides;
pub use gathering::{entries_are_summed, files_come_by_entries, skips_carry_nothing};
pub use goals::goals_come_in_order;
pub use hands::hands_fit_together;
pub use isolation::faults_stay_apart;
pub use locks::locks_guard;
pub use moments::nothing_goes_back;
pub use others::others_leave_alone;
pub use rerun::again_the_same;
