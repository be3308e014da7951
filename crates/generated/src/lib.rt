//! The generated project is built as `mvn` builds, but over a project, a repository and hands that are made in
//! memory, and a summary is told in place of the report.
//!
//! `words::run_words` does it where the words ask for a generated project of so many POMs, and else calls
//! `mvn_call::mvn_asked`, as `mvn` does. The steps:
//!
//! 1. `make_project::generated` makes the project, and the files of its remote repository.
//! 2. `hands::made_hands` makes as many hands as the words ask for workers.
//! 3. `call_plan::plan_by_first` plans the project, and `mvn_call::build_by_first` builds it.
//! 4. `summing::summary_of` puts the summary in place of the report.
//!
//! All of this is a project rule.
#![tactic(auto)]

mod counts;
mod hands;
mod run;
mod summing;
mod words;

pub use hands::{MemHand, made_hands};
pub use run::{MemOutside, build_generated};
pub use summing::summary_of;
pub use words::run_words;
