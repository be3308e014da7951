//! A call of `mvn` plans, builds and reports what its words ask for; below status 3, and where all tells, it ends as
//! the build by one hand.
//!
//! `top::mvn` does it in these steps:
//!
//! 1. `call_plan::asked` reads the words. What they ask for is done by `top::mvn_asked`:
//! 2. `build::run` gives the text of the answer, and all that comes back: `call_plan::plan_by_first` makes the plan
//!    of the project, and `build::build_by_first` builds it by as many hands as the words ask for workers, from the
//!    first one on (`build_outcome::run_and_report`).
//! 3. `ending::write` writes the text, and gives the exit status.
//!
//! Words and a project that are refused lead from their step to the last one.
#![tactic(auto)]

mod build;
mod ending;
mod top;

pub use build::{build_by_first, run};
pub use build_outcome::{BUILT, Call, FAILED, FAULT, NO_MEMORY, Outcome, REFUSED};
pub use ending::{Ended, write, write_answer};
pub use top::{mvn, mvn_asked};
