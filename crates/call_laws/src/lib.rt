//! Under the premises of each law, the clauses of `mvn` imply that answers are those of the trace, that faults end
//! only what needs them, and that a call can be made again.
//!
//! These are laws alone: functions that do nothing, each with its premises and what holds then as its clauses.
//!
//! 1. One plan and one outcome, I/O errors and want of memory aside: `law::one_plan` and `law::one_outcome`. A plan
//!    that planning gives for 1 to 16 workers is sound: `soundness::plans_are_sound`.
//! 2. What a call answers: `answers::answers_are_the_traces`, by the clause `history`.
//!    `complete::calls_without_faults_are_answered`, by `causes`, `fault` and `bound`, where the repository tells, no
//!    count rose or stood at its end, and the status isn't 4.
//! 3. What faults leave alone: `apart::faults_stay_apart_in_a_call`, by `history`, where the repository, the areas
//!    and the remotes of the hands that are used tell, and the remotes the same files.
//! 4. What a call leaves: `additions::builds_add`, of a plan that planning gives for 1 to 16 workers.
//!    `remains::calls_leave`, by `history`, in each world that the call saw.
//! 5. A call again, with the same answers, over files that a call or a stop left, for 1 to 16 workers and modules
//!    that are known in their project (`IsApart`): `calls::outcomes_again` and `calls::calls_again`. They rest on
//!    `planning::plans_again` and `planning::looked_up_again`, over files that have grown by a build, and on
//!    `over_plan::over_one_plan`, over one sound plan.
//! 6. Examples: `reruns_apart::known_modules` and `reruns_apart::renamed_module`.
#![tactic(auto)]

pub mod additions;
pub mod answers;
pub mod apart;
pub mod calls;
pub mod complete;
pub mod law;
pub mod over_plan;
pub mod planning;
pub mod remains;
pub mod reruns_apart;
pub mod soundness;

pub use additions::builds_add;
pub use answers::answers_are_the_traces;
pub use apart::faults_stay_apart_in_a_call;
pub use calls::{calls_again, outcomes_again};
pub use complete::calls_without_faults_are_answered;
pub use law::{one_outcome, one_plan};
pub use over_plan::over_one_plan;
pub use planning::{looked_up_again, plans_again};
pub use remains::calls_leave;
pub use reruns_apart::{known_modules, renamed_module};
pub use soundness::plans_are_sound;
