//! Defines what a goal is asked and what it answers, how both are written as bytes, and what each of Maven's goals does
//! by default.
#![tactic(auto)]

pub mod answer;
pub mod goal;
pub mod goal_table;
pub mod line;
pub mod request;

pub use answer::{answer_bytes, read_answer};
pub use goal::{GoalAnswer, GoalCall, GoalRequest, Need, OwnBytes, PathEntry, Slot, SourceFile};
pub use goal_table::{GoalRule, goal_rule};
pub use line::{line_of, split_line};
pub use request::{request_bytes, request_line};
