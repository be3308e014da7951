//! A build is reported as text: how each module of its plan ended, with its notes, and a line of totals.
//!
//! 1. `told::details_of` gives what is told of each module besides: its notes (`notes::notes_of`) and, where all is
//!    asked for, its model and classpaths (`full::full_part`).
//! 2. `whole::plan_report` makes a row for each module of the plan, by how the module ended (`ending`).
//! 3. `text::report` writes the rows and the line of totals as text.
#![tactic(auto)]

mod details;
mod ending;
mod files;
mod full;
mod notes;
pub mod row;
pub mod text;
mod told;
mod whole;

pub use details::Details;
pub use full::full_part;
pub use notes::notes_of;
pub use row::{FullPart, ReportRow, RowEnd};
pub use text::{report, total_line};
pub use told::details_of;
pub use whole::plan_report;
