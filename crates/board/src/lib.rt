//! All workers of a build share one board, and each of its calls is one event of the build, or none.
//!
//! 1. `board::Board::new` makes the board of a build that hasn't begun, over a repository.
//! 2. `board::Board::start` tells an idle worker what to do: a module begins, or is skipped, or nothing may begin
//!    yet.
//! 3. `board::Board::take` and `board::Board::free` take and free a name.
//! 4. `reading::Board::read` and `publishing::Board::publish` read and publish a file, where it is due.
//! 5. `answers::Board::answer` keeps what a goal answered, and `answers::Board::output` gives a copy of what a
//!    module keeps.
//! 6. `board::Board::end` ends a worker's module.
//! 7. `board::Board::finish` gives what the build leaves: the repository, the events, the answers and the states.
//!
//! `table::AnswerTable` finds answers by module and goal, `walk::GoalsStand` says how a module's goals stand by
//! them, and `outputs` has the outputs that a module keeps, one for each slot. `boards_cross::boards_cross_threads`
//! is a law, a function that does nothing.
#![tactic(auto)]

mod answers;
pub mod board;
mod boards_cross;
pub mod kept;
pub mod next;
pub mod outputs;
mod publishing;
mod reading;
mod sizes;
mod states;
pub mod table;
pub mod walk;

pub use board::{Board, BoardError, Finished};
pub use boards_cross::boards_cross_threads;
pub use kept::Opened;
pub use next::{AnswerKept, Next};
pub use outputs::{bytes_in, with_output};
pub use table::AnswerTable;
pub use walk::GoalsStand;
