//! One value is kept under a lock for many workers: its log only grows, and a pass knows what it has seen of the
//! log.
//!
//! 1. `lock::TurnLock::new` locks a value that is `kept::Kept`, and answers the first pass.
//! 2. `lock::TurnLock::split` cuts a pass in two, for workers in two threads.
//! 3. `lock::TurnLock::take` gives a pass the turn with the value, and `lock::TurnLock::give` gives it back.
//! 4. `lock::TurnLock::rest` waits until another worker added an entry to the log.
//! 5. `lock::TurnLock::join` takes another pass in, and `lock::TurnLock::close` answers the value at the end.
//!
//! `view::View` is what a pass knows, `plays::TurnRule` the rule of the lock's table, and `tally::tallied` an example.
#![tactic(auto)]

pub mod kept;
pub mod lock;
pub mod plays;
pub mod tally;
pub mod view;

pub use kept::{Kept, Role};
pub use lock::{NewError, Pass, Turn, TurnLock};
pub use plays::TurnRule;
pub use view::View;
