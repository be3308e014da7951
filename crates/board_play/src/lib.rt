//! A build is played over a board in one thread, turn by turn, and compared with the build of the same plan by one hand.
//!
//! A program of rows alone uses it.
//!
//! 1. `site::Site` is a board under way, and beside it a core with the same events, which says what may come next: so whoever plays may
//!    ask for any event at any time.
//! 2. `work::module_turn` takes one turn of a worker that builds a module: it takes, frees, fetches, reads, answers or installs one
//!    thing.
//! 3. `site::Site::finish` gives what the whole build left.
//! 4. `one_hand::by_one` builds the plan by one hand, without a board and without faults, plain and slow.
//! 5. `beside::is_same` and `beside::is_untouched` say whether the played build left what it may, beside that one.
#![tactic(auto)]

pub mod beside;
pub mod deeds;
pub mod hand;
pub mod one_hand;
mod script;
pub mod site;
pub mod work;

pub use beside::{has_fault, is_same, is_untouched};
pub use deeds::{Came, MOST};
pub use hand::{Hand, Stage, Turn};
pub use one_hand::{Built, by_one, nothing};
pub use site::Site;
pub use work::{Table, module_turn};
