//! Each module of a plan is given by its numbers: its files, its locks, and the entries of its classpaths.
//!
//! 1. `selected::SelectedModule` is a module that is built, with all that its plan is made from.
//! 2. `ready::made_ready` adds its goals, the files that are fetched for it (`uses::fetched_files`), the locks that
//!    cover them (`uses::fetched_locks`), and the files that it may be installed as (`installed::outputs`).
//! 3. `entries::entries_of` gives the entries of its classpaths, and `numbers::part_of` its numbers in the plan,
//!    which `places::Places` and `files::FileList` find.
//! 4. `parts::parts_of` does so for all modules of a plan.
#![tactic(auto)]

mod entries;
mod files;
mod installed;
mod numbers;
mod parts;
mod places;
mod ready;
mod selected;
mod uses;
mod winners;

pub use entries::entries_of;
pub use files::FileList;
pub use installed::{is_pom, outputs, pom_file};
pub use numbers::{Part, copy_of, part_of};
pub use parts::{Parts, parts_of};
pub use places::{Item, Places, small};
pub use ready::{Ready, made_ready};
pub use selected::{Output, Planned, SelectedModule};
pub use uses::{add_text, fetched_files, fetched_locks, texts_of};
pub use winners::{artifact_file, has_names, needs_path, slot_of};
