//! Gives a POM joined with all that it builds on: its parents up to the super POM, each with its active profiles.
//!
//! It is the inheritance assembly of Maven's model builder; each POM is read once a run and kept in `store::Store`:
//!
//! 1. `reading::read` reads the bytes of a POM into its model.
//! 2. `judged::active_at` and `judged::active_from` find the active profiles of a POM.
//! 3. `parents::origin_of` finds where its parent is: at its path in the project, or by its coordinates.
//! 4. `parents::parent_from` gives the parent's POM, and refuses one that is missing or was met before.
//! 5. `stored::lineage` goes up by steps 1 to 4, and down again by `profiles::inject` and `parents::put_over`.
#![tactic(auto)]

mod beside;
mod coordinates;
mod expression;
mod joined;
mod judged;
mod origin;
mod parents;
mod poms;
mod reading;
mod store;
mod stored;

pub use beside::{found_origin, raw_gav, read_at, read_found};
pub use coordinates::pom_at;
pub use expression::has_expression;
pub use joined::Joined;
pub use judged::{active_at, active_from, active_places};
pub use origin::{Candidate, Origin};
pub use parents::{
    first_of, origin_of, origin_refused, packed, parent_from, pom_of, put_over, text_of, top,
};
pub use poms::{is_in, meets, next_poms};
pub use reading::read;
pub use store::Store;
pub use stored::{lineage, module_lineage};
