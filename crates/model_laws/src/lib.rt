//! Laws tell what inheritance, profiles and management make of POMs, what a POM is refused for, and which modules a
//! plan has.
//!
//! Each is a function that does nothing, with what holds as its clauses.
//!
//! 1. `pom_law` says what one POM is refused for.
//! 2. `joining` says what lists, executions and plugins are when they are joined.
//! 3. `lines` says which POMs a POM builds on.
//! 4. `composing` says what a child, a profile and managed entries come to.
//! 5. `whole` says that in an effective model each key stands once.
//! 6. `selection_law` says that the plan of a build is that of the selected modules.
#![tactic(auto)]

mod composing;
mod joining;
mod lines;
pub mod pom_law;
pub mod selection_law;
mod whole;

pub use composing::{
    child_wins, declared_keep_order, inherited_names, managed_once, managed_plugins_add_none,
    no_profile_settles, profile_wins, profiles_add_keys, stated_version_stays,
};
pub use joining::{executions_join, lists_join, settled_stays};
pub use lines::{coordinates_are_stated, parents_in_line};
pub use pom_law::{first_at_one_place, first_of_three, first_refusal};
pub use selection_law::{models_by_number, no_pom_is_refused, plan_is_of_the_selected};
pub use whole::{effective_keys_stand_once, keys_stand_once};
