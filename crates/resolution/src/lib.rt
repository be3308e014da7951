//! Gives what a project is built with: the winners of its dependency graph with their scopes, in the order of the tree,
//! or the first refusal.
//!
//! 1. `mediation::find_winners` finds the winner of each key, nearest wins.
//! 2. `conflict::first_conflict` refuses the first winner whose version some declaration's range doesn't admit.
//! 3. `scopes::scopes_of` gives each winner its scope: the project's own, or the widest one that a walk brings.
//! 4. `tree::order_of` sorts the winners in preorder of the tree, by `order::preorder`.
//! 5. `notes::notes_of` notes the winners whose POMs are missing or refused.
//! 6. `resolved::resolved_in` makes the rows of the resolution, shared among the projects of a run.
//!
//! `resolving::mediate` runs all steps.
#![tactic(auto)]

mod conflict;
mod kept;
mod keys;
mod link;
mod linking;
mod links;
mod notes;
mod order;
mod order_law;
mod resolved;
pub mod resolved_law;
mod resolving;
mod scope_law;
mod scopes;
mod search;
mod tree;
mod unmet;
mod walks;

pub use conflict::first_conflict;
pub use kept::KeptRows;
pub use link::{Link, walked};
pub use order::preorder;
pub use order_law::no_place_lost;
pub use resolved_law::one_resolution;
pub use resolving::mediate;
pub use scope_law::{one_widest_scope, two_walks_to_one_place};
pub use scopes::scopes_of;
pub use search::{kept_at, raise};
