//! Joins lists whose items are told apart by a key, such as plugins, executions and properties, and merges the
//! configurations of plugins at every depth.
//!
//! - `keyed_join::settled` keeps of equal keys the last item, at the place of the first.
//! - `joined::merged_under`, `joined::merged_over` and `joined::absorbed` join two lists and merge items of equal keys.
//! - `plugin::merged_plugin`, `plugin::merged_execution` and `configuration::merged_configuration` merge two items.
#![tactic(auto)]

mod configuration;
mod fallback;
mod joined;
mod keyed;
mod keyed_join;
mod keys;
mod mergeable;
mod parts;
mod plugin;
mod settling;

pub use configuration::merged_configuration;
pub use fallback::{stated, stated_list};
pub use joined::{absorbed, merged_lists, merged_over, merged_under};
pub use keyed::{Item, Keyed};
pub use keyed_join::{
    appended, copies, index_of, items_of, others, others_than, partner, put, settled,
    settled_others, with_others,
};
pub use mergeable::Mergeable;
pub use plugin::{merged_execution, merged_plugin};
pub use settling::{each_settled, settled_plugin, settled_plugins};
