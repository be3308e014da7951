//! The modules that a command line selects are listed in build order, each with the modules on which it stands, or
//! a fault is answered.
//!
//! `modules::reactor_modules` does it in these steps:
//!
//! 1. `index::ModuleIndex::of` finds modules by their artifacts.
//! 2. `edges::firm_edges` and `module_edges::soft_edges` give the edges that models and winners name.
//! 3. `ordering::build_order` orders all modules, or refuses a circle of firm edges.
//! 4. `selection::selected` gives the modules that the words of the command line select.
//! 5. `upstreams::all_upstreams` gives for each selected module those selected ones on which it stands.
//!
//! Laws, functions that do nothing: `selected_law::one_reactor` and `law::winners_are_upstreams`.
#![tactic(auto)]

mod circle;
mod edges;
mod fault;
mod index;
mod law;
mod meaning;
mod module_edges;
mod modules;
mod naming;
mod ordering;
pub mod selected_law;
mod selection;
mod upstreams;

pub use fault::SelectionFault;
pub use index::ModuleIndex;
pub use law::winners_are_upstreams;
pub use module_edges::{push_firm, push_winner, soft_edges};
pub use modules::{ReactorFault, ReactorModules, reactor_modules};
pub use ordering::{BuildOrder, build_order};
pub use selected_law::one_reactor;
pub use selection::selected;
