//! Modules get one order in which each comes after its upstreams, or the cycle that forbids it; and those that are
//! asked for are selected.
//!
//! Modules are numbers here, and an edge is a module and its upstream. The steps:
//!
//! 1. `below::edges_below` and `below::modules_below` check that numbers are below the number of modules.
//! 2. `kept::keep` keeps all firm edges, and each soft edge that closes no cycle with the edges before it.
//! 3. `ordered::order` gives the order of the modules, or a cycle that keeps them from having one.
//! 4. `selected::select` gives the modules that are built, in that order.
//!
//! Laws, functions that do nothing: `law::one_order` and `cycle_law::one_solution` say that each answer is the only
//! one.
#![tactic(auto)]

mod below;
mod cycle;
pub mod cycle_law;
mod error;
mod graph;
mod kept;
mod law;
mod marks;
mod ordered;
mod place;
mod reachability;
mod ready;
mod row;
mod selected;
mod waiting;

pub use below::{edges_below, modules_below};
pub use cycle_law::one_solution;
pub use error::{Cycle, OrderError};
pub use kept::keep;
pub use law::one_order;
pub use ordered::order;
pub use selected::select;
