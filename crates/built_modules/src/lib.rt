//! Each module that is built gets all that its plan is made from, in the order of the build.
//!
//! 1. `selecting::selected_modules` takes of the project's modules those of the numbers that are built
//!    (`picking::picked`).
//! 2. It joins the POM, the model, the resolution, the upstreams and the sources of each (`pairs::zipped`).
//!
//! A law, a function that does nothing: `law::built_are_ordered` says that they are in the order that a sound plan
//! wants.
#![tactic(auto)]

mod law;
mod pairs;
mod picking;
mod selecting;

pub use law::built_are_ordered;
pub use selecting::selected_modules;
