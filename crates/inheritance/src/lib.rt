//! Gives a POM with what it inherits from its parent, and the super POM that all POMs build on.
//!
//! It is the inheritance of the POM Reference; `placing::inherited_plugins` joins the plugins of both.
#![tactic(auto)]

mod handing;
mod model;
mod placing;
mod root;

pub use model::inherit;
pub use placing::inherited_plugins;
pub use root::super_pom;
