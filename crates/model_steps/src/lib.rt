//! Gives the single steps that turn a model with all that it inherits into an effective model, but for its imports.
//!
//! 1. `folders::filled` replaces the expressions, and places the folders of a POM of the project below its own.
//! 2. `build::built` merges the declared plugins with the managed ones and with those that the packaging binds.
//! 3. `import::import_gav` gives the coordinates that an entry of scope `import` stands for.
//! 4. `assembly::model_of` puts the model together: dependencies, what is managed for them, and their scopes.
//! 5. `validation::checked` refuses a model with an invalid name, scope or version.
//!
//! `effective` runs them in order, and finds out what imports stand for.
#![tactic(auto)]

mod alike;
mod artifacts;
mod assembly;
mod bound;
mod build;
mod folders;
mod import;
mod kind;
mod problem;
mod texts;
mod validation;

pub use artifacts::{Artifact, once, plugins_once};
pub use assembly::model_of;
pub use bound::Bound;
pub use build::built;
pub use folders::{filled, placed_stays};
pub use import::{import_gav, is_import};
pub use kind::{VersionKind, kind_of, kind_of_text};
pub use problem::Problem;
pub use texts::{is_of_project, is_scope, text_or_empty};
pub use validation::{checked, refused_if_invalid};
