//! Builds the effective model of a POM from all that it inherits, imports and manages, or gives its first refusal.
//!
//! The ten steps follow Maven Model Builder, "Model building"; each has the crate and the function that does it:
//!
//! 1. `lineage::lineage` reads the POM and its parents, and `profiles::inject` adds the active profiles of each.
//! 2. `inheritance::inherit` gives each POM what it inherits from its parent, from the super POM down.
//! 3. `model_steps::filled` replaces the expressions, by `interpolation::fill`, and places folders in the POM's own.
//! 4. `managed_deps::apply_plugins` merges a module's declared plugins with the managed ones, in `model_steps::built`.
//! 5. `lifecycle::bind` adds the plugins and goals that the module's packaging binds, in `model_steps::built` too.
//! 6. `model_steps::model_of` takes from a POM read by coordinates the dependencies that aren't transitive.
//! 7. `imports::whole` builds the model of each import's POM by these steps, and takes the entries that it manages.
//! 8. `managed_deps::managed` joins the managed entries, and `managed_deps::apply` fills the dependencies from them.
//! 9. `model_steps::model_of` gives the scope `compile` to dependencies without one.
//! 10. `model_steps::checked` refuses a model with an invalid name, scope or version.
//!
//! `asked::effective` runs all steps, `lineages::lineage_with` the first two, and `imports::whole` the others.
//! `model_steps::model_of` contains step 8. Steps 6, 8 and 9 refuse nothing.
#![tactic(auto)]

mod asked;
mod below;
mod imports;
mod kept;
pub mod law;
mod lineages;
mod looked;
mod run_store;

pub use asked::{effective, effective_with};
pub use below::Below;
pub use imports::whole;
pub use kept::{BuiltModel, Entries, Import, ImportLists};
pub use law::{import_stays, imports_are_models};
pub use lineages::{lineage_of, lineage_with};
pub use looked::{asked_gav, wanted};
pub use run_store::RunStore;
