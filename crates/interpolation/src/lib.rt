//! Replaces the expressions in a model's texts by what they name, or refuses the first that can't be replaced.
//!
//! It is the interpolation of the POM Reference, "Properties":
//!
//! 1. `names::named` lists all that an expression can name, from what counts least on.
//! 2. `splitting::parts` splits a text into plain pieces and expressions.
//! 3. `filler::Filler::value` finds the value of a name, fills it once, and refuses a name that leads back to itself.
//! 4. `filler::Filler::text` and `filler::Filler::name` fill one text; in the latter no expression may be left.
//! 5. `model::fill` fills every text of a model.
#![tactic(auto)]

mod beside;
mod fault;
mod filler;
mod groups;
mod item_parts;
mod items;
mod model;
mod named_values;
mod names;
mod part;
mod settings;
mod splitting;
mod step;

pub use fault::FillFault;
pub use filler::{Filler, stands};
pub use model::fill;
pub use named_values::Values;
pub use names::named;
pub use part::Part;
pub use splitting::parts;
