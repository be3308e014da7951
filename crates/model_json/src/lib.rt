//! An effective model is written as one line of JSON, with the keys of each object in byte order.
//!
//! 1. `object` puts values and texts into an object under their keys.
//! 2. `item::list_of` writes lists of items, as dependencies and plugins, and `setting::put_configuration` a
//!    configuration.
//! 3. `model::write_model_json` writes the model.
#![tactic(auto)]

mod item;
mod model;
mod object;
mod setting;

pub use model::write_model_json;
