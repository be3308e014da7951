//! A field of a row spells a POM, and the models that come of it are told as texts, in which rows and tests compare them.
//!
//! In a field that is a POM `\xNN` is a byte by its hexadecimal digits, `\(N)TEXT` the text up to the next backslash N times, and `\.`
//! nothing. Where a field is no whole POM text, it stands in a project after the `modelVersion`. No call has a clause: the crate serves
//! programs of rows and tests alone, whose stored runs say what is right.
//!
//! 1. `fields::split_row` cuts a row into its fields, and `fields::words` and `fields::pairs` a field into words.
//! 2. `poms::whole`, `poms::project`, `poms::named` and `poms::behind` read the POM that a field spells.
//! 3. `system::machine` is the machine that the rows know.
//! 4. `shown::model_text` and `parts` tell a model or a part of one as a text.
//! 5. `answers::answer` is what is told of a row: a text, or why the POM was refused.
#![tactic(auto)]

mod answers;
mod fields;
mod parts;
mod poms;
mod shown;
mod system;

pub use answers::{answer, word};
pub use fields::{field, pairs, split_row, words};
pub use parts::{build_text, needs_text, plugin_text, plugins_text, settings_text};
pub use poms::{at_path, behind, named, project, whole};
pub use shown::{
    model_text, push_base, push_build_base, push_dependencies, push_pairs, push_settings,
    push_texts,
};
pub use system::machine;
