//! Holds what the report tells of a module besides how it ended.

use crate::FullPart;
use mvn_shared::{List, Text};

/// What the report tells of a module besides how it ended.
#[derive(Drop)]
pub struct Details {
    /// The notes, each as a line without the two spaces in front.
    pub notes: List<Text>,
    /// What is told where all is asked for.
    pub full: Option<FullPart>,
}
