//! A POM of the project with its path, and a module as a POM lists it.

use model_types::RawModel;
use mvn_shared::{Bytes, Shared, Text};

/// A POM of the project: its path from the root folder on, what its text says, and the bytes of its file, which was
/// read once.
#[derive(Drop)]
pub struct ModulePom {
    pub path: Text,
    pub raw: Shared<RawModel>,
    pub bytes: Bytes,
}

/// A module as a POM lists it: the path of that POM, and the text of `module`. POM Reference, "Aggregation".
#[derive(Drop)]
pub struct Listed {
    pub by: Text,
    pub text: Text,
}
