//! `Origin` and `Candidate`: where a parent comes from, and the POM that was found there.

use model_types::RawModel;
use mvn_base::{Gav, PomId, Refusal};
use mvn_shared::{Shared, Text};

/// Where a parent comes from: a POM of the project, found at its path and read, or its coordinates.
#[derive(Drop)]
pub enum Origin {
    Beside(Text, Shared<RawModel>),
    Elsewhere(Gav),
}

/// A POM that was found and read: its model, or which POM it is and its first refusal.
#[derive(Drop)]
pub enum Candidate {
    Read(Shared<RawModel>),
    Refused(PomId, Refusal),
}
