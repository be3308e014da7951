//! `Resolution`: the dependencies that a project is built with, and notes on POMs that lead to nothing.

use collector::Scope;
use mvn_base::{Gav, Rule};
use mvn_shared::{List, Shared, Text};

/// A dependency that a project is built with: the winner of its key.
#[derive(Drop)]
pub struct Resolved {
    pub gav: Gav,
    /// The declared type.
    pub kind: Text,
    pub classifier: Text,
    pub scope: Scope,
    /// Whether it has a POM.
    pub pom_found: bool,
}

/// A POM that leads to nothing.
#[derive(Drop)]
pub enum Note {
    Missing(Gav),
    Refused(Gav, Rule),
}

/// What a project is built with.
#[derive(Drop)]
pub struct Resolution {
    /// In the order of the dependency tree: each stands after the one that declares it and after what is declared
    /// before it, with all that is below that. Modules may share what several of them are built with.
    pub winners: List<Shared<Resolved>>,
    /// In the order in which the POMs are met.
    pub notes: List<Note>,
}
