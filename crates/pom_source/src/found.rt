//! A POM that was found, and what the machine and the command line give to all POMs of a run.

use mvn_base::{Choice, Machine, Pair, PomId};
use mvn_shared::{Bytes, List};

/// A POM that coordinates lead to: which one it is, and its bytes.
#[derive(Drop)]
pub struct Found {
    pub pom: PomId,
    pub bytes: Bytes,
}

/// What the machine and the command line give, for all POMs of a run.
#[derive(Drop)]
pub struct Given {
    pub machine: Machine,
    /// The properties of the command line.
    pub defines: List<Pair>,
    /// The profiles that are switched on and off.
    pub choice: Choice,
    /// What `revision`, `sha1` and `changelist` stand for in the versions of the project's POMs; empty, since none is filled in yet.
    pub ci: List<Pair>,
}
