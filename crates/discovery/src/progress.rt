//! `Progress`: the POMs that were found, and the modules that wait.

use crate::found::FoundPoms;
use crate::waiting::Waiting;

/// How far discovery has come: the POMs that were found, and the modules that wait for their turn.
#[derive(Drop)]
pub struct Progress {
    pub found: FoundPoms,
    pub waiting: Waiting,
}
