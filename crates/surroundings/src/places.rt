// What the environment names: where the repositories are, and what runs the goals.
use crate::environment::{process_name, variable_or};
use mvn_shared::{Mem, Text};
use std::alloc::Global;
use std::collections::BTreeMap;
use std::rt::Clock;

/// Folders and programs by name.
#[derive(Drop)]
pub struct Places {
    /// The local repository.
    pub repository: Text,
    /// The folder that stands for a remote one.
    pub remote: Text,
    /// The program that runs the goals; empty for the built-in ones.
    pub program: Text,
    /// This process.
    pub process: Text,
}

/// What the variables name, and else where it is by default, for the process with this number.
pub fn named_places<R: Clock>(
    rt: &R,
    alloc: Global,
    number: u32,
    variables: &BTreeMap<Text, Text>,
) -> Mem<Places> {
    let repository = variable_or(alloc, variables, "MVN_REPO", ".m2/repository")?;
    let remote = variable_or(alloc, variables, "MVN_REMOTE", ".m2/remote")?;
    let program = variable_or(alloc, variables, "MVN_GATE", "")?;
    let process = process_name(rt, alloc, number)?;
    Ok(Places {
        repository,
        remote,
        program,
        process,
    })
}
