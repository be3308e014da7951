// How a module stands, and how it ends. Guide to Working with Multiple Modules, "Fail at end"; a project rule as a
// whole.

/// What may fail while a module is built.
#[derive(Clone, Copy, Debug, PartialEq, Eq)]
pub enum Device {
    Remote,
    Area,
    Shelf,
    Gate,
}

/// How a module ended. Numbers of goals are places in the module's list of goals, numbers of files in the plan's list.
#[derive(Clone, Copy, Debug, PartialEq, Eq)]
pub enum Ending {
    Built,
    /// This goal failed.
    Goal(u32),
    /// This file is nowhere to be had.
    Missing(u32),
    /// It is to be installed and has no main output.
    NoArtifact,
    /// With this goal's output the kept outputs are too large.
    OutputTooLarge(u32),
    ClasspathTooLarge,
    Fault(Device),
    Memory,
}

/// How a module stands.
#[derive(Clone, Copy, Debug, PartialEq, Eq)]
pub enum State {
    Waiting,
    /// This worker builds it.
    Running(u32),
    /// This upstream was skipped, or didn't end built.
    Skipped(u32),
    Ended(Ending),
}
