// What the report says of a module. Project rule.
use build_core::Device;
use mvn_base::{FileName, Gav};
use mvn_shared::{Bytes, List, Text};

/// How a module ended, with what its line names.
#[derive(Drop)]
pub enum RowEnd {
    Built,
    /// A goal failed: its plugin, name and execution, and what it says.
    Goal { call: Text, text: Text },
    /// This file is nowhere to be had.
    Missing(FileName),
    NoArtifact,
    OutputTooLarge,
    ClasspathTooLarge,
    Fault(Device),
    Memory,
    /// It wasn't built, since this module isn't.
    Skipped(Gav),
}

/// What is told of a module besides, where all is asked for.
#[derive(Drop)]
pub struct FullPart {
    /// The effective model, as JSON.
    pub model: Bytes,
    pub compile: List<FileName>,
    pub runtime: List<FileName>,
    pub test: List<FileName>,
}

/// A module's part of the report.
#[derive(Drop)]
pub struct ReportRow {
    pub gav: Gav,
    pub end: RowEnd,
    /// The notes, each as a line without the two spaces in front.
    pub notes: List<Text>,
    /// Why each library is there, each line without the two spaces in front; empty, since no word asks for it yet.
    pub tree: List<Text>,
    pub full: Option<FullPart>,
}
