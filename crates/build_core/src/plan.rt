// What is to be built, in which order, from which files. Guide to Working with Multiple Modules.
use goal_types::{GoalCall, Slot, SourceFile};
use mvn_base::{FileName, Gav};
use mvn_shared::{Bytes, List, Text};

/// A whole build.
#[derive(Drop)]
pub struct Plan {
    /// The modules, each after its upstreams.
    pub modules: List<PlanModule>,
    /// The names that are locked, ascending and distinct.
    pub names: List<Text>,
    /// The repository's files that the build reads or writes, distinct.
    pub files: List<FileName>,
    /// Which of the files were there at the start.
    pub present: List<bool>,
    /// How many workers build it.
    pub workers: u32,
    /// At least the number of events of any run.
    pub events: u64,
}

/// A module of a build. Its numbers are places in the lists of the plan.
#[derive(Drop)]
pub struct PlanModule {
    pub gav: Gav,
    /// The modules that are to be built before it, ascending.
    pub upstream: List<u32>,
    /// The names that are locked for its fetch list, ascending.
    pub batch: List<u32>,
    /// The files that its classpath needs, which are fetched where they are absent.
    pub fetch: List<u32>,
    /// The name that is locked while it is installed.
    pub own_name: u32,
    /// The files that it is installed as, the POM's first.
    pub own: List<OwnFile>,
    /// The bytes of its POM.
    pub pom: Bytes,
    pub goals: List<GoalCall>,
    pub sources: List<SourceFile>,
    /// The entries of its classpaths, in order.
    pub entries: List<Entry>,
    /// The most bytes that its kept outputs may have together.
    pub budget: u64,
    pub installs: bool,
    /// Whether it can't be installed without a main output.
    pub needs_artifact: bool,
}

/// A file that a module is installed as: the output of a slot.
#[derive(Clone, Copy, PartialEq, Eq)]
pub struct OwnFile {
    pub slot: Slot,
    pub file: u32,
}

/// Where the bytes of an entry of a classpath come from.
#[derive(Clone, Copy, PartialEq, Eq)]
pub enum Origin {
    /// The repository.
    File(u32),
    /// An upstream's kept output.
    Module(u32, Slot),
    /// Nowhere: it has no bytes.
    Nothing,
}

/// An entry of a module's classpaths.
#[derive(Drop)]
pub struct Entry {
    pub name: FileName,
    /// Whether it is on the classpath of the main sources.
    pub compile: bool,
    /// Whether it is on that of the program when it runs.
    pub runtime: bool,
    /// Whether it is on that of the tests.
    pub test: bool,
    pub origin: Origin,
}
