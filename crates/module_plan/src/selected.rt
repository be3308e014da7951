// What a plan is made from, and what comes with it.
use build_core::Plan;
use classpaths::Resolution;
use goal_types::{Slot, SourceFile};
use model_types::Model;
use mvn_base::FileName;
use mvn_shared::{Bytes, List, Shared, Text};

/// A module that is built, with all that its plan is made from.
#[derive(Drop)]
pub struct SelectedModule {
    /// Its effective model.
    pub model: Shared<Model>,
    /// The bytes of its POM.
    pub pom: Bytes,
    pub resolution: Resolution,
    /// The modules that are to be built before it, by their places among the selected ones, ascending.
    pub upstream: List<u32>,
    pub sources: List<SourceFile>,
}

/// A file that a module may be installed as: its name, and which output of the module it has.
#[derive(Drop)]
pub struct Output {
    pub slot: Slot,
    pub name: FileName,
}

/// A plan, with what is shown of its modules, all in the order of the build.
#[derive(Drop)]
pub struct Planned {
    pub plan: Plan,
    pub models: List<Shared<Model>>,
    pub resolutions: List<Resolution>,
    /// The goals without a phase, each as `artifact:goal execution`.
    pub unbound: List<List<Text>>,
}
