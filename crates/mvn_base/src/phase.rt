//! The phases of the default lifecycle, in order, and the words for them.

ghost use Rattle.std.specs.Prelude.{◌≡◌, nat_eq, find};
ghost use Rattle.std.specs.Cmp.Lexicographic.{pointwise};
ghost use Rattle.mvn_base.specs.Phase.{phase_name, phase_of};

use std::fmt;

/// A phase of the default lifecycle, in order. Introduction to the Build Lifecycle, "Lifecycle Reference".
#[derive(Clone, Copy, PartialEq, Eq)]
pub enum Phase {
    Validate,
    Initialize,
    GenerateSources,
    ProcessSources,
    GenerateResources,
    ProcessResources,
    Compile,
    ProcessClasses,
    GenerateTestSources,
    ProcessTestSources,
    GenerateTestResources,
    ProcessTestResources,
    TestCompile,
    ProcessTestClasses,
    Test,
    PreparePackage,
    Package,
    PreIntegrationTest,
    IntegrationTest,
    PostIntegrationTest,
    Verify,
    Install,
    Deploy,
}

impl Phase {
    ghost use Rattle.mvn_base.specs.Phase.{phase_number, phase_name};

    /// Its place in the lifecycle, from 0.
    #[tactic(auto, unfolding(crate::specs::Phase::phase_number))]
    pub fn number(self) -> u8
        ensures { result ≡ phase_number self }
    {
        self as u8
    }

    /// The word for it.
    #[tactic(auto, unfolding(crate::specs::Phase::phase_name))]
    pub fn name(self) -> &'static str
        ensures { result.now ≡ phase_name self }
    {
        match self {
            Phase::Validate => "validate",
            Phase::Initialize => "initialize",
            Phase::GenerateSources => "generate-sources",
            Phase::ProcessSources => "process-sources",
            Phase::GenerateResources => "generate-resources",
            Phase::ProcessResources => "process-resources",
            Phase::Compile => "compile",
            Phase::ProcessClasses => "process-classes",
            Phase::GenerateTestSources => "generate-test-sources",
            Phase::ProcessTestSources => "process-test-sources",
            Phase::GenerateTestResources => "generate-test-resources",
            Phase::ProcessTestResources => "process-test-resources",
            Phase::TestCompile => "test-compile",
            Phase::ProcessTestClasses => "process-test-classes",
            Phase::Test => "test",
            Phase::PreparePackage => "prepare-package",
            Phase::Package => "package",
            Phase::PreIntegrationTest => "pre-integration-test",
            Phase::IntegrationTest => "integration-test",
            Phase::PostIntegrationTest => "post-integration-test",
            Phase::Verify => "verify",
            Phase::Install => "install",
            Phase::Deploy => "deploy",
        }
    }
}

impl fmt::Display for Phase {
    ghost use Rattle.std.specs.Prelude.{Some};
    ghost use Rattle.mvn_base.specs.Phase.{phase_name};

    ghost output = { λ phase. Some (phase_name phase) };

    fn fmt<W: fmt::Write>(&self, f: &mut fmt::Formatter<W>) -> fmt::Result {
        let name = self.name();
        write!(f, "{name}")
    }
}

/// All phases, in order.
const PHASES: [Phase; 23] = [
    Phase::Validate,
    Phase::Initialize,
    Phase::GenerateSources,
    Phase::ProcessSources,
    Phase::GenerateResources,
    Phase::ProcessResources,
    Phase::Compile,
    Phase::ProcessClasses,
    Phase::GenerateTestSources,
    Phase::ProcessTestSources,
    Phase::GenerateTestResources,
    Phase::ProcessTestResources,
    Phase::TestCompile,
    Phase::ProcessTestClasses,
    Phase::Test,
    Phase::PreparePackage,
    Phase::Package,
    Phase::PreIntegrationTest,
    Phase::IntegrationTest,
    Phase::PostIntegrationTest,
    Phase::Verify,
    Phase::Install,
    Phase::Deploy,
];

// The first of these phases that the word names.
fn phase_among(phases: &[Phase], word: &[u8]) -> Option<Phase>
    ensures { result ≡ find (λ phase. pointwise nat_eq word.now (phase_name phase)) phases.now }
{
    for phase in phases {
        if word == phase.name().as_bytes() {
            return Some(*phase);
        }
    }
    None
}

/// The phase that a word names; none exactly where it names none. No memory.
#[tactic(auto, unfolding(crate::specs::Phase::phase_of))]
pub fn phase_of(word: &[u8]) -> Option<Phase>
    ensures { result ≡ phase_of word.now }
{
    phase_among(&PHASES, word)
}
