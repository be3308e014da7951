//! A dependency that a POM states, and the exclusions below it.

ghost use Rattle.std.specs.Prelude.{◌≡◌};

use mvn_shared::{List, Text};
use std::alloc::AllocError;

/// What a POM states of an artifact that it needs. POM Reference, "Dependencies".
#[derive(Drop)]
pub struct Dependency {
    pub group: Text,
    pub artifact: Text,
    /// None where management is to give it.
    pub version: Option<Text>,
    /// The declared type, `jar` where none is.
    pub kind: Text,
    /// Empty where none is declared.
    pub classifier: Text,
    /// None where management or the default is to give it.
    pub scope: Option<Text>,
    /// Optional where the text is `true`.
    pub optional: Text,
    pub exclusions: List<Exclusion>,
}

/// What is left out below a dependency; `*` stands for any. POM Reference, "Exclusions".
#[derive(Drop)]
pub struct Exclusion {
    pub group: Text,
    pub artifact: Text,
}

impl Clone for Exclusion {
    ghost is_clone = { λ exclusion copy. copy ≡ exclusion };

    fn clone(&self) -> Result<Exclusion, AllocError> {
        let group = self.group.clone()?;
        let artifact = self.artifact.clone()?;
        Ok(Exclusion { group, artifact })
    }
}
