//! Texts that may be missing, scopes by name, and whether a POM is one of the project.

ghost use Rattle.std.specs.Prelude.{◌≡◌, [], unwrap_or, IfOk};
ghost use Rattle.managed_deps.specs.Managed.{is_scope};
ghost use Rattle.profiles.specs.Activation.{is_of_project};

use mvn_base::PomId;
use mvn_shared::{Mem, Text};
use std::alloc::Global;

// A text, or an empty one if there is none.
pub fn text_or_empty(alloc: Global, text: &Option<Text>) -> Mem<Text>
    ensures { IfOk result (λ it. it ≡ unwrap_or text.now []) }
{
    match text {
        Some(text) => Ok(text.clone()?),
        None => Text::from_str(alloc, ""),
    }
}

// Whether a scope is stated and has this name.
pub fn is_scope(scope: &Option<Text>, name: &str) -> bool
    ensures { result ≡ is_scope name.now scope.now }
{
    match scope {
        Some(scope) => scope.as_str() == name,
        None => false,
    }
}

// Whether a POM is one of the project.
pub fn is_of_project(pom: &PomId) -> bool
    ensures { result ≡ is_of_project pom.now }
{
    match pom {
        PomId::Path(_) => true,
        PomId::Gav(_) => false,
    }
}
