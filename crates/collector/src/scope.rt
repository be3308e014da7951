//! `Scope`: where a dependency is needed, and the words for it.

ghost use Rattle.std.specs.Prelude.{◌≡◌};
ghost use Rattle.managed_deps.specs.Managed.{is_scope};
ghost use Rattle.collector.specs.Edges.{scope_named, scope_of};

use mvn_shared::Text;

/// Where a dependency is needed. Introduction to the Dependency Mechanism, "Dependency Scope".
#[derive(Clone, Copy)]
pub enum Scope {
    Compile,
    Provided,
    Runtime,
    Test,
}

// Whether a scope is stated, and is this one.
pub fn is_scope(scope: &Option<Text>, name: &str) -> bool
    ensures { result ≡ is_scope name.now scope.now }
{
    match scope {
        Some(scope) => scope.as_str() == name,
        None => false,
    }
}

// The scope of a name.
fn scope_named(name: &str) -> Scope
    ensures { result ≡ scope_named name.now }
{
    if name == "provided" {
        Scope::Provided
    } else if name == "runtime" {
        Scope::Runtime
    } else if name == "test" {
        Scope::Test
    } else {
        Scope::Compile
    }
}

// The scope that is stated, `compile` where none is.
pub fn scope_of(scope: &Option<Text>) -> Scope
    ensures { result ≡ scope_of scope.now }
{
    match scope {
        Some(name) => scope_named(name.as_str()),
        None => Scope::Compile,
    }
}
