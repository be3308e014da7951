//! `Link`: a declaration as a step of a walk, and the scope that it brings.

ghost use Rattle.std.specs.Prelude.{◌≡◌, ◌≤◌};
ghost use Rattle.resolution.specs.Walks.{rank, scope_below, walked};

use collector::Scope;

/// What a declaration leads to: a dependency at a place, in a scope.
#[derive(Clone, Copy)]
pub struct Link {
    /// The place of the dependency that it leads to.
    pub to: usize,
    pub scope: Scope,
    /// Whether the project's management gives the scope.
    pub managed_scope: bool,
}

// How wide a scope is: the widest has the least rank.
pub(crate) fn rank(scope: Scope) -> usize
    ensures value { result ≡ rank scope }
    ensures few { result ≤ 3 }
{
    match scope {
        Scope::Compile => 0,
        Scope::Runtime => 1,
        Scope::Provided => 2,
        Scope::Test => 3,
    }
}

// The scope of a dependency below one of a scope.
fn scope_below(above: Scope, declared: Scope) -> Scope
    ensures { result ≡ scope_below above declared }
{
    match (above, declared) {
        (Scope::Compile, Scope::Runtime) => Scope::Runtime,
        _ => above,
    }
}

/// The scope that a link brings, below a scope: a managed one, or else that above it, or runtime where the link is of
/// that scope below compile. Constant time. Introduction to the Dependency Mechanism, "Dependency Scope".
pub fn walked(above: Scope, link: &Link) -> Scope
    ensures { result ≡ walked above link.now }
{
    if link.managed_scope {
        link.scope
    } else {
        scope_below(above, link.scope)
    }
}
