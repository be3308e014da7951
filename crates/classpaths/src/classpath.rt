//! The compile, runtime and test classpaths of a project, by the scopes of its dependencies.

ghost use Rattle.std.specs.Prelude.{◌≡◌, IfOk};
ghost use Rattle.classpaths.specs.Classpaths.{classpath, has_scope, is_on};

use crate::resolution::{Resolution, Resolved};
use collector::Scope;
use mvn_base::handler;
use mvn_shared::{List, Mem};
use std::alloc::Global;

/// Which classpath. Introduction to the Dependency Mechanism, "Dependency Scope".
#[derive(Clone, Copy)]
pub enum Kind {
    Compile,
    Runtime,
    Test,
}

// Whether a classpath has the dependencies of a scope.
fn has_scope(kind: Kind, scope: Scope) -> bool
    ensures { result ≡ has_scope kind scope }
{
    match (kind, scope) {
        (Kind::Compile, Scope::Compile | Scope::Provided) => true,
        (Kind::Runtime, Scope::Compile | Scope::Runtime) => true,
        (Kind::Test, _) => true,
        _ => false,
    }
}

// Whether a dependency is on a classpath.
fn is_on(alloc: Global, kind: Kind, winner: &Resolved) -> Mem<bool>
    ensures { IfOk result (λ it. it ≡ is_on kind winner.now) }
{
    let rule = handler(alloc, &winner.kind)?;
    Ok(has_scope(kind, winner.scope) && rule.on_classpath)
}

impl Resolution {
    /// The places of the winners that are on a classpath, in order: compile has the scopes compile and provided,
    /// runtime has compile and runtime, test has all; of types that classes are loaded from alone. Costs the winners'
    /// types. Introduction to the Dependency Mechanism, "Dependency Scope"; Maven's default artifact handlers.
    pub fn classpath(&self, alloc: Global, kind: Kind) -> Mem<List<usize>>
        ensures { IfOk result (λ places. places ≡ classpath kind self.now.winners) }
    {
        let mut places = List::new(alloc);
        let winners = self.winners.as_slice();
        for at in 0..winners.len() {
            if is_on(alloc, kind, &winners[at])? {
                places.push(at)?;
            }
        }
        Ok(places)
    }
}
