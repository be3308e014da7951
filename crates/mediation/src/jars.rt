//! What the POMs of libraries come to as jars.

ghost use Rattle.std.specs.Prelude.{◌≡◌, IfOk};
ghost use Rattle.mvn_base.specs.declared.gav.Gav as gavs;
ghost use Rattle.mediation.specs.Jars.{AreJars, jar_row};

use classpaths::Resolved;
use collector::Scope;
use mvn_base::Gav;
use mvn_shared::{Mem, Shared, Text};
use std::alloc::Global;

/// The jar of a POM's coordinates, with each scope.
#[derive(Drop)]
pub struct Jars {
    pub compile: Shared<Resolved>,
    pub provided: Shared<Resolved>,
    pub runtime: Shared<Resolved>,
    pub test: Shared<Resolved>,
}

// The jar of coordinates with a scope.
fn jar_row(alloc: Global, gav: &Gav, scope: Scope) -> Mem<Shared<Resolved>>
    ensures { IfOk result (λ row. row ≡ jar_row gav.now scope) }
{
    let gav = gav.clone()?;
    let kind = Text::from_str(alloc, "jar")?;
    let classifier = Text::from_str(alloc, "")?;
    let row = Resolved {
        gav,
        kind,
        classifier,
        scope,
        pom_found: true,
    };
    Shared::new(alloc, row)
}

// The jar of coordinates with each scope.
pub fn jars_of(alloc: Global, gav: &Gav) -> Mem<Shared<Jars>>
    ensures { IfOk result (λ jars. AreJars gav.now jars) }
{
    let compile = jar_row(alloc, gav, Scope::Compile)?;
    let provided = jar_row(alloc, gav, Scope::Provided)?;
    let runtime = jar_row(alloc, gav, Scope::Runtime)?;
    let test = jar_row(alloc, gav, Scope::Test)?;
    let jars = Jars {
        compile,
        provided,
        runtime,
        test,
    };
    Shared::new(alloc, jars)
}

// The jar with a scope.
pub fn jar_with(jars: &Jars, scope: Scope) -> &Shared<Resolved>
    ensures { (gav : gavs.Gav) → AreJars gav jars.now → result.now ≡ jar_row gav scope }
{
    match scope {
        Scope::Compile => &jars.compile,
        Scope::Provided => &jars.provided,
        Scope::Runtime => &jars.runtime,
        Scope::Test => &jars.test,
    }
}
