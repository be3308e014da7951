//! The law that a module stands on the built modules that its winners are.

ghost use Rattle.std.specs.Prelude.{List};
ghost use Rattle.classpaths.specs.declared.resolution.Resolution as resolution;
ghost use Rattle.cli_words.specs.declared.command_line.CommandLine as line;
ghost use Rattle.model_types.specs.declared.model.Model as model;
ghost use Rattle.reactor.specs.Reactor.{AreBuilt, StandsOnWinners};
ghost use Rattle.reactor.specs.declared.modules.ReactorModules as built;

/// A law of the modules that are built: each stands on all others that are built and that the winners of its dependencies are. So what a
/// module is built with is built before it. It does nothing when it runs.
pub fn winners_are_upstreams()
    ensures { (modules : List model.Model) (resolutions : List resolution.Resolution)
        (words : line.CommandLine) (modules_built : built.ReactorModules) →
        AreBuilt modules resolutions words modules_built →
        StandsOnWinners modules resolutions modules_built }
{}
