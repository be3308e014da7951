//! The law that a project and a command line have one list of modules that are built.

ghost use Rattle.std.specs.Prelude.{◌≡◌, List, Result, Err};
ghost use Rattle.reactor.specs.declared.ordering.BuildOrder.{BuildOrder};
ghost use Rattle.classpaths.specs.declared.resolution.Resolution.{Resolution};
ghost use Rattle.cli_words.specs.declared.command_line.CommandLine.{CommandLine};
ghost use Rattle.model_types.specs.declared.model.Model.{Model};
ghost use Rattle.mvn_base.specs.declared.fault.ModelError.{ModelError};
ghost use Rattle.mvn_base.specs.declared.fault.ModelError.TheVariants as errors;
ghost use Rattle.reactor.specs.Reactor.{Answers, Orders};
ghost use Rattle.reactor.specs.declared.modules.ReactorFault.{ReactorFault};
ghost use Rattle.reactor.specs.declared.modules.ReactorFault.TheVariants as faults;
ghost use Rattle.reactor.specs.declared.modules.ReactorModules.{ReactorModules};

/// A law of the reactor: the models of a project's modules and what their dependencies lead to have one order, or one circle that
/// they are refused for. Together with a command line they have one list of modules that are built, with one list of what each stands
/// on; or one first refusal, or one word that means no module. Of want of memory nothing is said. Does nothing. Guide to Working with
/// Multiple Modules, "Reactor Sorting" and "Command Line Options".
pub fn one_reactor()
    ensures order { (modules : List Model) (resolutions : List Resolution)
        (one other : Result BuildOrder ModelError)
        → Orders modules resolutions one → Orders modules resolutions other
        → (one ≡ Err errors.Memory → ⊥) → (other ≡ Err errors.Memory → ⊥) → one ≡ other }
    ensures built { (modules : List Model) (resolutions : List Resolution) (line : CommandLine)
        (one other : Result ReactorModules ReactorFault)
        → Answers modules resolutions line one → Answers modules resolutions line other
        → (one ≡ Err faults.Memory → ⊥) → (other ≡ Err faults.Memory → ⊥) → one ≡ other }
{}
