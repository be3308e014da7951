//! The laws that a call has one plan, and one outcome by the answers of its goals.

ghost use Rattle.std.specs.Prelude.{◌≡◌, Result};
ghost use Rattle.build_plan.specs.Planning.{IsSaid, Plans};
ghost use Rattle.build_plan.specs.declared.planning.PlanFault.{PlanFault};
ghost use Rattle.cli_words.specs.declared.command_line.CommandLine.{CommandLine};
ghost use Rattle.mvn_shared.specs.Files.{Files};
ghost use Rattle.build_outcome.specs.declared.outcome.Outcome.{Outcome};
ghost use Rattle.mvn_base.specs.declared.machine.Machine.{Machine};
ghost use Rattle.call_plan.specs.Found.{IsFound};
ghost use Rattle.module_plan.specs.declared.selected.Planned.{Planned};
ghost use Rattle.pom_source.specs.declared.found.Given.{Given};

/// A law of plans: the files of a project's folder, of the local repository and of the remote one, the machine, the
/// properties that are defined, the profiles that are chosen and the words of a command line have one plan; or one
/// first refusal, or one word that means no module. Of a device that failed and of want of memory nothing is said. Does
/// nothing. Guide to Working with Multiple Modules; Introduction to the Build Lifecycle.
pub fn one_plan()
    ensures { (tree local remote : Files) (given : Given) (line : CommandLine)
        (one other : Result Planned PlanFault)
        → Plans tree local remote given line one → Plans tree local remote given line other
        → IsSaid one → IsSaid other → one ≡ other }
{}

/// A law of calls: what the words ask for, the files of the project's folder, of both repositories and the machine have
/// one plan that is built, or one outcome in its place. So the outcome that `mvn` is held to is one, by the answers of
/// its goals. Does nothing. Project rule.
pub fn one_outcome()
    ensures { (asked : Result CommandLine Outcome) (tree start remote : Files) (machine : Machine)
        (one other : Result Planned Outcome) → IsFound asked tree start remote machine one
        → IsFound asked tree start remote machine other → one ≡ other }
{}
