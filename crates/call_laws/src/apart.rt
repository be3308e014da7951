// The law of a call with faults, beside the build by one hand.
ghost use Rattle.std.specs.Prelude.{◌≡◌, ◌⊎◌, List, Result, Some};
ghost use Rattle.mvn_shared.specs.Files.{Files};
ghost use Rattle.mvn_outside.specs.declared.shelf.ShelfTold.{ShelfTold};
ghost use Rattle.build_core.specs.declared.event.Answered.{Answered};
ghost use Rattle.build_core.specs.declared.event.Event.{Event};
ghost use Rattle.cli_words.specs.declared.command_line.CommandLine.{CommandLine};
ghost use Rattle.crew.specs.CrewOutcomes.{AllTellFiles};
ghost use Rattle.build_outcome.specs.Left.{IsIdle};
ghost use Rattle.build_outcome.specs.declared.outcome.Outcome.{Outcome};
ghost use Rattle.call_plan.specs.Headline.{IsHistory};
ghost use Rattle.call_plan.specs.Seen.{After, Seen, used};
ghost use Rattle.call_laws.specs.Apart.{FaultsStayApart};

/// A law: whatever fails in a call, and with every status, the clause `history` of `mvn` says that nothing was done, or
/// that a plan was built in which faults stayed apart: each module that neither ended by a fault or for want of memory
/// nor stands on one that did ended as in the build by one thread, and each file is as it was or as that build leaves
/// it. This is so if the repository, the remotes and the staging areas tell, and the remotes the same files. Does
/// nothing. Guide to Working with Multiple Modules, for `--fail-at-end`; project rule.
pub fn faults_stay_apart_in_a_call()
    ensures { (asked : Result CommandLine Outcome) (seen : Seen) (after : After) (told : ShelfTold)
        (remote : Files) (trace : List Event) (answers : List Answered)
        → seen.outside.shelf ≡ Some told
        → AllTellFiles (used asked seen.outside).hands remote
        → IsHistory asked seen after trace answers
        → IsIdle seen.outside after.outside trace answers
        ⊎ FaultsStayApart asked seen after told remote trace answers }
{}
