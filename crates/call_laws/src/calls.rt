// Laws of a call that is made again.
ghost use Rattle.std.specs.Prelude.{◌≡◌, ℕ, Bool, List, Option, Result};
ghost use Rattle.mvn_base.specs.declared.machine.Machine.{Machine};
ghost use Rattle.mvn_shared.specs.Files.{Files};
ghost use Rattle.build_core.specs.declared.event.Answered.{Answered};
ghost use Rattle.cli_words.specs.declared.command_line.CommandLine.{CommandLine};
ghost use Rattle.build_outcome.specs.declared.outcome.Outcome as answers;
ghost use Rattle.call_plan.specs.Found.{IsFound};
ghost use Rattle.call_plan.specs.Headline.{IsCall, World, files_after, outcome};
ghost use Rattle.module_plan.specs.declared.selected.Planned.{Planned};
ghost use Rattle.call_laws.specs.Again.{found_over, world_over};
ghost use Rattle.call_laws.specs.Reruns.{IsBehind, IsCallAgain, IsFirst};

/// A law: a call that is made again ends as it would have from the start. Over files that a call or a stop left, what
/// is asked finds the same plan, but that it says anew which of its files are there, or the same answer in its place;
/// and with the same answers of the goals the text, the status and the files that are left are those of the call from
/// the start. It may be made again after that, too. Does nothing. Project rule.
pub fn outcomes_again()
    ensures found { (asked : Result CommandLine answers.Outcome) (world : World)
        (found other : Result Planned answers.Outcome) (files : Files)
        → IsFirst asked world found → IsBehind world found files
        → IsFound asked world.tree files world.remote world.machine other
        → other ≡ found_over files found }
    ensures outcome { (asked : Result CommandLine answers.Outcome) (world : World)
        (found other : Result Planned answers.Outcome) (files : Files) (full : Bool)
        → IsFirst asked world found → IsBehind world found files
        → IsFound asked world.tree files world.remote world.machine other
        → outcome full (world_over files world) other ≡ outcome full world found }
    ensures files { (asked : Result CommandLine answers.Outcome) (world : World)
        (found other : Result Planned answers.Outcome) (files : Files)
        → IsFirst asked world found → IsBehind world found files
        → IsFound asked world.tree files world.remote world.machine other
        → files_after (world_over files world) other ≡ files_after world found }
    ensures once_more { (asked : Result CommandLine answers.Outcome) (world : World)
        (found : Result Planned answers.Outcome) (files : Files)
        → IsFirst asked world found → IsBehind world found files
        → IsFirst asked (world_over files world) (found_over files found) }
{}

/// A law, in the words of `mvn`'s clauses: a call over the files that a call or a stop left, which answers so, writes
/// so and leaves such files, is one that does so over the files at the start, with the same answers of the goals. Does
/// nothing. Project rule.
pub fn calls_again()
    ensures { (asked : Result CommandLine answers.Outcome) (tree remote before : Files)
        (machine : Machine) (kept : List Answered) (status : ℕ)
        (written now : Option (List ℕ)) (after : Files)
        → IsCall asked tree remote machine kept status written now before after
        → IsCallAgain asked tree remote machine kept status written now before after }
{}
