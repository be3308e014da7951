// The law of the answers of a call, beside its trace.
ghost use Rattle.std.specs.Prelude.{◌≡◌, List, Result};
ghost use Rattle.build_core.specs.declared.event.Answered.{Answered};
ghost use Rattle.build_core.specs.declared.event.Event.{Event};
ghost use Rattle.cli_words.specs.declared.command_line.CommandLine.{CommandLine};
ghost use Rattle.build_outcome.specs.declared.outcome.Outcome.{Outcome};
ghost use Rattle.call_plan.specs.Headline.{IsHistory};
ghost use Rattle.call_plan.specs.Seen.{After, Seen};
ghost use Rattle.call_laws.specs.Numbered.{AreKeptOnce, goals_of_trace, numbers_of};

/// A law: what the clause `history` of `mvn` says of a call makes its answers those of its trace, one for each event
/// `Answer`, in order, to that goal of the module that the event's worker began last; and no goal of a module is
/// answered twice. With every status, over any objects. Does nothing. Introduction to the Build Lifecycle, for the
/// order of goals; project rule.
pub fn answers_are_the_traces()
    ensures order { (asked : Result CommandLine Outcome) (seen : Seen) (after : After)
        (trace : List Event) (answers : List Answered) → IsHistory asked seen after trace answers
        → numbers_of answers ≡ goals_of_trace trace }
    ensures once { (asked : Result CommandLine Outcome) (seen : Seen) (after : After)
        (trace : List Event) (answers : List Answered) → IsHistory asked seen after trace answers
        → AreKeptOnce answers }
{}
