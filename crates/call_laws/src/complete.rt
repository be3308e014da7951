// The law of a call in which nothing fails.
ghost use Rattle.std.specs.Prelude.{◌≡◌, ◌≢◌, ℕ, List, Option, Result, Some};
ghost use Rattle.mvn_outside.specs.declared.shelf.ShelfTold.{ShelfTold};
ghost use Rattle.build_core.specs.declared.event.Answered.{Answered};
ghost use Rattle.build_core.specs.declared.event.Event.{Event};
ghost use Rattle.cli_words.specs.declared.command_line.CommandLine.{CommandLine};
ghost use Rattle.build_outcome.specs.declared.outcome.Outcome.{Outcome};
ghost use Rattle.call_plan.specs.Seen.{After, Seen};
ghost use Rattle.call_laws.specs.Complete.{EndsCall, IsAnswered, NothingFailed};

/// A law of completeness: where no count of a device rose, and memory didn't run out, a call is answered in full, and
/// with a status below 3: by the fault of the words or the refusal of the project with 2, or by the report of a run of
/// the plan with 0 or 1. It follows from the clauses `causes`, `fault` and `bound` of `mvn`, where the repository
/// tells. Does nothing. Project rule.
pub fn calls_without_faults_are_answered()
    ensures { (asked : Result CommandLine Outcome) (seen : Seen) (after : After) (told : ShelfTold)
        (trace : List Event) (answers : List Answered) (status : ℕ)
        (before now : Option (List ℕ)) (sink_before sink_now : ℕ)
        → EndsCall asked seen after trace answers status before now sink_before sink_now
        → seen.outside.shelf ≡ Some told
        → NothingFailed asked seen after sink_before sink_now
        → status ≢ 4
        → IsAnswered asked seen after trace answers status before now }
{}
