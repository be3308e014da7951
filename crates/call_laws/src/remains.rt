// The law of what a call leaves, and what a stop in it leaves.
ghost use Rattle.std.specs.Prelude.{List, Result};
ghost use Rattle.mvn_shared.specs.Files.{Files};
ghost use Rattle.mvn_outside.specs.Shelf.{Between};
ghost use Rattle.build_core.specs.declared.event.Answered.{Answered};
ghost use Rattle.build_core.specs.declared.event.Event.{Event};
ghost use Rattle.cli_words.specs.declared.command_line.CommandLine.{CommandLine};
ghost use Rattle.build_outcome.specs.declared.outcome.Outcome.{Outcome};
ghost use Rattle.call_plan.specs.Headline.{IsHistory, World};
ghost use Rattle.call_plan.specs.Seen.{After, Seen};
ghost use Rattle.module_plan.specs.declared.selected.Planned.{Planned};
ghost use Rattle.call_laws.specs.Reruns.{IsBehind, LeavesBehind};

/// A law, in the words of `mvn`'s clauses: whatever its status, after faults of devices and for want of memory too, a
/// call leaves files between the start and what the whole call leaves, and so does a stop in it. So does a stop in a
/// call that is made again: files between those before it and those after it. So the call may be made again over
/// them. Does nothing. Project rule.
pub fn calls_leave()
    ensures history { (asked : Result CommandLine Outcome) (seen : Seen) (after : After)
        (trace : List Event) (kept : List Answered) → IsHistory asked seen after trace kept
        → LeavesBehind asked seen after.outside.shelf kept }
    ensures stop { (world : World) (found : Result Planned Outcome) (low files high : Files)
        → IsBehind world found low → IsBehind world found high → Between low files high
        → IsBehind world found files }
{}
