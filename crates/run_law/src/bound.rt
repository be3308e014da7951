// The law that a sound plan has room for the events of every run.
ghost use Rattle.std.specs.Prelude.{◌≡◌, ◌≤◌, List, length};
ghost use Rattle.build_core.specs.declared.plan.Plan.{Plan};
ghost use Rattle.event_core.specs.declared.entry.RunEntry.{RunEntry};
ghost use Rattle.scripts.specs.Bounds.{most_events};
ghost use Rattle.scripts.specs.Outlines.{outline_of};
ghost use Rattle.event_core.specs.Runs.{IsRunOf};
ghost use Rattle.event_core.specs.SoundPlans.{IsSoundPlan};

/// A law: a sound plan has room for all its events, which is what `event_core`'s `Core::new` asks of a plan, and no run has more
/// entries. Does nothing. Project rule.
pub fn runs_fit_in()
    ensures room { (plan : Plan) → IsSoundPlan plan → most_events (outline_of plan) ≤ plan.events }
    ensures bound { (plan : Plan) (run : List RunEntry) → IsSoundPlan plan → IsRunOf plan run
        → length run ≤ plan.events }
{}
