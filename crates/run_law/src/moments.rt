// The law that nothing in a run goes back, from one moment to a later one.
ghost use Rattle.std.specs.Prelude.{◌≡◌, ℕ, List, ◌++◌, true, false};
ghost use Rattle.build_core.specs.declared.event.Event.{Event};
ghost use Rattle.build_core.specs.declared.event.Event.TheVariants.{Publish};
ghost use Rattle.build_core.specs.declared.plan.Plan.{Plan};
ghost use Rattle.event_core.specs.declared.entry.RunEntry.{RunEntry};
ghost use Rattle.event_core.specs.Enabled.{Enabled};
ghost use Rattle.scripts.specs.Outlines.{outline_of};
ghost use Rattle.event_core.specs.Runs.{IsComplete, IsRunOf, contents, events_of, standing_of_run};
ghost use Rattle.event_core.specs.SoundPlans.{IsSoundPlan};
ghost use Rattle.event_core.specs.HowFar.{is_over, progress_of};
ghost use Rattle.event_core.specs.Worlds.{was_published};
ghost use Rattle.run_law.specs.Given.{Given, IsBetween, IsFitting, outputs_after};

/// A law: nothing in a run goes back. At each moment of a fitting run each file is as at the start or as after the
/// whole run; a file is published once; a module that has ended, or was skipped, stays so and keeps the same outputs;
/// and a complete run can't go on. Does nothing. Project rule.
pub fn nothing_goes_back()
    ensures files { (g : Given) (past rest : List RunEntry) → IsFitting g (past ++ rest)
        → IsBetween g.start (contents g.plan g.start (past ++ rest))
        (contents g.plan g.start past) }
    ensures once { (plan : Plan) (past : List RunEntry) (w file : ℕ) → IsSoundPlan plan
        → IsRunOf plan past → Enabled (outline_of plan) (events_of past) (Publish w file)
        → was_published past file ≡ false }
    ensures over { (plan : Plan) (past rest : List RunEntry) (number : ℕ)
        → IsRunOf plan (past ++ rest)
        → is_over (progress_of (standing_of_run plan past).progress number) ≡ true
        → progress_of (standing_of_run plan (past ++ rest)).progress number
        ≡ progress_of (standing_of_run plan past).progress number }
    ensures outputs { (plan : Plan) (past rest : List RunEntry) (number : ℕ)
        → IsRunOf plan (past ++ rest)
        → is_over (progress_of (standing_of_run plan past).progress number) ≡ true
        → outputs_after plan (past ++ rest) number ≡ outputs_after plan past number }
    ensures ends { (plan : Plan) (run : List RunEntry) (e : Event) → IsRunOf plan run
        → IsComplete plan run → Enabled (outline_of plan) (events_of run) e → ⊥ }
{}
