// The law that says how modules end without an order of events.
ghost use Rattle.std.specs.Prelude.{◌≡◌, ℕ, ◌<◌, List, length, false};
ghost use Rattle.goal_types.specs.declared.goal.OwnBytes.{OwnBytes};
ghost use Rattle.build_core.specs.declared.ending.State.{State};
ghost use Rattle.build_core.specs.declared.plan.Plan.{Plan};
ghost use Rattle.build_core.specs.OneThread.{Supply, one_thread};
ghost use Rattle.event_core.specs.declared.entry.RunEntry.{RunEntry};
ghost use Rattle.event_core.specs.Runs.{IsComplete, answers_in};
ghost use Rattle.event_core.specs.SoundPlans.{IsSoundPlan};
ghost use Rattle.run_law.specs.Closed.{AllJudged, AreJudged, outputs_at, state_at};
ghost use Rattle.run_law.specs.Given.{Answers, Extends, Given, IsFitting, is_fault, outputs_after, state_after, supply_by};

/// A law: the closed form is one. The sequential build stands as it is judged; so does a complete fitting run, but for the modules
/// that ended by a fault or for want of memory; and all modules of a sound plan stand as judged in one way alone. Does nothing. Project
/// rule.
pub fn one_closed_form()
    ensures hand { (plan : Plan) (supply : Supply) → IsSoundPlan plan
        → AllJudged plan supply (state_at (one_thread plan supply))
        (outputs_at (one_thread plan supply)) }
    ensures run { (g : Given) (run : List RunEntry) (said : Answers) → IsFitting g run
        → IsComplete g.plan run → Extends (answers_in g.plan run) said
        → AreJudged g.plan (supply_by g.start g.remote said)
        (λ number. is_fault (state_after g.plan run number) ≡ false)
        (state_after g.plan run) (outputs_after g.plan run) }
    ensures states { (plan : Plan) (supply : Supply) (states others : ℕ → State)
        (outputs kept : ℕ → List OwnBytes) → IsSoundPlan plan
        → AllJudged plan supply states outputs → AllJudged plan supply others kept
        → (number : ℕ) → number < length plan.modules → states number ≡ others number }
    ensures outputs { (plan : Plan) (supply : Supply) (states others : ℕ → State)
        (outputs kept : ℕ → List OwnBytes) → IsSoundPlan plan
        → AllJudged plan supply states outputs → AllJudged plan supply others kept
        → (number : ℕ) → number < length plan.modules → outputs number ≡ kept number }
{}
