// The law that the sequential build, made again over what a stop left, ends as before.
ghost use Rattle.std.specs.Prelude.{◌≡◌};
ghost use Rattle.mvn_shared.specs.Files.{Files};
ghost use Rattle.build_core.specs.declared.plan.Plan.{Plan};
ghost use Rattle.build_core.specs.OneThread.{one_thread};
ghost use Rattle.event_core.specs.SoundPlans.{IsSoundPlan};
ghost use Rattle.run_law.specs.Given.{Answers, IsBetween, supply_by};

/// A law: over one sound plan, with the same remote and the same answers, the sequential build from any files between the start and
/// its end, as a stop may leave them, ends as it did from the start: the same states, outputs and files. Does nothing. Project rule.
pub fn again_the_same()
    ensures { (plan : Plan) (start between remote : Files) (said : Answers) → IsSoundPlan plan
        → IsBetween start (one_thread plan (supply_by start remote said)).files between
        → one_thread plan (supply_by between remote said)
        ≡ one_thread plan (supply_by start remote said) }
{}
