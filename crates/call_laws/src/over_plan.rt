// The law of a build that is made again over one plan.
ghost use Rattle.std.specs.Prelude.{◌≡◌, List};
ghost use Rattle.mvn_shared.specs.Files.{Files};
ghost use Rattle.build_core.specs.OneThread.{one_thread};
ghost use Rattle.build_core.specs.declared.plan.Plan.{Plan};
ghost use Rattle.report.specs.declared.details.Details.{Details};
ghost use Rattle.build_outcome.specs.Outcomes.{ran};
ghost use Rattle.event_core.specs.SoundPlans.{IsSoundPlan};
ghost use Rattle.run_law.specs.Given.{Answers, IsBetween, supply_by};
ghost use Rattle.call_laws.specs.Again.{plan_over};

/// A law: over one sound plan, with the same remote and the same answers, the build by one hand from any files between
/// the start and its end ends as it did from the start: all modules stand the same, with the same outputs, the
/// repository has the same files, and the report and the status are the same. The plan may say anew which of its files
/// are there; nothing of the build looks at that. Does nothing. Project rule.
pub fn over_one_plan()
    ensures ends { (plan : Plan) (start between remote : Files) (said : Answers) → IsSoundPlan plan
        → IsBetween start (one_thread plan (supply_by start remote said)).files between
        → one_thread (plan_over between plan) (supply_by between remote said)
        ≡ one_thread plan (supply_by start remote said) }
    ensures outcome { (plan : Plan) (details : List Details) (start between remote : Files)
        (said : Answers) → IsSoundPlan plan
        → IsBetween start (one_thread plan (supply_by start remote said)).files between
        → ran (plan_over between plan) details (supply_by between remote said)
        ≡ ran plan details (supply_by start remote said) }
{}
