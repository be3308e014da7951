// The law that a run publishes each name once.
ghost use Rattle.std.specs.Prelude.{◌≡◌, List, map, ◌++◌};
ghost use Rattle.mvn_outside.specs.Shelf.{files_now};
ghost use Rattle.mvn_outside.specs.declared.shelf.ShelfTold.{ShelfTold};
ghost use Rattle.build_core.specs.declared.plan.Plan.{Plan};
ghost use Rattle.event_core.specs.Runs.{IsRunOf, contents};
ghost use Rattle.event_core.specs.SoundPlans.{IsSoundPlan};
ghost use Rattle.event_core.specs.declared.entry.RunEntry.{RunEntry};
ghost use Rattle.board.specs.Logs.{publishes_in};
ghost use Rattle.crew.specs.Once.{AreApart};

/// A law: a run publishes no name twice; and a repository that tells the run's publishes after those that it told at
/// the start has the files that the run leaves. Does nothing. Project rule.
pub fn names_are_published_once()
    ensures once { (plan : Plan) (run : List RunEntry) → IsSoundPlan plan → IsRunOf plan run
        → AreApart (map (λ p. p.name) (publishes_in plan run)) }
    ensures files { (plan : Plan) (run : List RunEntry) (told : ShelfTold)
        → files_now (record told { publishes = told.publishes ++ publishes_in plan run })
        ≡ contents plan (files_now told) run }
{}
