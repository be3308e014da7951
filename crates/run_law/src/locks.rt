// The law of names that one worker holds alone.
ghost use Rattle.std.specs.Prelude.{◌≡◌, ℕ, ◌<◌, List, slice_get, Some, is_some, true, false};
ghost use Rattle.build_core.specs.declared.mode.Mode.TheVariants.{Exclusive};
ghost use Rattle.build_core.specs.Locks.{hold};
ghost use Rattle.build_core.specs.declared.event.Event.{Event};
ghost use Rattle.build_core.specs.declared.event.Event.TheVariants.{Publish};
ghost use Rattle.build_core.specs.declared.plan.Plan.{Plan};
ghost use Rattle.build_core.specs.declared.plan.PlanModule.{PlanModule};
ghost use Rattle.event_core.specs.declared.entry.RunEntry.{RunEntry};
ghost use Rattle.event_core.specs.Enabled.{Enabled};
ghost use Rattle.scripts.specs.Outlines.{is_listed, outline_of};
ghost use Rattle.event_core.specs.Runs.{IsRunOf, events_of, module_by, standing_of_run};
ghost use Rattle.scripts.specs.Scripts.{is_there};
ghost use Rattle.event_core.specs.SoundPlans.{IsSoundPlan};
ghost use Rattle.event_core.specs.Standing.{after};
ghost use Rattle.run_law.specs.Given.{IsCover, IsFetched};

/// A law: locks guard what is fetched. Who holds a name alone is its only holder; a worker publishes a fetched file only while it
/// holds each name of its module's batch alone; and where a worker holds alone a name that covers a fetched file, the file comes there
/// by that worker's publish and by no other event. Does nothing. Resolver, "Named Locks".
pub fn locks_guard()
    ensures alone { (plan : Plan) (past : List RunEntry) (n w v : ℕ) → IsSoundPlan plan
        → IsRunOf plan past → w < plan.workers → v < plan.workers
        → hold (standing_of_run plan past).locks n w ≡ Some Exclusive
        → is_some (hold (standing_of_run plan past).locks n v) ≡ true → v ≡ w }
    ensures fetched { (plan : Plan) (past : List RunEntry) (w file n number : ℕ) (m : PlanModule)
        → IsSoundPlan plan → IsRunOf plan past
        → Enabled (outline_of plan) (events_of past) (Publish w file)
        → module_by plan past w ≡ Some number → slice_get plan.modules number ≡ Some m
        → is_listed file m.fetch ≡ true → is_listed n m.batch ≡ true
        → hold (standing_of_run plan past).locks n w ≡ Some Exclusive }
    ensures absent { (plan : Plan) (past : List RunEntry) (v n file : ℕ) (e : Event)
        → IsSoundPlan plan → IsRunOf plan past → IsFetched plan file → IsCover plan n file
        → v < plan.workers → hold (standing_of_run plan past).locks n v ≡ Some Exclusive
        → is_there (standing_of_run plan past).there file ≡ false
        → Enabled (outline_of plan) (events_of past) e
        → is_there (after (outline_of plan) (standing_of_run plan past) e).there file ≡ true
        → e ≡ Publish v file }
{}
