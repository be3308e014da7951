// What entries of other workers leave as it was.
ghost use Rattle.std.specs.Prelude.{◌≡◌, ℕ, List, ◌++◌, Option, Some, slice_get, map, nat_lt, true};
ghost use Rattle.mvn_shared.specs.Files.{Files, file_at};
ghost use Rattle.goal_types.specs.declared.goal.GoalCall.{GoalCall};
ghost use Rattle.goal_types.specs.declared.goal.OwnBytes.{OwnBytes};
ghost use Rattle.build_core.specs.OneThread.{name_of, path_entry, request};
ghost use Rattle.build_core.specs.declared.plan.Plan.{Plan};
ghost use Rattle.build_core.specs.declared.plan.PlanModule.{PlanModule};
ghost use Rattle.event_core.specs.declared.entry.RunEntry.{RunEntry};
ghost use Rattle.scripts.specs.Outlines.{is_listed};
ghost use Rattle.event_core.specs.Runs.{IsRunOf, answers_in, contents, goals_in, module_by, outputs_in, standing_of_run};
ghost use Rattle.scripts.specs.Scripts.{Script, is_there, stage_of};
ghost use Rattle.event_core.specs.SoundPlans.{IsSoundPlan};
ghost use Rattle.event_core.specs.Standing.{course_of, held_by, on_course};
ghost use Rattle.event_core.specs.Worlds.{was_published};
ghost use Rattle.run_law.specs.Given.{IsFetched, outputs_after};
ghost use Rattle.run_law.specs.Others.{AreOthers, HasAll};

/// A law: other workers leave alone what a worker builds from. After entries of others it is at the same place of the
/// same script and holds the same names; the goals of its module stand as they did; what its upstreams kept, and each
/// fetched file that was there, has the same bytes. So where all files of its module's fetch list are there, as they
/// are from the reading on, the entries of its classpath and each request that a goal is asked with stay as they are.
/// Does nothing. Project rule.
pub fn others_leave_alone()
    ensures course { (plan : Plan) (past rest : List RunEntry) (w : ℕ) → AreOthers w rest
        → course_of (standing_of_run plan (past ++ rest)) w
        ≡ course_of (standing_of_run plan past) w }
    ensures held { (plan : Plan) (past rest : List RunEntry) (w : ℕ) → AreOthers w rest
        → held_by (standing_of_run plan (past ++ rest)) w ≡ held_by (standing_of_run plan past) w }
    ensures goals { (plan : Plan) (past rest : List RunEntry) (w number : ℕ) (m : PlanModule)
        → IsRunOf plan (past ++ rest) → AreOthers w rest → module_by plan past w ≡ Some number
        → goals_in (answers_in plan (past ++ rest)) number m
        ≡ goals_in (answers_in plan past) number m }
    ensures there { (plan : Plan) (past rest : List RunEntry) (f : ℕ) → IsRunOf plan (past ++ rest)
        → is_there (standing_of_run plan past).there f ≡ true
        → is_there (standing_of_run plan (past ++ rest)).there f ≡ true }
    ensures published { (past rest : List RunEntry) (f : ℕ) → was_published past f ≡ true
        → was_published (past ++ rest) f ≡ true }
    ensures files { (plan : Plan) (start : Files) (past rest : List RunEntry) (f : ℕ)
        → IsSoundPlan plan → IsRunOf plan (past ++ rest) → IsFetched plan f
        → is_there (standing_of_run plan past).there f ≡ true
        → file_at (contents plan start (past ++ rest)) (name_of plan f)
        ≡ file_at (contents plan start past) (name_of plan f) }
    ensures upstreams { (plan : Plan) (past rest : List RunEntry) (w number u : ℕ) (m : PlanModule)
        → IsRunOf plan (past ++ rest) → module_by plan past w ≡ Some number
        → slice_get plan.modules number ≡ Some m → is_listed u m.upstream ≡ true
        → outputs_after plan (past ++ rest) u ≡ outputs_after plan past u }
    ensures gathered { (plan : Plan) (past : List RunEntry) (w number : ℕ) (m : PlanModule)
        (script : Script) (last : Option ℕ) → IsSoundPlan plan → IsRunOf plan past
        → course_of (standing_of_run plan past) w ≡ on_course number script last
        → slice_get plan.modules number ≡ Some m → nat_lt 3 (stage_of script) ≡ true
        → HasAll plan past m }
    ensures entries { (plan : Plan) (start : Files) (past rest : List RunEntry) (w number : ℕ)
        (m : PlanModule) → IsSoundPlan plan → IsRunOf plan (past ++ rest)
        → module_by plan past w ≡ Some number → slice_get plan.modules number ≡ Some m
        → HasAll plan past m
        → map (path_entry plan (contents plan start (past ++ rest))
        (outputs_in plan (past ++ rest))) m.entries
        ≡ map (path_entry plan (contents plan start past) (outputs_in plan past)) m.entries }
    ensures request { (plan : Plan) (start : Files) (past rest : List RunEntry) (w number : ℕ)
        (m : PlanModule) (call : GoalCall) (own : List OwnBytes) → IsSoundPlan plan
        → IsRunOf plan (past ++ rest) → module_by plan past w ≡ Some number
        → slice_get plan.modules number ≡ Some m → HasAll plan past m
        → request plan (contents plan start (past ++ rest)) (outputs_in plan (past ++ rest)) m call
        own ≡ request plan (contents plan start past) (outputs_in plan past) m call own }
{}
