// How long an ending fits, and what a worker's own entries leave alone.
ghost use Rattle.std.specs.Prelude.{◌≡◌, ℕ, List, [], ◌∷◌, ◌++◌, Option, Some, map, slice_get, true};
ghost use Rattle.mvn_shared.specs.Files.{Files};
ghost use Rattle.goal_types.specs.declared.goal.OwnBytes.{OwnBytes};
ghost use Rattle.build_core.specs.OneThread.{path_entry};
ghost use Rattle.build_core.specs.declared.ending.Ending.{Ending};
ghost use Rattle.build_core.specs.declared.event.Event.TheVariants as event;
ghost use Rattle.build_core.specs.declared.plan.Plan.{Plan};
ghost use Rattle.build_core.specs.declared.plan.PlanModule.{PlanModule};
ghost use Rattle.event_core.specs.declared.entry.Carried.{Carried};
ghost use Rattle.event_core.specs.declared.entry.Carried.TheVariants as carried;
ghost use Rattle.event_core.specs.declared.entry.RunEntry.{RunEntry};
ghost use Rattle.event_core.specs.Runs.{IsRunOf, answers_in, contents, module_by, put_carried, standing_of_run};
ghost use Rattle.event_core.specs.SoundPlans.{IsSoundPlan, is_own};
ghost use Rattle.event_core.specs.Standing.{course_of, off_course};
ghost use Rattle.event_core.specs.Worlds.{FitsEnd, HandTold, IsInstallable, IsWithin, stood};
ghost use Rattle.run_law.specs.Others.{AreOthers, HasAll};

/// A law: what a worker has found out of its module stays so while the other workers go on. A worker that left its script with all
/// files gathered has them all still. Where all files of the fetch list are there, the classpath stays within the limit, nothing comes to
/// stand against installing the module, and any way in which it may end now is one in which it may end later. Does nothing. Project rule.
pub fn endings_stay()
    ensures left { (plan : Plan) (past : List RunEntry) (w number : ℕ) (m : PlanModule)
        (file : Option ℕ) → IsRunOf plan past
        → course_of (standing_of_run plan past) w ≡ off_course number file true
        → slice_get plan.modules number ≡ Some m → HasAll plan past m }
    ensures within { (plan : Plan) (start : Option Files) (past rest : List RunEntry)
        (w number : ℕ) (m : PlanModule) → IsSoundPlan plan → IsRunOf plan (past ++ rest)
        → module_by plan past w ≡ Some number → slice_get plan.modules number ≡ Some m
        → HasAll plan past m → IsWithin (stood plan start past number m)
        → IsWithin (stood plan start (past ++ rest) number m) }
    ensures installable { (plan : Plan) (start : Option Files) (past rest : List RunEntry)
        (w number : ℕ) (m : PlanModule) → IsSoundPlan plan → IsRunOf plan (past ++ rest)
        → AreOthers w rest → module_by plan past w ≡ Some number
        → slice_get plan.modules number ≡ Some m → HasAll plan past m
        → IsInstallable (stood plan start past number m)
        → IsInstallable (stood plan start (past ++ rest) number m) }
    ensures ends { (plan : Plan) (start : Option Files) (past rest : List RunEntry)
        (told : HandTold) (w number : ℕ) (m : PlanModule) (e : Ending) → IsSoundPlan plan
        → IsRunOf plan (past ++ rest) → AreOthers w rest → module_by plan past w ≡ Some number
        → slice_get plan.modules number ≡ Some m → HasAll plan past m
        → FitsEnd (stood plan start past number m) told e
        → FitsEnd (stood plan start (past ++ rest) number m) told e }
{}

/// A law: an entry that carries nothing changes neither the repository nor the answers, and a file that a module is installed as, with
/// whatever bytes, changes no entry of its own classpath. Does nothing. Project rule.
pub fn own_entries_change_little()
    ensures bare { (plan : Plan) (start : Files) (past : List RunEntry) (e : RunEntry)
        → e.carried ≡ carried.Nothing
        → (contents plan start (past ++ e ∷ []) ≡ contents plan start past)
        × (answers_in plan (past ++ e ∷ []) ≡ answers_in plan past) }
    ensures own_file { (plan : Plan) (files : Files) (outputs : List (List OwnBytes))
        (w number file : ℕ) (m : PlanModule) (what : Carried) → IsSoundPlan plan
        → slice_get plan.modules number ≡ Some m → is_own file m ≡ true
        → map (path_entry plan (put_carried plan files (event.Publish w file) what) outputs)
        m.entries ≡ map (path_entry plan files outputs) m.entries }
{}
