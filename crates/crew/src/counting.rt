// The law of how often each device failed, by how the modules ended.
ghost use Rattle.std.specs.Prelude.{◌≡◌, ◌<◌, ℕ, Bool, List, length, true};
ghost use Rattle.build_core.specs.declared.ending.Device.TheVariants as device;
ghost use Rattle.build_core.specs.declared.ending.Ending.{Ending};
ghost use Rattle.build_core.specs.declared.ending.Ending.TheVariants.{Missing};
ghost use Rattle.build_core.specs.declared.ending.State.TheVariants.{Ended};
ghost use Rattle.build_core.specs.declared.plan.Plan.{Plan};
ghost use Rattle.event_core.specs.Runs.{IsQuiet, IsRunOf};
ghost use Rattle.event_core.specs.SoundPlans.{IsSoundPlan};
ghost use Rattle.event_core.specs.declared.entry.RunEntry.{RunEntry};
ghost use Rattle.board.specs.Logs.{shelf_endings};
ghost use Rattle.run_law.specs.Given.{state_after, states_after};
ghost use Rattle.crew_turns.specs.Endings.{is_fault_of};
ghost use Rattle.crew.specs.AsOne.{are_calm};
ghost use Rattle.crew.specs.Counted.{count_by_all, count_of, ends_in};

/// A law: each end of a module is one worker's, and stays. As many modules stand as ended so, whatever is asked of an ending, as there are
/// such ends in the run, and as there are of all workers together. So where no module stands as ended by a fault or for want of memory the
/// run had no such end, and as many stand as ended by a fault of the repository as the run counts. A file that a module stands as missing
/// is one of the plan's. Does nothing. Project rule.
pub fn faults_are_counted()
    ensures ends { (plan : Plan) (run : List RunEntry) (test : Ending → Bool) → IsRunOf plan run
        → count_of test (states_after plan run) ≡ ends_in test run }
    ensures workers { (plan : Plan) (run : List RunEntry) (test : Ending → Bool) → IsRunOf plan run
        → count_by_all test run plan.workers ≡ ends_in test run }
    ensures calm { (plan : Plan) (run : List RunEntry) → IsRunOf plan run
        → are_calm (states_after plan run) ≡ true → IsQuiet run }
    ensures shelf { (plan : Plan) (run : List RunEntry) → IsRunOf plan run
        → count_of (is_fault_of device.Shelf) (states_after plan run) ≡ shelf_endings run }
    ensures missing { (plan : Plan) (run : List RunEntry) (number file : ℕ) → IsSoundPlan plan
        → IsRunOf plan run → state_after plan run number ≡ Ended (Missing file)
        → file < length plan.files }
{}
